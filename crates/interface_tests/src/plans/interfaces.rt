//! The plans of interfaces, and of one that is too long.
use super::plans_of;
use marshal_plans::{Basic, Extent, Instruction, PlanFault, Plans};
use std::alloc::Global;

const TEST: &[u8] = b"INTERFACE Test;
EXCEPTION Overflow;
PROCEDURE Null();
PROCEDURE Add(a, b: CARDINAL): CARDINAL RAISES {Overflow};
PROCEDURE Bump(n: CARDINAL): CARDINAL RAISES {Overflow};
PROCEDURE MaxArg(VAR IN b: ARRAY OF BYTE UPTO 92156);
PROCEDURE MaxResult(n: CARDINAL; VAR OUT b: ARRAY OF BYTE UPTO 92156) RAISES {Overflow};
END Test.
";

const TOO_LONG: &[u8] = b"INTERFACE Test;
EXCEPTION Overflow;
PROCEDURE Null();
PROCEDURE Add(a, b: CARDINAL): CARDINAL RAISES {Overflow};
PROCEDURE Bump(n: CARDINAL): CARDINAL RAISES {Overflow};
PROCEDURE MaxArg(VAR IN b: ARRAY OF BYTE UPTO 92157);
PROCEDURE MaxResult(n: CARDINAL; VAR OUT b: ARRAY OF BYTE UPTO 92156) RAISES {Overflow};
END Test.
";

const FILES: &[u8] = b"INTERFACE Files;
TYPE Mode = (Read, Write);
TYPE Stamp = RECORD second: CARDINAL; owner: ARRAY 8 OF CHAR END;
PROCEDURE Open(VAR IN name: ARRAY OF CHAR UPTO 255; mode: Mode; VAR OUT at: Stamp): INTEGER;
END Files.
";

/// An array of three records.
const RECORDS: &[u8] = b"INTERFACE I;
TYPE T = RECORD a: BYTE; b: LONGCARD END;
PROCEDURE P(a: ARRAY 3 OF T);
END I.";

const BOOLEANS: &[u8] = b"INTERFACE I; PROCEDURE P(VAR IN a: ARRAY OF BOOLEAN UPTO 4); END I.";

const CARDINAL: Instruction = Instruction::Item(Basic::Cardinal);

const MOST: Instruction = Instruction::Bytes(Extent::UpTo(92156));

/// Instructions of the arguments of a procedure, and of its reply.
type Pair = (&'static [Instruction], &'static [Instruction]);

static TEST_PLANS: [Pair; 5] = [
    (&[], &[]),
    (&[CARDINAL, CARDINAL], &[CARDINAL]),
    (&[CARDINAL], &[CARDINAL]),
    (&[MOST], &[]),
    (&[CARDINAL], &[MOST]),
];

static FILES_PLANS: [Pair; 1] = [(
    &[
        Instruction::Bytes(Extent::UpTo(255)),
        Instruction::Item(Basic::Choice(2)),
    ],
    &[
        Instruction::Record(2),
        CARDINAL,
        Instruction::Bytes(Extent::Exactly(8)),
        Instruction::End,
        Instruction::Item(Basic::Integer),
    ],
)];

static RECORDS_PLANS: [Pair; 1] = [(
    &[
        Instruction::Loop(Extent::Exactly(3), 4),
        Instruction::Record(2),
        Instruction::Item(Basic::Byte),
        Instruction::Item(Basic::LongCard),
        Instruction::End,
        Instruction::Next,
    ],
    &[],
)];

static BOOLEANS_PLANS: [Pair; 1] = [(
    &[
        Instruction::Loop(Extent::UpTo(4), 1),
        Instruction::Item(Basic::Bool),
        Instruction::Next,
    ],
    &[],
)];

/// Whether a text's procedures have these plans, one after the other.
fn has_plans(alloc: Global, text: &[u8], pairs: &[Pair]) -> Option<bool> {
    let Plans { procedures } = plans_of(alloc, text)?.ok()?;
    for (pair, (arguments, reply)) in procedures.as_slice().iter().zip(pairs.iter()) {
        if pair.arguments.as_slice() != *arguments || pair.reply.as_slice() != *reply {
            return Some(false);
        }
    }
    Some(procedures.len() == pairs.len())
}

#[test]
fn the_test_service_has_the_plans_that_are_told(rt: HostRuntime) {
    assert!(rt; has_plans(rt.alloc(), TEST, &TEST_PLANS) == Some(true));
}

#[test]
fn a_file_service_has_the_plans_that_are_told(rt: HostRuntime) {
    assert!(rt; has_plans(rt.alloc(), FILES, &FILES_PLANS) == Some(true));
}

#[test]
fn arrays_of_records_and_of_booleans_are_loops(rt: HostRuntime) {
    assert!(rt; has_plans(rt.alloc(), RECORDS, &RECORDS_PLANS) == Some(true));
    assert!(rt; has_plans(rt.alloc(), BOOLEANS, &BOOLEANS_PLANS) == Some(true));
}

fn fault_of(alloc: Global, text: &[u8]) -> Option<PlanFault> {
    plans_of(alloc, text)?.err()
}

#[test]
fn arguments_that_may_be_too_long_are_refused(rt: HostRuntime) {
    let fault = PlanFault::TooLong {
        procedure: 3,
        bytes: 92161,
    };
    assert!(rt; fault_of(rt.alloc(), TOO_LONG) == Some(fault));
}
