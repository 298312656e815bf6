//! `stubs` over sources and sinks in memory: what it prints, and how it ends.

use crate::tests::{ends, never_failing};
use std::alloc::Global;
use std::test::Fail;

const TEST: &[u8] = b"INTERFACE Test;
EXCEPTION Overflow;
PROCEDURE Null();
PROCEDURE Add(a, b: CARDINAL): CARDINAL RAISES {Overflow};
PROCEDURE Bump(n: CARDINAL): CARDINAL RAISES {Overflow};
PROCEDURE MaxArg(VAR IN b: ARRAY OF BYTE UPTO 92156);
PROCEDURE MaxResult(n: CARDINAL; VAR OUT b: ARRAY OF BYTE UPTO 92156) RAISES {Overflow};
END Test.
";

const TEST_PLANS: &[u8] = b"interface Test
exception 1 Overflow
procedure 0 Null
arguments 0 0
reply 0 0
procedure 1 Add
raises 1
arguments 8 8
u32
u32
reply 4 4
u32
procedure 2 Bump
raises 1
arguments 4 4
u32
reply 4 4
u32
procedure 3 MaxArg
arguments 4 92160
openbytes 92156
reply 0 0
procedure 4 MaxResult
raises 1
arguments 4 4
u32
reply 4 92160
openbytes 92156
end
";

const FILES: &[u8] = b"INTERFACE Files;
(* a small file service *)
EXCEPTION NotFound;
EXCEPTION TooBig;
TYPE Mode = (Read, Write);
TYPE Stamp = RECORD second: CARDINAL; owner: ARRAY 8 OF CHAR END;
PROCEDURE Open(VAR IN name: ARRAY OF CHAR UPTO 255; mode: Mode;
  VAR OUT at: Stamp): INTEGER RAISES {NotFound};
PROCEDURE Get(file: INTEGER; VAR at: Stamp;
  VAR OUT part: ARRAY OF BYTE UPTO 1024): BOOLEAN RAISES {NotFound, TooBig};
END Files.
";

const FILES_PLANS: &[u8] = b"interface Files
exception 1 NotFound
exception 2 TooBig
procedure 0 Open
raises 1
arguments 6 261
openbytes 255
enum 2
reply 16 16
u32
bytes 8
i32
procedure 1 Get
raises 1 2
arguments 16 16
i32
u32
bytes 8
reply 17 1041
u32
bytes 8
openbytes 1024
bool
end
";

const TOO_LONG: &[u8] = b"INTERFACE Test;
EXCEPTION Overflow;
PROCEDURE Null();
PROCEDURE Add(a, b: CARDINAL): CARDINAL RAISES {Overflow};
PROCEDURE Bump(n: CARDINAL): CARDINAL RAISES {Overflow};
PROCEDURE MaxArg(VAR IN b: ARRAY OF BYTE UPTO 92157);
PROCEDURE MaxResult(n: CARDINAL; VAR OUT b: ARRAY OF BYTE UPTO 92156) RAISES {Overflow};
END Test.
";

/// Whether `stubs` prints this of a text, and ends with this number.
fn stubs(alloc: Global, text: &[u8], number: u8, written: &[u8]) -> bool {
    ends(alloc, &["stubs"], &never_failing(text), number, written)
}

#[test]
fn the_test_interface_has_its_plan_text(rt: HostRuntime) {
    assert!(rt; stubs(rt.alloc(), TEST, 0, TEST_PLANS));
}

#[test]
fn the_file_interface_has_its_plan_text(rt: HostRuntime) {
    assert!(rt; stubs(rt.alloc(), FILES, 0, FILES_PLANS));
}

#[test]
fn a_plan_that_is_too_long_is_refused(rt: HostRuntime) {
    assert!(rt; stubs(rt.alloc(), TOO_LONG, 3, b"fault BadText 6 12\n"));
}

#[test]
fn loops_and_records_have_their_lines(rt: HostRuntime) {
    let text =
        b"INTERFACE A; PROCEDURE P(VAR OUT a: ARRAY 3 OF RECORD a: BYTE; b: LONGCARD END; b: ARRAY OF BOOLEAN UPTO 2); END A.";
    let plans =
        b"interface A\nprocedure 0 P\narguments 4 6\nopen 2\nbool\nnext\nreply 27 27\nloop 3\nu8\nu64\nnext\nend\n";
    assert!(rt; stubs(rt.alloc(), text, 0, plans));
}

/// Texts with the line and the number of the first fault. A plan that is too long comes behind every other.
static FAULTS: [(&[u8], &[u8]); 14] = [
    (b"INTERFACE A;\n@", b"fault BadText 2 1\n"),
    (b"INTERFACE A;\n(* END A.", b"fault BadText 2 2\n"),
    (b"", b"fault BadText 1 3\n"),
    (b"INTERFACE A;\nTYPE T = ;", b"fault BadText 2 3\n"),
    (
        b"INTERFACE A;\nTYPE T = ARRAY\n0 OF BYTE;",
        b"fault BadText 3 4\n",
    ),
    (
        b"INTERFACE\nA12345678901234567890123456789012;",
        b"fault BadText 2 5\n",
    ),
    (
        b"INTERFACE A;\nEXCEPTION E;\nEXCEPTION E;",
        b"fault BadText 3 6\n",
    ),
    (b"INTERFACE A;\nTYPE T = T;", b"fault BadText 2 7\n"),
    (b"INTERFACE A;\nEND B.", b"fault BadText 2 8\n"),
    (
        b"INTERFACE A; TYPE T = ARRAY 1 OF ARRAY 1 OF ARRAY 1 OF ARRAY 1 OF BYTE; TYPE U = ARRAY 1 OF ARRAY 1 OF ARRAY 1 OF ARRAY 1 OF T; TYPE V = ARRAY 1 OF ARRAY 1 OF ARRAY 1 OF ARRAY 1 OF U;\nTYPE W = ARRAY 1 OF ARRAY 1 OF ARRAY 1 OF ARRAY 1 OF V;",
        b"fault BadText 2 9\n",
    ),
    (
        b"INTERFACE A; TYPE T = RECORD a, b, c, d, e, f, g, h, i, j, k, l, m, n, o, p: BYTE END; TYPE U = RECORD a, b, c, d, e, f, g, h, i, j, k, l, m, n, o, p: T END;\nTYPE V = RECORD a, b, c, d, e, f, g, h, i, j, k, l, m, n, o, p: U END;",
        b"fault BadText 2 10\n",
    ),
    (b"INTERFACE A; END A.\n;", b"fault BadText 2 11\n"),
    (
        b"INTERFACE A;\nPROCEDURE P\n(a: ARRAY OF CARDINAL UPTO 23040); END A.",
        b"fault BadText 2 12\n",
    ),
    (
        b"INTERFACE A;\nPROCEDURE P\n(a: ARRAY OF CARDINAL UPTO 23040); END A.\n.",
        b"fault BadText 4 11\n",
    ),
];

/// The number of the first text that isn't refused with its line, from 0.
fn first_other(alloc: Global, faults: &[(&[u8], &[u8])]) -> Option<usize> {
    for (i, (text, line)) in faults.iter().enumerate() {
        if !stubs(alloc, text, 3, line) {
            return Some(i);
        }
    }
    None
}

#[test]
fn each_fault_is_told_with_its_line(rt: HostRuntime) {
    assert!(rt; first_other(rt.alloc(), &FAULTS).is_none());
}

#[test]
fn a_read_or_a_write_that_fails_is_told(rt: HostRuntime) {
    let mut failing = never_failing(FILES);
    failing.failing_reads = &[1];
    assert!(rt; ends(rt.alloc(), &["stubs"], &failing, 4, b"fault ReadFault\n"));
    let mut failing = never_failing(FILES);
    failing.most = 7;
    failing.failing_writes = &[3];
    assert!(rt; ends(rt.alloc(), &["stubs"], &failing, 5, b"interface File"));
}

#[test]
fn too_many_lines_are_refused(rt: HostRuntime) -> Result<(), Fail> {
    let lines = vec![in rt.alloc(); b'\n'; 20_001]?;
    assert!(rt; stubs(rt.alloc(), &lines, 8, b"fault TooLong\n"));
    Ok(())
}
