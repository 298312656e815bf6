//! Texts, what they declare, and the first fault of each that declares nothing.
use interface_text::{Procedure, Shape, parse};
use std::alloc::{AllocError, Global};

/// Texts, each with the line, the column and the number of its first fault, or zeros where it has none.
static FAULTS: [(&[u8], u32, u32, u8); 34] = [
    (b"INTERFACE A; END A.", 0, 0, 0),
    (b"INTERFACE A; END A. (* more *)\n", 0, 0, 0),
    (b"INTERFACE A;\n@", 2, 1, 1),
    (b"INTERFACE A; END A.\n_", 2, 1, 1),
    (b"INTERFACE A;\n (* END A.", 2, 2, 2),
    (b"INTERFACE A; END A. (*)", 1, 21, 2),
    (b"", 1, 1, 3),
    (b"INTERFACE A; END A", 1, 19, 3),
    (b"INTERFACE A;\nTYPE T = ;\nEND A.", 2, 10, 3),
    (b"INTERFACE A; TYPE END", 1, 19, 3),
    (b"INTERFACE A; TYPE T = ARRAY 0 OF BYTE; END A.", 1, 29, 4),
    (
        b"INTERFACE A; TYPE T = ARRAY 92161 OF BYTE; END A.",
        1,
        29,
        4,
    ),
    (
        b"INTERFACE A; TYPE T = ARRAY 92160 OF BYTE; END A.",
        0,
        0,
        0,
    ),
    (
        b"INTERFACE A; TYPE T = ARRAY 0000000092160OF BYTE; END A.",
        0,
        0,
        0,
    ),
    (
        b"INTERFACE A; TYPE T = ARRAY OF BYTE UPTO 0; END A.",
        1,
        42,
        4,
    ),
    (b"INTERFACE A1234567890123456789012345678901; END", 1, 48, 3),
    (
        b"INTERFACE A12345678901234567890123456789012; END",
        1,
        11,
        5,
    ),
    (
        b"INTERFACE A; END A. A12345678901234567890123456789012",
        1,
        21,
        5,
    ),
    (b"INTERFACE A; A12345678901234567890123456789012", 1, 14, 3),
    (b"INTERFACE A; EXCEPTION A; EXCEPTION A; END A.", 1, 37, 6),
    (b"INTERFACE A; TYPE T = (a, b, a); END A.", 1, 30, 6),
    (
        b"INTERFACE A; TYPE T = RECORD a: RECORD a: BYTE END; a: BYTE END; END A.",
        1,
        53,
        6,
    ),
    (
        b"INTERFACE A; PROCEDURE P(a: BYTE; a: BYTE); END A.",
        1,
        35,
        6,
    ),
    (b"INTERFACE A; TYPE T = T; END A.", 1, 23, 7),
    (b"INTERFACE A; PROCEDURE P() RAISES {P}; END A.", 1, 36, 7),
    (
        b"INTERFACE A; EXCEPTION E; PROCEDURE P(a: E); END A.",
        1,
        42,
        7,
    ),
    (
        b"INTERFACE A; EXCEPTION E; PROCEDURE P() RAISES {E, E}; END A.",
        0,
        0,
        0,
    ),
    (b"INTERFACE A; END B.", 1, 18, 8),
    (b"INTERFACE A; END A. ;", 1, 21, 11),
    (b"INTERFACE A; END A. 1", 1, 21, 11),
    (b"INTERFACE A;\r\n\tEXCEPTION E;\tTYPE E", 2, 20, 6),
    (
        b"INTERFACE A; EXCEPTION (* one (* only *) E; (**) END A.",
        0,
        0,
        0,
    ),
    (b"INTERFACE A; (* not ended *", 1, 14, 2),
    (
        b"INTERFACE A; PROCEDURE P(VAR IN a, b: BYTE; VAR OUT c: BYTE; VAR d: BYTE): BYTE; END A.",
        0,
        0,
        0,
    ),
];

#[test]
fn each_text_has_its_first_fault(rt: HostRuntime) {
    for (text, line, column, number) in FAULTS.iter() {
        assert!(rt; fault_of(rt.alloc(), text) == (*line, *column, *number));
    }
}

/// The first fault of a text, or zeros where it has none.
fn fault_of(alloc: Global, text: &[u8]) -> (u32, u32, u8) {
    if text.len() >= 1_048_577 {
        return (0, 0, 255);
    }
    match parse(alloc, text) {
        Ok(_) => (0, 0, 0),
        Err(fault) => (fault.line, fault.column, fault.number),
    }
}

/// A text in whose middle a piece stands so many times, and its first fault. Each `#` of the piece is its number
/// from 0, in five digits.
struct Long {
    front: &'static [u8],
    piece: &'static [u8],
    count: u32,
    back: &'static [u8],
    fault: (u32, u32, u8),
}

fn digit(number: u32) -> u8 {
    match b"0123456789".get((number % 10) as usize) {
        Some(digit) => *digit,
        None => b'?',
    }
}

fn digits(number: u32) -> [u8; 5] {
    [
        digit(number / 10_000),
        digit(number / 1000),
        digit(number / 100),
        digit(number / 10),
        digit(number),
    ]
}

fn push_piece(text: &mut Vec<u8>, piece: &[u8], number: u32) -> Result<(), AllocError> {
    for byte in piece {
        if *byte == b'#' {
            text.extend_from_slice(&digits(number))?;
        } else {
            text.push(*byte)?;
        }
    }
    Ok(())
}

fn text_of(alloc: Global, long: &Long) -> Result<Vec<u8>, AllocError> {
    let mut text = Vec::from_slice(alloc, long.front)?;
    for number in 0..long.count {
        push_piece(&mut text, long.piece, number)?;
    }
    text.extend_from_slice(long.back)?;
    Ok(text)
}

/// Whether each of the texts has its first fault.
fn have_their_faults(alloc: Global, texts: &[Long]) -> bool {
    for long in texts {
        let Ok(text) = text_of(alloc, long) else {
            return false;
        };
        if fault_of(alloc, text.as_slice()) != long.fault {
            return false;
        }
    }
    true
}

static DECLARED: [Long; 4] = [
    Long {
        front: b"INTERFACE A;\n",
        piece: b"EXCEPTION N#;\n",
        count: 256,
        back: b"END A.",
        fault: (0, 0, 0),
    },
    Long {
        front: b"INTERFACE A;\n",
        piece: b"EXCEPTION N#;\n",
        count: 257,
        back: b"END A.",
        fault: (258, 1, 10),
    },
    Long {
        front: b"INTERFACE A;\n",
        piece: b"PROCEDURE N#();\n",
        count: 256,
        back: b"END A.",
        fault: (0, 0, 0),
    },
    Long {
        front: b"INTERFACE A;\n",
        piece: b"PROCEDURE N#();\n",
        count: 257,
        back: b"END A.",
        fault: (258, 1, 10),
    },
];

#[test]
fn there_may_be_256_exceptions_and_256_procedures(rt: HostRuntime) {
    assert!(rt; have_their_faults(rt.alloc(), &DECLARED));
}

const RECORD: &[u8] = b"INTERFACE A;\nTYPE T = RECORD ";

static FIELDS: [Long; 3] = [
    Long {
        front: RECORD,
        piece: b"N#, ",
        count: 4094,
        back: b"z: BYTE END; END A.",
        fault: (0, 0, 0),
    },
    Long {
        front: RECORD,
        piece: b"N#, ",
        count: 4095,
        back: b"z: BYTE END; END A.",
        fault: (2, 10, 10),
    },
    // a later fault that breaks the type off comes behind it
    Long {
        front: RECORD,
        piece: b"N#, ",
        count: 4095,
        back: b"z: BYTE; @",
        fault: (2, 10, 10),
    },
];

#[test]
fn a_type_has_at_most_4096_parts(rt: HostRuntime) {
    assert!(rt; have_their_faults(rt.alloc(), &FIELDS));
}

const PARAMETERS: &[u8] = b"INTERFACE A; PROCEDURE P(";

static PROCEDURES: [Long; 4] = [
    Long {
        front: PARAMETERS,
        piece: b"N#, ",
        count: 4094,
        back: b"z: BYTE\n): BYTE; END A.",
        fault: (0, 0, 0),
    },
    Long {
        front: PARAMETERS,
        piece: b"N#, ",
        count: 4095,
        back: b"z: BYTE\n): BYTE; END A.",
        fault: (2, 4, 10),
    },
    Long {
        front: PARAMETERS,
        piece: b"N#, ",
        count: 4096,
        back: b"z:\nBYTE): BYTE; END A.",
        fault: (2, 1, 10),
    },
    // no type of that name comes before too many parts at one place
    Long {
        front: PARAMETERS,
        piece: b"N#, ",
        count: 4096,
        back: b"z:\nX): BYTE; END A.",
        fault: (2, 1, 7),
    },
];

#[test]
fn a_procedure_has_at_most_4096_parts(rt: HostRuntime) {
    assert!(rt; have_their_faults(rt.alloc(), &PROCEDURES));
}

static ENUMERATIONS: [Long; 2] = [
    Long {
        front: b"INTERFACE A; TYPE T = (",
        piece: b"N#, ",
        count: 65_536,
        back: b"\nz); END A.",
        fault: (2, 1, 10),
    },
    // a second name that is the same comes before one value too many
    Long {
        front: b"INTERFACE A; TYPE T = (",
        piece: b"N#, ",
        count: 65_536,
        back: b"\nN00000); END A.",
        fault: (2, 1, 6),
    },
];

#[test]
fn an_enumeration_has_at_most_65536_values(rt: HostRuntime) {
    assert!(rt; have_their_faults(rt.alloc(), &ENUMERATIONS));
}

const TYPE: &[u8] = b"INTERFACE A;\nTYPE T = ";

static ARRAYS: [Long; 5] = [
    Long {
        front: TYPE,
        piece: b"ARRAY 1 OF ",
        count: 15,
        back: b"BYTE; TYPE U = T; END A.",
        fault: (0, 0, 0),
    },
    Long {
        front: TYPE,
        piece: b"ARRAY 1 OF ",
        count: 16,
        back: b"BYTE; END A.",
        fault: (2, 10, 9),
    },
    // no type begins at the seventeenth level
    Long {
        front: TYPE,
        piece: b"ARRAY 1 OF ",
        count: 16,
        back: b"\n; END A.",
        fault: (3, 1, 3),
    },
    // an unknown name counts
    Long {
        front: TYPE,
        piece: b"ARRAY 1 OF ",
        count: 16,
        back: b"X; END A.",
        fault: (2, 10, 9),
    },
    // a named type counts with its depth
    Long {
        front: TYPE,
        piece: b"ARRAY 1 OF ",
        count: 15,
        back: b"BYTE; TYPE U =\nARRAY 1 OF T; END A.",
        fault: (3, 1, 9),
    },
];

#[test]
fn types_are_nested_16_deep(rt: HostRuntime) {
    assert!(rt; have_their_faults(rt.alloc(), &ARRAYS));
}

fn letter_of(shape: &Shape) -> u8 {
    match shape {
        Shape::Bool => b'B',
        Shape::Byte => b'b',
        Shape::Cardinal => b'C',
        Shape::Integer => b'I',
        Shape::LongCard => b'L',
        Shape::Choice(_) => b'E',
        Shape::Array(..) => b'A',
        Shape::Open(..) => b'O',
        Shape::Fields(_) => b'R',
    }
}

/// Writes the letter of a type, and behind it those of the types in it. A record ends with a full stop.
fn show(shape: &Shape, letters: &mut Vec<u8>) -> Result<(), AllocError> {
    letters.push(letter_of(shape))?;
    match shape {
        Shape::Array(_, part) | Shape::Open(_, part) => show(part, letters)?,
        Shape::Fields(parts) => {
            for part in parts {
                show(part, letters)?;
            }
            letters.push(b'.')?;
        }
        _ => {}
    }
    Ok(())
}

fn show_all(shapes: &[Shape], letters: &mut Vec<u8>) -> Result<(), AllocError> {
    for shape in shapes {
        show(shape, letters)?;
    }
    Ok(())
}

/// Writes the name of a procedure, its types, the last digit of its line, and how many exceptions it raises.
fn show_procedure(procedure: &Procedure, letters: &mut Vec<u8>) -> Result<(), AllocError> {
    letters.extend_from_slice(procedure.name.as_bytes())?;
    show_all(procedure.arguments.as_slice(), letters)?;
    letters.push(b'-')?;
    show_all(procedure.reply.as_slice(), letters)?;
    let raised = (procedure.raises.len() % 10) as u32;
    letters.extend_from_slice(&[digit(procedure.line), digit(raised)])
}

fn shown(alloc: Global, procedures: &[Procedure]) -> Result<Vec<u8>, AllocError> {
    let mut letters = Vec::new(alloc);
    for procedure in procedures {
        show_procedure(procedure, &mut letters)?;
    }
    Ok(letters)
}

const FILES: &[u8] = b"INTERFACE Files;
(* a small file service *)
EXCEPTION NotFound;
EXCEPTION TooBig;
TYPE Mode = (Read, Write);
TYPE Stamp = RECORD second: CARDINAL; owner: ARRAY 8 OF CHAR END;
PROCEDURE Open(VAR IN name: ARRAY OF CHAR UPTO 255; mode: Mode;
  VAR OUT at: Stamp): INTEGER RAISES {NotFound};
PROCEDURE Get(file: INTEGER; VAR at: Stamp;
  VAR OUT part: ARRAY OF BYTE UPTO 1024): BOOLEAN RAISES {NotFound, TooBig};
END Files.
";

/// Whether a text declares an interface of this name, with so many exceptions, and the procedures that are shown so.
fn declares(
    alloc: Global,
    text: &[u8],
    name: &[u8],
    exceptions: usize,
    letters: &[u8],
) -> Option<bool> {
    if text.len() >= 1000 {
        return None;
    }
    let interface = parse(alloc, text).ok()?;
    let procedures = shown(alloc, interface.procedures.as_slice()).ok()?;
    Some(
        interface.name.as_bytes() == name
            && interface.exceptions.len() == exceptions
            && procedures.as_slice() == letters,
    )
}

#[test]
fn a_text_gives_what_it_declares(rt: HostRuntime) {
    let letters = b"OpenObE-RCAb.I71GetIRCAb.-RCAb.ObB92";
    assert!(rt; declares(rt.alloc(), FILES, b"Files", 2, letters) == Some(true));
}
