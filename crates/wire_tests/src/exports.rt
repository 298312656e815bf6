//! Names, the data of a Bind, and a server's exports as they come and go.
use binder::{
    BIND_DATA_LIMIT, ExportFault, Exports, InterfaceName, Verdict, read_bind_data, read_name,
    write_bind_data,
};
use rpc_header::Export;
use std::alloc::Global;

/// An interface of the type `Test`.
fn interface(instance: &[u8]) -> Option<InterfaceName> {
    Some(InterfaceName {
        kind: read_name(b"Test")?,
        instance: read_name(instance)?,
    })
}

fn is_read(bytes: &[u8]) -> bool {
    read_name(bytes).is_some_and(|name| name.as_bytes() == bytes)
}

/// Names of one byte, of all sorts of bytes, and of the most bytes.
static NAMES: [&[u8]; 3] = [b"a", b"Z9z0A", b"abcdefghijklmnopqrstuvwxyzABCDE9"];

/// Bytes that are no name.
static NO_NAMES: [&[u8]; 10] = [
    b"",
    b"abcdefghijklmnopqrstuvwxyzABCDE99",
    b"1st",
    b"a-b",
    b"@a",
    b"[a",
    b"`a",
    b"{a",
    b"a/",
    b"a:",
];

#[test]
fn names_are_letters_and_digits_behind_a_letter(rt: HostRuntime) {
    for bytes in NAMES {
        assert!(rt; is_read(bytes));
    }
    for bytes in NO_NAMES {
        assert!(rt; read_name(bytes).is_none());
    }
}

/// Writes the data of a Bind, and gives its length.
fn written(instance: &[u8], into: &mut [u8; BIND_DATA_LIMIT]) -> Option<usize> {
    Some(write_bind_data(&interface(instance)?, into))
}

#[test]
fn the_data_of_a_bind_is_written(rt: HostRuntime) {
    let mut bytes = [0xff; BIND_DATA_LIMIT];
    assert!(rt; written(b"aux", &mut bytes) == Some(9));
    assert!(rt; bytes.starts_with(b"\x04Test\x03aux\xff"));
}

/// Bytes that are the data of no Bind.
static NO_DATA: [&[u8]; 7] = [
    b"",
    b"\x04Test",
    b"\x04Test\x04aux",
    b"\x04Test\x03auxx",
    b"\x03Test\x03aux",
    b"\x04Te-t\x03aux",
    b"\x04Test\x031ux",
];

#[test]
fn the_data_of_a_bind_is_read(rt: HostRuntime) {
    assert!(rt; read_bind_data(b"\x04Test\x03aux") == interface(b"aux"));
    for bytes in NO_DATA {
        assert!(rt; read_bind_data(bytes).is_none());
    }
}

/// A binding: its identifier, and its row.
type Binding = (u32, u16);

/// What is done with the exports of a server, and what that answers.
enum Line {
    /// The interface of this instance, of three procedures, is exported in a second.
    Export(&'static [u8], u32, Result<Binding, ExportFault>),
    /// It is withdrawn.
    Withdraw(&'static [u8], Option<Binding>),
    /// It is looked up.
    Find(&'static [u8], Option<Binding>),
    /// A call of a procedure by a binding is judged.
    Judge(Binding, u16, Verdict),
}

fn numbers(export: Option<Export>) -> Option<Binding> {
    match export {
        Some(Export { identifier, index }) => Some((identifier, index)),
        None => None,
    }
}

fn exported(
    exports: &mut Exports,
    alloc: Global,
    name: InterfaceName,
    second: u32,
) -> Result<Binding, ExportFault> {
    match exports.export(alloc, name, 3, second) {
        Ok(Export { identifier, index }) => Ok((identifier, index)),
        Err(fault) => Err(fault),
    }
}

/// Whether a line comes about.
fn comes_about(exports: &mut Exports, alloc: Global, line: &Line) -> Option<bool> {
    Some(match *line {
        Line::Export(name, second, answer) => {
            exported(exports, alloc, interface(name)?, second) == answer
        }
        Line::Withdraw(name, binding) => numbers(exports.withdraw(&interface(name)?)) == binding,
        Line::Find(name, binding) => numbers(exports.look_up(&interface(name)?)) == binding,
        Line::Judge((identifier, index), procedure, verdict) => {
            exports.accepts(Export { identifier, index }, procedure) == verdict
        }
    })
}

/// The number of the first line that doesn't come about at a server that has booted in this second, from 0.
fn first_other(alloc: Global, second: u32, lines: &[Line]) -> Option<usize> {
    let mut exports = Exports::boot(second);
    for (i, line) in lines.iter().enumerate() {
        if comes_about(&mut exports, alloc, line) != Some(true) {
            return Some(i);
        }
    }
    None
}

static ONCE: [Line; 7] = [
    Line::Find(b"aux", None),
    Line::Export(b"main", 1, Ok((1, 0))),
    Line::Export(b"aux", 1, Err(ExportFault::TooFast { next: 2, now: 1 })),
    Line::Find(b"aux", None),
    Line::Export(b"aux", 2, Ok((2, 1))),
    Line::Export(b"aux", 2, Err(ExportFault::Exists)),
    Line::Find(b"aux", Some((2, 1))),
];

#[test]
fn a_name_is_exported_once(rt: HostRuntime) {
    assert!(rt; first_other(rt.alloc(), 1, &ONCE).is_none());
}

static JUDGED: [Line; 6] = [
    Line::Judge((1, 0), 0, Verdict::WrongBinding),
    Line::Export(b"main", 1, Ok((1, 0))),
    Line::Judge((1, 0), 2, Verdict::Accepted),
    Line::Judge((1, 0), 3, Verdict::NoProcedure),
    Line::Judge((2, 0), 0, Verdict::WrongBinding),
    Line::Judge((1, 16), 0, Verdict::WrongBinding),
];

#[test]
fn a_call_is_judged_by_its_row(rt: HostRuntime) {
    assert!(rt; first_other(rt.alloc(), 1, &JUDGED).is_none());
}

static WITHDRAWN: [Line; 8] = [
    Line::Export(b"main", 9, Ok((1, 0))),
    Line::Export(b"aux", 9, Ok((2, 1))),
    Line::Withdraw(b"main", Some((1, 0))),
    Line::Withdraw(b"main", None),
    Line::Judge((1, 0), 0, Verdict::WrongBinding),
    Line::Find(b"aux", Some((2, 1))),
    Line::Export(b"main", 9, Ok((3, 0))),
    Line::Judge((1, 0), 0, Verdict::WrongBinding),
];

#[test]
fn a_withdrawn_row_is_used_again(rt: HostRuntime) {
    assert!(rt; first_other(rt.alloc(), 1, &WITHDRAWN).is_none());
}

static SIXTEEN: [Line; 20] = [
    Line::Export(b"a", 100, Ok((7, 0))),
    Line::Export(b"b", 100, Ok((8, 1))),
    Line::Export(b"c", 100, Ok((9, 2))),
    Line::Export(b"d", 100, Ok((10, 3))),
    Line::Export(b"e", 100, Ok((11, 4))),
    Line::Export(b"f", 100, Ok((12, 5))),
    Line::Export(b"g", 100, Ok((13, 6))),
    Line::Export(b"h", 100, Ok((14, 7))),
    Line::Export(b"i", 100, Ok((15, 8))),
    Line::Export(b"j", 100, Ok((16, 9))),
    Line::Export(b"k", 100, Ok((17, 10))),
    Line::Export(b"l", 100, Ok((18, 11))),
    Line::Export(b"m", 100, Ok((19, 12))),
    Line::Export(b"n", 100, Ok((20, 13))),
    Line::Export(b"o", 100, Ok((21, 14))),
    Line::Export(b"p", 100, Ok((22, 15))),
    Line::Export(b"q", 0, Err(ExportFault::Full)),
    Line::Export(b"p", 0, Err(ExportFault::Exists)),
    Line::Withdraw(b"f", Some((12, 5))),
    Line::Export(b"q", 23, Ok((23, 5))),
];

#[test]
fn sixteen_rows_are_all(rt: HostRuntime) {
    assert!(rt; first_other(rt.alloc(), 7, &SIXTEEN).is_none());
}

static LAST_SECOND: [Line; 2] = [
    Line::Export(b"main", u32::MAX, Ok((u32::MAX, 0))),
    Line::Export(
        b"aux",
        u32::MAX,
        Err(ExportFault::TooFast {
            next: 1 << 32,
            now: u32::MAX,
        }),
    ),
];

#[test]
fn identifiers_rise_past_the_last_second(rt: HostRuntime) {
    assert!(rt; first_other(rt.alloc(), u32::MAX, &LAST_SECOND).is_none());
}
