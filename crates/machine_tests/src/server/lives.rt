//! The server's exports, its restarts, and calls with long arguments and results.

use super::trial::{
    ACK, ACKED, Added, CALL, CallerPacket, Data, EARLIER, FIRST, LATER, Line, PROBE, RESULT,
    SECOND, ServerPacket, booted, first_other, first_other_at_boot,
};
use Added::{Nothing, Packet, Rejection, Run};
use Line::{Export, Idle, NoExport, NoRestart, One, Restart, Take, Withdraw};
use binder::ExportFault;
use call_rules::Did;
use call_rules::Unfit::Same;
use replay_server::ServerMachine;
use rpc_header::Kind;
use std::alloc::Global;
use std::test::Fail;

/// A server that has booted exports `main`.
static EXPORTED: [Line; 3] = [
    NoExport(b"main", 1, ExportFault::Exists),
    NoExport(b"aux", 1, ExportFault::TooFast { next: 2, now: 1 }),
    Export(b"aux", 2, 2, 1),
];

#[test]
fn a_name_is_exported_once_and_not_too_fast(rt: HostRuntime) -> Result<(), Fail> {
    assert!(rt; first_other_at_boot(rt.alloc(), &EXPORTED)?.is_none());
    Ok(())
}

/// All rows are taken, and one becomes free.
static SIXTEEN: [Line; 18] = [
    Export(b"b", 16, 2, 1),
    Export(b"c", 16, 3, 2),
    Export(b"d", 16, 4, 3),
    Export(b"e", 16, 5, 4),
    Export(b"f", 16, 6, 5),
    Export(b"g", 16, 7, 6),
    Export(b"h", 16, 8, 7),
    Export(b"i", 16, 9, 8),
    Export(b"j", 16, 10, 9),
    Export(b"k", 16, 11, 10),
    Export(b"l", 16, 12, 11),
    Export(b"m", 16, 13, 12),
    Export(b"n", 16, 14, 13),
    Export(b"o", 16, 15, 14),
    Export(b"p", 16, 16, 15),
    NoExport(b"z", 16, ExportFault::Full),
    Withdraw(b"main", Some(0)),
    Export(b"z", 17, 17, 0),
];

#[test]
fn at_most_16_names_are_exported(rt: HostRuntime) -> Result<(), Fail> {
    assert!(rt; first_other_at_boot(rt.alloc(), &SIXTEEN)?.is_none());
    Ok(())
}

static WITHDRAWN_ONCE: [Line; 3] = [
    Withdraw(b"aux", None),
    Withdraw(b"main", Some(0)),
    Withdraw(b"main", None),
];

#[test]
fn a_name_that_is_not_exported_is_not_withdrawn(rt: HostRuntime) -> Result<(), Fail> {
    assert!(rt; first_other_at_boot(rt.alloc(), &WITHDRAWN_ONCE)?.is_none());
    Ok(())
}

/// The binding is wrong.
const REJECT: ServerPacket = ServerPacket {
    kind: Kind::Reject,
    reason: 1,
    ..ACKED
};

/// The test service, as it is exported next, or at a boot in second 2.
const SECOND_EXPORT: rpc_header::Export = rpc_header::Export {
    identifier: 2,
    index: 0,
};

static WITHDRAWN: [Line; 15] = [
    Take(CALL),
    One(Did::Claims, Nothing),
    One(Did::Admits, Nothing),
    One(Did::Runs, Run(0, false, 0)),
    One(Did::Replies, Packet(RESULT)),
    Withdraw(b"main", Some(0)),
    Take(PROBE),
    One(Did::Rejects(1), Rejection(REJECT)),
    Take(LATER),
    One(Did::Rejects(1), Rejection(REJECT)),
    // The name is exported anew, in the same row.
    Export(b"main", 2, 2, 0),
    Take(LATER),
    One(Did::Rejects(1), Rejection(REJECT)),
    Take(CallerPacket {
        export: SECOND_EXPORT,
        ..LATER
    }),
    One(Did::Claims, Nothing),
];

#[test]
fn a_withdrawn_export_refuses_its_calls(rt: HostRuntime) -> Result<(), Fail> {
    assert!(rt; first_other_at_boot(rt.alloc(), &WITHDRAWN)?.is_none());
    Ok(())
}

/// An export reads the second, also one that is refused.
static READ: [Line; 5] = [
    NoRestart(1),
    NoExport(b"main", 7, ExportFault::Exists),
    NoRestart(7),
    Restart(8),
    NoExport(b"aux", 8, ExportFault::TooFast { next: 9, now: 8 }),
];

#[test]
fn a_restart_comes_at_a_later_second_than_any_read(rt: HostRuntime) -> Result<(), Fail> {
    assert!(rt; first_other_at_boot(rt.alloc(), &READ)?.is_none());
    Ok(())
}

/// A packet is ready, and the server restarts. Then nothing is ready, worker 1 has no packet, and an earlier call
/// than that of before is admitted.
static RESTARTED: [Line; 9] = [
    Take(CALL),
    Restart(2),
    Idle(1),
    Take(CALL),
    One(Did::Rejects(1), Rejection(REJECT)),
    Take(CallerPacket {
        export: SECOND_EXPORT,
        ..EARLIER
    }),
    One(Did::Claims, Nothing),
    One(Did::Admits, Nothing),
    One(Did::Runs, Run(0, false, 0)),
];

/// Whether the server is as booted when it restarts.
fn restarts_as_booted(alloc: Global, server: &mut ServerMachine) -> Result<bool, Fail> {
    Ok(first_other(alloc, server, &RESTARTED)?.is_none())
}

/// Whether it is so after these lines.
fn forgets(alloc: Global, lines: &[Line]) -> Result<bool, Fail> {
    let mut server = booted(alloc)?;
    let other = first_other(alloc, &mut server, lines)?;
    Ok(other.is_none() && restarts_as_booted(alloc, &mut server)?)
}

/// After how many lines a restart leaves something of them.
fn first_kept(alloc: Global, lines: &[Line]) -> Result<Option<usize>, Fail> {
    for count in 0..=lines.len() {
        if !forgets(alloc, &lines[..count])? {
            return Ok(Some(count));
        }
    }
    Ok(None)
}

static WHOLE: [Line; 8] = [
    Take(CALL),
    One(Did::Claims, Nothing),
    One(Did::Admits, Nothing),
    One(Did::Runs, Run(0, false, 0)),
    One(Did::Replies, Packet(RESULT)),
    Take(PROBE),
    One(Did::Claims, Nothing),
    One(Did::Fetches, Nothing),
];

static IN_PIECES: [Line; 6] = [
    Take(FIRST),
    One(Did::Claims, Nothing),
    One(Did::Begins, Packet(ACKED)),
    Take(SECOND),
    One(Did::Claims, Nothing),
    One(Did::Takes, Nothing),
];

#[test]
fn a_restart_forgets_each_state_of_workers_and_entries(rt: HostRuntime) -> Result<(), Fail> {
    assert!(rt; first_kept(rt.alloc(), &WHOLE)?.is_none());
    assert!(rt; first_kept(rt.alloc(), &IN_PIECES)?.is_none());
    Ok(())
}

/// The first piece of a text of 1440 bytes behind its count.
const TEXT: CallerPacket = CallerPacket {
    procedure: 3,
    data: Data::TextFront(1440),
    ..FIRST
};

/// Its last piece: bytes 1436 to 1439, each its place modulo 251.
const TEXT_END: CallerPacket = CallerPacket {
    fragment: 1,
    procedure: 3,
    data: Data::Bytes(&[181, 182, 183, 184]),
    ..CALL
};

/// The first piece comes twice.
static IN_TWO: [Line; 13] = [
    Take(TEXT),
    One(Did::Claims, Nothing),
    One(Did::Begins, Packet(ACKED)),
    Take(TEXT),
    One(Did::Claims, Nothing),
    One(Did::Takes, Nothing),
    One(Did::Rests, Packet(ACKED)),
    Take(TEXT_END),
    One(Did::Claims, Nothing),
    One(Did::Takes, Nothing),
    One(Did::Admits, Nothing),
    One(Did::Runs, Run(1444, false, 0)),
    One(Did::Replies, Packet(RESULT)),
];

#[test]
fn a_long_argument_comes_in_two_pieces(rt: HostRuntime) -> Result<(), Fail> {
    assert!(rt; first_other_at_boot(rt.alloc(), &IN_TWO)?.is_none());
    Ok(())
}

/// Asks for a text of 2880 bytes.
const LONG_CALL: CallerPacket = CallerPacket {
    procedure: 4,
    data: Data::Bytes(&[0, 0, 11, 64]),
    ..CALL
};

const FETCH_SECOND: CallerPacket = CallerPacket {
    procedure: 4,
    ..ACK
};

const FETCH_THIRD: CallerPacket = CallerPacket {
    fragment: 1,
    ..FETCH_SECOND
};

const FETCH_BEHIND: CallerPacket = CallerPacket {
    fragment: 2,
    ..FETCH_SECOND
};

/// Acknowledges the last piece that any reply can have.
const FETCH_BEHIND_ALL: CallerPacket = CallerPacket {
    fragment: 63,
    ..FETCH_SECOND
};

const FIRST_PIECE: ServerPacket = ServerPacket {
    please_ack: true,
    last: false,
    len: 1440,
    ..RESULT
};

const SECOND_PIECE: ServerPacket = ServerPacket {
    fragment: 1,
    ..FIRST_PIECE
};

const THIRD_PIECE: ServerPacket = ServerPacket {
    fragment: 2,
    len: 4,
    ..RESULT
};

static FETCHED: [Line; 17] = [
    Take(LONG_CALL),
    One(Did::Claims, Nothing),
    One(Did::Admits, Nothing),
    One(Did::Runs, Run(4, false, 2884)),
    One(Did::Replies, Packet(FIRST_PIECE)),
    Take(FETCH_SECOND),
    One(Did::Claims, Nothing),
    One(Did::Fetches, Nothing),
    One(Did::Resends, Packet(SECOND_PIECE)),
    Take(FETCH_THIRD),
    One(Did::Claims, Nothing),
    One(Did::Fetches, Nothing),
    One(Did::Resends, Packet(THIRD_PIECE)),
    Take(FETCH_BEHIND),
    One(Did::Claims, Nothing),
    One(Did::Fetches, Nothing),
    One(Did::Drops(Same), Nothing),
];

#[test]
fn a_long_result_is_fetched_piece_by_piece(rt: HostRuntime) -> Result<(), Fail> {
    assert!(rt; first_other_at_boot(rt.alloc(), &FETCHED)?.is_none());
    Ok(())
}

/// The second and last piece of a reply of 1441 bytes.
const LAST_BYTE: ServerPacket = ServerPacket {
    fragment: 1,
    len: 1,
    ..RESULT
};

static TWO_PIECES: [Line; 17] = [
    Take(CallerPacket {
        data: Data::Bytes(&[0, 0, 5, 157]),
        ..LONG_CALL
    }),
    One(Did::Claims, Nothing),
    One(Did::Admits, Nothing),
    One(Did::Runs, Run(4, false, 1441)),
    One(Did::Replies, Packet(FIRST_PIECE)),
    Take(FETCH_SECOND),
    One(Did::Claims, Nothing),
    One(Did::Fetches, Nothing),
    One(Did::Resends, Packet(LAST_BYTE)),
    Take(FETCH_THIRD),
    One(Did::Claims, Nothing),
    One(Did::Fetches, Nothing),
    One(Did::Drops(Same), Nothing),
    Take(FETCH_BEHIND_ALL),
    One(Did::Claims, Nothing),
    One(Did::Fetches, Nothing),
    One(Did::Drops(Same), Nothing),
];

static MIDDLE_PIECE: [Line; 9] = [
    Take(CallerPacket {
        data: Data::Bytes(&[0, 0, 11, 61]),
        ..LONG_CALL
    }),
    One(Did::Claims, Nothing),
    One(Did::Admits, Nothing),
    One(Did::Runs, Run(4, false, 2881)),
    One(Did::Replies, Packet(FIRST_PIECE)),
    Take(FETCH_SECOND),
    One(Did::Claims, Nothing),
    One(Did::Fetches, Nothing),
    One(Did::Resends, Packet(SECOND_PIECE)),
];

#[test]
fn a_kept_reply_is_sent_piece_by_piece(rt: HostRuntime) -> Result<(), Fail> {
    assert!(rt; first_other_at_boot(rt.alloc(), &TWO_PIECES)?.is_none());
    assert!(rt; first_other_at_boot(rt.alloc(), &MIDDLE_PIECE)?.is_none());
    Ok(())
}
