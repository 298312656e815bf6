//! What no row has: binds, refused calls, entries that aren't there, the list of ready packets, and the test service.

use super::trial::{
    ACK, ACKED, Added, CALL, CLIENT, CallerPacket, Line, PROBE, SERVICE, ServerPacket, booted,
    first_other, first_other_at_boot, header_of, step_of, take,
};
use call_rules::{Did, Unfit};
use ff_io::Station;
use replay_packets::SERVER;
use replay_server::{Adds, ServerMachine, Worked};
use rpc_header::{Activity, CallId, Export, Header, Kind};
use std::alloc::Global;
use std::test::Fail;

/// The export that a Bind has, and a Bound that found none.
const NO_EXPORT: Export = Export {
    identifier: 0,
    index: 0,
};

/// A packet comes from a machine to a server that has booted, and worker 1 does a step.
fn first_step(
    alloc: Global,
    from: Station,
    header: Header,
    data: &[u8],
) -> Result<Option<(Did, Added)>, Fail> {
    let mut server = booted(alloc)?;
    if !take(alloc, &mut server, from, header, data)? {
        return Err("room".into());
    }
    step_of(alloc, &mut server, 1)
}

/// A Bind with this data comes, and worker 1 does a step.
fn bind(alloc: Global, name: &[u8]) -> Result<Option<(Did, Added)>, Fail> {
    let header = Header {
        kind: Kind::Bind,
        export: NO_EXPORT,
        ..header_of(CALL)?
    };
    first_step(alloc, CLIENT, header, name)
}

#[test]
fn a_bind_is_answered(rt: HostRuntime) -> Result<(), Fail> {
    let found = ServerPacket {
        kind: Kind::Bound,
        ..ACKED
    };
    let unknown = ServerPacket {
        reason: 1,
        export: NO_EXPORT,
        ..found
    };
    let step = bind(rt.alloc(), b"\x04Test\x04main")?;
    assert!(rt; step == Some((Did::Answers, Added::Packet(found))));
    let step = bind(rt.alloc(), b"\x04Test\x03aux")?;
    assert!(rt; step == Some((Did::Answers, Added::Packet(unknown))));
    let bad = Some((Did::Drops(Unfit::BadName), Added::Nothing));
    for data in [
        b"".as_slice(),
        b"\x04Test",
        b"\x04Test\x00",
        b"\x04Test\x04main\x00",
        b"\x04Test\x05main",
        b"\x04Te-t\x04main",
    ] {
        assert!(rt; bind(rt.alloc(), data)? == bad, "{data:?}");
    }
    Ok(())
}

/// A whole call, or what else the piece is, by a binding and for a procedure comes, and worker 1 does a step.
fn ask(
    alloc: Global,
    piece: CallerPacket,
    export: Export,
    procedure: u16,
) -> Result<Option<(Did, Added)>, Fail> {
    let header = Header {
        export,
        procedure,
        ..header_of(piece)?
    };
    first_step(alloc, CLIENT, header, &[])
}

/// The same, of each kind of packet that is about a call, where each is refused for this reason.
fn all_are_refused(
    alloc: Global,
    export: Export,
    procedure: u16,
    reason: u8,
) -> Result<bool, Fail> {
    let reject = ServerPacket {
        kind: Kind::Reject,
        reason,
        export,
        ..ACKED
    };
    for packet in &[CALL, ACK, PROBE] {
        let step = ask(alloc, *packet, export, procedure)?;
        if step != Some((Did::Rejects(reason), Added::Rejection(reject))) {
            return Ok(false);
        }
    }
    Ok(true)
}

#[test]
fn calls_that_the_exports_refuse(rt: HostRuntime) -> Result<(), Fail> {
    let alloc = rt.alloc();
    let later = Export {
        identifier: 2,
        index: 0,
    };
    let elsewhere = Export {
        identifier: 1,
        index: 1,
    };
    assert!(rt; all_are_refused(alloc, later, 0, 1)?);
    assert!(rt; all_are_refused(alloc, elsewhere, 0, 1)?);
    assert!(rt; all_are_refused(alloc, NO_EXPORT, 0, 1)?);
    assert!(rt; all_are_refused(alloc, SERVICE, 5, 2)?);
    let step = ask(alloc, CALL, SERVICE, 4)?;
    assert!(rt; step == Some((Did::Claims, Added::Nothing)));
    Ok(())
}

/// A call of a process of a machine comes from there, and worker 1 does a step.
fn call_from(alloc: Global, from: Station, process: u16) -> Result<Option<(Did, Added)>, Fail> {
    let header = header_of(CALL)?;
    let activity = Activity {
        machine: u32::from(from.machine),
        process,
    };
    let call = CallId {
        activity,
        ..header.call
    };
    first_step(alloc, from, Header { call, ..header }, &[])
}

#[test]
fn activities_without_an_entry(rt: HostRuntime) -> Result<(), Fail> {
    let alloc = rt.alloc();
    let claims = Some((Did::Claims, Added::Nothing));
    let full = Some((Did::Drops(Unfit::Full), Added::Nothing));
    let last = Station { machine: 9 };
    let behind = Station { machine: 10 };
    assert!(rt; call_from(alloc, CLIENT, 8)? == claims);
    assert!(rt; call_from(alloc, last, 8)? == claims);
    assert!(rt; call_from(alloc, CLIENT, 0)? == full);
    assert!(rt; call_from(alloc, CLIENT, 9)? == full);
    assert!(rt; call_from(alloc, behind, 1)? == full);
    assert!(rt; call_from(alloc, SERVER, 1)? == full);
    Ok(())
}

static COMES: [Line; 1] = [Line::Take(CALL)];

/// Whether 64 calls come.
fn is_filled(alloc: Global, server: &mut ServerMachine) -> Result<bool, Fail> {
    for _ in 0..64 {
        if first_other(alloc, server, &COMES)?.is_some() {
            return Ok(false);
        }
    }
    Ok(true)
}

/// Behind 64 calls there is no room until a worker takes one of them.
static FULL: [Line; 4] = [
    Line::NoRoom(CALL),
    Line::One(Did::Claims, Added::Nothing),
    Line::Take(CALL),
    Line::NoRoom(CALL),
];

#[test]
fn at_most_64_packets_are_ready(rt: HostRuntime) -> Result<(), Fail> {
    let mut server = booted(rt.alloc())?;
    assert!(rt; is_filled(rt.alloc(), &mut server)?);
    assert!(rt; first_other(rt.alloc(), &mut server, &FULL)?.is_none());
    Ok(())
}

static WITHOUT_A_PACKET: [Line; 2] = [Line::Idle(4), Line::NoWorker(5)];

#[test]
fn workers_without_a_packet(rt: HostRuntime) -> Result<(), Fail> {
    assert!(rt; first_other_at_boot(rt.alloc(), &WITHOUT_A_PACKET)?.is_none());
    Ok(())
}

/// A call as it runs: its procedure, its arguments, whether the answer is a signal, and the answer.
#[derive(Clone, Copy)]
struct Ran(u16, &'static [u8], bool, &'static [u8]);

/// Procedure 2 adds to the total and answers with it, procedure 1 adds two numbers.
static SUMS: [Ran; 7] = [
    Ran(2, &[0, 0, 0, 7], false, &[0, 0, 0, 7]),
    Ran(2, &[0, 0, 1, 0], false, &[0, 0, 1, 7]),
    Ran(2, &[0, 0, 0, 0], false, &[0, 0, 1, 7]),
    // The total becomes 4294967040, and stays so where the sum is too large.
    Ran(2, &[255, 255, 253, 249], false, &[255, 255, 255, 0]),
    Ran(2, &[0, 0, 1, 0], true, &[0, 1]),
    Ran(2, &[0, 0, 0, 0], false, &[255, 255, 255, 0]),
    Ran(1, &[0, 0, 0, 2, 255, 255, 255, 253], false, &[255; 4]),
];

static ADMITTED: [Line; 2] = [
    Line::One(Did::Claims, Added::Nothing),
    Line::One(Did::Admits, Added::Nothing),
];

/// Whether a step runs a body with this answer.
fn runs(worked: &Worked, signal: bool, answer: &[u8]) -> bool {
    let Worked::Step(step) = worked else {
        return false;
    };
    let Adds::Run(run) = &step.adds else {
        return false;
    };
    let reply = &run.reply;
    run.signal == signal
        && reply.len as usize == answer.len()
        && reply.head.get(..answer.len()) == Some(answer)
}

/// Whether a call of this number comes, and runs so. Then worker 1 sends the reply.
fn is_served(
    alloc: Global,
    server: &mut ServerMachine,
    number: u64,
    ran: Ran,
) -> Result<bool, Fail> {
    let Ran(procedure, arguments, signal, answer) = ran;
    let header = Header {
        procedure,
        ..header_of(CallerPacket { number, ..CALL })?
    };
    let is_taken = take(alloc, server, CLIENT, header, arguments)?;
    let other = first_other(alloc, server, &ADMITTED)?;
    let is_run = runs(&server.work(alloc, 1)?, signal, answer);
    server.work(alloc, 1)?;
    Ok(is_taken && other.is_none() && is_run)
}

#[test]
fn the_service_adds_up(rt: HostRuntime) -> Result<(), Fail> {
    let alloc = rt.alloc();
    let mut server = booted(alloc)?;
    for place in 0..7 {
        let number = 65536 + place as u64;
        assert!(rt; is_served(alloc, &mut server, number, SUMS[place])?);
    }
    Ok(())
}
