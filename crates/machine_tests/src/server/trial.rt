//! A server machine to be tried: packets come in their frames, and of each step it is looked at what the worker did
//! and what that added.

ghost use Rattle.std.specs.Prelude.{◌≤◌};

use binder::{ExportFault, Name, read_name};
use call_rules::Did;
use ff_io::Station;
use replay_packets::{Outgoing, SERVER, arrive, counted_text};
use replay_server::{Adds, ServerMachine, Worked};
use rpc_header::{Activity, CallId, Export, Header, Kind, fits, number};
use std::alloc::{AllocError, Global};
use std::test::Fail;

/// The test service, as it is exported at the boot in second 1.
pub const SERVICE: Export = Export {
    identifier: 1,
    index: 0,
};

/// The data of a caller's packet.
#[derive(Clone, Copy)]
pub enum Data {
    /// So many bytes, each 7.
    Sevens(usize),
    Bytes(&'static [u8]),
    /// The first 1440 bytes of a text of so many with its count before it.
    TextFront(u16),
}

/// A packet of a caller: its kind, whether it asks for an acknowledgement and is the last piece, the number of its
/// call, its fragment, its data, and what it calls.
#[derive(Clone, Copy)]
pub struct CallerPacket {
    pub kind: Kind,
    pub please_ack: bool,
    pub last: bool,
    pub number: u64,
    pub fragment: u16,
    pub data: Data,
    pub export: Export,
    pub procedure: u16,
}

/// The whole of a call.
pub const CALL: CallerPacket = CallerPacket {
    kind: Kind::Call,
    please_ack: false,
    last: true,
    number: 65536,
    fragment: 0,
    data: Data::Sevens(0),
    export: SERVICE,
    procedure: 0,
};

pub const EARLIER: CallerPacket = CallerPacket {
    number: 65535,
    ..CALL
};

pub const LATER: CallerPacket = CallerPacket {
    number: 65537,
    ..CALL
};

/// The first piece of a call of several.
pub const FIRST: CallerPacket = CallerPacket {
    please_ack: true,
    last: false,
    data: Data::Sevens(1440),
    ..CALL
};

pub const SECOND: CallerPacket = CallerPacket {
    fragment: 1,
    ..FIRST
};

pub const ACK: CallerPacket = CallerPacket {
    kind: Kind::Ack,
    ..CALL
};

pub const PROBE: CallerPacket = CallerPacket {
    kind: Kind::Probe,
    please_ack: true,
    ..CALL
};

/// A packet of the server, as the caller's, with its reason and its export.
#[derive(Clone, Copy, PartialEq, Eq)]
pub struct ServerPacket {
    pub kind: Kind,
    pub please_ack: bool,
    pub last: bool,
    pub reason: u8,
    pub fragment: u16,
    pub len: usize,
    pub export: Export,
}

/// An acknowledgement of the first piece.
pub const ACKED: ServerPacket = ServerPacket {
    kind: Kind::Ack,
    please_ack: false,
    last: true,
    reason: 0,
    fragment: 0,
    len: 0,
    export: SERVICE,
};

/// A result without data.
pub const RESULT: ServerPacket = ServerPacket {
    kind: Kind::Result,
    ..ACKED
};

/// What a step adds.
#[derive(Clone, Copy, PartialEq, Eq)]
pub enum Added {
    Nothing,
    /// A run: how many bytes its arguments and its reply have, and whether it is a signal.
    Run(u32, bool, u32),
    Packet(ServerPacket),
    Rejection(ServerPacket),
}

/// One line of a table.
pub enum Line {
    /// A packet comes.
    Take(CallerPacket),
    /// A packet comes for which there is no room.
    NoRoom(CallerPacket),
    /// Worker 1 does a step in which it does and adds this.
    One(Did, Added),
    /// Worker 2 does.
    Two(Did, Added),
    /// This worker finds nothing to do.
    Idle(u8),
    /// There is no worker of this number.
    NoWorker(u8),
    /// The test service is exported by this name, in a second: its identifier, and its row.
    Export(&'static [u8], u32, u32, u16),
    /// It isn't exported by this name in a second.
    NoExport(&'static [u8], u32, ExportFault),
    /// This name is withdrawn from this row, or has none.
    Withdraw(&'static [u8], Option<u16>),
    /// The server boots anew, in a second.
    Restart(u32),
    /// The server doesn't boot anew in this second.
    NoRestart(u32),
}

pub fn booted(alloc: Global) -> Result<ServerMachine, Fail> {
    Ok(ServerMachine::boot(alloc, 256, 72, 1)?)
}

/// A packet with this header comes from a machine, and is to be taken, or not.
pub fn take(
    alloc: Global,
    server: &mut ServerMachine,
    from: Station,
    header: Header,
    payload: &[u8],
) -> Result<bool, Fail> {
    if !fits(&header, payload.len()) {
        return Err("a header that fits".into());
    }
    let sent = Outgoing::new(alloc, from, SERVER, header, payload)?.sent();
    let Ok(arrived) = arrive(SERVER, sent.frame()) else {
        return Err("a packet that arrives".into());
    };
    Ok(server.take(alloc, &arrived)?)
}

/// The header of a packet of process 1 of machine 2.
pub fn header_of(packet: CallerPacket) -> Result<Header, Fail> {
    let number = number(packet.number).ok_or("a call number")?;
    let activity = Activity {
        machine: 2,
        process: 1,
    };
    Ok(Header {
        kind: packet.kind,
        please_ack: packet.please_ack,
        last: packet.last,
        reason: 0,
        call: CallId { activity, number },
        hint: 0,
        fragment: packet.fragment,
        export: packet.export,
        procedure: packet.procedure,
    })
}

pub const CLIENT: Station = Station { machine: 2 };

fn text_front(alloc: Global, count: u16) -> Result<Vec<u8>, AllocError> {
    let mut text = counted_text(alloc, u32::from(count))?;
    text.truncate(1440);
    Ok(text)
}

fn bytes_of(alloc: Global, data: Data) -> Result<Vec<u8>, AllocError> {
    match data {
        Data::Sevens(len) => vec![in alloc; 7u8; len],
        Data::Bytes(bytes) => Vec::from_slice(alloc, bytes),
        Data::TextFront(count) => text_front(alloc, count),
    }
}

fn take_packet(
    alloc: Global,
    server: &mut ServerMachine,
    packet: CallerPacket,
) -> Result<bool, Fail> {
    let payload = bytes_of(alloc, packet.data)?;
    take(alloc, server, CLIENT, header_of(packet)?, &payload)
}

fn sent(packet: &Outgoing) -> ServerPacket {
    let header = packet.header();
    ServerPacket {
        kind: header.kind,
        please_ack: header.please_ack,
        last: header.last,
        reason: header.reason,
        fragment: header.fragment,
        len: packet.payload_len(),
        export: header.export,
    }
}

/// What a step adds, as a table says it.
fn added_by(adds: &Adds) -> Added {
    match adds {
        Adds::Nothing => Added::Nothing,
        Adds::Run(run) => Added::Run(run.arguments.len, run.signal, run.reply.len),
        Adds::Packet(packet) => Added::Packet(sent(packet)),
        Adds::Rejection(packet) => Added::Rejection(sent(packet)),
    }
}

/// What a worker did and added.
fn told(worked: &Worked) -> Option<(Did, Added)> {
    match worked {
        Worked::Impossible | Worked::Idle => None,
        Worked::Step(step) => Some((step.did, added_by(&step.adds))),
    }
}

/// One step of a worker, as a table says it.
pub fn step_of(
    alloc: Global,
    server: &mut ServerMachine,
    worker: u8,
) -> Result<Option<(Did, Added)>, Fail>
    requires { 1 ≤ worker }
{
    Ok(told(&server.work(alloc, worker)?))
}

/// Whether a worker's step is this one.
fn steps(
    alloc: Global,
    server: &mut ServerMachine,
    worker: u8,
    did: Did,
    added: Added,
) -> Result<bool, Fail>
    requires { 1 ≤ worker }
{
    Ok(step_of(alloc, server, worker)? == Some((did, added)))
}

/// Whether a worker finds nothing to do.
fn rests(alloc: Global, server: &mut ServerMachine, worker: u8) -> Result<bool, Fail> {
    Ok(worker > 0 && matches!(&server.work(alloc, worker)?, Worked::Idle))
}

/// Whether there is no worker of a number.
fn is_no_worker(alloc: Global, server: &mut ServerMachine, worker: u8) -> Result<bool, Fail> {
    Ok(worker > 0 && matches!(&server.work(alloc, worker)?, Worked::Impossible))
}

/// The name that some bytes are.
fn name(bytes: &[u8]) -> Result<Name, Fail> {
    Ok(read_name(bytes).ok_or("a name")?)
}

/// Whether an export in a second has this answer.
fn exports(
    alloc: Global,
    server: &mut ServerMachine,
    text: &[u8],
    second: u32,
    answer: Result<Export, ExportFault>,
) -> Result<bool, Fail> {
    Ok(server.export(alloc, name(text)?, second)? == answer)
}

/// Whether a line comes about.
fn comes_about(alloc: Global, server: &mut ServerMachine, line: &Line) -> Result<bool, Fail> {
    match *line {
        Line::Take(packet) => take_packet(alloc, server, packet),
        Line::NoRoom(packet) => Ok(!take_packet(alloc, server, packet)?),
        Line::One(did, added) => steps(alloc, server, 1, did, added),
        Line::Two(did, added) => steps(alloc, server, 2, did, added),
        Line::Idle(worker) => rests(alloc, server, worker),
        Line::NoWorker(number) => is_no_worker(alloc, server, number),
        Line::Export(text, second, identifier, index) => {
            let export = Export { identifier, index };
            exports(alloc, server, text, second, Ok(export))
        }
        Line::NoExport(text, second, fault) => exports(alloc, server, text, second, Err(fault)),
        Line::Withdraw(text, row) => Ok(server.withdraw(name(text)?) == row),
        Line::Restart(second) => Ok(server.restart(alloc, second)?),
        Line::NoRestart(second) => Ok(!server.restart(alloc, second)?),
    }
}

/// The number of the first line of a table that doesn't come about, from 0.
pub fn first_other(
    alloc: Global,
    server: &mut ServerMachine,
    lines: &[Line],
) -> Result<Option<usize>, Fail> {
    for (i, line) in lines.iter().enumerate() {
        if !comes_about(alloc, server, line)? {
            return Ok(Some(i));
        }
    }
    Ok(None)
}

/// The same, of a server that has booted.
pub fn first_other_at_boot(alloc: Global, lines: &[Line]) -> Result<Option<usize>, Fail> {
    first_other(alloc, &mut booted(alloc)?, lines)
}
