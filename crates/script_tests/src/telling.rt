//! What is told in a transcript, and how the lines of it are written.

use Told::{
    BindFails, Binds, Bound, Discards, Exports, Fails, Idles, Impossible, NoExport, Quiet, Readies,
    Refused, Restarted, Returns, Second, Sends, Shows, Signals, Skipped, Starts, TooFast, Unbound,
    Waits, Withdrawn, Works,
};
use binder::ExportFault;
use call_rules::Did;
use lane_checksum::digest_of;
use replay_lines::calls::{
    put_bind, put_bind_failure, put_bound, put_failure, put_impossible, put_quiet, put_refusal,
    put_return, put_start, put_too_fast, put_unbound, put_waiting,
};
use replay_lines::deliveries::{put_discard, put_frame, put_ready};
use replay_lines::lives::{
    put_export, put_no_export, put_restarted, put_second, put_skipped, put_withdrawn,
};
use replay_lines::work::{put_idle, put_work};
use replay_lines::{Page, put_packet};
use replay_model::Discard;
use rpc_header::{Activity, CallId, CallNumber, Export, Header, Kind};
use std::alloc::{AllocError, Global};

/// The first call of process 1 of machine 2.
pub const CALL: CallId = CallId {
    activity: Activity {
        machine: 2,
        process: 1,
    },
    number: CallNumber { value: 65536 },
};

/// Its header.
const HEADER: Header = Header {
    kind: Kind::Call,
    please_ack: false,
    last: true,
    reason: 0,
    call: CALL,
    hint: 0,
    fragment: 0,
    export: Export {
        identifier: 1,
        index: 0,
    },
    procedure: 0,
};

/// Marshalled bytes.
#[derive(Clone, Copy)]
pub enum Data {
    Bytes(&'static [u8]),
    /// The bytes 0, 1 and so on modulo 251, so many, with their count in front.
    Text(u32),
}

/// A packet of the call: its number, the machines from which and to which it goes, its kind, whether it asks for an
/// acknowledgement and is the last piece, its fragment, and the length of its data.
#[derive(Clone, Copy)]
pub struct Packet {
    pub number: usize,
    pub from: u8,
    pub to: u8,
    pub kind: Kind,
    pub please_ack: bool,
    pub last: bool,
    pub fragment: u16,
    pub len: usize,
}

/// What is told: where no other is named, of the first call of process 1 of machine 2. An export is told by its index
/// and its identifier.
#[derive(Clone, Copy)]
pub enum Told {
    Impossible,
    Starts,
    TooFast(u64, u32),
    Returns(Data),
    Signals(Data),
    Waits,
    Fails,
    Refused(u8),
    BindFails,
    Bound(u16, u32),
    Unbound,
    Quiet,
    Second(u32),
    Restarted(u8, u32),
    Binds,
    Exports(u16, u32),
    NoExport(ExportFault),
    Withdrawn(u16),
    Skipped(u64),
    Sends(Packet),
    Readies(u32),
    Shows(u32, &'static [u8]),
    Discards(Discard),
    Idles(u8),
    Works(u8, Did),
}

/// Appends the line of what is told.
fn put(alloc: Global, out: &mut Page, told: Told) -> Result<(), AllocError> {
    match told {
        Impossible => put_impossible(out),
        Starts => put_start(out, CALL),
        TooFast(number, second) => put_too_fast(out, number, second),
        Returns(reply) => put_reply(alloc, out, false, reply),
        Signals(reply) => put_reply(alloc, out, true, reply),
        Waits => put_waiting(out, CALL),
        Fails => put_failure(out, CALL),
        Refused(reason) => put_refusal(out, CALL, reason),
        BindFails => put_bind_failure(out, CALL),
        Bound(index, identifier) => put_bound(out, CALL, Export { identifier, index }),
        Unbound => put_unbound(out, CALL),
        Quiet => put_quiet(out),
        Second(second) => put_second(out, second),
        Restarted(machine, second) => put_restarted(out, machine, second),
        Binds => put_bind(out, CALL),
        Exports(index, identifier) => put_export(out, Export { identifier, index }),
        NoExport(why) => put_no_export(out, why),
        Withdrawn(index) => put_withdrawn(out, index),
        Skipped(next) => put_skipped(out, CALL.activity, next),
        Sends(packet) => put_sent(out, packet),
        Readies(packet) => put_ready(out, packet),
        Shows(packet, frame) => put_frame(out, packet, frame),
        Discards(why) => put_discard(out, why),
        Idles(worker) => put_idle(out, worker),
        Works(worker, did) => put_work(out, worker, 65536, did),
    }
}

pub fn bytes_of(alloc: Global, data: Data) -> Result<Vec<u8>, AllocError> {
    match data {
        Data::Bytes(bytes) => Vec::from_slice(alloc, bytes),
        Data::Text(count) => counted_text(alloc, count),
    }
}

fn counted_text(alloc: Global, count: u32) -> Result<Vec<u8>, AllocError> {
    let mut text = Vec::from_slice(alloc, &count.to_be_bytes())?;
    for place in 0..count {
        text.push((place % 251) as u8)?;
    }
    Ok(text)
}

/// The line of a reply of at most 2,000 bytes.
fn put_reply(alloc: Global, out: &mut Page, signal: bool, reply: Data) -> Result<(), AllocError> {
    let bytes = bytes_of(alloc, reply)?;
    if bytes.len() > 2_000 {
        return Err(AllocError);
    }
    put_return(out, CALL, signal, digest_of(&bytes))
}

fn put_sent(out: &mut Page, packet: Packet) -> Result<(), AllocError> {
    let header = Header {
        kind: packet.kind,
        please_ack: packet.please_ack,
        last: packet.last,
        fragment: packet.fragment,
        ..HEADER
    };
    let Packet {
        number,
        from,
        to,
        len,
        ..
    } = packet;
    put_packet(out, number, from, to, &header, len)
}

/// Whether the lines, one after the other on one page, are these texts.
pub fn are_written(alloc: Global, lines: &[(Told, &[u8])]) -> Result<bool, AllocError> {
    let mut out = Page::of(Vec::new(alloc));
    let mut text = Vec::new(alloc);
    for line in lines {
        put(alloc, &mut out, line.0)?;
        text.extend_from_slice(line.1)?;
    }
    Ok(out.into_text().as_slice() == text.as_slice())
}
