//! What the server sends: answers, which go back to where a packet came from, with the call, the hint, the export
//! and the procedure of it.

ghost use Rattle.std.specs.Prelude.{◌≡◌, ◌≤◌, length, IfOk, IsTrue};
ghost use Rattle.rpc_header.specs.Fields.{is_reason};
ghost use Rattle.fragments.specs.Pieces.{last_piece};
ghost use Rattle.call_rules.specs.Packet.{fields_of};
ghost use Rattle.call_rules.specs.Worker as rules;
ghost use Rattle.replay_server.specs.Service.{answer_of};

use crate::texts::Answer;
use fragments::{count, piece};
use replay_packets::{Outgoing, Packet};
use rpc_header::{Export, Header, Kind};
use std::alloc::{AllocError, Global};

/// The export that a Bound names which has found none.
const NO_EXPORT: Export = Export {
    identifier: 0,
    index: 0,
};

/// An acknowledgement of a packet.
pub fn ack(alloc: Global, packet: &Packet) -> Result<Outgoing, AllocError>
    ensures { IfOk result (λ answer. answer ≡ rules.ack_packet packet.now) }
{
    let fragment = packet.header().fragment;
    let header = answer_header(packet, Kind::Ack, true, fragment);
    packet.answer(alloc, header, &[])
}

/// Refuses the call of a packet for a reason.
pub fn reject(alloc: Global, packet: &Packet, reason: u8) -> Result<Outgoing, AllocError>
    requires { IsTrue (is_reason Kind.Reject reason) }
    ensures { IfOk result (λ answer. answer ≡ rules.reject_packet packet.now reason) }
{
    let header = Header {
        reason,
        ..answer_header(packet, Kind::Reject, true, 0)
    };
    packet.answer(alloc, header, &[])
}

/// Answers a Bind: with the export that was found, or with none.
pub fn bound(alloc: Global, packet: &Packet, found: Option<Export>) -> Result<Outgoing, AllocError>
    ensures { IfOk result (λ answer. answer ≡ rules.bound_packet packet.now found) }
{
    let header = Header {
        reason: if found.is_some() { 0 } else { 1 },
        export: found.unwrap_or(NO_EXPORT),
        ..answer_header(packet, Kind::Bound, true, 0)
    };
    packet.answer(alloc, header, &[])
}

/// A piece of the reply to a packet's call, cut where it lies.
pub fn reply_piece(
    alloc: Global,
    packet: &Packet,
    answer: &Answer,
    i: u16,
) -> Result<Outgoing, AllocError>
    requires { i ≤ last_piece (length answer.now.reply.items) }
    ensures { IfOk result (λ piece. piece ≡ rules.reply_packet packet.now (answer_of answer.now) i) }
{
    let reply = answer.reply.as_slice();
    let is_last = i == count(reply.len()) - 1;
    let kind = if answer.signal {
        Kind::Signal
    } else {
        Kind::Result
    };
    let header = answer_header(packet, kind, is_last, i);
    packet.answer(alloc, header, piece(reply, i))
}

/// The header of an answer to a packet.
fn answer_header(packet: &Packet, kind: Kind, last: bool, fragment: u16) -> Header
    ensures { fields_of result ≡ rules.answer_header packet.now kind last fragment }
{
    let Header {
        call,
        hint,
        export,
        procedure,
        ..
    } = *packet.header();
    Header {
        kind,
        please_ack: !last,
        last,
        reason: 0,
        call,
        hint,
        fragment,
        export,
        procedure,
    }
}
