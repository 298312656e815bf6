//! The steps of idle workers: what is done with a packet, by what the exports say to it and by what is seen of the
//! entry of its activity. Each function is the rows of its name.

ghost use Rattle.std.specs.Prelude.{◌≡◌, Option, IfOk, IfSome, IsTrue};
ghost use Rattle.std.specs.Option.{option_map};
ghost use Rattle.rpc_header.specs.Fields.{is_reason};
ghost use Rattle.rpc_header.specs.declared.Kind.TheVariants as kind;
ghost use Rattle.call_rules.specs.Entry.{Entry, word_of, word_seen};
ghost use Rattle.call_rules.specs.Worker as rules;
ghost use Rattle.replay_model.specs.Step as model;
ghost use Rattle.replay_model.specs.Step.{asked_of};
ghost use Rattle.replay_server.specs.Rules.{Keeps};

use crate::answers::{ack, bound, reject};
use crate::stage::Stage;
use crate::step::{Adds, Step, drops, rests};
use binder::{Exports, Verdict, read_bind_data};
use call_rules::{Did, Judged, Seen, Unfit, judge};
use replay_packets::Packet;
use rpc_header::{Header, Kind};
use std::alloc::{AllocError, Global};

/// An idle worker has a packet, for which the entry of its activity, if there is one, is seen.
pub fn on_idle(
    alloc: Global,
    exports: &Exports,
    seen: Option<Seen>,
    packet: &Packet,
) -> Result<Step, AllocError>
    ensures { IfOk result (λ step. (e : Option Entry) → option_map word_of e ≡ option_map word_seen seen
        → Keeps packet.now (rules.on_idle (asked_of exports.now.rows packet.now) e packet.now) step) }
{
    let kind = packet.header().kind;
    on_kind(alloc, kind, exports, seen, packet)
}

/// The same, by the packet's kind.
fn on_kind(
    alloc: Global,
    kind: Kind,
    exports: &Exports,
    seen: Option<Seen>,
    packet: &Packet,
) -> Result<Step, AllocError>
    ensures { IfOk result (λ step. (e : Option Entry) → option_map word_of e ≡ option_map word_seen seen
        → Keeps packet.now (rules.on_kind kind (asked_of exports.now.rows packet.now) e packet.now) step) }
{
    match kind {
        Kind::Bind => on_bind(alloc, exports, packet),
        Kind::Call
        | Kind::Result
        | Kind::Ack
        | Kind::Probe
        | Kind::Reject
        | Kind::Signal
        | Kind::Bound => on_call(alloc, exports, seen, packet),
    }
}

/// A Bind: the answer to the name that it asks for.
fn on_bind(alloc: Global, exports: &Exports, packet: &Packet) -> Result<Step, AllocError>
    ensures { IfOk result (Keeps packet.now (rules.on_bind (asked_of exports.now.rows packet.now).named packet.now)) }
{
    let Some(name) = read_bind_data(packet.payload()) else {
        return Ok(drops(Unfit::BadName));
    };
    let found = exports.look_up(&name);
    let answer = bound(alloc, packet, found)?;
    Ok(rests(Did::Answers, Adds::Packet(answer)))
}

/// Another packet: the exports are asked first.
fn on_call(
    alloc: Global,
    exports: &Exports,
    seen: Option<Seen>,
    packet: &Packet,
) -> Result<Step, AllocError>
    ensures { IfOk result (λ step. (e : Option Entry) → option_map word_of e ≡ option_map word_seen seen
        → Keeps packet.now (rules.on_call (asked_of exports.now.rows packet.now).refused e packet.now) step) }
{
    let Header {
        export,
        procedure,
        ..
    } = *packet.header();
    match refusal(exports.accepts(export, procedure)) {
        Some(reason) => {
            let answer = reject(alloc, packet, reason)?;
            Ok(rests(Did::Rejects(reason), Adds::Rejection(answer)))
        }
        None => on_accepted(alloc, seen, packet),
    }
}

/// Why a call is refused, by what the exports say to it.
fn refusal(verdict: Verdict) -> Option<u8>
    ensures refusal { result ≡ model.refusal verdict }
    ensures reason { IfSome result (λ reason. IsTrue (is_reason kind.Reject reason)) }
{
    match verdict {
        Verdict::Accepted => None,
        Verdict::WrongBinding => Some(1),
        Verdict::NoProcedure => Some(2),
    }
}

/// A packet of an accepted call, by what is seen of its entry, if there is one.
fn on_accepted(alloc: Global, seen: Option<Seen>, packet: &Packet) -> Result<Step, AllocError>
    ensures { IfOk result (λ step. (e : Option Entry) → option_map word_of e ≡ option_map word_seen seen
        → Keeps packet.now (rules.on_accepted e packet.now) step) }
{
    match seen {
        None => Ok(drops(Unfit::Full)),
        Some(seen) => {
            let judged = judge(seen, packet.header());
            on_judged(alloc, judged, seen, packet)
        }
    }
}

/// A packet by its judgement.
fn on_judged(alloc: Global, judged: Judged, seen: Seen, packet: &Packet) -> Result<Step, AllocError>
    ensures { IfOk result (Keeps packet.now (rules.on_judged judged (word_seen seen) packet.now)) }
{
    match judged {
        Judged::Older => Ok(drops(Unfit::Older)),
        Judged::Same => Ok(drops(Unfit::Same)),
        Judged::Busy => Ok(drops(Unfit::Busy)),
        Judged::Unknown => Ok(drops(Unfit::Unknown)),
        Judged::Skipped => Ok(drops(Unfit::Skipped)),
        Judged::Ack => {
            let answer = ack(alloc, packet)?;
            Ok(rests(Did::Acks, Adds::Packet(answer)))
        }
        Judged::Admit | Judged::Begin | Judged::More | Judged::Fetch => Ok(Step {
            next: Some(Stage::Claimed(seen)),
            did: Did::Claims,
            adds: Adds::Nothing,
        }),
    }
}
