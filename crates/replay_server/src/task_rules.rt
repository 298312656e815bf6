//! The steps of workers that hold a packet: for what a worker is to do next, and the entry of its packet's activity,
//! what it did. Each function is the rows of its name; `on_piece` is those of `on_took` for an entry that a worker fills.

ghost use Rattle.std.specs.Prelude.{◌≡◌, length, IfOk, OnOk};
ghost use Rattle.fragments.specs.declared.limits.TheConstants.{PIECE};
ghost use Rattle.call_rules.specs.Entry.{Entry, Filling, Gather, word_seen};
ghost use Rattle.call_rules.specs.Worker as rules;
ghost use Rattle.replay_model.specs.Service.{served};
ghost use Rattle.replay_model.specs.World.{has_buffer};
ghost use Rattle.replay_server.specs.Rules.{Keeps, Exchanges, row_at, total_at};
ghost use Rattle.replay_server.specs.Entry.{entry_of};
ghost use Rattle.replay_server.specs.Service.{answer_of};
ghost use Rattle.replay_server.specs.Texts.{gathered_in};
ghost use Rattle.replay_server.specs.Worker.{arguments_in, worker_after, worker_at, CanAdd, IsFullPiece};

use crate::answers::{ack, reply_piece};
use crate::entry::{Entry, EntryState};
use crate::service::serve;
use crate::stage::{Arguments, Stage};
use crate::step::{Adds, Step, drops, rests};
use crate::texts::{Answer, Gathering, Whole};
use call_rules::{Did, Judged, Seen, Unfit, judge};
use fragments::{Pushed, count};
use replay_model::RunLine;
use replay_packets::Packet;
use rpc_header::{CallNumber, Header, Kind};
use std::alloc::{AllocError, Global};

/// A worker that holds a packet does what is next; the service may have a new total.
pub fn on_task(
    alloc: Global,
    total: &mut u32,
    carrier: &Packet,
    stage: Stage,
    entry: &mut Entry,
) -> Result<Step, AllocError>
    requires { CanAdd (worker_at carrier.now stage) }
    ensures step { IfOk result (Exchanges carrier.now (row_at carrier.now stage total.old entry.old) entry.old entry.new) }
    ensures total { OnOk result (total.new ≡ total_at carrier.now stage total.old) }
{
    match stage {
        Stage::Claimed(seen) => on_claimed(alloc, carrier, seen, entry),
        Stage::Took => on_took(alloc, carrier, entry),
        Stage::Admitted(arguments) => on_admitted(alloc, total, carrier, arguments),
        Stage::Ran(answer) => on_ran(alloc, carrier, answer, entry),
        Stage::Fetched => on_fetched(alloc, carrier, entry),
    }
}

/// Claimed: by the judgement of the packet, unless the entry's word isn't the word seen.
fn on_claimed(
    alloc: Global,
    carrier: &Packet,
    seen: Seen,
    entry: &mut Entry,
) -> Result<Step, AllocError>
    ensures { IfOk result (Exchanges carrier.now (rules.on_claimed has_buffer carrier.now (word_seen seen) entry.old) entry.old entry.new) }
{
    if !entry.seen().is_same(seen) {
        return Ok(drops(Unfit::Lost));
    }
    let judged = judge(seen, carrier.header());
    on_judged_claim(alloc, judged, carrier, entry)
}

fn on_judged_claim(
    alloc: Global,
    judged: Judged,
    carrier: &Packet,
    entry: &mut Entry,
) -> Result<Step, AllocError>
    requires { judged ≡ Judged.Begin → length carrier.now.payload ≡ PIECE }
    ensures { IfOk result (Exchanges carrier.now (rules.on_judged_claim judged has_buffer carrier.now entry.old) entry.old entry.new) }
{
    match judged {
        Judged::Admit => Ok(admits(carrier, Arguments::Carried, entry)),
        Judged::Begin => on_begin(alloc, carrier, entry),
        Judged::More => Ok(on_more(carrier, entry)),
        Judged::Fetch => Ok(on_fetch(carrier, entry)),
        Judged::Older
        | Judged::Same
        | Judged::Busy
        | Judged::Unknown
        | Judged::Skipped
        | Judged::Ack => Ok(drops(Unfit::Lost)),
    }
}

/// The call of the carrier is to run.
fn admits(carrier: &Packet, arguments: Arguments, entry: &mut Entry) -> Step
    ensures { (old : Entry) → Exchanges carrier.now (rules.admits carrier.now (arguments_in arguments carrier.now.payload)) old entry.new result }
{
    let number = carrier.header().call.number;
    *entry = Entry::new(EntryState::Running { number });
    Step {
        next: Some(Stage::Admitted(arguments)),
        did: Did::Admits,
        adds: Adds::Nothing,
    }
}

/// Begin: piece 0 is kept.
fn on_begin(alloc: Global, carrier: &Packet, entry: &mut Entry) -> Result<Step, AllocError>
    requires { length carrier.now.payload ≡ PIECE }
    ensures { IfOk result (Exchanges carrier.now (rules.on_begin has_buffer carrier.now) entry.old entry.new) }
{
    let number = carrier.header().call.number;
    let pieces = Gathering::begin(alloc, carrier.payload())?;
    let answer = ack(alloc, carrier)?;
    *entry = Entry::new(EntryState::Gather { number, pieces });
    Ok(rests(Did::Begins, Adds::Packet(answer)))
}

/// More: what is gathered is taken in hand.
fn on_more(carrier: &Packet, entry: &mut Entry) -> Step
    ensures { Exchanges carrier.now (rules.on_more carrier.now entry.old) entry.old entry.new result }
{
    match entry.take() {
        EntryState::Gather { number, pieces } => {
            *entry = Entry::new(EntryState::Filling { number, pieces });
            Step {
                next: Some(Stage::Took),
                did: Did::Takes,
                adds: Adds::Nothing,
            }
        }
        other => loses(other, entry),
    }
}

/// Fetch: the reply is taken in hand.
fn on_fetch(carrier: &Packet, entry: &mut Entry) -> Step
    ensures { Exchanges carrier.now (rules.on_fetch carrier.now entry.old) entry.old entry.new result }
{
    match entry.take() {
        EntryState::Done { number, answer } => {
            *entry = Entry::new(EntryState::Sending { number, answer });
            Step {
                next: Some(Stage::Fetched),
                did: Did::Fetches,
                adds: Adds::Nothing,
            }
        }
        other => loses(other, entry),
    }
}

/// Took: the carrier's piece is added to what is gathered, where it is the one that is due.
#[tactic(auto, unfolding(call_rules::specs::Worker::on_took))]
fn on_took(alloc: Global, carrier: &Packet, entry: &mut Entry) -> Result<Step, AllocError>
    requires { IsFullPiece carrier.now }
    ensures { IfOk result (Exchanges carrier.now (rules.on_took carrier.now entry.old) entry.old entry.new) }
{
    match entry.take() {
        EntryState::Filling { number, pieces } => on_piece(alloc, carrier, number, pieces, entry),
        other => Ok(loses(other, entry)),
    }
}

/// The piece that is due makes the call whole if it is the last, and is acknowledged else, as is one that was gathered
/// before. One that isn't due yet is dropped.
fn on_piece(
    alloc: Global,
    carrier: &Packet,
    number: CallNumber,
    pieces: Gathering,
    entry: &mut Entry,
) -> Result<Step, AllocError>
    requires { IsFullPiece carrier.now }
    ensures { IfOk result (λ step. (old : Entry) → Exchanges carrier.now
        (rules.on_took carrier.now (Filling number.value (gathered_in pieces) pieces.gathered.next)) old entry.new step) }
{
    let Gathering {
        mut text,
        mut gathered,
    } = pieces;
    let Header { fragment, last, .. } = *carrier.header();
    match gathered.push(text.as_mut_slice(), fragment, last, carrier.payload()) {
        Pushed::Whole(len) => {
            let whole = Whole { text, len };
            Ok(admits(carrier, Arguments::Gathered(whole), entry))
        }
        Pushed::More | Pushed::Again => {
            let pieces = Gathering { text, gathered };
            rests_gathering(alloc, carrier, number, pieces, entry)
        }
        Pushed::Skipped => {
            let pieces = Gathering { text, gathered };
            *entry = Entry::new(EntryState::Gather { number, pieces });
            Ok(drops(Unfit::Skipped))
        }
    }
}

/// What is gathered goes back to the entry, and the piece is acknowledged.
fn rests_gathering(
    alloc: Global,
    carrier: &Packet,
    number: CallNumber,
    pieces: Gathering,
    entry: &mut Entry,
) -> Result<Step, AllocError>
    ensures { IfOk result (λ step. (old : Entry) → Exchanges carrier.now
        (rules.exchanges_and_sends (Gather number.value (gathered_in pieces) pieces.gathered.next) Did.Rests (rules.ack_packet carrier.now)) old entry.new step) }
{
    let answer = ack(alloc, carrier)?;
    *entry = Entry::new(EntryState::Gather { number, pieces });
    Ok(rests(Did::Rests, Adds::Packet(answer)))
}

/// Admitted: the body runs.
#[tactic(auto, unfolding(call_rules::specs::Worker::on_admitted))]
fn on_admitted(
    alloc: Global,
    total: &mut u32,
    carrier: &Packet,
    arguments: Arguments,
) -> Result<Step, AllocError>
    ensures step { IfOk result (Keeps carrier.now (rules.on_admitted has_buffer carrier.now (arguments_in arguments carrier.now.payload)
        (served total.old carrier.now.header.procedure (arguments_in arguments carrier.now.payload)).answer)) }
    ensures total { OnOk result (total.new ≡ (served total.old carrier.now.header.procedure (arguments_in arguments carrier.now.payload)).total) }
{
    let Header {
        call,
        procedure,
        ..
    } = *carrier.header();
    let bytes = arguments.bytes(carrier);
    let served = serve(alloc, *total, procedure, bytes)?;
    *total = served.total;
    let answer = served.answer;
    let line = RunLine::new(
        call,
        procedure,
        bytes,
        answer.signal,
        answer.reply.as_slice(),
    );
    Ok(Step {
        next: Some(Stage::Ran(answer)),
        did: Did::Runs,
        adds: Adds::Run(line),
    })
}

/// Ran: the first piece of the reply is sent, and the entry keeps the reply.
#[tactic(auto, unfolding(call_rules::specs::Worker::on_ran))]
fn on_ran(
    alloc: Global,
    carrier: &Packet,
    answer: Answer,
    entry: &mut Entry,
) -> Result<Step, AllocError>
    ensures { IfOk result (Exchanges carrier.now (rules.on_ran carrier.now (answer_of answer)) entry.old entry.new) }
{
    let number = carrier.header().call.number;
    let piece = reply_piece(alloc, carrier, &answer, 0)?;
    *entry = Entry::new(EntryState::Done { number, answer });
    Ok(rests(Did::Replies, Adds::Packet(piece)))
}

/// Fetched: the piece that is asked for is sent, if there is one.
#[tactic(auto, unfolding(call_rules::specs::Worker::on_fetched))]
fn on_fetched(alloc: Global, carrier: &Packet, entry: &mut Entry) -> Result<Step, AllocError>
    ensures { IfOk result (Exchanges carrier.now (rules.on_fetched carrier.now entry.old) entry.old entry.new) }
{
    match entry.take() {
        EntryState::Sending { number, answer } => { resends(alloc, carrier, number, answer, entry) }
        other => Ok(loses(other, entry)),
    }
}

fn resends(
    alloc: Global,
    carrier: &Packet,
    number: CallNumber,
    answer: Answer,
    entry: &mut Entry,
) -> Result<Step, AllocError>
    ensures { IfOk result (λ step. (old : Entry)
        → Exchanges carrier.now (rules.resends carrier.now number.value (answer_of answer) (rules.wanted_piece carrier.now.header)) old entry.new step) }
{
    let i = wanted_piece(carrier);
    let is_there = i < count(answer.reply.len());
    let step = if is_there {
        let piece = reply_piece(alloc, carrier, &answer, i)?;
        rests(Did::Resends, Adds::Packet(piece))
    } else {
        drops(Unfit::Same)
    };
    *entry = Entry::new(EntryState::Done { number, answer });
    Ok(step)
}

/// A caller's acknowledgement asks for the piece behind its fragment, and what else fetches asks for the first.
fn wanted_piece(carrier: &Packet) -> u16
    ensures { result ≡ rules.wanted_piece carrier.now.header }
{
    let header = carrier.header();
    if header.kind == Kind::Ack {
        header.fragment + 1
    } else {
        0
    }
}

/// The entry isn't as it was: it gets its state back, and the packet is dropped.
fn loses(state: EntryState, entry: &mut Entry) -> Step
    ensures worker { (p : Packet) → worker_after p result.next ≡ rules.Resting }
    ensures did { result.did ≡ Did.Drops Unfit.Lost }
    ensures adds { result.adds ≡ Adds.Nothing }
    ensures entry { entry.new ≡ entry_of state }
{
    *entry = Entry::new(state);
    drops(Unfit::Lost)
}
