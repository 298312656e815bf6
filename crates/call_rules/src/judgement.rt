//! The judgement of a packet by its activity's entry.

ghost use Rattle.std.specs.Prelude.{◌≡◌};
ghost use Rattle.call_rules.specs.Packet.{fields_of};
ghost use Rattle.call_rules.specs.Entry as rules;
ghost use Rattle.call_rules.specs.declared.entry.Phase.TheVariants as phase;

use crate::entry::{Judged, Phase};
use rpc_header::{CallNumber, Header, Kind};

/// What a worker sees of an entry: its state, and the number of its call, which is 0 where no call has come.
#[derive(Clone, Copy, PartialEq, Eq)]
pub struct Seen {
    pub phase: Phase,
    pub number: CallNumber,
}

impl Seen {
    /// An empty entry.
    pub const EMPTY: Seen = Seen {
        phase: Phase::Empty,
        number: CallNumber { value: 0 },
    };

    /// Whether nothing that a worker sees of the entry has changed.
    pub fn is_same(self, other: Seen) -> bool
        ensures { result ≡ rules.is_same_word (rules.word_seen self) (rules.word_seen other) }
    {
        self == other
    }
}

/// The judgement of a packet by what is seen of its activity's entry. It is older where its
/// number is less than the entry's; else a packet that is no Call, Ack or Probe is unknown.
pub fn judge(seen: Seen, header: &Header) -> Judged
    ensures { result ≡ rules.judge (rules.word_seen seen) (fields_of header.now) }
{
    let number = header.call.number;
    if number < seen.number {
        return Judged::Older;
    }
    let is_same = number == seen.number;
    match header.kind {
        Kind::Call if is_same => judge_same_call(seen.phase, header),
        Kind::Call => judge_new_call(seen.phase, header),
        Kind::Ack if is_same => judge_ack(seen.phase),
        Kind::Probe if is_same => judge_probe(seen.phase),
        _ => Judged::Unknown,
    }
}

/// A Call of a number that the entry doesn't have yet.
fn judge_new_call(phase: Phase, header: &Header) -> Judged
    ensures { result ≡ rules.judged_new_call phase (fields_of header.now) }
{
    match phase {
        Phase::Running | Phase::Filling | Phase::Sending => Judged::Busy,
        Phase::Empty | Phase::Gather | Phase::Done => judge_first_piece(header),
    }
}

/// A Call of the entry's own number.
fn judge_same_call(phase: Phase, header: &Header) -> Judged
    ensures { result ≡ rules.judged_same_call phase (fields_of header.now) }
{
    match phase {
        Phase::Empty => judge_first_piece(header),
        Phase::Gather => Judged::More,
        Phase::Filling | Phase::Sending => Judged::Busy,
        Phase::Running if header.please_ack => Judged::Ack,
        Phase::Done if header.last => Judged::Fetch,
        Phase::Running | Phase::Done => Judged::Same,
    }
}

/// An Ack of the entry's own number.
fn judge_ack(phase: Phase) -> Judged
    ensures { result ≡ rules.judged_ack phase }
{
    match phase {
        Phase::Empty => Judged::Unknown,
        Phase::Done => Judged::Fetch,
        Phase::Gather | Phase::Filling | Phase::Running | Phase::Sending => Judged::Busy,
    }
}

/// A Probe of the entry's own number.
fn judge_probe(phase: Phase) -> Judged
    ensures { result ≡ rules.judged_probe phase }
{
    match phase {
        Phase::Empty => Judged::Unknown,
        Phase::Done => Judged::Fetch,
        Phase::Running | Phase::Sending => Judged::Ack,
        Phase::Gather | Phase::Filling => Judged::Busy,
    }
}

/// A Call that begins, where its entry takes one.
fn judge_first_piece(header: &Header) -> Judged
    ensures { result ≡ rules.judged_new_call phase.Empty (fields_of header.now) }
{
    if header.fragment != 0 {
        Judged::Skipped
    } else if header.last {
        Judged::Admit
    } else {
        Judged::Begin
    }
}
