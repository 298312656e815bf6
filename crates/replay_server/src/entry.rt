//! What the server keeps for each activity.

ghost use Rattle.std.specs.Prelude.{◌≡◌, ◌<◌, Some, None, length, slice_get, slice_set, MatchOption, if◌then◌else◌};
ghost use Rattle.call_rules.specs.Entry as rules;
ghost use Rattle.replay_model.specs.World as model;

use crate::texts::{Answer, Gathering};
use call_rules::{Phase, Seen};
use replay_model::limits::{FIRST_CLIENT, LAST_CLIENT, LAST_PROCESS};
use rpc_header::{Activity, CallNumber};
use std::marker::Model;

/// What the server keeps of the last call of an activity.
#[derive(Drop)]
pub struct Entry {
    state: EntryState,
}

#[derive(Drop)]
pub enum EntryState {
    /// No call has come.
    Empty,
    /// Pieces of a call's arguments have come.
    Gather {
        number: CallNumber,
        pieces: Gathering,
    },
    /// A worker adds a piece to them.
    Filling {
        number: CallNumber,
        pieces: Gathering,
    },
    /// The call's body runs, or is about to.
    Running {
        number: CallNumber,
    },
    /// The body has run, and its answer is kept.
    Done {
        number: CallNumber,
        answer: Answer,
    },
    /// A worker sends the answer again.
    Sending {
        number: CallNumber,
        answer: Answer,
    },
}

impl Model for Entry {
    ghost use Rattle.call_rules.specs.Entry.{Entry};
    ghost use Rattle.replay_server.specs.Entry.{entry_of};

    ghost Value = { Entry };

    ghost view = { λ e. entry_of e.state };
}

impl Entry {
    ghost use Rattle.replay_server.specs.Entry.{entry_of};

    pub fn empty() -> Self
        ensures { result ≡ rules.Empty }
    {
        Entry::new(EntryState::Empty)
    }

    pub fn new(state: EntryState) -> Self
        ensures { result ≡ entry_of state }
    {
        Entry { state }
    }

    /// Takes the state out, and leaves an empty entry.
    pub fn take(&mut self) -> EntryState
        ensures state { entry_of result ≡ self.old }
        ensures empty { self.new ≡ rules.Empty }
    {
        std::mem::replace(&mut self.state, EntryState::Empty)
    }

    /// What a worker sees of it.
    pub fn seen(&self) -> Seen
        ensures { rules.word_seen result ≡ rules.word_of self.now }
    {
        let (phase, number) = match &self.state {
            EntryState::Empty => return Seen::EMPTY,
            EntryState::Gather { number, .. } => (Phase::Gather, *number),
            EntryState::Filling { number, .. } => (Phase::Filling, *number),
            EntryState::Running { number } => (Phase::Running, *number),
            EntryState::Done { number, .. } => (Phase::Done, *number),
            EntryState::Sending { number, .. } => (Phase::Sending, *number),
        };
        Seen { phase, number }
    }
}

/// The place of an activity's entry among these, where it has one there.
pub fn place_in(entries: &[Entry], activity: Activity) -> Option<usize>
    ensures { MatchOption result
        ((model.entry_at entries.now activity ≡ None) × ((e : rules.Entry) → model.with_entry entries.now activity e ≡ entries.now))
        (λ place. (place < length entries.now) × (model.entry_at entries.now activity ≡ slice_get entries.now place)
        × ((e : rules.Entry) → model.with_entry entries.now activity e ≡ slice_set entries.now place e)) }
{
    let place = entry_place(activity)?;
    if place < entries.len() {
        Some(place)
    } else {
        None
    }
}

/// The place of an activity's entry, where it has one.
fn entry_place(activity: Activity) -> Option<usize>
    ensures { result ≡ (if model.is_entry_activity activity then Some (model.entry_place activity) else None) }
{
    let Activity { machine, process } = activity;
    let is_client = u32::from(FIRST_CLIENT) <= machine && machine <= u32::from(LAST_CLIENT);
    if is_client && 1 <= process && process <= u16::from(LAST_PROCESS) {
        let client = (machine - u32::from(FIRST_CLIENT)) as usize;
        Some(usize::from(LAST_PROCESS) * client + usize::from(process - 1))
    } else {
        None
    }
}
