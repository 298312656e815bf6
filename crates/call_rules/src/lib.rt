//! The protocol's rules as tables: packets, the entry that a server keeps for each activity with the
//! judgement of a packet by it, the steps of a worker, and the steps of a caller.
//!
//! The tables stand in `specs/`, for contracts to cite. Their plain words are the enums here, which the tables
//! cite. The functions here are laws over the tables: each has an empty body, and its contract is the law.
#![tactic(auto)]

mod caller;
mod entry;
mod judgement;
mod worker;

ghost use Rattle.std.specs.Prelude.{◌≡◌, ◌<◌, ◌⊎◌};
ghost use Rattle.call_rules.specs.Packet.{Fields};
ghost use Rattle.call_rules.specs.Entry.{Word, judge};
ghost use Rattle.call_rules.specs.declared.entry.Judged.TheVariants as judged;
ghost use Rattle.call_rules.specs.declared.entry.Phase.TheVariants as phase;

pub use caller::{QUIET_TICKS, TRIES};
pub use entry::{Judged, Phase};
pub use judgement::{Seen, judge};
pub use worker::{Did, Unfit};

/// A packet is admitted only where the entry is empty or the packet's number is greater than the entry's.
pub fn admits_only_a_greater_number()
    ensures { (w : Word) (h : Fields) → judge w h ≡ judged.Admit → (w.phase ≡ phase.Empty) ⊎ (w.number < h.call.number) }
{}
