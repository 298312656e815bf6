//! What becomes of calls, whatever events come: each that was started comes to one end, or is open.
//!
//! There is no program here. The contract of the function is the law.
#![tactic(auto)]

ghost use Rattle.std.specs.Prelude.{ℕ, List};
ghost use Rattle.replay_model.specs.declared.event.Event.{Event};
ghost use Rattle.replay_model.specs.World.{first_world};
ghost use Rattle.replay_model.specs.Summary.{IsBalanced, summary_over};

/// Whatever events come, in whatever order and as often as they like, each call that was started has returned, with a
/// signal or without, has failed, was refused, was lost at its client's restart, or is open: the numbers of these add
/// up to that of the calls that were started.
pub fn each_call_has_one_end()
    ensures { (small long : ℕ) (events : List Event) → IsBalanced (summary_over (first_world small long) events) }
{}
