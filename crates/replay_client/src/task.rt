//! What a process has to do.

ghost use Rattle.call_rules.specs.Packet.{Call};
ghost use Rattle.replay_model.specs.Process as process;

use crate::told::{Cause, Said};

/// What a process had to do before a step.
#[derive(Clone, Copy, PartialEq, Eq)]
pub(crate) enum Task {
    Call,
    Bind,
}

impl Task {
    ghost use Rattle.replay_client.specs.Task.{is_bind};
    ghost use Rattle.replay_client.specs.Told.{Says};

    /// No transmission of it was answered.
    pub(crate) fn gives_up(self) -> Said
        ensures { (call : Call) → Says call result (process.gives_up (is_bind self)) }
    {
        match self {
            Task::Call => Said::Fails(Cause::Unanswered),
            Task::Bind => Said::BindFails,
        }
    }
}
