//! Why no script was read.
ghost use Rattle.std.specs.Prelude.{◌≡◌};
ghost use Rattle.replay_model.specs.FaultNumber.{number_of};
ghost use Rattle.script_text.specs.declared.fault.TheConstants.ScriptFault as fault;

use replay_model::TextFault;
use std::alloc::{AllocError, AllocFailed};
use thiserror::Error;

/// The line at which a text is refused, from 1, and the number of the fault there.
#[derive(Clone, Copy, PartialEq, Eq, Debug, Error)]
#[error("line {line}: fault {number}")]
pub struct ScriptFault {
    /// The line, or 0 where memory ran out.
    pub line: u32,
    /// The fault's number from 1 on, or 0 where memory ran out.
    pub number: u8,
}

impl ScriptFault {
    /// Memory ran out.
    pub const MEMORY: ScriptFault = ScriptFault { line: 0, number: 0 };

    /// A fault at a line.
    pub fn at(line: u32, fault: TextFault) -> ScriptFault
        ensures { result ≡ record { line = line; number = number_of fault } }
    {
        ScriptFault {
            line,
            number: u8::from(fault),
        }
    }
}

impl From<AllocError> for ScriptFault {
    ghost from_gives = { λ _ e. e ≡ fault.MEMORY };

    fn from(_error: AllocError) -> ScriptFault {
        ScriptFault::MEMORY
    }
}

impl<T: Drop> From<AllocFailed<T>> for ScriptFault {
    ghost from_gives = { λ _ e. e ≡ fault.MEMORY };

    fn from(_error: AllocFailed<T>) -> ScriptFault {
        ScriptFault::MEMORY
    }
}
