//! Why reading an interface text stops.

use crate::place::Place;
use std::alloc::{AllocError, AllocFailed};

/// What a fault is, by its number.
#[derive(Clone, Copy)]
pub enum Cause {
    /// A byte that begins no token.
    Character = 1,
    /// A comment without an end.
    OpenComment = 2,
    /// Another token than the grammar has, or the end of the text.
    Expected = 3,
    /// A number out of range.
    Number = 4,
    /// A name of more than 32 bytes.
    LongName = 5,
    /// A second name that is the same.
    Duplicate = 6,
    /// No type, or no exception, of that name.
    Unknown = 7,
    /// Another name at the end than at the beginning.
    EndName = 8,
    /// A type that is nested too deep.
    TooDeep = 9,
    /// One more procedure, exception, part or value than there may be.
    TooMany = 10,
    /// A token behind the last full stop.
    After = 11,
}

/// Why reading stops.
#[derive(Drop)]
pub enum Stop {
    /// Memory ran out.
    Memory,
    /// A fault at this place.
    Fault(Place, Cause),
}

impl From<AllocError> for Stop {
    ghost use Rattle.std.specs.Prelude.{◌≡◌};
    ghost use Rattle.interface_tokens.specs.declared.fault.Stop.TheVariants.{Memory};

    ghost from_gives = { λ _ e. e ≡ Memory };

    fn from(_: AllocError) -> Stop {
        Stop::Memory
    }
}

impl<T: Drop> From<AllocFailed<T>> for Stop {
    ghost use Rattle.std.specs.Prelude.{◌≡◌};
    ghost use Rattle.interface_tokens.specs.declared.fault.Stop.TheVariants.{Memory};

    ghost from_gives = { λ _ e. e ≡ Memory };

    fn from(_: AllocFailed<T>) -> Stop {
        Stop::Memory
    }
}
