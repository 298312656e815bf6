//! Why no plan was made, no values were written, and none were read.
ghost use Rattle.std.specs.Prelude.{◌≡◌};
ghost use Rattle.marshal_plans.specs.declared.fault.GetFault.TheVariants as get_fault;
ghost use Rattle.marshal_plans.specs.declared.fault.PlanFault.TheVariants as plan_fault;

use std::alloc::{AllocError, AllocFailed};
use thiserror::Error;

/// Why an interface has no plans.
#[derive(Clone, Copy, PartialEq, Eq, Debug, Error)]
pub enum PlanFault {
    /// The arguments or the reply of a procedure may be longer than a call carries: the first such procedure, its arguments before its
    /// reply, and the greatest length, or 4294967295 where it is above that.
    #[error("procedure {procedure} may take {bytes} bytes")]
    TooLong { procedure: u16, bytes: u32 },
    /// Memory ran out.
    #[error("out of memory")]
    Memory,
}

/// Why values were not written.
#[derive(Clone, Copy, PartialEq, Eq, Debug, Error)]
pub enum PutFault {
    /// The values aren't of the plan's types.
    #[error("values of other types")]
    Shape,
    /// Their encoding is longer than the room for it.
    #[error("no room")]
    Room,
}

/// Why no values were read. An item is one number of the encoding, and stands at its first byte.
#[derive(Clone, Copy, PartialEq, Eq, Debug, Error)]
pub enum GetFault {
    /// The bytes end within the item that starts here.
    #[error("the item at {at} isn't whole")]
    Short { at: usize },
    /// The item here is no value of its type.
    #[error("the item at {at} is out of range")]
    Range { at: usize },
    /// All items were read, and bytes are left from here on.
    #[error("bytes are left from {at} on")]
    Left { at: usize },
    /// Memory ran out.
    #[error("out of memory")]
    Memory,
}

impl From<AllocError> for PlanFault {
    ghost from_gives = { λ _ e. e ≡ plan_fault.Memory };

    fn from(_error: AllocError) -> PlanFault {
        PlanFault::Memory
    }
}

impl<T: Drop> From<AllocFailed<T>> for PlanFault {
    ghost from_gives = { λ _ e. e ≡ plan_fault.Memory };

    fn from(_error: AllocFailed<T>) -> PlanFault {
        PlanFault::Memory
    }
}

impl From<AllocError> for GetFault {
    ghost from_gives = { λ _ e. e ≡ get_fault.Memory };

    fn from(_error: AllocError) -> GetFault {
        GetFault::Memory
    }
}

impl<T: Drop> From<AllocFailed<T>> for GetFault {
    ghost from_gives = { λ _ e. e ≡ get_fault.Memory };

    fn from(_error: AllocFailed<T>) -> GetFault {
        GetFault::Memory
    }
}
