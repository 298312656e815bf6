// A read that failed.
use thiserror::Error;

/// A read of a [`Source`](crate::Source) failed.
#[derive(Clone, Copy, Debug, PartialEq, Eq, Error)]
#[error("a read failed")]
pub struct ReadFailed;
