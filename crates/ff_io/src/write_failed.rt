// A write that failed.
use thiserror::Error;

/// A write to a [`Sink`](crate::Sink) failed.
#[derive(Clone, Copy, Debug, PartialEq, Eq, Error)]
#[error("a write failed")]
pub struct WriteFailed;
