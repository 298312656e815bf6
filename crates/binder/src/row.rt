// What a row has, and what the exports answer.

use crate::interface::InterfaceName;
use thiserror::Error;

/// An interface that a server exports.
#[derive(Clone, Copy, PartialEq, Eq, Debug)]
pub struct ExportRow {
    pub name: InterfaceName,
    /// Tells this export from each other that the server's machine has made or will make.
    pub identifier: u32,
    /// How many procedures the interface has.
    pub procedures: u16,
}

/// Why a name isn't exported. Where several apply, the first is given.
#[derive(Clone, Copy, PartialEq, Eq, Debug, Error)]
pub enum ExportFault {
    #[error("the name is exported")]
    Exists,
    #[error("no row is free")]
    Full,
    #[error("the next identifier, {next}, is greater than the second, {now}")]
    TooFast { next: u64, now: u32 },
    #[error("no memory")]
    Memory,
}

/// What the exports say to a call's binding and procedure.
#[derive(Clone, Copy, PartialEq, Eq, Debug)]
pub enum Verdict {
    Accepted,
    /// The row is free or has another export, or there is no such row.
    WrongBinding,
    /// The interface has no procedure of this number.
    NoProcedure,
}
