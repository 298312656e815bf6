//! The caller's side of a call as a pure machine, without bytes, clocks or threads: what it is told is a
//! start or a header, and what it answers is an [`Action`].
//!
//! Contracts see a [`Caller`] as the record of the same name in `call_rules`, and each call is exactly the
//! row of the caller's table there.
#![tactic(auto)]

mod action;
mod caller;
mod state;

pub use action::Action;
pub use caller::Caller;
