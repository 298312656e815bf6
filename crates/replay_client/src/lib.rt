//! A client machine: processes that make calls, one at a time each, over the caller's machine of `caller_core`.
//!
//! A process is asked for a call or a bind, passes over numbers, takes a packet or has a tick. What it tells of that is
//! one value, a [`Told`], with the packet that it sends in its frame. Contracts see a [`machine::ClientMachine`] as the
//! client of `replay_model`, and each call is the step of the model there.
#![tactic(auto)]

mod line;
pub mod machine;
mod task;
mod told;
mod words;

pub use line::Took;
pub use told::{Cause, Said, Told};
pub use words::{arguments_of, procedure_of};
