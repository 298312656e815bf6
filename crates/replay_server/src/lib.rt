//! The server machine of the player: what it keeps for each activity, its workers, its exports, and the test
//! service that its bodies are. A worker's step is a row of the rules; what it did is one value, for whoever
//! plays it to tell.
#![tactic(auto)]

mod answers;
mod entry;
mod idle_rules;
mod machine;
mod service;
mod stage;
mod step;
mod task_rules;
mod texts;
mod worker;

pub use machine::ServerMachine;
pub use step::{Adds, Stepped, Worked};
