//! The commands of the program, each a call over what it reads and what it writes: `replay`, `storm` and `stubs`, and how
//! a run ends with a fault.
#![tactic(auto)]

mod drawing;
mod ending;
mod fault_line;
mod plan_text;
mod replay;
mod rounds;
mod status;
mod storm;
mod stubs;
mod summary;

pub use ending::{end_with, end_without_memory};
pub use replay::{INPUT_LIMIT, LINE_LIMIT, run_replay};
pub use status::Status;
pub use storm::run_storm;
pub use stubs::run_stubs;
