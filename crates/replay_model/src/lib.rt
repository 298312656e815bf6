//! The abstract machine that a script is played on, as definitions: the script's grammar, the world with
//! its machines, packets and records, the step of each event, the lines that it prints, and what holds of
//! the world after any events. And a storm over it: the numbers that a seed draws, the rounds that are drawn over the
//! world that is reached, the calls that are open, and the summary of what became of the calls.
//!
//! The definitions stand in `specs/`, for contracts to cite. The types of an event stand here, the generator of a storm
//! with its options, and laws over the definitions: the contract of each is the law, and its body is empty or only calls
//! laws that it rests on.
#![tactic(auto)]

mod discard;
mod draws;
mod event;
mod laws;
pub mod limits;
mod line_laws;
mod options;
mod run_line;
mod text_fault;

pub use discard::Discard;
pub use draws::Draws;
pub use event::{ADD, BUMP, CallWord, Event, MAX_ARG, MAX_RESULT, NULL};
pub use laws::fields_are_a_header;
pub use line_laws::acts_print_whole_lines;
pub use options::{MOST_CALLS, ROUNDS_A_CALL, StormOptions};
pub use run_line::RunLine;
pub use text_fault::TextFault;
