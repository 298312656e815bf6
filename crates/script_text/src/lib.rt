//! The reading of scripts: the text of a script becomes its events, and every other text is refused at its first
//! fault.
#![tactic(auto)]

mod call;
mod fault;
mod laws;
mod line;
mod lines;
mod number;
mod place;
mod script;
mod verb;
mod word;

pub use fault::ScriptFault;
pub use laws::{no_fault_where_spelled, one_reading};
pub use lines::count_lines;
pub use script::{Script, parse_script};
