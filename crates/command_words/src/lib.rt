//! The words behind the program's name: the first names a command, and `clap` reads those behind it, its options.
#![tactic(auto)]

mod command;
mod fault;
mod laws;
mod reading;

pub use command::Command;
pub use fault::WordsFault;
pub use laws::{
    a_name_alone_asks_for_its_command, each_spelling_of_a_storm_is_read,
    only_what_is_spelled_is_taken,
};
pub use reading::read_command;
