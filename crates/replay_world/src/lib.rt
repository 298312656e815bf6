//! The player of scripts: its world, which steps by events and prints the lines of each.
#![tactic(auto)]

mod counts;
mod delivery;
mod world;

pub use counts::Counts;
pub use replay_model::{CallWord, Event};
pub use script_text::{Script, ScriptFault, parse_script};
pub use world::{KEPT_PACKETS, World};
