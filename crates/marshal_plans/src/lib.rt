//! Plans: what a type's bytes are, as flat lists of instructions, and the writing and reading of values by them.
#![tactic(auto)]

mod basic;
mod compiling;
mod cursor;
mod fault;
mod getting;
mod instruction;
mod laws;
mod lengths;
mod levels;
mod limits;
mod plan;
mod putting;
mod reading;
mod step;
mod text;
mod value;
mod writing;

pub use basic::Basic;
pub use compiling::compile;
pub use fault::{GetFault, PlanFault, PutFault};
pub use getting::get;
pub use instruction::{Extent, Instruction};
pub use laws::{
    bytes_have_one_meaning, lengths_are_between_least_and_largest, what_is_got_was_put,
    what_is_put_is_got,
};
pub use lengths::{MAX_BYTES, largest_len, least_len};
pub use limits::{MAX_DEPTH, is_shallow};
pub use plan::{Plan, PlanPair, Plans};
pub use putting::put;
pub use value::{Value, Values};
