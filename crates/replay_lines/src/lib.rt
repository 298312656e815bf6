//! The lines of a transcript: what is printed of each thing that happens, and the counts of calls.
//!
//! Each `put_` call appends the lines of one thing that happens. It answers `Err` only where memory is short, and
//! `out` may then end in a part of a line. Most stand in the modules [`calls`], [`deliveries`], [`lives`] and [`work`],
//! by what they tell of.
#![tactic(auto)]

mod bytes;
pub mod calls;
mod counts;
pub mod deliveries;
pub mod lives;
mod numbers;
mod packets;
mod runs;
mod text;
pub mod work;

pub use counts::{Counts, put_end};
pub use packets::put_packet;
pub use runs::put_runs;
pub use text::{Page, Print, pages_join};
