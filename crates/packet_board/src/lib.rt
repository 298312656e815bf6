//! A board: words that threads change in single steps, buffers that each belong to one of them or to a word, and a law
//! of the user's that every step keeps.
#![tactic(auto)]

mod board;
mod buffer;
mod closing;
mod free_words;
mod law;
mod layout;
mod making;
mod plays;
mod seat;
mod seats;
mod steps;
mod view;
mod word;

pub use board::{Board, Closed, StillOut};
pub use buffer::{Buffer, SMALL_BYTES};
pub use free_words::FreeWords;
pub use law::{BoardLaw, Choice};
pub use layout::Layout;
pub use seat::Seat;
pub use view::{Met, View};
pub use word::Word;
