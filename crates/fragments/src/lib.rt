//! Long texts in pieces: how many there are, each piece where it lies in the text, and the text gathered
//! from its pieces in place.
#![tactic(auto)]

mod gathered;
mod laws;
mod limits;
mod pieces;

pub use gathered::{Gathered, Pushed};
pub use laws::{
    a_text_has_one_list_of_pieces, fronts_grow_by_a_piece, joining_gives_the_text,
    nothing_is_gathered_at_first, pieces_before_the_last_are_full,
};
pub use limits::{LONG, PIECE, PIECES};
pub use pieces::{count, piece};
