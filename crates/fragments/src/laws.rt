//! What holds of texts and their pieces. Each function here does nothing: its contract is the law.

ghost use Rattle.std.specs.Prelude.{◌≡◌, ◌≤◌, ◌<◌, ◌+◌, ◌*◌, ◌++◌, ℕ, List, [], length, take, slice_get, Some};
ghost use Rattle.std.specs.List.{All};
ghost use Rattle.fragments.specs.Gathering.{Gathers};
ghost use Rattle.fragments.specs.Pieces.{ArePieces, cut, front, join, last_piece, piece, piece_count, piece_size};

use crate::limits::{LONG, PIECE, PIECES};

/// Joining what was cut gives the text.
pub fn joining_gives_the_text()
    ensures { (text : List ℕ) → join (cut text) ≡ text }
{}

/// Cutting a text gives pieces, and no other pieces join to that text; a list of pieces is that of one
/// text alone.
pub fn a_text_has_one_list_of_pieces()
    ensures pieces { (text : List ℕ) → ArePieces (cut text) }
    ensures one_list { (pieces : List (List ℕ)) → ArePieces pieces → cut (join pieces) ≡ pieces }
    ensures one_text { (s t : List ℕ) → cut s ≡ cut t → s ≡ t }
    ensures count { (text : List ℕ) → length (cut text) ≡ piece_count (length text) }
    ensures each { (text : List ℕ) (i : ℕ) → i < piece_count (length text)
        → slice_get (cut text) i ≡ Some (piece text i) }
{}

/// The first pieces of a text: none, then one more at a time, and at last the text.
pub fn fronts_grow_by_a_piece()
    ensures none { (text : List ℕ) → front text 0 ≡ [] }
    ensures more { (text : List ℕ) (k : ℕ) → front text (k + 1) ≡ front text k ++ piece text k }
    ensures all { (text : List ℕ) → front text (last_piece (length text) + 1) ≡ text }
    ensures joined { (text : List ℕ) (k : ℕ) → k ≤ piece_count (length text)
        → front text k ≡ join (take k (cut text)) }
    ensures bytes { (text : List ℕ) (k : ℕ) → k ≤ last_piece (length text) → length (front text k) ≡ piece_size * k }
{}

/// The pieces of a text have the full size, but for the last; there is none behind it.
pub fn pieces_before_the_last_are_full()
    ensures full { (text : List ℕ) (i : ℕ) → i < last_piece (length text) → length (piece text i) ≡ piece_size }
    ensures fits { (text : List ℕ) (i : ℕ) → length (piece text i) ≤ piece_size }
    ensures empty { (text : List ℕ) → piece text (last_piece (length text)) ≡ [] → text ≡ [] }
    ensures behind { (text : List ℕ) (i : ℕ) → last_piece (length text) < i → piece text i ≡ [] }
    ensures bytes { (text : List ℕ) (i : ℕ) → All (λ byte. byte < 256) text → All (λ byte. byte < 256) (piece text i) }
    ensures number { (len : ℕ) → len ≤ LONG → last_piece len < PIECES }
{}

/// In any buffer nothing is gathered of any text before the first piece is added.
pub fn nothing_is_gathered_at_first()
    ensures { (text buffer : List ℕ) → Gathers text (record { len = 0; next = 0 }) buffer }
{}
