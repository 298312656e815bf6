// The pieces of a text, where they lie in it.

ghost use Rattle.std.specs.Prelude.{◌≡◌, ◌≤◌, ◌<◌, ◌*◌, ℕ, [], length};
ghost use Rattle.fragments.specs.Pieces as text;
ghost use Rattle.fragments.specs.Pieces.{last_piece, piece_count};

use crate::limits::{LONG, PIECE, PIECES};

/// The number of pieces of a text of `len` bytes: at least one.
pub fn count(len: usize) -> u16
    requires { len ≤ LONG }
    ensures pieces { result ≡ piece_count len }
    ensures at_least_one { 1 ≤ result }
    ensures at_most { result ≤ PIECES }
    ensures enough { len ≤ PIECE * result }
    ensures least { (k : ℕ) → 1 ≤ k → len ≤ PIECE * k → result ≤ k }
{
    let last = len.saturating_sub(1) / PIECE;
    last as u16 + 1
}

/// Piece `i` of a text, counted from 0.
pub fn piece(bytes: &[u8], i: u16) -> &[u8]
    requires { i < piece_count (length bytes.now) }
    ensures piece { result.now ≡ text.piece bytes.now i }
    ensures full { i < last_piece (length bytes.now) → length result.now ≡ PIECE }
    ensures fits { length result.now ≤ PIECE }
    ensures empty { result.now ≡ [] → bytes.now ≡ [] }
{
    let rest = &bytes[PIECE * usize::from(i)..];
    &rest[..rest.len().min(PIECE)]
}
