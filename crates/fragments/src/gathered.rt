// A text that is gathered from its pieces.

ghost use Rattle.std.specs.Prelude.{◌≡◌, ◌≤◌, ◌<◌, ◌+◌, ◌*◌, ◌==◌, ◌↔◌, ◌++◌, ℕ, List, length, take, drop, IsTrue, not};
ghost use Rattle.fragments.specs.Gathering.{Gathers};
ghost use Rattle.fragments.specs.Pieces as text;
ghost use Rattle.fragments.specs.Pieces.{last_piece};

use crate::limits::{LONG, PIECE, PIECES};
use std::cmp::Ordering;

/// How much of a text lies gathered in a buffer.
#[derive(Clone, Copy, PartialEq, Eq, Debug, Default)]
pub struct Gathered {
    /// The number of bytes gathered.
    pub len: usize,
    /// The number of the piece that is due next.
    pub next: u16,
}

/// What became of a piece.
#[derive(Clone, Copy, PartialEq, Eq, Debug)]
pub enum Pushed {
    /// It was added, and more are to come.
    More,
    /// It was added and is the last: the text has this many bytes.
    Whole(usize),
    /// It was gathered before.
    Again,
    /// Another is due before it.
    Skipped,
}

impl Gathered {
    /// Adds piece `i` to the text in `into`, where it is the one that is due. The bytes behind it stay.
    pub fn push(&mut self, into: &mut [u8], i: u16, last: bool, piece: &[u8]) -> Pushed
        requires room { length into.old ≡ LONG }
        requires number { i < PIECES }
        requires fits { length piece.now ≤ PIECE }
        requires full { IsTrue (not last) → length piece.now ≡ PIECE }
        requires whole_pieces { self.old.len ≡ PIECE * self.old.next }
        ensures more { (result ≡ Pushed.More) ↔ ((i ≡ self.old.next) × IsTrue (not last)) }
        ensures whole { (len : ℕ) → (result ≡ Pushed.Whole len)
            ↔ ((i ≡ self.old.next) × IsTrue last × (len ≡ self.old.len + length piece.now)) }
        ensures again { (result ≡ Pushed.Again) ↔ (i < self.old.next) }
        ensures skipped { (result ≡ Pushed.Skipped) ↔ (self.old.next < i) }
        ensures counted { i ≡ self.old.next
            → self.new ≡ record { len = self.old.len + length piece.now; next = self.old.next + 1 } }
        ensures added { i ≡ self.old.next
            → into.new ≡ take self.old.len into.old ++ piece.now ++ drop (self.old.len + length piece.now) into.old }
        ensures whole_pieces { IsTrue (not last) → self.new.len ≡ PIECE * self.new.next }
        ensures unchanged { ¬ (i ≡ self.old.next) → (self.new ≡ self.old) × (into.new ≡ into.old) }
        ensures gathers { (t : List ℕ) → Gathers t self.old into.old → piece.now ≡ text.piece t i
            → Gathers t self.new into.new }
        ensures text { (t : List ℕ) (len : ℕ) → Gathers t self.old into.old → piece.now ≡ text.piece t i
            → last ≡ (i == last_piece (length t)) → result ≡ Pushed.Whole len → take len into.new ≡ t }
    {
        match i.cmp(&self.next) {
            Ordering::Less => return Pushed::Again,
            Ordering::Greater => return Pushed::Skipped,
            Ordering::Equal => {}
        }
        let end = self.len + piece.len();
        into[self.len..end].copy_from_slice(piece);
        self.len = end;
        self.next = i + 1;
        if last {
            Pushed::Whole(end)
        } else {
            Pushed::More
        }
    }
}
