//! A long packet's bytes, and how a text is gathered in them.
ghost use Rattle.std.specs.Prelude.{◌≡◌, ◌+◌, ◌*◌, ◌≤◌, ◌<◌, ◌↔◌, ◌++◌, ◌==◌, ℕ, List, IsTrue, not, length, take, drop};
ghost use Rattle.std.specs.Borrow.{sem};
ghost use Rattle.fragments.specs.Gathering.{Gathers};
ghost use Rattle.fragments.specs.Pieces.{piece as piece_of, last_piece};
ghost use Rattle.packet_pool.specs.Packets.{long_number, long_content};
ghost use Rattle.packet_pool.specs.Contents.{long_payload_of, with_piece};
ghost use Rattle.packet_pool.specs.Lending.{LendsText};

use crate::packet::LongPacket;
use fragments::{Gathered, LONG, PIECE, PIECES, Pushed};

impl LongPacket {
    /// Whether n is its buffer.
    pub fn has(&self, n: u16) -> bool
        ensures { IsTrue result ↔ (n ≡ long_number self.now) }
    {
        n == self.number
    }

    /// Whether its data is a signal's.
    pub fn is_signal(&self) -> bool
        ensures { result ≡ (long_content self.now).signal }
    {
        self.signal
    }

    /// How far a text is gathered in it.
    pub fn gathered(&self) -> Gathered
        ensures { result ≡ (long_content self.now).gathered }
    {
        self.gathered
    }

    /// Its data.
    pub fn payload(&self) -> &[u8]
        ensures data { result.now ≡ long_payload_of (long_content self.now) }
        ensures len { length result.now ≡ (long_content self.now).len }
        ensures short { length result.now ≤ LONG }
    {
        &self.bytes[..self.len]
    }

    /// All its bytes, which may all be data.
    pub fn room(&mut self) -> &mut [u8]
        ensures* writes_back { sem 𝓛 (LendsText self.entry result) }
        ensures value { result.now ≡ (long_content self.old).bytes }
        ensures len { length result.now ≡ LONG }
    {
        self.bytes.as_mut_slice()
    }

    /// Says whether the data is a signal's, and how long it is.
    pub fn set(&mut self, signal: bool, len: usize)
        requires { len ≤ LONG }
        ensures number { long_number self.new ≡ long_number self.old }
        ensures content { long_content self.new ≡ record (long_content self.old) { signal = signal; len = len } }
    {
        self.signal = signal;
        self.len = len;
    }

    /// Adds piece `i` of a text to what is gathered, where it is the one that is due, and keeps the length of the gathered
    /// bytes. It is `Gathered::push` on its bytes.
    pub fn gather(&mut self, i: u16, last: bool, piece: &[u8]) -> Pushed
        requires number { i < PIECES }
        requires fits { length piece.now ≤ PIECE }
        requires full { IsTrue (not last) → length piece.now ≡ PIECE }
        requires whole_pieces { (long_content self.old).gathered.len ≡ PIECE * (long_content self.old).gathered.next }
        ensures buffer { long_number self.new ≡ long_number self.old }
        ensures more { (result ≡ Pushed.More) ↔ ((i ≡ (long_content self.old).gathered.next) × IsTrue (not last)) }
        ensures whole { (len : ℕ) → (result ≡ Pushed.Whole len)
            ↔ ((i ≡ (long_content self.old).gathered.next) × IsTrue last × (len ≡ (long_content self.old).gathered.len + length piece.now)) }
        ensures again { (result ≡ Pushed.Again) ↔ (i < (long_content self.old).gathered.next) }
        ensures skipped { (result ≡ Pushed.Skipped) ↔ ((long_content self.old).gathered.next < i) }
        ensures added { i ≡ (long_content self.old).gathered.next → long_content self.new ≡ with_piece (long_content self.old) piece.now }
        ensures whole_pieces { IsTrue (not last) → (long_content self.new).gathered.len ≡ PIECE * (long_content self.new).gathered.next }
        ensures unchanged { ¬ (i ≡ (long_content self.old).gathered.next) → long_content self.new ≡ long_content self.old }
        ensures gathers { (t : List ℕ) → Gathers t (long_content self.old).gathered (long_content self.old).bytes → piece.now ≡ piece_of t i
            → Gathers t (long_content self.new).gathered (long_content self.new).bytes }
        ensures text { (t : List ℕ) (len : ℕ) → Gathers t (long_content self.old).gathered (long_content self.old).bytes → piece.now ≡ piece_of t i
            → last ≡ (i == last_piece (length t)) → result ≡ Pushed.Whole len → long_payload_of (long_content self.new) ≡ t }
    {
        let mut gathered = self.gathered;
        let pushed = gathered.push(self.bytes.as_mut_slice(), i, last, piece);
        self.gathered = gathered;
        match pushed {
            Pushed::More | Pushed::Whole(_) => self.len = gathered.len,
            Pushed::Again | Pushed::Skipped => {}
        }
        pushed
    }
}
