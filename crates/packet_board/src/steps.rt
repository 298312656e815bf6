//! The steps of a seat on a cell, and on a buffer in its hands.
ghost use Rattle.std.specs.Prelude.{◌≡◌, ◌≢◌, ◌<◌, ◌≤◌, ℕ, IfOk, IfErr, MatchResult, Option, Some, None, ◌∷◌};
ghost use mathlib.Core.Option.{none, some};
ghost use Rattle.packet_board.specs.Words.{Fits, buffers_of, cell_count, IsBuffer};
ghost use Rattle.packet_board.specs.Hands.{gives_of, CanGive, IsStowed, IsUnstowed, given_by, updated, lookup, removed};
ghost use Rattle.packet_board.specs.Views.{looked};
ghost use Rattle.packet_board.specs.Laws.{WasAt, Sees, Learns, Picks};
ghost use Rattle.packet_board.specs.Seats.{view, held, number, layout_of, IsSeatOf, IsSameSeat, Exchanged};

use crate::board::Board;
use crate::buffer::Buffer;
use crate::law::{BoardLaw, Choice};
use crate::plays::{Bring, Look, Swap};
use crate::seat::Seat;
use crate::word::Word;

impl<L: BoardLaw> Board<L> {
    /// The word of a cell.
    pub fn load<M: Choice<L::Notes>>(&self, seat: &mut Seat<L>, cell: usize) -> Word
        requires seat { IsSeatOf self.now seat.old }
        requires cell { cell < cell_count (layout_of self.now) }
        requires tells { Sees L.holds (layout_of self.now) (number seat.old) (view seat.old) cell M.tells }
        ensures seat { IsSameSeat seat.old seat.new }
        ensures word { Fits result }
        ensures tells { M.tells (view seat.old) result }
        ensures was { WasAt L.holds cell result (view seat.old) }
        ensures view { view seat.new ≡ looked (view seat.old) cell result }
        ensures held { held seat.new ≡ held seat.old }
    {
        let found = self
            .table
            .shared
            .load::<Look<L, M>>(&mut seat.token, cell + 1);
        Word::unpack(found)
    }

    /// Puts `new` in place of `old`, if the cell holds `old`. The buffer of `new` then leaves the hands, and that of `old`
    /// comes into them, where they differ. Or else it gives the word that the cell holds, and leaves it.
    pub fn exchange<M: Choice<L::Notes>>(
        &self,
        seat: &mut Seat<L>,
        cell: usize,
        old: Word,
        new: Word,
    ) -> Result<(), Word>
        requires seat { IsSeatOf self.now seat.old }
        requires cell { cell < cell_count (layout_of self.now) }
        requires words { Fits old × Fits new }
        requires gives { CanGive (gives_of old.buffer new.buffer) (held seat.old) }
        requires law { Picks L.holds L.allows M.chooses (layout_of self.now) (number seat.old) (view seat.old) cell old new (given_by (gives_of old.buffer new.buffer) (held seat.old)) }
        requires tells { Learns L.holds (layout_of self.now) (number seat.old) (view seat.old) cell old M.tells }
        ensures seat { IsSameSeat seat.old seat.new }
        ensures was { MatchResult result (λ _. WasAt L.holds cell old (view seat.old)) (λ word. WasAt L.holds cell word (view seat.old)) }
        ensures done { IfOk result (λ _. Exchanged M.chooses (layout_of self.now) (view seat.old) (view seat.new) (held seat.old) (held seat.new) cell old new) }
        ensures met { IfErr result (λ word. (word ≢ old) × Fits word × M.tells (view seat.old) word × (view seat.new ≡ looked (view seat.old) cell word) × (held seat.new ≡ held seat.old)) }
    {
        let expected = old.pack();
        let found = self
            .table
            .shared
            .compare_exchange::<Swap<L, M>>(&mut seat.token, cell + 1, expected, new.pack());
        if found == expected {
            Ok(())
        } else {
            Err(Word::unpack(found))
        }
    }

    // Brings the slot of a number in the hands to the front.
    fn bring(&self, seat: &mut Seat<L>, n: u16)
        requires seat { IsSeatOf self.now seat.old }
        requires held { (y : Option Buffer) × (held seat.old n ≡ some y) }
        ensures seat { (seat.new.token.table_id ≡ seat.old.token.table_id) × (seat.new.token.id ≡ seat.old.token.id) }
        ensures front { (y : Option Buffer) × (held seat.old n ≡ some y) × (seat.new.token.me ≡ (seat.old.token.me.0, (n, y) ∷ removed n seat.old.token.me.1)) }
    {
        self.table.shared.load::<Bring>(&mut seat.token, n as usize);
    }

    /// Takes the buffer of a number in the hands out of its slot. No byte is copied.
    pub fn unstow(&self, seat: &mut Seat<L>, n: u16) -> Buffer
        requires seat { IsSeatOf self.now seat.old }
        requires stowed { IsStowed (held seat.old) n }
        ensures seat { IsSameSeat seat.old seat.new }
        ensures buffer { held seat.old n ≡ some (Some result) }
        ensures bounds { (n < buffers_of (layout_of self.now)) × IsBuffer (layout_of self.now) n result }
        ensures view { view seat.new ≡ view seat.old }
        ensures held { held seat.new ≡ updated n (some None) (held seat.old) }
    {
        self.bring(seat, n);
        match self
            .table
            .shared
            .exchange(&mut seat.token, n as usize, None)
        {
            Some(buffer) => buffer,
            None => unreachable!(),
        }
    }

    /// Puts a buffer into the slot of a number in the hands that is out of it.
    pub fn stow(&self, seat: &mut Seat<L>, n: u16, buffer: Buffer)
        requires seat { IsSeatOf self.now seat.old }
        requires unstowed { IsUnstowed (held seat.old) n }
        requires bounds { IsBuffer (layout_of self.now) n buffer }
        ensures seat { IsSameSeat seat.old seat.new }
        ensures view { view seat.new ≡ view seat.old }
        ensures held { held seat.new ≡ updated n (some (Some buffer)) (held seat.old) }
    {
        self.bring(seat, n);
        match self
            .table
            .shared
            .exchange(&mut seat.token, n as usize, Some(buffer))
        {
            None => {}
            Some(_) => unreachable!(),
        }
    }
}
