//! The end of a board.
ghost use Rattle.std.specs.Prelude.{◌≡◌, ◌≢◌, ◌+◌, ◌<◌, ℕ, true, false, [], map, length, slice_index_or, vec_capacity, Option, Some, MatchResult};
ghost use Rattle.std.specs.Slots.{slots_items, slots_filled, slots_len, IsFull};
ghost use mathlib.Core.Option.{some};
ghost use lib.ListN.{get_elem?};
ghost use Rattle.packet_board.specs.declared.word.Word.{Word as AnyWord};
ghost use Rattle.packet_board.specs.Words.{cell_count, Fits};
ghost use Rattle.packet_board.specs.Hands.{HoldsNothing, AreThere};
ghost use Rattle.packet_board.specs.Views.{told_out};
ghost use Rattle.packet_board.specs.Laws.{WasOut};
ghost use Rattle.packet_board.specs.Rule.{cells_of};
ghost use Rattle.packet_board.specs.Seats.{view, held, number, layout_of, IsSeatOf, IsSameSeat, Ended};

use crate::board::{Board, Closed, StillOut};
use crate::buffer::Buffer;
use crate::law::BoardLaw;
use crate::seat::Seat;
use crate::word::Word;
use item_list::Items;
use std::alloc::Global;

type Left = atomic_table::Closed<Option<Buffer>, Global>;

// The word of each cell, into the room that is given.
fn cells_left(left: &Left, mut words: Vec<Word>, cells: usize) -> Vec<Word>
    requires room { (words.items ≡ []) × (vec_capacity words ≡ cells) }
    requires left { IsFull left.now.words × (length (slots_items left.now.words) ≡ cells + 1) }
    ensures words { result.items ≡ cells_of (slots_items left.now.words) }
    ensures fit { (cell : ℕ) (w : AnyWord) → get_elem? result.items cell ≡ some w → Fits w }
{
    for cell in 0..cells {
        words.push_reserved(Word::unpack(left.word(cell + 1)));
    }
    words
}

// Each buffer, into the room that is given.
fn buffers_left(left: &mut Left, mut buffers: Vec<Buffer>, count: usize) -> Vec<Buffer>
    requires room { (buffers.items ≡ []) × (vec_capacity buffers ≡ count) }
    requires left { IsFull left.old.slots × (length (slots_items left.old.slots) ≡ count) }
    requires buffers { AreThere (slots_items left.old.slots) }
    ensures buffers { map Some result.items ≡ slots_items left.old.slots }
    ensures empty { (slots_len left.new.slots ≡ slots_len left.old.slots) × ((k : ℕ) → k < slots_len left.new.slots → slice_index_or (slots_filled left.new.slots) k false ≡ false) }
{
    for number in 0..count {
        buffers.push_reserved(left.take(number).unwrap());
    }
    buffers
}

impl<L: BoardLaw> Board<L> {
    // What is left of the board, whose only seat is this one.
    fn emptied(self, seat: Seat<L>) -> Closed
        requires seat { IsSeatOf self seat }
        requires empty { HoldsNothing (held seat) }
        requires alone { (view seat).alone ≡ true }
        ensures { Ended L.holds (layout_of self) (number seat) (view seat) result.words result.buffers }
    {
        let Board {
            table,
            layout,
            words,
            buffers,
        } = self;
        let Seat { token } = seat;
        let mut left = table.close_with(token);
        let words = cells_left(&left, words, layout.cells());
        let buffers = buffers_left(&mut left, buffers, layout.buffers());
        left.free();
        Closed {
            words: Items::new(words),
            buffers: Items::new(buffers),
        }
    }

    /// The board's words and buffers, if no other seat is out. It takes no memory.
    pub fn close(self, mut seat: Seat<L>) -> Result<Closed, StillOut<L>>
        requires seat { IsSeatOf self seat }
        requires empty { HoldsNothing (held seat) }
        ensures out { MatchResult result (λ _. WasOut L.holds 0 (view seat)) (λ still. (still.out ≢ 0) × WasOut L.holds still.out (view seat)) }
        ensures closed { MatchResult result (λ closed. Ended L.holds (layout_of self) (number seat) (told_out 0 (view seat)) closed.words closed.buffers) (λ still. (still.board ≡ self) × IsSameSeat seat still.seat × (view still.seat ≡ told_out still.out (view seat)) × (held still.seat ≡ held seat)) }
    {
        match self.alone(&mut seat) {
            Ok(()) => Ok(self.emptied(seat)),
            Err(out) => Err(StillOut {
                board: self,
                seat,
                out,
            }),
        }
    }
}
