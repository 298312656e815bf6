//! The board as the rule of a table, and what each step of the table tells. These types are for the proofs alone.
ghost use Rattle.packet_board.specs.Views.{settled, newcomer, joined, spent, opening_view};
ghost use Rattle.packet_board.specs.Rule.{Kept, at_word, saw, swapped, brought, began, ended, counted};

use crate::buffer::Buffer;
use crate::law::{BoardLaw, Choice};
use crate::layout::Layout;
use crate::view::View;
use atomic_table::{Join, Play, Split, TableRule};
use std::marker::PhantomData;

/// The rule of a board's table.
pub struct Rule<L> {
    law: PhantomData<L>,
}

impl<L: BoardLaw> TableRule<Option<Buffer>, View<L::Notes>, Layout> for Rule<L> {
    ghost holds = { Kept L.holds };

    ghost first = { λ k. opening_view k (L.first k) };
}

/// A load of a cell.
pub(crate) struct Look<L, M> {
    law: PhantomData<(L, M)>,
}

impl<L: BoardLaw, M: Choice<L::Notes>> Play<Option<Buffer>, View<L::Notes>> for Look<L, M> {
    ghost then = { at_word L.holds (saw M.tells) };
}

/// An exchange of a cell's word.
pub(crate) struct Swap<L, M> {
    law: PhantomData<(L, M)>,
}

impl<L: BoardLaw, M: Choice<L::Notes>> Play<Option<Buffer>, View<L::Notes>> for Swap<L, M> {
    ghost then = { at_word L.holds (swapped (λ v cell old new found notes. M.chooses v found notes) M.tells) };
}

/// A load that brings a slot in the hands to the front.
pub(crate) struct Bring;

impl<N> Play<Option<Buffer>, View<N>> for Bring {
    ghost then = { brought };
}

/// One more seat is out.
pub(crate) struct Begin;

impl<N> Play<Option<Buffer>, View<N>> for Begin {
    ghost then = { began };
}

/// One seat less is out.
pub(crate) struct End;

impl<N> Play<Option<Buffer>, View<N>> for End {
    ghost then = { ended };
}

/// How many seats are out.
pub(crate) struct Count<L> {
    law: PhantomData<L>,
}

impl<L: BoardLaw> Play<Option<Buffer>, View<L::Notes>> for Count<L> {
    ghost then = { counted L.holds };
}

/// A new seat.
pub(crate) struct Part<L> {
    law: PhantomData<L>,
}

impl<L: BoardLaw> Split<View<L::Notes>> for Part<L> {
    ghost left = { settled };

    ghost right = { newcomer L.blank };
}

/// A seat takes another one in.
pub(crate) struct Merge<L> {
    law: PhantomData<L>,
}

impl<L: BoardLaw> Join<View<L::Notes>> for Merge<L> {
    ghost both = { joined L.both };

    ghost spent = { spent L.blank };
}
