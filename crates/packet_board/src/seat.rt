//! A seat, with which one thread steps.
ghost use Rattle.packet_board.specs.Rule.{Ready};

use crate::buffer::Buffer;
use crate::law::BoardLaw;
use crate::view::View;

/// A seat at a board. It has no bytes. It has a view, and the numbers in its hands; each thread has its own.
#[derive(Drop)]
pub struct Seat<L: BoardLaw> {
    pub(crate) token: atomic_table::Seat<Option<Buffer>, View<L::Notes>>,
    pub ghost ready: { Ready token.me.0 token.me.1 },
}
