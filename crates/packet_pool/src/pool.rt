//! A pool of packets.
ghost use Rattle.std.specs.Prelude.{◌≡◌, ◌≤◌, ◌<◌, ◌^◌};
ghost use Rattle.packet_board.specs.Words.{buffers_of, cell_count};
ghost use Rattle.packet_board.specs.Seats.{layout_of};

use crate::law::PoolLaw;
use packet_board::{Board, Layout};

/// A pool. Threads share it and each step with a seat of their own.
#[derive(Drop)]
pub struct Pool<L: PoolLaw> {
    pub(crate) board: Board<L>,
    pub(crate) layout: Layout,
    pub ghost same: { layout_of board ≡ layout },
    pub ghost few: { (buffers_of layout ≤ 4095) × (cell_count layout < 2 ^ 32) },
}
