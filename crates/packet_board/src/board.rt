//! A board, and what is left of it.
ghost use Rattle.std.specs.Prelude.{◌≡◌, ◌+◌, ◌<◌, ◌≤◌, ◌^◌, [], vec_capacity};
ghost use Rattle.packet_board.specs.Words.{buffers_of, cell_count};

use crate::buffer::Buffer;
use crate::law::BoardLaw;
use crate::layout::Layout;
use crate::plays::Rule;
use crate::seat::Seat;
use crate::view::View;
use crate::word::Word;
use atomic_table::Table;
use item_list::Items;
use std::alloc::Global;

/// A board. Threads share it and each step with a seat of their own. It has room for what a close gives, so that the
/// close takes no memory.
#[derive(Drop)]
pub struct Board<L: BoardLaw> {
    pub(crate) table: Table<Option<Buffer>, View<L::Notes>, Layout, Rule<L>, Global>,
    pub(crate) layout: Layout,
    pub(crate) words: Vec<Word>,
    pub(crate) buffers: Vec<Buffer>,
    pub ghost keyed: { table.shared.key ≡ layout },
    pub ghost sized: { (table.shared.table_id.words ≡ cell_count layout + 1) × (table.shared.table_id.slots ≡ buffers_of layout) },
    pub ghost within: { (buffers_of layout ≤ 4095) × (cell_count layout < 2 ^ 32) },
    pub ghost roomy: { (words.items ≡ []) × (buffers.items ≡ []) × (vec_capacity words ≡ cell_count layout) × (vec_capacity buffers ≡ buffers_of layout) },
}

/// What is left of a board that was closed: the word of each cell in the cells' order, and each buffer in the order of
/// the numbers.
#[derive(Drop)]
pub struct Closed {
    pub words: Items<Word>,
    pub buffers: Items<Buffer>,
}

/// A board that could not be closed, since `out` seats that were split off were not joined.
#[derive(Drop)]
pub struct StillOut<L: BoardLaw> {
    pub board: Board<L>,
    pub seat: Seat<L>,
    pub out: u64,
}
