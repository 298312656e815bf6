//! How many cells and buffers a board has.
ghost use Rattle.std.specs.Prelude.{◌≡◌, ◌+◌, ◌<◌, ◌≤◌, ◌^◌};
ghost use Rattle.packet_board.specs.Words.{buffers_of, bytes_of, cell_count};

use crate::buffer::SMALL_BYTES;
use fragments::LONG;

/// The numbers of small and of long buffers, and the lengths of five rows of cells. The cells of a board are a free
/// cell for each buffer, in the order of the buffers' numbers, and then the rows. Small buffers have the first numbers.
#[derive(Clone, Copy)]
pub struct Layout {
    pub small: usize,
    pub long: usize,
    pub rows: [usize; 5],
}

impl Layout {
    /// The number of buffers.
    pub fn buffers(&self) -> usize
        requires { buffers_of self.now < 2 ^ 64 }
        ensures { result ≡ buffers_of self.now }
    {
        self.small + self.long
    }

    /// The number of cells.
    pub fn cells(&self) -> usize
        requires { cell_count self.now < 2 ^ 64 }
        ensures { result ≡ cell_count self.now }
    {
        let [first, second, third, fourth, fifth] = self.rows;
        self.small + self.long + (first + second + third + fourth + fifth)
    }

    /// The number of bytes of the buffer of that number.
    pub fn bytes_of(&self, number: usize) -> usize
        ensures { result ≡ bytes_of self.now number }
    {
        if number < self.small {
            SMALL_BYTES
        } else {
            LONG
        }
    }
}
