//! A new board.
ghost use Rattle.std.specs.Prelude.{◌≡◌, ◌+◌, ◌<◌, ◌≤◌, ◌^◌, IfOk, length, ◌∷◌, map};
ghost use Rattle.packet_board.specs.Words.{buffers_of, cell_count, first_cells, first_word, packed, Fits, AreNew};
ghost use Rattle.packet_board.specs.Hands.{HoldsNothing};
ghost use Rattle.packet_board.specs.Views.{opening_view};
ghost use Rattle.packet_board.specs.Laws.{IsNewNow};
ghost use Rattle.packet_board.specs.Seats.{view, held, number, layout_of, IsSeatOf};

use crate::board::Board;
use crate::buffer::Buffer;
use crate::law::BoardLaw;
use crate::layout::Layout;
use crate::seat::Seat;
use crate::word::Word;
use atomic_table::Table;
use std::alloc::{AllocError, Global};

/// The word that a cell of a new board holds: a free cell's has its own buffer.
fn opening_word(layout: &Layout, cell: usize) -> Word
    requires { buffers_of layout.now ≤ 4095 }
    ensures word { result ≡ first_word layout.now cell }
    ensures fits { Fits result }
{
    let buffer = if cell < layout.buffers() {
        Some(cell as u16)
    } else {
        None
    };
    Word { tag: 0, buffer }
}

// The words of a new table: no seat is out, and then the cells.
fn opening_words(alloc: Global, layout: &Layout) -> Result<Vec<u64>, AllocError>
    requires buffers { buffers_of layout.now ≤ 4095 }
    requires cells { cell_count layout.now < 2 ^ 32 }
    ensures { IfOk result (λ words. words.items ≡ 0 ∷ map packed (first_cells layout.now)) }
{
    let cells = layout.cells();
    let mut words = Vec::with_capacity(alloc, cells + 1)?;
    words.push_reserved(0);
    for cell in 0..cells {
        words.push_reserved(opening_word(layout, cell).pack());
    }
    Ok(words)
}

fn opening_buffers(alloc: Global, layout: &Layout) -> Result<Vec<Option<Buffer>>, AllocError>
    requires { buffers_of layout.now ≤ 4095 }
    ensures { IfOk result (λ slots. AreNew layout.now (buffers_of layout.now) slots.items) }
{
    let count = layout.buffers();
    let mut slots = Vec::with_capacity(alloc, count)?;
    for number in 0..count {
        slots.push_reserved(Some(Buffer::blank(alloc, layout.bytes_of(number))?));
    }
    Ok(slots)
}

impl<L: BoardLaw> Board<L> {
    /// A new board of that layout, and its first seat. Each buffer stands in its free cell.
    pub fn make(alloc: Global, layout: Layout) -> Result<(Board<L>, Seat<L>), AllocError>
        requires fits { L.fits layout }
        requires buffers { buffers_of layout ≤ 4095 }
        requires cells { cell_count layout < 2 ^ 32 }
        ensures made { IfOk result (λ made. (layout_of made.0 ≡ layout) × IsSeatOf made.0 made.1 × (view made.1 ≡ opening_view layout (L.first layout)) × HoldsNothing (held made.1)) }
        ensures new { IfOk result (λ made. IsNewNow L.holds layout (number made.1) (view made.1)) }
    {
        let words = Vec::with_capacity(alloc, layout.cells())?;
        let buffers = Vec::with_capacity(alloc, layout.buffers())?;
        let numbers = opening_words(alloc, &layout)?;
        let slots = opening_buffers(alloc, &layout)?;
        match Table::new(alloc, numbers.as_slice(), slots, &layout) {
            Ok((table, token)) => Ok((
                Board {
                    table,
                    layout,
                    words,
                    buffers,
                },
                Seat { token },
            )),
            Err(_) => Err(AllocError),
        }
    }
}
