//! A new pool, and the end of one.
ghost use Rattle.std.specs.Prelude.{◌≡◌, ◌≢◌, ℕ, ◌+◌, ◌<◌, ◌≤◌, ◌^◌, true, IfOk, MatchResult};
ghost use Rattle.packet_board.specs.Words.{buffers_of, cell_count, first_word};
ghost use Rattle.packet_board.specs.Hands.{HoldsNothing};
ghost use Rattle.packet_board.specs.Views.{opening_view, told_out};
ghost use Rattle.packet_board.specs.Laws.{WasOut, IsNewNow};
ghost use Rattle.packet_board.specs.Seats.{view, held, number, IsSeatOf, IsSameSeat, Ended};
ghost use Rattle.packet_pool.specs.Packets.{board_of, layout_in, HasNow};

use crate::law::PoolLaw;
use crate::pool::Pool;
use packet_board::{Board, Closed, Layout, Seat, StillOut};
use std::alloc::{AllocError, Global};

impl<L: PoolLaw> Pool<L> {
    /// A new pool of that layout, whose buffers are all free, and its first seat, which has the right to post. The first
    /// row of the layout is the ready cells; the others are for the layers above.
    pub fn make(alloc: Global, layout: Layout) -> Result<(Pool<L>, Seat<L>), AllocError>
        requires fits { L.fits layout }
        requires buffers { buffers_of layout ≤ 4095 }
        requires cells { cell_count layout < 2 ^ 32 }
        ensures made { IfOk result (λ made. (layout_in made.0 ≡ layout) × IsSeatOf (board_of made.0) made.1 × (view made.1 ≡ opening_view layout (L.first layout)) × HoldsNothing (held made.1)) }
        ensures right { IfOk result (λ made. L.right (view made.1).notes ≡ true) }

        // No step was made on its board: each free cell has its buffer, and each other cell is empty.
        ensures new { IfOk result (λ made. IsNewNow L.holds layout (number made.1) (view made.1)) }
        ensures free { IfOk result (λ made. (cell : ℕ) → cell < cell_count layout → HasNow L.holds layout (number made.1) (view made.1) cell (λ word. word ≡ first_word layout cell)) }
    {
        let (board, seat) = Board::make(alloc, layout)?;
        Ok((Pool { board, layout }, seat))
    }

    /// The pool's board.
    pub fn board(&self) -> &Board<L>
        ensures { result.now ≡ board_of self.now }
    {
        &self.board
    }

    /// What is left of the pool's board, if no other seat is out. Or else pool and seat come back, with the number of
    /// seats that are.
    pub fn close(self, seat: Seat<L>) -> Result<Closed, (Pool<L>, Seat<L>, u64)>
        requires seat { IsSeatOf (board_of self) seat }
        requires empty { HoldsNothing (held seat) }
        ensures out { MatchResult result (λ _. WasOut L.holds 0 (view seat)) (λ still. (still.2 ≢ 0) × WasOut L.holds still.2 (view seat)) }
        ensures closed { MatchResult result (λ closed. Ended L.holds (layout_in self) (number seat) (told_out 0 (view seat)) closed.words closed.buffers) (λ still. (board_of still.0 ≡ board_of self) × IsSameSeat seat still.1 × (view still.1 ≡ told_out still.2 (view seat)) × (held still.1 ≡ held seat)) }
    {
        let Pool { board, layout } = self;
        match board.close(seat) {
            Ok(closed) => Ok(closed),
            Err(StillOut { board, seat, out }) => Err((Pool { board, layout }, seat, out)),
        }
    }
}
