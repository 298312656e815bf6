//! Packets put into ready cells.
ghost use Rattle.std.specs.Prelude.{◌≡◌, ◌≢◌, ℕ, ◌+◌, ◌<◌, ◌≤◌, ◌^◌, true, false, Some, None, IfOk, IfErr, MatchResult};
ghost use mathlib.Core.Option.{none, some};
ghost use Rattle.packet_board.specs.declared.buffer.Buffer.{Buffer as AnyBuffer};
ghost use Rattle.packet_board.specs.Words.{buffers_of, empty};
ghost use Rattle.packet_board.specs.Hands.{updated, IsStowed, IsUnstowed};
ghost use Rattle.packet_board.specs.Views.{exchanged, looked};
ghost use Rattle.packet_board.specs.Seats.{view, held, number as seat_number, IsSeatOf, IsSameSeat};
ghost use Rattle.packet_pool.specs.Buffers.{IsSmallBuffer};
ghost use Rattle.packet_pool.specs.Cells.{ready_count, IsReadyCell, ready_word, item, HasPacket};
ghost use Rattle.packet_pool.specs.Laws.{MayPost};
ghost use Rattle.packet_pool.specs.Packets.{board_of, layout_in, number_of, content, IsPacket, OnlyLooked};
ghost use Rattle.packet_pool.specs.Waiting.{AllFull, AreFull, Posts};

use crate::law::PoolLaw;
use crate::packet::Packet;
use crate::pool::Pool;
use packet_board::{Buffer, Seat, Word};
use std::marker::Brand;

impl<L: PoolLaw> Pool<L> {
    /// Puts a packet into the least empty ready cell, under that order, which is greater than those under which the seat
    /// posted before, or 2^52 - 1. The packet comes back if each ready cell was seen full.
    pub fn post(&self, seat: &mut Seat<L>, packet: Packet, order: u64) -> Result<(), Packet>
        requires seat { IsSeatOf (board_of self.now) seat.old }
        requires packet { IsPacket (layout_in self.now) (held seat.old) packet }
        requires may { MayPost L.right L.posted L.may_post L.is_loose (view seat.old).notes (number_of packet) (content packet) order }
        ensures seat { IsSameSeat seat.old seat.new }
        ensures posted { IfOk result (λ _. Posts L.with_posted (layout_in self.now) (number_of packet) (content packet) order (view seat.old) (view seat.new) × (held seat.new ≡ updated (number_of packet) none (held seat.old))) }
        ensures back { IfErr result (λ back. (number_of back ≡ number_of packet) × (content back ≡ content packet) × (held seat.new ≡ held seat.old)) }
        ensures full { IfErr result (λ _. OnlyLooked (view seat.old) (view seat.new) × AllFull (layout_in self.now) (view seat.old).steps (view seat.new) (buffers_of (layout_in self.now) + ready_count (layout_in self.now)) × ((view seat.new).steps ≡ (view seat.old).steps + ready_count (layout_in self.now))) }

        // Where no other seat is out, each ready cell is full now if the packet comes back.
        ensures full_now { (view seat.old).alone ≡ true → IfErr result (λ _. AreFull L.holds (layout_in self.now) (seat_number seat.new) (view seat.new)) }
    {
        let (number, buffer) = packet.into_buffer();
        match self.post_buffer(seat, number, buffer, order) {
            Ok(()) => Ok(()),
            Err(buffer) => Err(Packet::of(number, buffer)),
        }
    }

    // Puts a buffer into the least empty ready cell, or gives it back.
    fn post_buffer(
        &self,
        seat: &mut Seat<L>,
        number: u16,
        buffer: Buffer,
        order: u64,
    ) -> Result<(), Buffer>
        requires seat { IsSeatOf (board_of self.now) seat.old }
        requires buffer { IsUnstowed (held seat.old) number × (number < (layout_in self.now).small) × IsSmallBuffer buffer }
        requires may { MayPost L.right L.posted L.may_post L.is_loose (view seat.old).notes number buffer order }
        ensures seat { IsSameSeat seat.old seat.new }
        ensures posted { IfOk result (λ _. Posts L.with_posted (layout_in self.now) number buffer order (view seat.old) (view seat.new) × (held seat.new ≡ updated number none (held seat.old))) }
        ensures back { IfErr result (λ back. (back ≡ buffer) × (held seat.new ≡ held seat.old)) }
        ensures full { IfErr result (λ _. OnlyLooked (view seat.old) (view seat.new) × AllFull (layout_in self.now) (view seat.old).steps (view seat.new) (buffers_of (layout_in self.now) + ready_count (layout_in self.now)) × ((view seat.new).steps ≡ (view seat.old).steps + ready_count (layout_in self.now))) }
        ensures full_now { (view seat.old).alone ≡ true → IfErr result (λ _. AreFull L.holds (layout_in self.now) (seat_number seat.new) (view seat.new)) }
    {
        self.board.stow(seat, number, buffer);
        if self.post_stowed(seat, number, order) {
            return Ok(());
        }
        Err(self.board.unstow(seat, number))
    }

    // Puts a stowed buffer into the least empty ready cell, and says whether there was one.
    fn post_stowed(&self, seat: &mut Seat<L>, number: u16, order: u64) -> bool
        requires seat { IsSeatOf (board_of self.now) seat.old }
        requires stowed { IsStowed (held seat.old) number × (number < (layout_in self.now).small) }
        requires may { (y : AnyBuffer) → held seat.old number ≡ some (Some y) → MayPost L.right L.posted L.may_post L.is_loose (view seat.old).notes number y order }
        ensures seat { IsSameSeat seat.old seat.new }
        ensures posted { result ≡ true → (y : AnyBuffer) → held seat.old number ≡ some (Some y) → Posts L.with_posted (layout_in self.now) number y order (view seat.old) (view seat.new) }
        ensures gone { result ≡ true → held seat.new ≡ updated number none (held seat.old) }
        ensures full { result ≡ false → OnlyLooked (view seat.old) (view seat.new) × (held seat.new ≡ held seat.old) × AllFull (layout_in self.now) (view seat.old).steps (view seat.new) (buffers_of (layout_in self.now) + ready_count (layout_in self.now)) × ((view seat.new).steps ≡ (view seat.old).steps + ready_count (layout_in self.now)) }
    {
        let [count, _, _, _, _] = self.layout.rows;
        let first = self.layout.buffers();
        for cell in first..first + count {
            match self.try_post(seat, cell, number, order) {
                Ok(()) => return true,
                Err(_) => {}
            }
        }
        false
    }

    // Puts a stowed buffer into a ready cell, if that is empty.
    fn try_post(&self, seat: &mut Seat<L>, cell: usize, number: u16, order: u64) -> Result<(), Word>
        requires seat { IsSeatOf (board_of self.now) seat.old }
        requires cell { IsReadyCell (layout_in self.now) cell }
        requires stowed { IsStowed (held seat.old) number × (number < (layout_in self.now).small) }
        requires may { (y : AnyBuffer) → held seat.old number ≡ some (Some y) → MayPost L.right L.posted L.may_post L.is_loose (view seat.old).notes number y order }
        ensures seat { IsSameSeat seat.old seat.new }
        ensures posted { IfOk result (λ _. (y : AnyBuffer) → held seat.old number ≡ some (Some y) → view seat.new ≡ exchanged (view seat.old) cell empty (ready_word order number) (L.with_posted (item order cell y) (view seat.old).notes)) }
        ensures gone { IfOk result (λ _. held seat.new ≡ updated number none (held seat.old)) }
        ensures full { IfErr result (λ met. (view seat.new ≡ looked (view seat.old) cell met) × (held seat.new ≡ held seat.old) × HasPacket (layout_in self.now) met) }
    {
        let empty = Word {
            tag: 0,
            buffer: None,
        };
        let ready = Word {
            tag: order,
            buffer: Some(number),
        };
        self.board.exchange::<Brand>(seat, cell, empty, ready)
    }
}
