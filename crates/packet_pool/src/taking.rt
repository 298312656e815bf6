//! Buffers taken out of their free cells, and given back.
ghost use Rattle.std.specs.Prelude.{◌≡◌, ℕ, ◌+◌, ◌<◌, ◌≤◌, true, Some, None, ⊤, IfOk, IfErr, IfSome, IfNone, MatchOption, MatchResult};
ghost use mathlib.Core.Option.{none, some};
ghost use Rattle.packet_board.specs.Words.{buffers_of, empty, full, IsBuffer};
ghost use Rattle.packet_board.specs.Hands.{updated, IsUnstowed};
ghost use Rattle.packet_board.specs.Views.{exchanged, looked};
ghost use Rattle.packet_board.specs.Seats.{view, held, number, IsSeatOf, IsSameSeat};
ghost use Rattle.packet_pool.specs.Buffers.{IsEmptied};
ghost use Rattle.packet_pool.specs.Laws.{after_take};
ghost use Rattle.packet_pool.specs.Packets.{board_of, layout_in, number_of, content, long_number, long_content, IsPacket, IsLongPacket, OnlyLooked, AllEmpty, Takes, AreEmpty};

use crate::law::PoolLaw;
use crate::packet::{Empty, LongPacket, Packet};
use crate::pool::Pool;
use fragments::Gathered;
use packet_board::{Buffer, Seat, Word};
use std::marker::Brand;

impl<L: PoolLaw> Pool<L> {
    /// Takes the buffer of the first free cell of a small buffer that has its buffer, each tried once in the order of the
    /// numbers. The packet has the length 0, no signal and nothing gathered.
    pub fn take(&self, seat: &mut Seat<L>) -> Result<Packet, Empty>
        requires seat { IsSeatOf (board_of self.now) seat.old }
        ensures seat { IsSameSeat seat.old seat.new }
        ensures packet { IfOk result (λ packet. IsPacket (layout_in self.now) (held seat.new) packet × IsEmptied (content packet)) }
        ensures taken { IfOk result (λ packet. Takes L.with_taken 0 (number_of packet) (view seat.old) (view seat.new) × (held seat.new ≡ updated (number_of packet) (some None) (held seat.old))) }
        ensures empty { IfErr result (λ _. OnlyLooked (view seat.old) (view seat.new) × (held seat.new ≡ held seat.old) × AllEmpty (view seat.old).steps (view seat.new) 0 (layout_in self.now).small × ((view seat.new).steps ≡ (view seat.old).steps + (layout_in self.now).small)) }

        // Where no other seat is out, no lesser buffer is free now, and at Empty none.
        ensures least { (view seat.old).alone ≡ true → MatchResult result (λ packet. AreEmpty L.holds (layout_in self.now) (number seat.new) (view seat.new) 0 (number_of packet)) (λ _. AreEmpty L.holds (layout_in self.now) (number seat.new) (view seat.new) 0 (layout_in self.now).small) }
    {
        match self.take_from(seat, 0, self.layout.small as u16) {
            Some((number, buffer)) => Ok(Packet::of(number, buffer)),
            None => Err(Empty),
        }
    }

    /// Takes a long buffer in the same way.
    pub fn take_long(&self, seat: &mut Seat<L>) -> Result<LongPacket, Empty>
        requires seat { IsSeatOf (board_of self.now) seat.old }
        ensures seat { IsSameSeat seat.old seat.new }
        ensures packet { IfOk result (λ packet. IsLongPacket (layout_in self.now) (held seat.new) packet × IsEmptied (long_content packet)) }
        ensures taken { IfOk result (λ packet. Takes L.with_taken (layout_in self.now).small (long_number packet) (view seat.old) (view seat.new) × (held seat.new ≡ updated (long_number packet) (some None) (held seat.old))) }
        ensures empty { IfErr result (λ _. OnlyLooked (view seat.old) (view seat.new) × (held seat.new ≡ held seat.old) × AllEmpty (view seat.old).steps (view seat.new) (layout_in self.now).small (buffers_of (layout_in self.now)) × ((view seat.new).steps ≡ (view seat.old).steps + (layout_in self.now).long)) }
        ensures least { (view seat.old).alone ≡ true → MatchResult result (λ packet. AreEmpty L.holds (layout_in self.now) (number seat.new) (view seat.new) (layout_in self.now).small (long_number packet)) (λ _. AreEmpty L.holds (layout_in self.now) (number seat.new) (view seat.new) (layout_in self.now).small (buffers_of (layout_in self.now))) }
    {
        let first = self.layout.small as u16;
        match self.take_from(seat, first, self.layout.buffers() as u16) {
            Some((number, buffer)) => Ok(LongPacket::of(number, buffer)),
            None => Err(Empty),
        }
    }

    /// Puts a packet's buffer back into its free cell. It can't fail: while the buffer is in the seat's hands, its free
    /// cell is empty.
    pub fn give(&self, seat: &mut Seat<L>, packet: Packet)
        requires seat { IsSeatOf (board_of self.now) seat.old }
        requires packet { IsPacket (layout_in self.now) (held seat.old) packet }
        requires loose { L.is_loose (view seat.old).notes (number_of packet) }
        ensures seat { IsSameSeat seat.old seat.new }
        ensures given { view seat.new ≡ exchanged (view seat.old) (number_of packet) empty (full (number_of packet)) (view seat.old).notes }
        ensures held { held seat.new ≡ updated (number_of packet) none (held seat.old) }
    {
        let (number, buffer) = packet.into_buffer();
        self.give_back(seat, number, buffer);
    }

    /// Puts a long packet's buffer back.
    pub fn give_long(&self, seat: &mut Seat<L>, packet: LongPacket)
        requires seat { IsSeatOf (board_of self.now) seat.old }
        requires packet { IsLongPacket (layout_in self.now) (held seat.old) packet }
        requires loose { L.is_loose (view seat.old).notes (long_number packet) }
        ensures seat { IsSameSeat seat.old seat.new }
        ensures given { view seat.new ≡ exchanged (view seat.old) (long_number packet) empty (full (long_number packet)) (view seat.old).notes }
        ensures held { held seat.new ≡ updated (long_number packet) none (held seat.old) }
    {
        let (number, buffer) = packet.into_buffer();
        self.give_back(seat, number, buffer);
    }

    // The first of these free cells that has its buffer, and the buffer.
    fn take_from(&self, seat: &mut Seat<L>, first: u16, end: u16) -> Option<(u16, Buffer)>
        requires seat { IsSeatOf (board_of self.now) seat.old }
        requires room { (first ≤ end) × (end ≤ buffers_of (layout_in self.now)) }
        ensures seat { IsSameSeat seat.old seat.new }
        ensures buffer { IfSome result (λ got. (first ≤ got.0) × (got.0 < end) × IsBuffer (layout_in self.now) got.0 got.1 × IsEmptied got.1) }
        ensures taken { IfSome result (λ got. Takes L.with_taken first got.0 (view seat.old) (view seat.new) × (held seat.new ≡ updated got.0 (some None) (held seat.old))) }
        ensures empty { IfNone result (OnlyLooked (view seat.old) (view seat.new) × (held seat.new ≡ held seat.old) × AllEmpty (view seat.old).steps (view seat.new) first end × ((view seat.new).steps + first ≡ (view seat.old).steps + end)) }
    {
        for number in first..end {
            match self.try_take(seat, number) {
                Some(buffer) => return Some((number, buffer)),
                None => {}
            }
        }
        None
    }

    // Takes the buffer of a free cell, if it is there.
    fn try_take(&self, seat: &mut Seat<L>, number: u16) -> Option<Buffer>
        requires seat { IsSeatOf (board_of self.now) seat.old }
        requires room { number < buffers_of (layout_in self.now) }
        ensures seat { IsSameSeat seat.old seat.new }
        ensures buffer { IfSome result (λ y. IsBuffer (layout_in self.now) number y × IsEmptied y) }
        ensures taken { MatchOption result (view seat.new ≡ looked (view seat.old) number empty) (λ y. view seat.new ≡ exchanged (view seat.old) number (full number) empty (after_take L.with_taken (view seat.old).layout number (view seat.old).notes)) }
        ensures held { MatchOption result (held seat.new ≡ held seat.old) (λ y. held seat.new ≡ updated number (some None) (held seat.old)) }
    {
        let full = Word {
            tag: 0,
            buffer: Some(number),
        };
        let empty = Word {
            tag: 0,
            buffer: None,
        };
        match self
            .board
            .exchange::<Brand>(seat, number as usize, full, empty)
        {
            Ok(()) => {
                let mut buffer = self.board.unstow(seat, number);
                buffer.len = 0;
                buffer.signal = false;
                buffer.gathered = Gathered { len: 0, next: 0 };
                Some(buffer)
            }
            Err(_) => None,
        }
    }

    // Puts a buffer back into its free cell, which is empty.
    fn give_back(&self, seat: &mut Seat<L>, number: u16, buffer: Buffer)
        requires seat { IsSeatOf (board_of self.now) seat.old }
        requires mine { IsUnstowed (held seat.old) number }
        requires buffer { (number < buffers_of (layout_in self.now)) × IsBuffer (layout_in self.now) number buffer }
        requires loose { L.is_loose (view seat.old).notes number }
        ensures seat { IsSameSeat seat.old seat.new }
        ensures given { view seat.new ≡ exchanged (view seat.old) number empty (full number) (view seat.old).notes }
        ensures held { held seat.new ≡ updated number none (held seat.old) }
    {
        let full = Word {
            tag: 0,
            buffer: Some(number),
        };
        let empty = Word {
            tag: 0,
            buffer: None,
        };
        self.board.stow(seat, number, buffer);
        match self
            .board
            .exchange::<Brand>(seat, number as usize, empty, full)
        {
            Ok(()) => {}
            Err(_) => unreachable!(),
        }
    }
}
