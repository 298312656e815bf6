//! Packets taken out of ready cells.
ghost use Rattle.std.specs.Prelude.{◌≡◌, ◌≢◌, ℕ, ◌+◌, ◌<◌, ◌≤◌, ◌^◌, ◌⊎◌, true, Some, None, IfOk, IfErr, IfSome, MatchResult};
ghost use mathlib.Core.Option.{none, some};
ghost use Rattle.packet_board.specs.declared.word.Word.{Word as AnyWord};
ghost use Rattle.packet_board.specs.Words.{buffers_of, empty, Fits, IsBuffer};
ghost use Rattle.packet_board.specs.Hands.{updated};
ghost use Rattle.packet_board.specs.Views.{exchanged, looked};
ghost use Rattle.packet_board.specs.Seats.{view, held, number, IsSeatOf, IsSameSeat};
ghost use Rattle.packet_pool.specs.declared.packet.NoPacket.{NoPacket as AnyReason};
ghost use Rattle.packet_pool.specs.Cells.{ready_count, IsReadyCell, ready_word, item};
ghost use Rattle.packet_pool.specs.Packets.{board_of, layout_in, number_of, content, IsPacket, OnlyLooked, IsSeen, HasNow};
ghost use Rattle.packet_pool.specs.Waiting.{Claims, NoneClaimed, AreBehind, NoneWaits};
ghost use Rattle.packet_pool.specs.Least.{IsAfter, IsWaiting};

use crate::law::PoolLaw;
use crate::packet::{NoPacket, Packet};
use crate::pool::Pool;
use packet_board::{Buffer, Seat, Word};
use std::marker::Brand;

/// A packet that was seen in a ready cell.
#[derive(Clone, Copy)]
pub(crate) struct Waiting {
    pub(crate) cell: usize,
    pub(crate) order: u64,
    pub(crate) number: u16,
}

/// Of the packet of the least order so far and that of a further cell, the one of the lesser order, and of equal orders
/// the former.
fn lesser(least: Option<Waiting>, cell: usize, word: Word) -> Option<Waiting>
    requires former { IfSome least (λ w. w.cell < cell) }
    requires word { word.buffer ≡ None → word ≡ empty }
    ensures former { (other : ℕ) (seen : AnyWord) → IsAfter least other seen → IsAfter result other seen }
    ensures further { IsAfter result cell word }
    ensures one_of { (result ≡ least) ⊎ ((n : ℕ) × (word.buffer ≡ Some n) × (result ≡ Some (record { cell = cell; order = word.tag; number = n }))) }
{
    match word.buffer {
        None => least,
        Some(number) => {
            let further = Waiting {
                cell,
                order: word.tag,
                number,
            };
            match least {
                None => Some(further),
                Some(former) => Some(if former.order <= further.order {
                    former
                } else {
                    further
                }),
            }
        }
    }
}

impl<L: PoolLaw> Pool<L> {
    /// Takes the packet of the least order that it sees in a ready cell, each looked at once; of equal orders the one in
    /// the least cell.
    pub fn claim(&self, seat: &mut Seat<L>) -> Result<Packet, NoPacket>
        requires seat { IsSeatOf (board_of self.now) seat.old }
        ensures seat { IsSameSeat seat.old seat.new }
        ensures packet { IfOk result (λ packet. IsPacket (layout_in self.now) (held seat.new) packet) }
        ensures claimed { IfOk result (λ packet. Claims L.with_claimed L.may_post (layout_in self.now) (number_of packet) (content packet) (view seat.old) (view seat.new) × (held seat.new ≡ updated (number_of packet) (some None) (held seat.old))) }
        ensures none { IfErr result (λ why. NoneClaimed (layout_in self.now) (view seat.old) (view seat.new) why × (held seat.new ≡ held seat.old)) }

        // Where no other seat is out, no packet of a lesser order waits now; and nothing is claimed only where none waits.
        ensures least { (view seat.old).alone ≡ true → IfOk result (λ packet. (order : ℕ) × (cell : ℕ) × ((view seat.new).notes ≡ L.with_claimed (item order cell (content packet)) (view seat.old).notes) × AreBehind L.holds (layout_in self.now) (number seat.new) (view seat.new) order) }
        ensures none_waits { (view seat.old).alone ≡ true → IfErr result (λ why. (why ≡ AnyReason.Empty) × NoneWaits L.holds (layout_in self.now) (number seat.new) (view seat.new)) }
    {
        match self.least_ready(seat) {
            None => Err(NoPacket::Empty),
            Some(chosen) => self.claim_seen(seat, chosen),
        }
    }

    // The packet of the least order in a ready cell.
    fn least_ready(&self, seat: &mut Seat<L>) -> Option<Waiting>
        requires seat { IsSeatOf (board_of self.now) seat.old }
        ensures seat { IsSameSeat seat.old seat.new }
        ensures looked { OnlyLooked (view seat.old) (view seat.new) }
        ensures held { held seat.new ≡ held seat.old }
        ensures seen { (cell : ℕ) → IsReadyCell (layout_in self.now) cell → IsSeen (view seat.old).steps (view seat.new) cell (IsAfter result cell) }
        ensures once { (view seat.new).steps ≡ (view seat.old).steps + ready_count (layout_in self.now) }
        ensures found { IfSome result (IsWaiting (layout_in self.now) (view seat.old).steps (view seat.new) (buffers_of (layout_in self.now) + ready_count (layout_in self.now))) }
    {
        let [count, _, _, _, _] = self.layout.rows;
        let first = self.layout.buffers();
        let mut least = None;
        for cell in first..first + count {
            let word = self.board.load::<Brand>(seat, cell);
            least = lesser(least, cell, word);
        }
        least
    }

    // Claims a packet that was seen, if it is still there.
    fn claim_seen(&self, seat: &mut Seat<L>, chosen: Waiting) -> Result<Packet, NoPacket>
        requires seat { IsSeatOf (board_of self.now) seat.old }
        requires cell { IsReadyCell (layout_in self.now) chosen.cell }
        requires packet { (chosen.number < (layout_in self.now).small) × (chosen.order < 2 ^ 52) }
        ensures seat { IsSameSeat seat.old seat.new }
        ensures claimed { IfOk result (λ packet. (number_of packet ≡ chosen.number) × L.may_post (content packet) × (view seat.new ≡ exchanged (view seat.old) chosen.cell (ready_word chosen.order chosen.number) empty (L.with_claimed (item chosen.order chosen.cell (content packet)) (view seat.old).notes)) × (held seat.new ≡ updated chosen.number (some None) (held seat.old))) }
        ensures lost { IfErr result (λ why. (met : AnyWord) × (why ≡ AnyReason.Lost met) × (met ≢ ready_word chosen.order chosen.number) × (view seat.new ≡ looked (view seat.old) chosen.cell met) × (held seat.new ≡ held seat.old)) }
        ensures others { IfErr result (λ why. ¬ (HasNow L.holds (layout_in self.now) (number seat.old) (view seat.old) chosen.cell (λ word. word ≡ ready_word chosen.order chosen.number))) }
    {
        match self.claim_word(seat, chosen) {
            Ok(buffer) => Ok(Packet::of(chosen.number, buffer)),
            Err(word) => Err(NoPacket::Lost(word)),
        }
    }

    // Takes a packet out of a ready cell, if it is still there.
    fn claim_word(&self, seat: &mut Seat<L>, chosen: Waiting) -> Result<Buffer, Word>
        requires seat { IsSeatOf (board_of self.now) seat.old }
        requires cell { IsReadyCell (layout_in self.now) chosen.cell }
        requires packet { (chosen.number < (layout_in self.now).small) × (chosen.order < 2 ^ 52) }
        ensures seat { IsSameSeat seat.old seat.new }
        ensures buffer { IfOk result (λ y. IsBuffer (layout_in self.now) chosen.number y × L.may_post y) }
        ensures claimed { IfOk result (λ y. (view seat.new ≡ exchanged (view seat.old) chosen.cell (ready_word chosen.order chosen.number) empty (L.with_claimed (item chosen.order chosen.cell y) (view seat.old).notes)) × (held seat.new ≡ updated chosen.number (some None) (held seat.old))) }
        ensures lost { IfErr result (λ met. (met ≢ ready_word chosen.order chosen.number) × (view seat.new ≡ looked (view seat.old) chosen.cell met) × (held seat.new ≡ held seat.old)) }

        // A packet that must be there now isn't lost.
        ensures others { IfErr result (λ met. ¬ (HasNow L.holds (layout_in self.now) (number seat.old) (view seat.old) chosen.cell (λ word. word ≡ ready_word chosen.order chosen.number))) }
    {
        let ready = Word {
            tag: chosen.order,
            buffer: Some(chosen.number),
        };
        let empty = Word {
            tag: 0,
            buffer: None,
        };
        match self
            .board
            .exchange::<Brand>(seat, chosen.cell, ready, empty)
        {
            Ok(()) => Ok(self.board.unstow(seat, chosen.number)),
            Err(word) => Err(word),
        }
    }
}
