//! Moves of packets under the plain law by hands that hold one packet or none.
ghost use Rattle.std.specs.Prelude.{◌≡◌, ◌+◌, ◌<◌, ◌≤◌, Some, None, MatchOption, MatchResult};
ghost use Rattle.packet_board.specs.Hands.{HoldsNothing};
ghost use Rattle.packet_board.specs.Seats.{view, held, IsSeatOf};
ghost use Rattle.packet_pool.specs.Cells.{last_order};
ghost use Rattle.packet_pool.specs.Packets.{board_of, layout_in};
ghost use Rattle.wire_tests.specs.Moves.{HoldsPacket, SamePoster, PostsBelow};

use packet_board::Seat;
use packet_pool::{NoPacket, Packet, PlainLaw, Pool};

/// Takes a packet into empty hands.
pub(crate) fn take(pool: &Pool<PlainLaw>, seat: &mut Seat<PlainLaw>) -> Option<Packet>
    requires seat { IsSeatOf (board_of pool.now) seat.old }
    requires empty { HoldsNothing (held seat.old) }
    ensures seat { IsSeatOf (board_of pool.now) seat.new }
    ensures notes { SamePoster (view seat.old) (view seat.new) }
    ensures held { MatchOption result (HoldsNothing (held seat.new)) (HoldsPacket (layout_in pool.now) (held seat.new)) }
{
    match pool.take(seat) {
        Ok(packet) => Some(packet),
        Err(_) => None,
    }
}

/// Gives back the packet that the hands hold.
pub(crate) fn give(pool: &Pool<PlainLaw>, seat: &mut Seat<PlainLaw>, packet: Packet)
    requires seat { IsSeatOf (board_of pool.now) seat.old }
    requires packet { HoldsPacket (layout_in pool.now) (held seat.old) packet }
    ensures seat { IsSeatOf (board_of pool.now) seat.new }
    ensures notes { SamePoster (view seat.old) (view seat.new) }
    ensures empty { HoldsNothing (held seat.new) }
{
    pool.give(seat, packet);
}

/// Posts the packet that the hands hold.
pub(crate) fn post(
    pool: &Pool<PlainLaw>,
    seat: &mut Seat<PlainLaw>,
    packet: Packet,
    order: u64,
) -> Result<(), Packet>
    requires seat { IsSeatOf (board_of pool.now) seat.old }
    requires packet { HoldsPacket (layout_in pool.now) (held seat.old) packet }
    requires order { PostsBelow order (view seat.old) × (order < last_order) }
    ensures seat { IsSeatOf (board_of pool.now) seat.new }
    ensures order { PostsBelow (order + 1) (view seat.new) }
    ensures held { MatchResult result (λ _. HoldsNothing (held seat.new)) (HoldsPacket (layout_in pool.now) (held seat.new)) }
{
    match pool.post(seat, packet, order) {
        Ok(()) => Ok(()),
        Err(back) => Err(back),
    }
}

/// Claims a packet into empty hands.
pub(crate) fn claim(pool: &Pool<PlainLaw>, seat: &mut Seat<PlainLaw>) -> Result<Packet, NoPacket>
    requires seat { IsSeatOf (board_of pool.now) seat.old }
    requires empty { HoldsNothing (held seat.old) }
    ensures seat { IsSeatOf (board_of pool.now) seat.new }
    ensures notes { SamePoster (view seat.old) (view seat.new) }
    ensures held { MatchResult result (HoldsPacket (layout_in pool.now) (held seat.new)) (λ _. HoldsNothing (held seat.new)) }
{
    pool.claim(seat)
}

/// Takes a packet and gives it back, if there is one.
pub(crate) fn takes(pool: &Pool<PlainLaw>, seat: &mut Seat<PlainLaw>) -> bool
    requires seat { IsSeatOf (board_of pool.now) seat.old }
    requires empty { HoldsNothing (held seat.old) }
    ensures seat { IsSeatOf (board_of pool.now) seat.new }
    ensures notes { SamePoster (view seat.old) (view seat.new) }
    ensures empty { HoldsNothing (held seat.new) }
{
    match take(pool, seat) {
        None => false,
        Some(packet) => {
            give(pool, seat, packet);
            true
        }
    }
}

/// Posts a packet, or gives it back if each ready cell is full.
pub(crate) fn posts(
    pool: &Pool<PlainLaw>,
    seat: &mut Seat<PlainLaw>,
    packet: Packet,
    order: u64,
) -> bool
    requires seat { IsSeatOf (board_of pool.now) seat.old }
    requires packet { HoldsPacket (layout_in pool.now) (held seat.old) packet }
    requires order { PostsBelow order (view seat.old) × (order < last_order) }
    ensures seat { IsSeatOf (board_of pool.now) seat.new }
    ensures order { PostsBelow (order + 1) (view seat.new) }
    ensures empty { HoldsNothing (held seat.new) }
{
    match post(pool, seat, packet, order) {
        Ok(()) => true,
        Err(packet) => {
            give(pool, seat, packet);
            false
        }
    }
}

/// Claims a packet and gives its buffer back, if one waits.
pub(crate) fn claims(pool: &Pool<PlainLaw>, seat: &mut Seat<PlainLaw>) -> bool
    requires seat { IsSeatOf (board_of pool.now) seat.old }
    requires empty { HoldsNothing (held seat.old) }
    ensures seat { IsSeatOf (board_of pool.now) seat.new }
    ensures notes { SamePoster (view seat.old) (view seat.new) }
    ensures empty { HoldsNothing (held seat.new) }
{
    match claim(pool, seat) {
        Err(_) => false,
        Ok(packet) => {
            give(pool, seat, packet);
            true
        }
    }
}

/// Claims a packet, gives its buffer back, and says whether it is that of this number.
pub(crate) fn claims_that(pool: &Pool<PlainLaw>, seat: &mut Seat<PlainLaw>, number: u16) -> bool
    requires seat { IsSeatOf (board_of pool.now) seat.old }
    requires empty { HoldsNothing (held seat.old) }
    ensures seat { IsSeatOf (board_of pool.now) seat.new }
    ensures empty { HoldsNothing (held seat.new) }
{
    match claim(pool, seat) {
        Err(_) => false,
        Ok(packet) => {
            let is_that = packet.has(number);
            give(pool, seat, packet);
            is_that
        }
    }
}

/// Claims so many times, and counts the packets.
pub(crate) fn claim_rounds(pool: &Pool<PlainLaw>, seat: &mut Seat<PlainLaw>, rounds: u64) -> u64
    requires seat { IsSeatOf (board_of pool.now) seat.old }
    requires empty { HoldsNothing (held seat.old) }
    ensures seat { IsSeatOf (board_of pool.now) seat.new }
    ensures empty { HoldsNothing (held seat.new) }
    ensures counted { result ≤ rounds }
{
    let mut moved = 0;
    for round in 0..rounds {
        if claims(pool, seat) {
            moved += 1;
        }
    }
    moved
}

/// Takes a packet and posts it, if there is one.
pub(crate) fn take_and_post(pool: &Pool<PlainLaw>, seat: &mut Seat<PlainLaw>, order: u64) -> bool
    requires seat { IsSeatOf (board_of pool.now) seat.old }
    requires empty { HoldsNothing (held seat.old) }
    requires order { PostsBelow order (view seat.old) × (order < last_order) }
    ensures seat { IsSeatOf (board_of pool.now) seat.new }
    ensures empty { HoldsNothing (held seat.new) }
    ensures order { PostsBelow (order + 1) (view seat.new) }
{
    match take(pool, seat) {
        None => false,
        Some(packet) => posts(pool, seat, packet, order),
    }
}

/// Claims a packet and posts it again, and says whether both was done and the packet is that of this number.
pub(crate) fn claim_and_post(
    pool: &Pool<PlainLaw>,
    seat: &mut Seat<PlainLaw>,
    number: u16,
    order: u64,
) -> bool
    requires seat { IsSeatOf (board_of pool.now) seat.old }
    requires empty { HoldsNothing (held seat.old) }
    requires order { PostsBelow order (view seat.old) × (order < last_order) }
    ensures seat { IsSeatOf (board_of pool.now) seat.new }
    ensures empty { HoldsNothing (held seat.new) }
{
    match claim(pool, seat) {
        Err(_) => false,
        Ok(packet) => {
            let is_that = packet.has(number);
            posts(pool, seat, packet, order) && is_that
        }
    }
}

/// Posts under the orders below that one, and counts the packets.
pub(crate) fn post_rounds(pool: &Pool<PlainLaw>, seat: &mut Seat<PlainLaw>, rounds: u64) -> u64
    requires seat { IsSeatOf (board_of pool.now) seat.old }
    requires empty { HoldsNothing (held seat.old) }
    requires order { PostsBelow 0 (view seat.old) × (rounds ≤ last_order) }
    ensures seat { IsSeatOf (board_of pool.now) seat.new }
    ensures empty { HoldsNothing (held seat.new) }
    ensures order { PostsBelow rounds (view seat.new) }
    ensures counted { result ≤ rounds }
{
    let mut moved = 0;
    for order in 0..rounds {
        if take_and_post(pool, seat, order) {
            moved += 1;
        }
    }
    moved
}
