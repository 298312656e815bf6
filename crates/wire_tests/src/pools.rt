//! Pools under the plain law.
ghost use Rattle.std.specs.Prelude.{◌≡◌, ◌≤◌, ◌<◌, ◌^◌, ◌+◌, true, [], IsTrue, IfOk, IfSome};
ghost use Rattle.packet_board.specs.Hands.{HoldsNothing};
ghost use Rattle.packet_board.specs.declared.buffer.TheConstants.{SMALL_BYTES};
ghost use Rattle.packet_board.specs.Seats.{view, held, IsSeatOf};
ghost use Rattle.packet_pool.specs.Cells.{last_order};
ghost use Rattle.packet_pool.specs.Packets.{board_of, layout_in, number_of};
ghost use Rattle.wire_tests.specs.Moves.{plain_layout, HoldsPacket, PostsBelow};

use crate::board::{EMPTY, word};
use crate::moves::{
    claim_and_post, claim_rounds, claims, claims_that, give, post, post_rounds, posts, take,
    take_and_post, takes,
};
use ff_io::Station;
use packet_board::{Closed, Layout, SMALL_BYTES, Seat, Word};
use packet_pool::{Packet, PlainLaw, Pool, Unread};
use rpc_header::{Activity, CallId, CallNumber, Export, Header, HeaderFault, Kind, fits};
use std::alloc::{AllocError, Global};
use std::test::Fail;
use std::thread::join_mut;
use udp_frames::{FrameFault, write_headers};

/// A new pool of so many small buffers and ready cells, and its first seat.
fn pool_of_one(
    alloc: Global,
    small: usize,
    ready: usize,
) -> Result<(Pool<PlainLaw>, Seat<PlainLaw>), AllocError>
    requires few { (small ≤ 4095) × (ready < 2 ^ 16) }
    ensures seat { IfOk result (λ made. IsSeatOf (board_of made.0) made.1) }
    ensures empty { IfOk result (λ made. HoldsNothing (held made.1)) }
    ensures right { IfOk result (λ made. (view made.1).notes.right ≡ true) }
    ensures posted { IfOk result (λ made. (view made.1).notes.posted ≡ []) }
{
    let layout = Layout {
        small,
        long: 0,
        rows: [ready, 0, 0, 0, 0],
    };
    Pool::make(alloc, layout)
}

/// A new pool and its first two seats.
pub(crate) fn pool_of_two(
    alloc: Global,
    small: usize,
    ready: usize,
) -> Result<(Pool<PlainLaw>, Seat<PlainLaw>, Seat<PlainLaw>), AllocError>
    requires few { (small ≤ 4095) × (ready < 2 ^ 16) }
    ensures seats { IfOk result (λ made. IsSeatOf (board_of made.0) made.1 × IsSeatOf (board_of made.0) made.2) }
    ensures empty { IfOk result (λ made. HoldsNothing (held made.1) × HoldsNothing (held made.2)) }
    ensures right { IfOk result (λ made. (view made.1).notes.right ≡ true) }
    ensures posted { IfOk result (λ made. (view made.1).notes.posted ≡ []) }
    ensures layout { IfOk result (λ made. layout_in made.0 ≡ plain_layout small ready) }
{
    let layout = Layout {
        small,
        long: 0,
        rows: [ready, 0, 0, 0, 0],
    };
    let (pool, mut one) = Pool::<PlainLaw>::make(alloc, layout)?;
    let two = pool.board().split(&mut one);
    Ok((pool, one, two))
}

/// Joins the other seat, claims what still waits, up to three packets, and closes the pool: how many they are, and what
/// is left.
fn claim_and_close(
    pool: Pool<PlainLaw>,
    mut seat: Seat<PlainLaw>,
    other: Seat<PlainLaw>,
) -> Option<(u64, Closed)>
    requires seats { IsSeatOf (board_of pool) seat × IsSeatOf (board_of pool) other }
    requires empty { HoldsNothing (held seat) × HoldsNothing (held other) }
    requires right { (view seat).notes.right ≡ true }
{
    pool.board().join(&mut seat, other);
    let claimed = claim_rounds(&pool, &mut seat, 3);
    Some((claimed, pool.close(seat).ok()?))
}

/// How many seats are out beside the first one of two, as the pool says it when it doesn't close; and once that seat is
/// joined, how many packets are claimed, and how many buffers are left.
fn closed_after_join(alloc: Global, small: usize) -> Option<(u64, u64, usize)>
    requires { small ≤ 4095 }
{
    let (pool, seat, other) = pool_of_two(alloc, small, 0).ok()?;
    let (pool, seat, out) = match pool.close(seat) {
        Ok(_) => return None,
        Err(back) => back,
    };
    let (claimed, closed) = claim_and_close(pool, seat, other)?;
    Some((out, claimed, closed.buffers.len()))
}

#[test]
fn a_pool_closes_when_all_seats_are_joined(rt: HostRuntime) {
    assert!(rt; closed_after_join(rt.alloc(), 1) == Some((1, 0, 1)));
}

/// Whether no further packet is there to take.
fn none_left(pool: &Pool<PlainLaw>, seat: &mut Seat<PlainLaw>, packet: &Packet) -> bool
    requires seat { IsSeatOf (board_of pool.now) seat.old }
    requires packet { HoldsPacket (layout_in pool.now) (held seat.old) packet.now }
    ensures seat { IsSeatOf (board_of pool.now) seat.new }
    ensures packet { IsTrue result → HoldsPacket (layout_in pool.now) (held seat.new) packet.now }
{
    match pool.take(seat) {
        Err(_) => true,
        Ok(further) => {
            pool.give(seat, further);
            false
        }
    }
}

#[test]
fn one_small_buffer_is_taken_once_and_again_after_it_was_given(
    rt: HostRuntime,
) -> Result<(), Fail> {
    let (pool, mut seat) = pool_of_one(rt.alloc(), 1, 0)?;
    let Some(packet) = take(&pool, &mut seat) else {
        panic!(rt; "the buffer is free")
    };
    assert!(rt; packet.has(0));
    assert!(rt; none_left(&pool, &mut seat, &packet));
    give(&pool, &mut seat, packet);
    let Some(packet) = take(&pool, &mut seat) else {
        panic!(rt; "the buffer is free again")
    };
    assert!(rt; packet.has(0));
    give(&pool, &mut seat, packet);
    Ok(())
}

/// Whether the second seat finds no packet while the first one has one; or none, where the first one finds none.
fn keeps_out(
    pool: &Pool<PlainLaw>,
    first: &mut Seat<PlainLaw>,
    second: &mut Seat<PlainLaw>,
) -> Option<bool>
    requires seats { IsSeatOf (board_of pool.now) first.old × IsSeatOf (board_of pool.now) second.old }
    requires empty { HoldsNothing (held first.old) × HoldsNothing (held second.old) }
    ensures seats { IsSeatOf (board_of pool.now) first.new × IsSeatOf (board_of pool.now) second.new }
    ensures empty { HoldsNothing (held first.new) × HoldsNothing (held second.new) }
{
    let packet = take(pool, first)?;
    let is_out = !takes(pool, second);
    give(pool, first, packet);
    Some(is_out)
}

#[test]
fn of_two_seats_one_takes_the_buffer(rt: HostRuntime) -> Result<(), Fail> {
    let (pool, mut one, mut two) = pool_of_two(rt.alloc(), 1, 0)?;
    let kept_out = [
        keeps_out(&pool, &mut one, &mut two),
        keeps_out(&pool, &mut two, &mut one),
    ];
    assert!(rt; kept_out == [Some(true); 2]);
    Ok(())
}

#[test]
fn the_least_order_is_claimed_first(rt: HostRuntime) -> Result<(), Fail> {
    let (pool, mut seat) = pool_of_one(rt.alloc(), 3, 2)?;
    let moved = [
        take_and_post(&pool, &mut seat, 5),
        take_and_post(&pool, &mut seat, 6),
        // It goes into the former ready cell, and yet comes last.
        claim_and_post(&pool, &mut seat, 0, 7),
        claims_that(&pool, &mut seat, 1),
    ];
    assert!(rt; moved == [true; 4]);
    Ok(())
}

/// Takes a packet and posts it in vain: the packet that comes back.
fn refused(pool: &Pool<PlainLaw>, seat: &mut Seat<PlainLaw>, order: u64) -> Option<Packet>
    requires seat { IsSeatOf (board_of pool.now) seat.old }
    requires empty { HoldsNothing (held seat.old) }
    requires order { PostsBelow order (view seat.old) × (order < last_order) }
    ensures seat { IsSeatOf (board_of pool.now) seat.new }
    ensures order { IfSome result (λ _. PostsBelow (order + 1) (view seat.new)) }
    ensures packet { IfSome result (HoldsPacket (layout_in pool.now) (held seat.new)) }
{
    let packet = take(pool, seat)?;
    post(pool, seat, packet, order).err()
}

#[test]
fn a_packet_comes_back_until_another_seat_has_claimed(rt: HostRuntime) -> Result<(), Fail> {
    let (pool, mut one, mut two) = pool_of_two(rt.alloc(), 2, 1)?;
    let posted = take_and_post(&pool, &mut one, 1);
    let Some(second) = refused(&pool, &mut one, 2) else {
        panic!(rt; "one is free, and the ready cell is full")
    };
    let is_second = second.has(1);
    let claimed = claims(&pool, &mut two);
    let again = posts(&pool, &mut one, second, 3);
    assert!(rt; [posted, is_second, claimed, again] == [true; 4]);
    Ok(())
}

/// Whether a packet is taken, and one claimed, in a new pool with one ready cell, and how many buffers it leaves.
fn moved_in_new(alloc: Global, small: usize) -> Option<(bool, bool, usize)>
    requires { small ≤ 4095 }
{
    let (pool, mut seat) = pool_of_one(alloc, small, 1).ok()?;
    let taken = takes(&pool, &mut seat);
    let claimed = claims(&pool, &mut seat);
    let closed = pool.close(seat).ok()?;
    Some((taken, claimed, closed.buffers.len()))
}

#[test]
fn a_pool_without_buffers_gives_none(rt: HostRuntime) {
    assert!(rt; moved_in_new(rt.alloc(), 0) == Some((false, false, 0)));
}

/// The header of a call of one packet.
const CALL: Header = Header {
    kind: Kind::Call,
    please_ack: true,
    last: true,
    reason: 0,
    call: CallId {
        activity: Activity {
            machine: 2,
            process: 3,
        },
        number: CallNumber { value: 65_541 },
    },
    hint: 9,
    fragment: 0,
    export: Export {
        identifier: 77,
        index: 1,
    },
    procedure: 4,
};

/// Seals a packet round a short text, where its header has a spelling.
fn sealed(packet: &mut Packet, from: Station, to: Station) -> bool
    ensures { number_of packet.new ≡ number_of packet.old }
{
    packet.fill(b"hello");
    let has_spelling = fits(&CALL, 5);
    if has_spelling {
        packet.seal(from, to, &CALL, 5);
    }
    has_spelling
}

/// The length of a packet's frame, what comes of reading so many bytes of it at a station, and the length of its data
/// then.
fn read_at(packet: &mut Packet, len: usize, at: Station) -> (usize, Result<(), Unread>, usize)
    requires { len ≤ SMALL_BYTES }
    ensures { number_of packet.new ≡ number_of packet.old }
{
    let frame = packet.frame().len();
    let answer = packet.read(len, at);
    (frame, answer, packet.payload().len())
}

/// Whether a packet is a signal from a station with this header and these data.
fn is_signal(packet: &Packet, from: Station, header: &Header, data: &[u8]) -> bool {
    packet.payload() == data
        && packet.header() == header
        && packet.from() == from
        && packet.is_signal()
}

/// Seals a packet, and reads it where it was not sent, where it was sent, and where it has data that is no header: the
/// frame is right then, and its data too short. Whether each time that is seen, and the header stays.
fn is_read_back(packet: &mut Packet, from: Station, to: Station) -> bool
    ensures { number_of packet.new ≡ number_of packet.old }
{
    let has_spelling = sealed(packet, from, to);
    packet.set(true, 0);
    let elsewhere = read_at(packet, 79, from);
    let there = read_at(packet, 79, to);
    let is_so = is_signal(packet, from, &CALL, b"hello");
    write_headers(packet.whole(), to, from, 31);
    let headless = read_at(packet, 73, from);
    has_spelling
        && elsewhere == (74, Err(Unread::Frame(FrameFault::NotForUs)), 0)
        && there == (74, Ok(()), 5)
        && is_so
        && headless == (79, Err(Unread::Header(HeaderFault::Short)), 5)
        && *packet.header() == CALL
}

/// The same, of the one packet of a new pool.
fn new_is_read_back(alloc: Global, from: Station, to: Station) -> Option<bool> {
    let (pool, mut seat) = pool_of_one(alloc, 1, 0).ok()?;
    let mut packet = take(&pool, &mut seat)?;
    let is_so = is_read_back(&mut packet, from, to);
    give(&pool, &mut seat, packet);
    Some(is_so)
}

#[test]
fn what_was_sealed_is_read_back(rt: HostRuntime) {
    let (one, two) = (Station { machine: 1 }, Station { machine: 2 });
    assert!(rt; new_is_read_back(rt.alloc(), two, one) == Some(true));
}

#[test]
fn two_threads_move_packets_and_all_come_home(rt: HostRuntime) -> Result<(), Fail> {
    let (pool, mut one, mut two) = pool_of_two(rt.alloc(), 4, 2)?;
    let (posted, claimed) = join_mut(
        &rt,
        &mut || post_rounds(&pool, &mut one, 2_000),
        &mut || claim_rounds(&pool, &mut two, 2_000),
    );
    // What still waits is claimed, and the board closes with each buffer in its free cell.
    let (left, closed) = claim_and_close(pool, one, two).ok_or("no seat is out")?;
    assert!(rt; (posted.checked_sub(claimed), closed.buffers.len()) == (Some(left), 4));
    let words = [word(0, 0), word(0, 1), word(0, 2), word(0, 3), EMPTY, EMPTY];
    assert!(rt; closed.words.as_slice() == words.as_slice());
    Ok(())
}
