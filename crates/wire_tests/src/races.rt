//! Two seats of which one steps between the two halves of the other's claim. The halves are steps on the pool's board:
//! a claim looks at each ready cell, and then takes the packet that it chose by one exchange.
ghost use Rattle.std.specs.Prelude.{◌≡◌, ◌<◌, ◌^◌, IfErr};
ghost use Rattle.packet_board.specs.Seats.{view, held, IsSeatOf};
ghost use Rattle.packet_pool.specs.Packets.{board_of, layout_in};
ghost use Rattle.wire_tests.specs.Moves.{plain_layout, SamePoster};

use crate::moves::{claims, take_and_post};
use crate::pools::pool_of_two;
use packet_board::{Seat, Word};
use packet_pool::{PlainLaw, Pool};
use std::marker::Brand;
use std::test::Fail;

/// The ready cell of a pool of one buffer and one ready cell.
const READY: usize = 1;

/// What the ready cell holds while the packet waits in it under that order.
fn ready(order: u64) -> Word {
    Word {
        tag: order,
        buffer: Some(0),
    }
}

/// The first half of a claim.
fn look(pool: &Pool<PlainLaw>, seat: &mut Seat<PlainLaw>) -> Word
    requires seat { IsSeatOf (board_of pool.now) seat.old }
    requires layout { layout_in pool.now ≡ plain_layout 1 1 }
    ensures seat { IsSeatOf (board_of pool.now) seat.new }
    ensures notes { SamePoster (view seat.old) (view seat.new) }
    ensures held { held seat.new ≡ held seat.old }
{
    pool.board().load::<Brand>(seat, READY)
}

/// The second half, after the packet was seen under that order; or the word that it meets in place of the packet.
fn claim_seen(pool: &Pool<PlainLaw>, seat: &mut Seat<PlainLaw>, order: u64) -> Result<(), Word>
    requires seat { IsSeatOf (board_of pool.now) seat.old }
    requires layout { layout_in pool.now ≡ plain_layout 1 1 }
    requires order { order < 2 ^ 52 }
    ensures seat { IsSeatOf (board_of pool.now) seat.new }
    ensures lost { IfErr result (λ met. held seat.new ≡ held seat.old) }
{
    let seen = Word {
        tag: order,
        buffer: Some(0),
    };
    let empty = Word {
        tag: 0,
        buffer: None,
    };
    pool.board().exchange::<Brand>(seat, READY, seen, empty)
}

#[test]
fn of_two_seats_that_saw_a_packet_one_claims_it(rt: HostRuntime) -> Result<(), Fail> {
    let (pool, mut one, mut two) = pool_of_two(rt.alloc(), 1, 1)?;
    let posted = take_and_post(&pool, &mut one, 5);
    let seen = [look(&pool, &mut one), look(&pool, &mut two)];
    let claimed = claims(&pool, &mut two);
    let met = claim_seen(&pool, &mut one, 5);
    let empty = Word {
        tag: 0,
        buffer: None,
    };
    assert!(rt; [posted, claimed] == [true; 2]);
    assert!(rt; (seen, met) == ([ready(5); 2], Err(empty)));
    Ok(())
}

#[test]
fn a_packet_posted_again_is_not_claimed_under_its_former_order(
    rt: HostRuntime,
) -> Result<(), Fail> {
    let (pool, mut one, mut two) = pool_of_two(rt.alloc(), 1, 1)?;
    let posted = take_and_post(&pool, &mut one, 5);
    let seen = look(&pool, &mut two);
    let claimed = claims(&pool, &mut one);
    let again = take_and_post(&pool, &mut one, 6);
    let Err(met) = claim_seen(&pool, &mut two, 5) else {
        panic!(rt; "it is posted again")
    };
    let last = claims(&pool, &mut two);
    assert!(rt; [posted, claimed, again, last] == [true; 4]);
    assert!(rt; [seen, met] == [ready(5), ready(6)]);
    Ok(())
}
