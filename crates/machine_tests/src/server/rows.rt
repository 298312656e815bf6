//! The worker's rules, row by row, on the calls of the server machine. The packets are of call 65536 of process 1 of
//! machine 2, where they are of no other.

use super::trial::{
    ACK, ACKED, Added, CALL, CallerPacket, Data, EARLIER, FIRST, LATER, Line, PROBE, RESULT,
    SECOND, ServerPacket, first_other_at_boot,
};
use Added::{Nothing, Packet, Run};
use Line::{One, Take, Two};
use call_rules::Did;
use call_rules::Unfit::{Busy, Lost, Older, Same, Skipped, Unknown};
use rpc_header::Kind;
use std::test::Fail;

/// The call, asking for an acknowledgement.
const ASKING: CallerPacket = CallerPacket {
    please_ack: true,
    ..CALL
};

const LATER_PROBE: CallerPacket = CallerPacket {
    number: 65537,
    ..PROBE
};

/// The last piece of a call of three.
const LAST: CallerPacket = CallerPacket {
    fragment: 2,
    data: Data::Sevens(5),
    ..CALL
};

/// The last piece of a call of two.
const LAST_OF_TWO: CallerPacket = CallerPacket {
    fragment: 1,
    ..LAST
};

const SECOND_ACKED: ServerPacket = ServerPacket {
    fragment: 1,
    ..ACKED
};

/// The exception for arguments that can't be read.
const SIGNAL: ServerPacket = ServerPacket {
    kind: Kind::Signal,
    len: 2,
    ..ACKED
};

static FETCHED_AGAIN: [Line; 21] = [
    Take(CALL),
    One(Did::Claims, Nothing),
    One(Did::Admits, Nothing),
    One(Did::Runs, Run(0, false, 0)),
    One(Did::Replies, Packet(RESULT)),
    // The call's last piece once more, a probe, and an acknowledgement of a piece that isn't followed.
    Take(ASKING),
    One(Did::Claims, Nothing),
    One(Did::Fetches, Nothing),
    One(Did::Resends, Packet(RESULT)),
    Take(PROBE),
    One(Did::Claims, Nothing),
    One(Did::Fetches, Nothing),
    One(Did::Resends, Packet(RESULT)),
    Take(ACK),
    One(Did::Claims, Nothing),
    One(Did::Fetches, Nothing),
    One(Did::Drops(Same), Nothing),
    Take(FIRST),
    One(Did::Drops(Same), Nothing),
    Take(EARLIER),
    One(Did::Drops(Older), Nothing),
];

#[test]
fn a_call_runs_and_its_reply_is_fetched_again(rt: HostRuntime) -> Result<(), Fail> {
    assert!(rt; first_other_at_boot(rt.alloc(), &FETCHED_AGAIN)?.is_none());
    Ok(())
}

static WHILE_RUNNING: [Line; 19] = [
    Take(CALL),
    One(Did::Claims, Nothing),
    One(Did::Admits, Nothing),
    Take(CALL),
    Two(Did::Drops(Same), Nothing),
    Take(ASKING),
    Two(Did::Acks, Packet(ACKED)),
    Take(SECOND),
    Two(Did::Acks, Packet(SECOND_ACKED)),
    Take(PROBE),
    Two(Did::Acks, Packet(ACKED)),
    Take(ACK),
    Two(Did::Drops(Busy), Nothing),
    Take(LATER),
    Two(Did::Drops(Busy), Nothing),
    Take(LATER_PROBE),
    Two(Did::Drops(Unknown), Nothing),
    Take(EARLIER),
    Two(Did::Drops(Older), Nothing),
];

#[test]
fn packets_that_come_while_a_call_runs(rt: HostRuntime) -> Result<(), Fail> {
    assert!(rt; first_other_at_boot(rt.alloc(), &WHILE_RUNNING)?.is_none());
    Ok(())
}

static GATHERED: [Line; 23] = [
    Take(SECOND),
    One(Did::Drops(Skipped), Nothing),
    Take(FIRST),
    One(Did::Claims, Nothing),
    One(Did::Begins, Packet(ACKED)),
    Take(LAST),
    One(Did::Claims, Nothing),
    One(Did::Takes, Nothing),
    One(Did::Drops(Skipped), Nothing),
    Take(SECOND),
    One(Did::Claims, Nothing),
    One(Did::Takes, Nothing),
    One(Did::Rests, Packet(SECOND_ACKED)),
    Take(FIRST),
    One(Did::Claims, Nothing),
    One(Did::Takes, Nothing),
    One(Did::Rests, Packet(ACKED)),
    Take(LAST),
    One(Did::Claims, Nothing),
    One(Did::Takes, Nothing),
    One(Did::Admits, Nothing),
    One(Did::Runs, Run(2885, true, 2)),
    One(Did::Replies, Packet(SIGNAL)),
];

#[test]
fn arguments_are_gathered_piece_by_piece(rt: HostRuntime) -> Result<(), Fail> {
    assert!(rt; first_other_at_boot(rt.alloc(), &GATHERED)?.is_none());
    Ok(())
}

static WHILE_GATHERED: [Line; 22] = [
    Take(FIRST),
    One(Did::Claims, Nothing),
    One(Did::Begins, Packet(ACKED)),
    Take(ACK),
    One(Did::Drops(Busy), Nothing),
    Take(PROBE),
    One(Did::Drops(Busy), Nothing),
    // A worker has what is gathered in hand.
    Take(SECOND),
    One(Did::Claims, Nothing),
    One(Did::Takes, Nothing),
    Take(SECOND),
    Two(Did::Drops(Busy), Nothing),
    Take(ACK),
    Two(Did::Drops(Busy), Nothing),
    Take(PROBE),
    Two(Did::Drops(Busy), Nothing),
    Take(LATER),
    Two(Did::Drops(Busy), Nothing),
    One(Did::Rests, Packet(SECOND_ACKED)),
    // A later call takes the place of what is gathered.
    Take(LATER),
    Two(Did::Claims, Nothing),
    Two(Did::Admits, Nothing),
];

#[test]
fn packets_that_come_while_arguments_are_gathered(rt: HostRuntime) -> Result<(), Fail> {
    assert!(rt; first_other_at_boot(rt.alloc(), &WHILE_GATHERED)?.is_none());
    Ok(())
}

static WHILE_SENT: [Line; 21] = [
    Take(PROBE),
    One(Did::Drops(Unknown), Nothing),
    Take(ACK),
    One(Did::Drops(Unknown), Nothing),
    Take(CALL),
    One(Did::Claims, Nothing),
    One(Did::Admits, Nothing),
    One(Did::Runs, Run(0, false, 0)),
    One(Did::Replies, Packet(RESULT)),
    Take(PROBE),
    One(Did::Claims, Nothing),
    One(Did::Fetches, Nothing),
    Take(CALL),
    Two(Did::Drops(Busy), Nothing),
    Take(ACK),
    Two(Did::Drops(Busy), Nothing),
    Take(LATER),
    Two(Did::Drops(Busy), Nothing),
    Take(PROBE),
    Two(Did::Acks, Packet(ACKED)),
    One(Did::Resends, Packet(RESULT)),
];

#[test]
fn packets_that_come_while_a_reply_is_sent_again(rt: HostRuntime) -> Result<(), Fail> {
    assert!(rt; first_other_at_boot(rt.alloc(), &WHILE_SENT)?.is_none());
    Ok(())
}

/// Two workers claim packets for one entry, and the second loses.
static LOST: [Line; 28] = [
    Take(FIRST),
    Take(FIRST),
    One(Did::Claims, Nothing),
    Two(Did::Claims, Nothing),
    One(Did::Begins, Packet(ACKED)),
    Two(Did::Drops(Lost), Nothing),
    Take(LAST_OF_TWO),
    Take(LAST_OF_TWO),
    One(Did::Claims, Nothing),
    Two(Did::Claims, Nothing),
    One(Did::Takes, Nothing),
    Two(Did::Drops(Lost), Nothing),
    One(Did::Admits, Nothing),
    One(Did::Runs, Run(1445, true, 2)),
    One(Did::Replies, Packet(SIGNAL)),
    Take(PROBE),
    Take(LATER),
    One(Did::Claims, Nothing),
    Two(Did::Claims, Nothing),
    One(Did::Fetches, Nothing),
    Two(Did::Drops(Lost), Nothing),
    One(Did::Resends, Packet(SIGNAL)),
    Take(LATER),
    Take(PROBE),
    One(Did::Claims, Nothing),
    Two(Did::Claims, Nothing),
    One(Did::Admits, Nothing),
    Two(Did::Drops(Lost), Nothing),
];

#[test]
fn the_slower_of_two_workers_loses(rt: HostRuntime) -> Result<(), Fail> {
    assert!(rt; first_other_at_boot(rt.alloc(), &LOST)?.is_none());
    Ok(())
}
