//! What process 1 of machine 2, a client, tells by its state and what comes; a call and a reply of three pieces each.

use super::trial::{Act, BIND, CALL, Data, PROCESS_1, Seen, Trial, goes_on};
use Seen::{Bound as B, NotBound as N, Sends, Stale as S, Unused as U, Waits as W};
use lane_checksum::Digest;
use replay_client::Cause;
use rpc_header::{CallId, CallNumber, Export, Header, Kind};
use std::alloc::{AllocError, Global};
use std::test::Fail;

/// The last piece of the call, which is its third.
const LAST: Header = Header {
    fragment: 2,
    procedure: 3,
    ..CALL
};

/// A piece of the call before the last.
const FIRST: Header = Header {
    please_ack: true,
    last: false,
    fragment: 0,
    ..LAST
};

const SECOND: Header = Header {
    fragment: 1,
    ..FIRST
};

/// Acknowledgements of the first three pieces, of the call or of its reply.
const ACK_0: Header = Header {
    kind: Kind::Ack,
    fragment: 0,
    ..LAST
};

const ACK_1: Header = Header {
    fragment: 1,
    ..ACK_0
};

const ACK_2: Header = Header {
    fragment: 2,
    ..ACK_0
};

/// A reply of one piece, and the last of a reply of two, and of three.
const REPLY: Header = Header {
    kind: Kind::Result,
    ..ACK_0
};

const REPLY_1: Header = Header {
    fragment: 1,
    ..REPLY
};

const REPLY_2: Header = Header {
    fragment: 2,
    ..REPLY
};

/// Pieces of a reply before the last.
const PIECE_0: Header = Header {
    please_ack: true,
    last: false,
    ..REPLY
};

const PIECE_1: Header = Header {
    fragment: 1,
    ..PIECE_0
};

/// A refusal of the call, and the two answers to a bind.
const REJECT: Header = Header {
    kind: Kind::Reject,
    reason: 1,
    ..ACK_0
};

const FOUND: Export = Export {
    identifier: 7,
    index: 3,
};

const BOUND: Header = Header {
    kind: Kind::Bound,
    export: FOUND,
    ..ACK_0
};

const UNBOUND: Header = Header { reason: 1, ..BOUND };

/// An acknowledgement of another call.
const OTHER: Header = Header {
    call: CallId {
        activity: PROCESS_1,
        number: CallNumber { value: 65535 },
    },
    ..ACK_0
};

/// The packets that have a row somewhere, each column of the table below, and one of another call.
const PACKETS: [(Header, Data); 12] = [
    (ACK_0, Data::Empty),
    (ACK_1, Data::Empty),
    (ACK_2, Data::Empty),
    (REPLY, Data::Fives),
    (SIGNAL, Data::Exception),
    (PIECE_0, Data::Ones),
    (PIECE_1, Data::Ones),
    (REPLY_1, Data::Fives),
    (REJECT, Data::Empty),
    (BOUND, Data::Empty),
    (UNBOUND, Data::Empty),
    (OTHER, Data::Empty),
];

const SIGNAL: Header = Header {
    kind: Kind::Signal,
    ..REPLY
};

/// The states of the process. Its call has pieces 0, 1 and 2.
#[derive(Clone, Copy, PartialEq, Eq)]
enum At {
    Idle,
    Sending0,
    Sending1,
    Sending2,
    Waiting,
    Receiving1,
    Receiving2,
    Binding,
}

/// A client whose process has come to this state.
fn client_at(alloc: Global, at: At) -> Result<Trial, Fail> {
    let mut trial = Trial::new(alloc)?;
    comes_to(&mut trial, alloc, at)?;
    Ok(trial)
}

fn comes_to(trial: &mut Trial, alloc: Global, at: At) -> Result<(), Fail> {
    for act in way_to(at).into_iter().take(steps_to(at)) {
        trial.sees(alloc, act)?;
    }
    Ok(())
}

/// The acts on the way to a state: the first of them lead there, as many as `steps_to` says.
fn way_to(at: At) -> [Act; 5] {
    [
        if at == At::Binding {
            Act::Bind(1)
        } else {
            Act::LongCall
        },
        Act::Take(ACK_0, Data::Empty),
        Act::Take(ACK_1, Data::Empty),
        if at == At::Waiting {
            Act::Take(ACK_2, Data::Empty)
        } else {
            Act::Take(PIECE_0, Data::Ones)
        },
        Act::Take(PIECE_1, Data::Ones),
    ]
}

/// How many acts come before a state.
fn steps_to(at: At) -> usize {
    match at {
        At::Idle => 0,
        At::Sending0 | At::Binding => 1,
        At::Sending1 => 2,
        At::Sending2 => 3,
        At::Waiting | At::Receiving1 => 4,
        At::Receiving2 => 5,
    }
}

/// What is seen of a packet at this state.
fn seen_at(alloc: Global, at: At, header: Header, data: Data) -> Result<Seen, Fail> {
    let mut trial = client_at(alloc, at)?;
    trial.sees(alloc, Act::Take(header, data))
}

/// Whether the packets are seen so at this state.
fn has_row(alloc: Global, at: At, row: [Seen; 12]) -> Result<bool, Fail> {
    for ((header, data), seen) in PACKETS.into_iter().zip(row) {
        if seen_at(alloc, at, header, data)? != seen {
            return Ok(false);
        }
    }
    Ok(true)
}

/// The call is refused.
const F: Seen = Seen::Fails(Cause::Refused(1));

/// Pieces 1 and 2 of the call are sent.
const C1: Seen = Sends(SECOND, 1440);

const C2: Seen = Sends(LAST, 120);

/// Pieces 0 and 1 of the reply are acknowledged.
const A0: Seen = Sends(ACK_0, 0);

const A1: Seen = Sends(ACK_1, 0);

/// A reply of one piece, one of two pieces that are joined, and a signal.
const SHORT: Seen = Seen::Returned(Digest {
    len: 5,
    head: [5, 5, 5, 5, 5, 0, 0, 0, 0, 0, 0, 0, 0, 0, 0, 0],
    sum: 0x0f0a,
});

const LONG: Seen = Seen::Returned(Digest {
    len: 1445,
    head: [1; 16],
    sum: 0xe1dc,
});

const X: Seen = Seen::Signalled(Digest {
    len: 2,
    head: [0, 1, 0, 0, 0, 0, 0, 0, 0, 0, 0, 0, 0, 0, 0, 0],
    sum: 1,
});

const Y: Seen = B(FOUND);

/// What is seen of each of the packets at each state.
const ROWS: [(At, [Seen; 12]); 8] = [
    (At::Idle, [S; 12]),
    (At::Sending0, [C1, U, U, U, U, U, U, U, F, U, U, S]),
    (At::Sending1, [U, C2, U, U, U, U, U, U, F, U, U, S]),
    (At::Sending2, [U, U, W, SHORT, X, A0, U, U, F, U, U, S]),
    (At::Waiting, [U, U, W, SHORT, X, A0, U, U, F, U, U, S]),
    (At::Receiving1, [U, U, U, U, U, U, A1, LONG, F, U, U, S]),
    (At::Receiving2, [U, U, U, U, U, U, U, U, F, U, U, S]),
    (At::Binding, [U, U, U, U, U, U, U, U, U, Y, N, S]),
];

#[test]
fn packets_at_each_state(rt: HostRuntime) -> Result<(), Fail> {
    for (at, row) in ROWS {
        assert!(rt; has_row(rt.alloc(), at, row)?);
    }
    Ok(())
}

/// Whether three ticks are quiet, and the fourth is seen so.
fn fourth_tick_is(trial: &mut Trial, alloc: Global, seen: Seen) -> Result<bool, Fail> {
    for _ in 0..3 {
        if trial.sees(alloc, Act::Tick(1))? != Seen::Quiet {
            return Ok(false);
        }
    }
    Ok(trial.sees(alloc, Act::Tick(1))? == seen)
}

/// The last piece of the call when it is sent again, and the probe of a call that waits.
const LAST_AGAIN: Header = Header {
    please_ack: true,
    ..LAST
};

const PROBE: Header = Header {
    kind: Kind::Probe,
    ..LAST_AGAIN
};

const UNANSWERED: Seen = Seen::Fails(Cause::Unanswered);

/// Each state in which a call or a bind is open, with what it sends again, how often, and how it ends.
const TICKS: [(At, Seen, u8, Seen); 7] = [
    (At::Sending0, Sends(FIRST, 1440), 7, UNANSWERED),
    (At::Sending1, C1, 7, UNANSWERED),
    (At::Sending2, Sends(LAST_AGAIN, 120), 7, UNANSWERED),
    (At::Waiting, Sends(PROBE, 0), 8, UNANSWERED),
    (At::Receiving1, A0, 7, UNANSWERED),
    (At::Receiving2, A1, 7, UNANSWERED),
    (At::Binding, Sends(BIND, 10), 7, Seen::BindFails),
];

/// Whether it sends this again so often, once in four ticks.
fn sends_again(trial: &mut Trial, alloc: Global, again: Seen, times: u8) -> Result<bool, Fail> {
    for _ in 0..times {
        if !fourth_tick_is(trial, alloc, again)? {
            return Ok(false);
        }
    }
    Ok(true)
}

/// Whether it ends so at the fourth tick, and is idle and quiet from then on.
fn ends_so(trial: &mut Trial, alloc: Global, end: Seen) -> Result<bool, Fail> {
    let lines = [
        (Act::Tick(1), Seen::Quiet),
        (Act::Tick(1), Seen::Quiet),
        (Act::Tick(1), Seen::Quiet),
        (Act::Tick(1), end),
        (Act::Idle(1), Seen::Yes),
        (Act::Tick(1), Seen::Quiet),
        (Act::Tick(1), Seen::Quiet),
        (Act::Tick(1), Seen::Quiet),
        (Act::Tick(1), Seen::Quiet),
    ];
    goes_on(trial, alloc, lines)
}

/// Whether both are so of a client that has come to this state.
fn ends_so_from(alloc: Global, at: At, again: Seen, times: u8, end: Seen) -> Result<bool, Fail> {
    let mut trial = client_at(alloc, at)?;
    Ok(sends_again(&mut trial, alloc, again, times)? && ends_so(&mut trial, alloc, end)?)
}

#[test]
fn eight_transmissions_without_an_answer_fail(rt: HostRuntime) -> Result<(), Fail> {
    for (at, again, times, end) in TICKS {
        assert!(rt; ends_so_from(rt.alloc(), at, again, times, end)?);
    }
    Ok(())
}

/// The arguments: their count, and behind it the bytes 0, 1 and so on modulo 251.
fn arguments(alloc: Global, count: u16) -> Result<Vec<u8>, AllocError> {
    let mut bytes = Vec::from_slice(alloc, &u32::from(count).to_be_bytes())?;
    for place in 0..count {
        bytes.push((place % 251) as u8)?;
    }
    Ok(bytes)
}

/// Whether each piece is sent once the one before is acknowledged, with its part of the arguments.
fn sends_pieces(trial: &mut Trial, alloc: Global) -> Result<bool, Fail> {
    let text = arguments(alloc, 2996)?;
    let pieces = [
        (Act::LongCall, Sends(FIRST, 1440), 0, 1440),
        (Act::Take(ACK_0, Data::Empty), C1, 1440, 2880),
        (Act::Take(ACK_1, Data::Empty), C2, 2880, 3000),
    ];
    for (act, seen, from, to) in pieces {
        if trial.sees(alloc, act)? != seen || text.get(from..to) != Some(trial.data.as_slice()) {
            return Ok(false);
        }
    }
    Ok(true)
}

/// It waits behind the last acknowledgement, probes, returns, and calls again.
const RETURNS: [(Act, Seen); 8] = [
    (Act::Take(ACK_2, Data::Empty), W),
    (Act::Tick(1), Seen::Quiet),
    (Act::Tick(1), Seen::Quiet),
    (Act::Tick(1), Seen::Quiet),
    (Act::Tick(1), Sends(PROBE, 0)),
    (Act::Take(REPLY, Data::Fives), SHORT),
    (Act::Idle(1), Seen::Yes),
    (Act::Call(1, 1), Sends(NEXT, 0)),
];

#[test]
fn a_call_of_three_pieces_is_acknowledged_one_by_one(rt: HostRuntime) -> Result<(), Fail> {
    let mut trial = Trial::new(rt.alloc())?;
    assert!(rt; sends_pieces(&mut trial, rt.alloc())?);
    assert!(rt; goes_on(&mut trial, rt.alloc(), RETURNS)?);
    Ok(())
}

/// The empty call behind the long one.
const NEXT: Header = Header {
    call: CallId {
        activity: PROCESS_1,
        number: CallNumber { value: 65537 },
    },
    ..CALL
};

/// A reply of three pieces: 1440 times 1, 1440 times 2, and 3, 4, 5.
const THREE: Seen = Seen::Returned(Digest {
    len: 2883,
    head: [1; 16],
    sum: 0x807c,
});

#[test]
fn a_reply_of_three_pieces_is_kept(rt: HostRuntime) -> Result<(), Fail> {
    let alloc = rt.alloc();
    let mut trial = client_at(alloc, At::Receiving1)?;
    assert!(rt; trial.sees(alloc, Act::Take(PIECE_1, Data::Twos))? == A1);
    assert!(rt; trial.sees(alloc, Act::Take(REPLY_2, Data::Three))? == THREE);
    Ok(())
}
