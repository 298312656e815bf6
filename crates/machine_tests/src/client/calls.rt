//! A client machine, by its public calls.

use super::trial::{Act, BIND, CALL, Data, NUMBER, PROCESS_1, Seen, Trial, plays};
use lane_checksum::Digest;
use replay_client::{arguments_of, procedure_of};
use replay_model::CallWord;
use rpc_header::{Activity, CallId, CallNumber, Export, Header, Kind};
use std::test::Fail;

#[test]
fn calls_ask_for_procedures_with_marshalled_numbers(rt: HostRuntime) -> Result<(), Fail> {
    let alloc = rt.alloc();
    let add = CallWord::Add(1, 0x0203_0405);
    assert!(rt;
        procedure_of(CallWord::Null) == 0 && arguments_of(alloc, CallWord::Null)?.is_empty()
    );
    assert!(rt; procedure_of(add) == 1);
    assert!(rt; arguments_of(alloc, add)?.as_slice() == [0, 0, 0, 1, 2, 3, 4, 5].as_slice());
    assert!(rt; procedure_of(CallWord::Bump(7)) == 2);
    assert!(rt; arguments_of(alloc, CallWord::Bump(7))?.as_slice() == [0, 0, 0, 7].as_slice());
    Ok(())
}

/// The empty call of process 8.
const CALL_8: Header = Header {
    call: CallId {
        activity: PROCESS_8,
        number: NUMBER,
    },
    hint: 7,
    ..CALL
};

const PROCESS_8: Activity = Activity {
    machine: 2,
    process: 8,
};

const RESULT_8: Header = Header {
    kind: Kind::Result,
    ..CALL_8
};

/// The reply without data.
const EMPTY: Digest = Digest {
    len: 0,
    head: [0; 16],
    sum: 0,
};

#[test]
fn an_empty_call_returns_once(rt: HostRuntime) -> Result<(), Fail> {
    let next = Header {
        call: CallId {
            activity: PROCESS_8,
            number: CallNumber { value: 65537 },
        },
        ..CALL_8
    };
    let lines = [
        (Act::Call(8, 1), Seen::Sends(CALL_8, 0)),
        (Act::Call(8, 1), Seen::Impossible),
        (Act::Take(RESULT_8, Data::Empty), Seen::Returned(EMPTY)),
        (Act::Take(RESULT_8, Data::Empty), Seen::Stale),
        (Act::Call(8, 1), Seen::Sends(next, 0)),
    ];
    assert!(rt; plays(rt.alloc(), lines)?);
    Ok(())
}

#[test]
fn packets_that_no_process_waits_for_are_dropped(rt: HostRuntime) -> Result<(), Fail> {
    let reply = |hint| Header {
        kind: Kind::Result,
        hint,
        ..CALL
    };
    let ack = Header {
        kind: Kind::Ack,
        fragment: 1,
        ..CALL
    };
    let lines = [
        (Act::Call(1, 1), Seen::Sends(CALL, 0)),
        (Act::Take(reply(8), Data::Empty), Seen::NoCell),
        (Act::Take(reply(1), Data::Empty), Seen::Stale),
        (Act::Take(ack, Data::Empty), Seen::Unused),
    ];
    assert!(rt; plays(rt.alloc(), lines)?);
    Ok(())
}

#[test]
fn starts_that_are_impossible_or_too_fast(rt: HostRuntime) -> Result<(), Fail> {
    let lines = [
        (Act::Call(9, 1), Seen::Impossible),
        (Act::Call(1, 0), Seen::TooFast(65536)),
    ];
    assert!(rt; plays(rt.alloc(), lines)?);
    Ok(())
}

#[test]
fn a_process_sends_its_call_again_at_the_fourth_tick(rt: HostRuntime) -> Result<(), Fail> {
    let again = Header {
        please_ack: true,
        ..CALL
    };
    let lines = [
        (Act::Tick(9), Seen::Impossible),
        (Act::Call(1, 1), Seen::Sends(CALL, 0)),
        (Act::Tick(1), Seen::Quiet),
        (Act::Tick(1), Seen::Quiet),
        (Act::Tick(1), Seen::Quiet),
        (Act::Tick(1), Seen::Sends(again, 0)),
    ];
    assert!(rt; plays(rt.alloc(), lines)?);
    Ok(())
}

/// The empty call of process 1 with another number, and another export.
fn numbered(value: u32, export: Export) -> Header {
    Header {
        call: CallId {
            activity: PROCESS_1,
            number: CallNumber {
                value: u64::from(value),
            },
        },
        export,
        ..CALL
    }
}

#[test]
fn a_client_that_boots_anew_begins_with_its_second(rt: HostRuntime) -> Result<(), Fail> {
    let first = numbered(3 * 65536, CALL.export);
    let lines = [
        (Act::Call(1, 1), Seen::Sends(CALL, 0)),
        (Act::Restart(1), Seen::No),
        (Act::Restart(3), Seen::Yes),
        (Act::Call(1, 3), Seen::Sends(first, 0)),
    ];
    assert!(rt; plays(rt.alloc(), lines)?);
    Ok(())
}

#[test]
fn numbers_are_passed_over_to_the_last_of_the_second(rt: HostRuntime) -> Result<(), Fail> {
    let last = numbered(131_071, CALL.export);
    let lines = [
        (Act::Skip(1, 65535), Seen::Skips(1, 131_071)),
        (Act::Call(1, 1), Seen::Sends(last, 0)),
        (Act::Skip(1, 1), Seen::Impossible),
        (Act::Call(1, 1), Seen::Impossible),
        (Act::Skip(2, 65536), Seen::Skips(2, 131_072)),
        (Act::Call(2, 1), Seen::TooFast(131_072)),
    ];
    assert!(rt; plays(rt.alloc(), lines)?);
    Ok(())
}

#[test]
fn a_bind_carries_its_name(rt: HostRuntime) -> Result<(), Fail> {
    let alloc = rt.alloc();
    let mut trial = Trial::new(alloc)?;
    assert!(rt; trial.sees(alloc, Act::Bind(1))? == Seen::Sends(BIND, 10));
    assert!(rt; trial.data.as_slice() == b"\x04Test\x04echo".as_slice());
    assert!(rt; trial.sees(alloc, Act::Bind(1))? == Seen::Impossible);
    Ok(())
}

#[test]
fn a_bind_that_is_answered_changes_the_binding(rt: HostRuntime) -> Result<(), Fail> {
    let found = Export {
        identifier: 7,
        index: 3,
    };
    let answer = Header {
        kind: Kind::Bound,
        export: found,
        ..CALL
    };
    let lines = [
        (Act::Bind(1), Seen::Sends(BIND, 10)),
        (Act::Take(answer, Data::Empty), Seen::Bound(found)),
        (Act::Call(1, 1), Seen::Sends(numbered(65537, found), 0)),
    ];
    assert!(rt; plays(rt.alloc(), lines)?);
    Ok(())
}

#[test]
fn open_calls_are_counted_without_binds(rt: HostRuntime) -> Result<(), Fail> {
    let mut call = CALL;
    call.call.activity.process = 2;
    call.hint = 1;
    let lines = [
        (Act::Open, Seen::Count(0)),
        (Act::Idle(1), Seen::Yes),
        (Act::Idle(8), Seen::Yes),
        (Act::Idle(9), Seen::No),
        (Act::Bind(1), Seen::Sends(BIND, 10)),
        (Act::Call(2, 1), Seen::Sends(call, 0)),
        (Act::Call(8, 1), Seen::Sends(CALL_8, 0)),
        (Act::Open, Seen::Count(2)),
        (Act::Idle(1), Seen::No),
        (Act::Idle(8), Seen::No),
        (Act::Idle(3), Seen::Yes),
    ];
    assert!(rt; plays(rt.alloc(), lines)?);
    Ok(())
}
