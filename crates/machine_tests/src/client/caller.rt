//! The caller's table, row by row: every state, with every packet and tick.

ghost use Rattle.std.specs.Prelude.{◌≤◌};

use caller_core::{Action, Caller};
use fragments::LONG;
use rpc_header::{Activity, CallId, CallNumber, Export, Header, Kind};

const NUMBER: CallNumber = CallNumber { value: 65536 };

const ACTIVITY: Activity = Activity {
    machine: 2,
    process: 1,
};

const EXPORT: Export = Export {
    identifier: 7,
    index: 3,
};

/// The states that the table is tried at. A call has pieces 0, 1 and 2.
#[derive(Clone, Copy)]
enum At {
    Idle,
    Sending0,
    Sending1,
    Sending2,
    Waiting,
    Receiving1,
    Receiving2,
    Binding,
}

/// A caller that has come to this state.
fn caller_at(at: At) -> Caller {
    let mut caller = Caller::idle(ACTIVITY, 9);
    match at {
        At::Idle => return caller,
        At::Binding => {
            caller.start_bind(NUMBER);
            return caller;
        }
        _ => caller.start_call(NUMBER, EXPORT, 4, 3000),
    };
    if matches!(at, At::Sending0) {
        return caller;
    }
    caller.on_packet(&ack(0));
    if matches!(at, At::Sending1) {
        return caller;
    }
    caller.on_packet(&ack(1));
    match at {
        At::Waiting => {
            caller.on_packet(&ack(2));
        }
        At::Receiving1 => {
            caller.on_packet(&result(0, false));
        }
        At::Receiving2 => {
            caller.on_packet(&result(0, false));
            caller.on_packet(&result(1, false));
        }
        _ => {}
    }
    caller
}

/// A packet of the call: with the last flag, and without a request.
fn packet(kind: Kind, fragment: u16) -> Header {
    Header {
        kind,
        please_ack: false,
        last: true,
        reason: 0,
        call: CallId {
            activity: ACTIVITY,
            number: NUMBER,
        },
        hint: 9,
        fragment,
        export: EXPORT,
        procedure: 4,
    }
}

fn ack(fragment: u16) -> Header {
    packet(Kind::Ack, fragment)
}

fn result(fragment: u16, last: bool) -> Header {
    Header {
        please_ack: !last,
        last,
        ..packet(Kind::Result, fragment)
    }
}

fn refusal(kind: Kind, reason: u8) -> Header {
    Header {
        reason,
        ..packet(kind, 0)
    }
}

/// A piece of the arguments before the last, which asks for an acknowledgement each time.
fn piece(fragment: u16) -> Action {
    Action::Send {
        header: Header {
            please_ack: true,
            last: false,
            ..packet(Kind::Call, fragment)
        },
        piece: Some(fragment),
    }
}

fn last_piece() -> Action {
    Action::Send {
        header: packet(Kind::Call, 2),
        piece: Some(2),
    }
}

fn asking(header: Header, piece: Option<u16>) -> Action {
    Action::Send {
        header: Header {
            please_ack: true,
            ..header
        },
        piece,
    }
}

fn kept(fragment: u16) -> Action {
    Action::Keep { ack: ack(fragment) }
}

fn bind() -> Header {
    Header {
        export: Export {
            identifier: 0,
            index: 0,
        },
        procedure: 0,
        ..packet(Kind::Bind, 0)
    }
}

/// The packets that have a row somewhere, each column of the table below.
fn packets() -> [Header; 12] {
    [
        ack(0),
        ack(1),
        ack(2),
        result(0, true),
        packet(Kind::Signal, 0),
        result(0, false),
        result(1, false),
        result(1, true),
        refusal(Kind::Reject, 2),
        packet(Kind::Bound, 0),
        refusal(Kind::Bound, 1),
        result(2, true),
    ]
}

const U: Action = Action::Unused;

const REPLY: Action = Action::Last { signal: false };

const SIGNAL: Action = Action::Last { signal: true };

const REFUSED: Action = Action::Refused(2);

const WAITS: Action = Action::Waiting;

const FOUND: Action = Action::Bound(EXPORT);

const UNBOUND: Action = Action::Unbound;

/// What is done about each of the packets at this state.
fn acts_at(at: At) -> [Action; 12] {
    match at {
        At::Idle => [U; 12],
        At::Sending0 => [piece(1), U, U, U, U, U, U, U, REFUSED, U, U, U],
        At::Sending1 => [U, last_piece(), U, U, U, U, U, U, REFUSED, U, U, U],
        At::Sending2 | At::Waiting => [U, U, WAITS, REPLY, SIGNAL, kept(0), U, U, REFUSED, U, U, U],
        At::Receiving1 => [U, U, U, U, U, U, kept(1), REPLY, REFUSED, U, U, U],
        At::Receiving2 => [U, U, U, U, U, U, U, U, REFUSED, U, U, REPLY],
        At::Binding => [U, U, U, U, U, U, U, U, U, FOUND, UNBOUND, U],
    }
}

/// Whether the packets have their acts at this state, and only those that end a call or a bind leave it.
fn has_its_acts(at: At) -> bool {
    let (packets, acts) = (packets(), acts_at(at));
    for place in 0..12 {
        let mut caller = caller_at(at);
        if caller.on_packet(&packets[place]) != acts[place] {
            return false;
        }
        if caller.is_idle() != (matches!(at, At::Idle) || ends(acts[place])) {
            return false;
        }
    }
    true
}

fn ends(act: Action) -> bool {
    matches!(
        act,
        Action::Last { .. } | Action::Refused(_) | Action::Bound(_) | Action::Unbound
    )
}

#[test]
fn packets_at_each_state(rt: HostRuntime) {
    assert!(rt; has_its_acts(At::Idle));
    for at in open_states() {
        assert!(rt; has_its_acts(at));
    }
}

/// The states in which a call or a bind is open.
fn open_states() -> [At; 7] {
    [
        At::Sending0,
        At::Sending1,
        At::Sending2,
        At::Waiting,
        At::Receiving1,
        At::Receiving2,
        At::Binding,
    ]
}

/// The packets as those of another call.
fn of_another_call() -> [Header; 12] {
    packets().map(|mut header| {
        header.call.number = CallNumber { value: 65535 };
        header
    })
}

/// Whether a caller uses none of these packets.
fn uses_none(caller: &mut Caller, headers: &[Header]) -> bool {
    for header in headers {
        if caller.on_packet(header) != Action::Unused {
            return false;
        }
    }
    true
}

#[test]
fn packets_of_another_call_and_kinds_for_a_server_are_unused(rt: HostRuntime) {
    let others = of_another_call();
    let for_a_server = [Kind::Call, Kind::Probe, Kind::Bind].map(|kind| packet(kind, 0));
    for at in open_states() {
        let mut caller = caller_at(at);
        assert!(rt; uses_none(&mut caller, &others) && uses_none(&mut caller, &for_a_server));
        assert!(rt; !caller.is_idle());
    }
}

/// Whether the caller does this so many times, each time at the fourth tick, and is quiet between.
fn does_again(caller: &mut Caller, times: u8, act: Action) -> bool {
    for _ in 0..times {
        if !fourth_tick_is(caller, act) {
            return false;
        }
    }
    true
}

/// Whether the caller is quiet for three ticks, and then does this.
fn fourth_tick_is(caller: &mut Caller, act: Action) -> bool {
    for _ in 0..3 {
        if caller.on_tick() != Action::Quiet {
            return false;
        }
    }
    caller.on_tick() == act
}

/// What each state sends again.
fn sent_again(at: At) -> Action {
    match at {
        At::Idle => Action::Unused,
        At::Sending0 => piece(0),
        At::Sending1 => piece(1),
        At::Sending2 => asking(packet(Kind::Call, 2), Some(2)),
        At::Waiting => asking(packet(Kind::Probe, 2), None),
        At::Receiving1 => Action::Send {
            header: ack(0),
            piece: None,
        },
        At::Receiving2 => Action::Send {
            header: ack(1),
            piece: None,
        },
        At::Binding => Action::Send {
            header: bind(),
            piece: Some(0),
        },
    }
}

#[test]
fn eight_transmissions_without_an_answer_fail(rt: HostRuntime) {
    for at in open_states() {
        let mut caller = caller_at(at);
        let times = if matches!(at, At::Waiting) { 8 } else { 7 };
        let again = does_again(&mut caller, times, sent_again(at));
        let fails = fourth_tick_is(&mut caller, Action::Failed);
        assert!(rt; [again, fails, caller.is_idle()] == [true; 3]);
        assert!(rt; caller.on_tick() == Action::Unused);
    }
}

#[test]
fn an_answer_starts_the_count_anew(rt: HostRuntime) {
    let mut caller = caller_at(At::Sending1);
    let one_again = does_again(&mut caller, 6, piece(1));
    let two = caller.on_packet(&ack(1));
    let two_again = does_again(&mut caller, 7, sent_again(At::Sending2));
    let waits = caller.on_packet(&ack(2));
    let probes = does_again(&mut caller, 8, sent_again(At::Waiting));
    let still_waits = caller.on_packet(&ack(2));
    let probes_anew = fourth_tick_is(&mut caller, sent_again(At::Waiting));
    assert!(rt; [one_again, two_again, probes, probes_anew] == [true; 4]);
    assert!(rt; [two, waits, still_waits] == [last_piece(), WAITS, WAITS]);
}

/// What a caller does first about a call whose arguments have `len` bytes, and then about a whole result.
fn start(len: usize) -> (Action, Action)
    requires { len ≤ LONG }
{
    let mut caller = Caller::idle(ACTIVITY, 9);
    let act = caller.start_call(NUMBER, EXPORT, 4, len);
    (act, caller.on_packet(&result(0, true)))
}

#[test]
fn starts_send_the_first_piece(rt: HostRuntime) {
    let sent = Action::Send {
        header: packet(Kind::Call, 0),
        piece: Some(0),
    };
    assert!(rt; [start(0), start(1), start(1440)] == [(sent, REPLY); 3]);
    assert!(rt; [start(1441), start(92160)] == [(piece(0), Action::Unused); 2]);
    let mut caller = Caller::idle(ACTIVITY, 9);
    let sent = Action::Send {
        header: bind(),
        piece: Some(0),
    };
    assert!(rt; caller.start_bind(NUMBER) == sent);
}

#[test]
fn the_longest_call_has_64_pieces(rt: HostRuntime) {
    let mut caller = Caller::idle(ACTIVITY, 9);
    caller.start_call(NUMBER, EXPORT, 4, 92160);
    for number in 0..62 {
        assert!(rt; caller.on_packet(&ack(number)) == piece(number + 1));
    }
    let last = Action::Send {
        header: packet(Kind::Call, 63),
        piece: Some(63),
    };
    let acts = [caller.on_packet(&ack(62)), caller.on_packet(&ack(63))];
    assert!(rt; acts == [last, Action::Waiting]);
}

#[test]
fn a_long_reply_begins_by_its_first_piece_alone(rt: HostRuntime) {
    for at in open_states() {
        let caller = caller_at(at);
        let awaits = matches!(at, At::Sending2 | At::Waiting);
        let first = caller.begins_long(&result(0, false));
        let whole = caller.begins_long(&result(0, true));
        let second = caller.begins_long(&result(1, false));
        assert!(rt; [first, whole, second] == [awaits, false, false]);
    }
}

#[test]
fn a_caller_that_gives_up_is_idle(rt: HostRuntime) {
    for at in open_states() {
        let mut caller = caller_at(at);
        caller.abandon();
        assert!(rt; caller.is_idle());
    }
}
