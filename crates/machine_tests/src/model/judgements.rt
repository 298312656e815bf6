//! The judgement's table, row by row.

use call_rules::{Judged, Phase, Seen, judge};
use rpc_header::{Activity, CallId, CallNumber, Export, Header, Kind};

/// The number of the packets that are judged.
const OWN: CallNumber = CallNumber { value: 65537 };

const EARLIER: CallNumber = CallNumber { value: 65536 };

const LATER: CallNumber = CallNumber { value: 65538 };

/// A packet of call `OWN` that is the whole of what it carries.
fn packet(kind: Kind) -> Header {
    Header {
        kind,
        please_ack: false,
        last: true,
        reason: 0,
        call: CallId {
            activity: Activity {
                machine: 2,
                process: 1,
            },
            number: OWN,
        },
        hint: 0,
        fragment: 0,
        export: Export {
            identifier: 1,
            index: 0,
        },
        procedure: 0,
    }
}

/// The same packet, which asks for an acknowledgement.
fn asking(header: Header) -> Header {
    Header {
        please_ack: true,
        ..header
    }
}

/// Pieces of a call: the whole of it, the first of several, the last of several, and one between.
fn pieces() -> (Header, Header, Header, Header) {
    let whole = packet(Kind::Call);
    let first = Header {
        last: false,
        ..asking(whole)
    };
    let further = Header {
        fragment: 1,
        ..whole
    };
    let middle = Header {
        fragment: 1,
        ..first
    };
    (whole, first, further, middle)
}

fn seen(phase: Phase, number: CallNumber) -> Seen {
    Seen { phase, number }
}

/// Whether each of these packets is judged so by each of these entries.
fn all_are(packets: &[Header], entries: &[Seen], judged: Judged) -> bool {
    for header in packets {
        for &seen in entries {
            if judge(seen, header) != judged {
                return false;
            }
        }
    }
    true
}

/// Entries of a call with this number, in each state.
fn in_each_state(number: CallNumber) -> [Seen; 5] {
    [
        seen(Phase::Gather, number),
        seen(Phase::Filling, number),
        seen(Phase::Running, number),
        seen(Phase::Done, number),
        seen(Phase::Sending, number),
    ]
}

#[test]
fn packets_of_an_earlier_call(rt: HostRuntime) {
    let packets = [packet(Kind::Call), packet(Kind::Ack), packet(Kind::Probe)];
    assert!(rt; all_are(&packets, &in_each_state(LATER), Judged::Older));
}

#[test]
fn call_packets_of_a_new_call(rt: HostRuntime) {
    let (whole, first, further, middle) = pieces();
    let busy = [
        seen(Phase::Running, EARLIER),
        seen(Phase::Filling, EARLIER),
        seen(Phase::Sending, EARLIER),
    ];
    let free = [
        Seen::EMPTY,
        seen(Phase::Gather, EARLIER),
        seen(Phase::Done, EARLIER),
    ];
    assert!(rt; all_are(&[whole, first, further, middle], &busy, Judged::Busy));
    assert!(rt; all_are(&[whole, asking(whole)], &free, Judged::Admit));
    assert!(rt; all_are(&[first], &free, Judged::Begin));
    assert!(rt; all_are(&[further, middle], &free, Judged::Skipped));
}

#[test]
fn call_packets_of_the_own_call(rt: HostRuntime) {
    let (whole, first, further, middle) = pieces();
    let all = [whole, asking(whole), first, further, middle];
    let held = [seen(Phase::Filling, OWN), seen(Phase::Sending, OWN)];
    let running = [seen(Phase::Running, OWN)];
    let done = [seen(Phase::Done, OWN)];
    assert!(rt; all_are(&all, &[seen(Phase::Gather, OWN)], Judged::More));
    assert!(rt; all_are(&all, &held, Judged::Busy));
    assert!(rt; all_are(&[asking(whole), first, middle], &running, Judged::Ack));
    assert!(rt; all_are(&[whole, further], &running, Judged::Same));
    assert!(rt; all_are(&[whole, asking(whole), further], &done, Judged::Fetch));
    assert!(rt; all_are(&[first, middle], &done, Judged::Same));
}

#[test]
fn acknowledgements_and_probes(rt: HostRuntime) {
    let ack = packet(Kind::Ack);
    let probe = packet(Kind::Probe);
    let done = [seen(Phase::Done, OWN)];
    let others = [
        seen(Phase::Gather, OWN),
        seen(Phase::Filling, OWN),
        seen(Phase::Running, OWN),
        seen(Phase::Sending, OWN),
    ];
    assert!(rt; all_are(&[ack, probe], &[Seen::EMPTY], Judged::Unknown));
    assert!(rt; all_are(&[ack, probe], &in_each_state(EARLIER), Judged::Unknown));
    assert!(rt; all_are(&[ack], &done, Judged::Fetch));
    assert!(rt; all_are(&[ack], &others, Judged::Busy));
    assert!(rt; all_are(&[probe], &done, Judged::Fetch));
    let (gather, filling, running, sending) = (others[0], others[1], others[2], others[3]);
    assert!(rt; all_are(&[probe], &[running, sending], Judged::Ack));
    assert!(rt; all_are(&[probe], &[gather, filling], Judged::Busy));
}
