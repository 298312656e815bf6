//! Worked scripts of losses and repeats, and the transcripts that they print.

use crate::rows::{Row, first_other};

/// Losses and repeats.
static LOSSES: [Row; 7] = [
    Row {
        shows: "a call packet that comes twice runs once",
        script: b"call 2 1 bump 1\ndeliver 1\ndeliver 1\nwork 1\nwork 2\nwork 1\n\
work 2\nwork 1\nwork 1\ndeliver 2\njournal\nend\n",
        transcript: b"start 2.1 65536\n\
packet 1 2>1 call 65536/0 -l 4\n\
ready 1\n\
ready 1\n\
worker 1 claims 65536\n\
worker 2 claims 65536\n\
worker 1 admits 65536\n\
worker 2 drops Lost\n\
worker 1 runs 65536\n\
worker 1 replies 65536\n\
packet 2 1>2 result 65536/0 -l 4\n\
returned 2.1 65536 4:00000001\n\
run 1 2.1 65536 bump 4:00000001 -> 4:00000001\n\
end runs 1 returned 1 signalled 0 failed 0 refused 0\n",
    },
    Row {
        shows: "a lost result is probed for",
        script: b"call 2 1 bump 1\ndeliver 1\nwork 1\nwork 1\ntick 2 1 4\ndeliver 2\n\
work 2\ndeliver 3\nwork 1\nwork 1\ntick 2 1 4\ndeliver 5\nwork 1\n\
work 1\nwork 1\ndeliver 6\nend\n",
        transcript: b"start 2.1 65536\n\
packet 1 2>1 call 65536/0 -l 4\n\
ready 1\n\
worker 1 claims 65536\n\
worker 1 admits 65536\n\
packet 2 2>1 call 65536/0 al 4\n\
ready 2\n\
worker 2 acks 65536\n\
packet 3 1>2 ack 65536/0 -l 0\n\
waiting 2.1 65536\n\
worker 1 runs 65536\n\
worker 1 replies 65536\n\
packet 4 1>2 result 65536/0 -l 4\n\
packet 5 2>1 probe 65536/0 al 0\n\
ready 5\n\
worker 1 claims 65536\n\
worker 1 fetches 65536\n\
worker 1 resends 65536\n\
packet 6 1>2 result 65536/0 -l 4\n\
returned 2.1 65536 4:00000001\n\
end runs 1 returned 1 signalled 0 failed 0 refused 0\n",
    },
    Row {
        shows: "a call that nobody answers fails after eight transmissions",
        script: b"call 2 1 null\ntick 2 1 32\njournal\nend\n",
        transcript: b"start 2.1 65536\n\
packet 1 2>1 call 65536/0 -l 0\n\
packet 2 2>1 call 65536/0 al 0\n\
packet 3 2>1 call 65536/0 al 0\n\
packet 4 2>1 call 65536/0 al 0\n\
packet 5 2>1 call 65536/0 al 0\n\
packet 6 2>1 call 65536/0 al 0\n\
packet 7 2>1 call 65536/0 al 0\n\
packet 8 2>1 call 65536/0 al 0\n\
failed 2.1 65536 8\n\
journal empty\n\
end runs 0 returned 0 signalled 0 failed 1 refused 0\n",
    },
    Row {
        shows: "three ticks after the eighth transmission it has not failed",
        script: b"call 2 1 null\ntick 2 1 31\njournal\nend\n",
        transcript: b"start 2.1 65536\n\
packet 1 2>1 call 65536/0 -l 0\n\
packet 2 2>1 call 65536/0 al 0\n\
packet 3 2>1 call 65536/0 al 0\n\
packet 4 2>1 call 65536/0 al 0\n\
packet 5 2>1 call 65536/0 al 0\n\
packet 6 2>1 call 65536/0 al 0\n\
packet 7 2>1 call 65536/0 al 0\n\
packet 8 2>1 call 65536/0 al 0\n\
journal empty\n\
end runs 0 returned 0 signalled 0 failed 0 refused 0\n",
    },
    Row {
        shows: "a call may run and yet fail",
        script: b"call 2 1 bump 1\ndeliver 1\nwork 1\nwork 1\nwork 1\nwork 1\n\
tick 2 1 32\njournal\nend\n",
        transcript: b"start 2.1 65536\n\
packet 1 2>1 call 65536/0 -l 4\n\
ready 1\n\
worker 1 claims 65536\n\
worker 1 admits 65536\n\
worker 1 runs 65536\n\
worker 1 replies 65536\n\
packet 2 1>2 result 65536/0 -l 4\n\
packet 3 2>1 call 65536/0 al 4\n\
packet 4 2>1 call 65536/0 al 4\n\
packet 5 2>1 call 65536/0 al 4\n\
packet 6 2>1 call 65536/0 al 4\n\
packet 7 2>1 call 65536/0 al 4\n\
packet 8 2>1 call 65536/0 al 4\n\
packet 9 2>1 call 65536/0 al 4\n\
failed 2.1 65536 8\n\
run 1 2.1 65536 bump 4:00000001 -> 4:00000001\n\
end runs 1 returned 0 signalled 0 failed 1 refused 0\n",
    },
    Row {
        shows: "a result of an earlier call is dropped",
        script: b"call 2 1 null\ndeliver 1\nwork 1\nwork 1\nwork 1\nwork 1\ndeliver 2\n\
call 2 1 null\ndeliver 2\njournal\nend\n",
        transcript: b"start 2.1 65536\n\
packet 1 2>1 call 65536/0 -l 0\n\
ready 1\n\
worker 1 claims 65536\n\
worker 1 admits 65536\n\
worker 1 runs 65536\n\
worker 1 replies 65536\n\
packet 2 1>2 result 65536/0 -l 0\n\
returned 2.1 65536 0:\n\
start 2.1 65537\n\
packet 3 2>1 call 65537/0 -l 0\n\
drop Stale\n\
run 1 2.1 65536 null 0: -> 0:\n\
end runs 1 returned 1 signalled 0 failed 0 refused 0\n",
    },
    // Ticks of a process that has no call open, and of one that has sent just now.
    Row {
        shows: "ticks without an act are quiet",
        script: b"tick 9 8\ncall 2 1 null\ntick 2 1 3\ntick 2 1\nend\n",
        transcript: b"quiet\n\
start 2.1 65536\n\
packet 1 2>1 call 65536/0 -l 0\n\
quiet\n\
packet 2 2>1 call 65536/0 al 0\n\
end runs 0 returned 0 signalled 0 failed 0 refused 0\n",
    },
];

#[test]
fn losses_and_repeats(rt: HostRuntime) {
    assert_eq!(rt; first_other(rt.alloc(), &LOSSES), "");
}
