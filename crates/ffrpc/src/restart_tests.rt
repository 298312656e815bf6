//! Machines that restart at each state of a caller and of a worker, and what comes late from the life before.

use crate::rows::{Row, first_other};

/// Restarts at each state.
static RESTARTS: [Row; 6] = [
    // Result and call of the life before come to an idle process, to one with a new call open, and to the server.
    Row {
        shows: "a client restarts while it is idle",
        script: b"call 2 1 bump 1\ndeliver 1\nwork 1\nwork 1\nwork 1\nwork 1\ndeliver 2\nsecond 2\nrestart 2\n\
deliver 2\ncall 2 1 bump 1\ndeliver 2\ndeliver 3\nwork 1\nwork 1\nwork 1\nwork 1\ndeliver 1\nwork 1\n\
deliver 4\njournal\nend\n",
        transcript: b"start 2.1 65536\n\
packet 1 2>1 call 65536/0 -l 4\n\
ready 1\n\
worker 1 claims 65536\n\
worker 1 admits 65536\n\
worker 1 runs 65536\n\
worker 1 replies 65536\n\
packet 2 1>2 result 65536/0 -l 4\n\
returned 2.1 65536 4:00000001\n\
second 2\n\
restarted 2 2\n\
drop Stale\n\
start 2.1 131072\n\
packet 3 2>1 call 131072/0 -l 4\n\
drop Stale\n\
ready 3\n\
worker 1 claims 131072\n\
worker 1 admits 131072\n\
worker 1 runs 131072\n\
worker 1 replies 131072\n\
packet 4 1>2 result 131072/0 -l 4\n\
ready 1\n\
worker 1 drops Older\n\
returned 2.1 131072 4:00000002\n\
run 1 2.1 65536 bump 4:00000001 -> 4:00000001\n\
run 2 2.1 131072 bump 4:00000001 -> 4:00000002\n\
end runs 2 returned 2 signalled 0 failed 0 refused 0\n",
    },
    // The call of the new life comes to the server before that of the life before.
    Row {
        shows: "a client restarts while it sends",
        script: b"call 2 1 bump 1\nsecond 2\nrestart 2\ntick 2 1 4\ncall 2 1 bump 10\ndeliver 2\ndeliver 1\nwork 1\n\
work 1\nwork 1\nwork 1\nwork 1\ndeliver 3\njournal\nend\n",
        transcript: b"start 2.1 65536\n\
packet 1 2>1 call 65536/0 -l 4\n\
second 2\n\
restarted 2 2\n\
quiet\n\
start 2.1 131072\n\
packet 2 2>1 call 131072/0 -l 4\n\
ready 2\n\
ready 1\n\
worker 1 claims 131072\n\
worker 1 admits 131072\n\
worker 1 runs 131072\n\
worker 1 replies 131072\n\
packet 3 1>2 result 131072/0 -l 4\n\
worker 1 drops Older\n\
returned 2.1 131072 4:0000000a\n\
run 1 2.1 131072 bump 4:0000000a -> 4:0000000a\n\
end runs 1 returned 1 signalled 0 failed 0 refused 0\n",
    },
    // Acknowledgement and result of the life before come to a process that has a new call open.
    Row {
        shows: "a client restarts while it waits",
        script: b"call 2 1 bump 1\ndeliver 1\nwork 1\nwork 1\ntick 2 1 4\ndeliver 2\nwork 2\ndeliver 3\nsecond 2\n\
restart 2\ncall 2 1 bump 1\nwork 1\nwork 1\ndeliver 3\ndeliver 5\ndeliver 4\nwork 1\nwork 1\n\
work 1\nwork 1\ndeliver 6\ndeliver 1\nwork 2\njournal\nend\n",
        transcript: b"start 2.1 65536\n\
packet 1 2>1 call 65536/0 -l 4\n\
ready 1\n\
worker 1 claims 65536\n\
worker 1 admits 65536\n\
packet 2 2>1 call 65536/0 al 4\n\
ready 2\n\
worker 2 acks 65536\n\
packet 3 1>2 ack 65536/0 -l 0\n\
waiting 2.1 65536\n\
second 2\n\
restarted 2 2\n\
start 2.1 131072\n\
packet 4 2>1 call 131072/0 -l 4\n\
worker 1 runs 65536\n\
worker 1 replies 65536\n\
packet 5 1>2 result 65536/0 -l 4\n\
drop Stale\n\
drop Stale\n\
ready 4\n\
worker 1 claims 131072\n\
worker 1 admits 131072\n\
worker 1 runs 131072\n\
worker 1 replies 131072\n\
packet 6 1>2 result 131072/0 -l 4\n\
returned 2.1 131072 4:00000002\n\
ready 1\n\
worker 2 drops Older\n\
run 1 2.1 65536 bump 4:00000001 -> 4:00000001\n\
run 2 2.1 131072 bump 4:00000001 -> 4:00000002\n\
end runs 2 returned 1 signalled 0 failed 0 refused 0\n",
    },
    // The answer to a bind of the life before binds nobody.
    Row {
        shows: "a client restarts while it binds",
        script: b"second 2\nexport aux\nbind 2 1 aux\ndeliver 1\nwork 1\nsecond 3\nrestart 2\ndeliver 2\n\
bind 2 1 main\ndeliver 2\ndeliver 3\nwork 1\ndeliver 4\nend\n",
        transcript: b"second 2\n\
export 1 2\n\
bind 2.1 65536\n\
packet 1 2>1 bind 65536/0 -l 9\n\
ready 1\n\
worker 1 answers 65536\n\
packet 2 1>2 bound 65536/0 -l 0\n\
second 3\n\
restarted 2 3\n\
drop Stale\n\
bind 2.1 196608\n\
packet 3 2>1 bind 196608/0 -l 10\n\
drop Stale\n\
ready 3\n\
worker 1 answers 196608\n\
packet 4 1>2 bound 196608/0 -l 0\n\
bound 2.1 196608 0 1\n\
end runs 0 returned 0 signalled 0 failed 0 refused 0\n",
    },
    // Worker 1 has claimed a packet, 2 has admitted a call, 3 has run one, 4 holds a kept reply, and packet 5 is
    // ready.
    Row {
        shows: "a server restarts while workers hold calls",
        script: b"call 2 1 null\ncall 2 2 null\ncall 2 3 bump 1\ncall 2 4 null\ncall 2 5 null\ndeliver 4\nwork 4\n\
work 4\nwork 4\nwork 4\ndeliver 4\ndeliver 1\ndeliver 2\ndeliver 3\ndeliver 5\nwork 4\nwork 4\n\
work 1\nwork 2\nwork 2\nwork 3\nwork 3\nwork 3\nsecond 2\nrestart 1\nwork 1\nwork 2\nwork 3\n\
work 4\ndeliver 1\nwork 1\ndeliver 7\njournal\nend\n",
        transcript: b"start 2.1 65536\n\
packet 1 2>1 call 65536/0 -l 0\n\
start 2.2 65536\n\
packet 2 2>1 call 65536/0 -l 0\n\
start 2.3 65536\n\
packet 3 2>1 call 65536/0 -l 4\n\
start 2.4 65536\n\
packet 4 2>1 call 65536/0 -l 0\n\
start 2.5 65536\n\
packet 5 2>1 call 65536/0 -l 0\n\
ready 4\n\
worker 4 claims 65536\n\
worker 4 admits 65536\n\
worker 4 runs 65536\n\
worker 4 replies 65536\n\
packet 6 1>2 result 65536/0 -l 0\n\
ready 4\n\
ready 1\n\
ready 2\n\
ready 3\n\
ready 5\n\
worker 4 claims 65536\n\
worker 4 fetches 65536\n\
worker 1 claims 65536\n\
worker 2 claims 65536\n\
worker 2 admits 65536\n\
worker 3 claims 65536\n\
worker 3 admits 65536\n\
worker 3 runs 65536\n\
second 2\n\
restarted 1 2\n\
worker 1 idle\n\
worker 2 idle\n\
worker 3 idle\n\
worker 4 idle\n\
ready 1\n\
worker 1 rejects 65536 1\n\
packet 7 1>2 reject 65536/0 -l 0\n\
refused 2.1 65536 1\n\
run 1 2.4 65536 null 0: -> 0:\n\
run 2 2.3 65536 bump 4:00000001 -> 4:00000001\n\
end runs 2 returned 0 signalled 0 failed 0 refused 1\n",
    },
    // The total is 0 again, and a call packet of the life before is refused though its call has returned.
    Row {
        shows: "a process binds to the next life of the server",
        script: b"call 2 1 bump 5\ndeliver 1\nwork 1\nwork 1\nwork 1\nwork 1\ndeliver 2\nsecond 2\nrestart 1\n\
bind 2 1 main\ndeliver 3\nwork 1\ndeliver 4\ncall 2 1 bump 1\ndeliver 5\nwork 1\nwork 1\nwork 1\n\
work 1\ndeliver 6\ndeliver 1\nwork 1\ndeliver 7\njournal\nend\n",
        transcript: b"start 2.1 65536\n\
packet 1 2>1 call 65536/0 -l 4\n\
ready 1\n\
worker 1 claims 65536\n\
worker 1 admits 65536\n\
worker 1 runs 65536\n\
worker 1 replies 65536\n\
packet 2 1>2 result 65536/0 -l 4\n\
returned 2.1 65536 4:00000005\n\
second 2\n\
restarted 1 2\n\
bind 2.1 65537\n\
packet 3 2>1 bind 65537/0 -l 10\n\
ready 3\n\
worker 1 answers 65537\n\
packet 4 1>2 bound 65537/0 -l 0\n\
bound 2.1 65537 0 2\n\
start 2.1 65538\n\
packet 5 2>1 call 65538/0 -l 4\n\
ready 5\n\
worker 1 claims 65538\n\
worker 1 admits 65538\n\
worker 1 runs 65538\n\
worker 1 replies 65538\n\
packet 6 1>2 result 65538/0 -l 4\n\
returned 2.1 65538 4:00000001\n\
ready 1\n\
worker 1 rejects 65536 1\n\
packet 7 1>2 reject 65536/0 -l 0\n\
drop Stale\n\
run 1 2.1 65536 bump 4:00000005 -> 4:00000005\n\
run 2 2.1 65538 bump 4:00000001 -> 4:00000001\n\
end runs 2 returned 2 signalled 0 failed 0 refused 0\n",
    },
];

#[test]
fn restarts_at_each_state(rt: HostRuntime) {
    assert_eq!(rt; first_other(rt.alloc(), &RESTARTS), "");
}
