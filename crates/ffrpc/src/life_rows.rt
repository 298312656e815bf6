//! Worked scripts of bindings, restarts and call numbers, and the transcripts that they print.

use crate::rows::{Row, first_other};

/// Bindings, restarts and call numbers.
static LIVES: [Row; 4] = [
    Row {
        shows: "a server that restarted refuses what was bound before",
        script: b"call 2 1 bump 1\ndeliver 1\nwork 1\nwork 1\nwork 1\nrestart 1\nsecond 2\nrestart 1\ntick 2 1 4\n\
deliver 2\nwork 1\ndeliver 3\njournal\nend\n",
        transcript: b"start 2.1 65536\n\
packet 1 2>1 call 65536/0 -l 4\n\
ready 1\n\
worker 1 claims 65536\n\
worker 1 admits 65536\n\
worker 1 runs 65536\n\
impossible\n\
second 2\n\
restarted 1 2\n\
packet 2 2>1 call 65536/0 al 4\n\
ready 2\n\
worker 1 rejects 65536 1\n\
packet 3 1>2 reject 65536/0 -l 0\n\
refused 2.1 65536 1\n\
run 1 2.1 65536 bump 4:00000001 -> 4:00000001\n\
end runs 1 returned 0 signalled 0 failed 0 refused 1\n",
    },
    Row {
        shows: "a process is bound to what is exported",
        script: b"bind 2 1 aux\ndeliver 1\nwork 1\ndeliver 2\nexport aux\nsecond 2\nexport aux\nexport aux\n\
bind 2 1 aux\ndeliver 3\nwork 1\ndeliver 4\ncall 2 1 null\nend\n",
        transcript: b"bind 2.1 65536\n\
packet 1 2>1 bind 65536/0 -l 9\n\
ready 1\n\
worker 1 answers 65536\n\
packet 2 1>2 bound 65536/0 -l 0\n\
unbound 2.1 65536\n\
noexport TooFast 2 1\n\
second 2\n\
export 1 2\n\
noexport Exists\n\
bind 2.1 65537\n\
packet 3 2>1 bind 65537/0 -l 9\n\
ready 3\n\
worker 1 answers 65537\n\
packet 4 1>2 bound 65537/0 -l 0\n\
bound 2.1 65537 1 2\n\
start 2.1 65538\n\
packet 5 2>1 call 65538/0 -l 0\n\
end runs 0 returned 0 signalled 0 failed 0 refused 0\n",
    },
    Row {
        shows: "a second has so many call numbers and no more",
        script: b"skip 2 1 65536\ncall 2 1 null\nsecond 2\ncall 2 1 null\nend\n",
        transcript: b"skipped 2.1 131072\n\
nostart TooFast 131072 1\n\
second 2\n\
start 2.1 131072\n\
packet 1 2>1 call 131072/0 -l 0\n\
end runs 0 returned 0 signalled 0 failed 0 refused 0\n",
    },
    Row {
        shows: "a result that is too large is an exception",
        script: b"call 2 1 maxresult 92157\ndeliver 1\nwork 1\nwork 1\nwork 1\nwork 1\ndeliver 2\njournal\nend\n",
        transcript: b"start 2.1 65536\n\
packet 1 2>1 call 65536/0 -l 4\n\
ready 1\n\
worker 1 claims 65536\n\
worker 1 admits 65536\n\
worker 1 runs 65536\n\
worker 1 replies 65536\n\
packet 2 1>2 signal 65536/0 -l 2\n\
signalled 2.1 65536 1\n\
run 1 2.1 65536 maxresult 4:000167fd -> !1\n\
end runs 1 returned 0 signalled 1 failed 0 refused 0\n",
    },
];

#[test]
fn bindings_restarts_and_call_numbers(rt: HostRuntime) {
    assert_eq!(rt; first_other(rt.alloc(), &LIVES), "");
}
