//! Seconds, exports, binds and call numbers in scripts of their own: what is impossible, and what is refused.

use crate::rows::{Row, first_other};

/// What is impossible, and what is refused.
static REFUSALS: [Row; 7] = [
    // A process with a call open, and one with a bind open.
    Row {
        shows: "a busy process starts nothing and skips nothing",
        script: b"call 2 1 null\ncall 2 1 null\nbind 2 1 main\nskip 2 1 1\nbind 2 2 main\ncall 2 2 null\n\
bind 2 2 main\nskip 2 2 1\nend\n",
        transcript: b"start 2.1 65536\n\
packet 1 2>1 call 65536/0 -l 0\n\
impossible\n\
impossible\n\
impossible\n\
bind 2.2 65536\n\
packet 2 2>1 bind 65536/0 -l 10\n\
impossible\n\
impossible\n\
impossible\n\
end runs 0 returned 0 signalled 0 failed 0 refused 0\n",
    },
    // The numbers of the last second end at the last number of all.
    Row {
        shows: "no number is above the last",
        script: b"second 4294967295\nrestart 2\nskip 2 1 65536\nskip 2 1 65535\nskip 2 1 1\ncall 2 1 null\ndeliver 1\n\
work 1\nwork 1\nwork 1\nwork 1\ndeliver 2\nskip 2 1 1\ncall 2 1 null\nbind 2 1 main\nend\n",
        transcript: b"second 4294967295\n\
restarted 2 4294967295\n\
impossible\n\
skipped 2.1 281474976710655\n\
impossible\n\
start 2.1 281474976710655\n\
packet 1 2>1 call 281474976710655/0 -l 0\n\
ready 1\n\
worker 1 claims 281474976710655\n\
worker 1 admits 281474976710655\n\
worker 1 runs 281474976710655\n\
worker 1 replies 281474976710655\n\
packet 2 1>2 result 281474976710655/0 -l 0\n\
returned 2.1 281474976710655 0:\n\
impossible\n\
nostart TooFast 281474976710656 4294967295\n\
nostart TooFast 281474976710656 4294967295\n\
end runs 1 returned 1 signalled 0 failed 0 refused 0\n",
    },
    Row {
        shows: "a second is later than the last",
        script: b"second 1\nsecond 2\nsecond 2\nsecond 1\nsecond 4294967295\nend\n",
        transcript: b"impossible\n\
second 2\n\
impossible\n\
impossible\n\
second 4294967295\n\
end runs 0 returned 0 signalled 0 failed 0 refused 0\n",
    },
    // Boots, starts and exports read the second, also those that are refused; nothing else does.
    Row {
        shows: "a machine boots in no second that it has read",
        script: b"restart 1\nrestart 2\ncall 6 1 null\nsecond 2\nrestart 2\nrestart 2\ncall 3 1 null\nrestart 3\n\
skip 4 1 131072\ncall 4 1 null\nrestart 4\nskip 5 1 1\ntick 5 1\nrestart 5\ncall 6 1 null\n\
bind 6 1 main\nskip 6 1 1\nrestart 6\nexport main\nrestart 1\nsecond 3\nwithdraw aux\n\
withdraw main\nrestart 1\nend\n",
        transcript: b"impossible\n\
impossible\n\
start 6.1 65536\n\
packet 1 6>1 call 65536/0 -l 0\n\
second 2\n\
restarted 2 2\n\
impossible\n\
start 3.1 65536\n\
packet 2 3>1 call 65536/0 -l 0\n\
impossible\n\
skipped 4.1 196608\n\
nostart TooFast 196608 2\n\
impossible\n\
skipped 5.1 65537\n\
quiet\n\
restarted 5 2\n\
impossible\n\
impossible\n\
impossible\n\
restarted 6 2\n\
noexport Exists\n\
impossible\n\
second 3\n\
impossible\n\
withdrawn 0\n\
restarted 1 3\n\
end runs 0 returned 0 signalled 0 failed 0 refused 0\n",
    },
    // Of the causes the first that applies is told: at the second `p` no row is free, and the next identifier is too
    // late too.
    Row {
        shows: "an export is refused for its first cause",
        script: b"export a\nexport main\nwithdraw a\nsecond 16\nexport a\nexport b\nexport c\nexport d\nexport e\n\
export f\nexport g\nexport h\nexport i\nexport j\nexport k\nexport l\nexport m\nexport n\nexport o\n\
export o\nexport p\nwithdraw c\nwithdraw c\nexport p\nsecond 17\nexport p\nexport c\nend\n",
        transcript: b"noexport TooFast 2 1\n\
noexport Exists\n\
impossible\n\
second 16\n\
export 1 2\n\
export 2 3\n\
export 3 4\n\
export 4 5\n\
export 5 6\n\
export 6 7\n\
export 7 8\n\
export 8 9\n\
export 9 10\n\
export 10 11\n\
export 11 12\n\
export 12 13\n\
export 13 14\n\
export 14 15\n\
export 15 16\n\
noexport Exists\n\
noexport Full\n\
withdrawn 3\n\
impossible\n\
noexport TooFast 17 16\n\
second 17\n\
export 3 17\n\
noexport Full\n\
end runs 0 returned 0 signalled 0 failed 0 refused 0\n",
    },
    Row {
        shows: "a probe is refused where the export is gone",
        script: b"call 2 1 bump 1\ndeliver 1\nwork 1\nwork 1\ntick 2 1 4\ndeliver 2\nwork 2\ndeliver 3\nwork 1\n\
work 1\nwithdraw main\ntick 2 1 4\ndeliver 5\nwork 1\ndeliver 6\njournal\nend\n",
        transcript: b"start 2.1 65536\n\
packet 1 2>1 call 65536/0 -l 4\n\
ready 1\n\
worker 1 claims 65536\n\
worker 1 admits 65536\n\
packet 2 2>1 call 65536/0 al 4\n\
ready 2\n\
worker 2 acks 65536\n\
packet 3 1>2 ack 65536/0 -l 0\n\
waiting 2.1 65536\n\
worker 1 runs 65536\n\
worker 1 replies 65536\n\
packet 4 1>2 result 65536/0 -l 4\n\
withdrawn 0\n\
packet 5 2>1 probe 65536/0 al 0\n\
ready 5\n\
worker 1 rejects 65536 1\n\
packet 6 1>2 reject 65536/0 -l 0\n\
refused 2.1 65536 1\n\
run 1 2.1 65536 bump 4:00000001 -> 4:00000001\n\
end runs 1 returned 0 signalled 0 failed 0 refused 1\n",
    },
    Row {
        shows: "a bind that nobody answers fails after eight transmissions",
        script: b"bind 2 1 main\ntick 2 1 32\ncall 2 1 null\nend\n",
        transcript: b"bind 2.1 65536\n\
packet 1 2>1 bind 65536/0 -l 10\n\
packet 2 2>1 bind 65536/0 -l 10\n\
packet 3 2>1 bind 65536/0 -l 10\n\
packet 4 2>1 bind 65536/0 -l 10\n\
packet 5 2>1 bind 65536/0 -l 10\n\
packet 6 2>1 bind 65536/0 -l 10\n\
packet 7 2>1 bind 65536/0 -l 10\n\
packet 8 2>1 bind 65536/0 -l 10\n\
bindfailed 2.1 65536 8\n\
start 2.1 65537\n\
packet 9 2>1 call 65537/0 -l 0\n\
end runs 0 returned 0 signalled 0 failed 0 refused 0\n",
    },
];

#[test]
fn what_is_impossible_and_what_is_refused(rt: HostRuntime) {
    assert_eq!(rt; first_other(rt.alloc(), &REFUSALS), "");
}
