//! Worked scripts of long arguments and results, and the transcripts that they print.

use crate::rows::{Row, first_other};

/// Long arguments and results.
static LONG: [Row; 4] = [
    Row {
        shows: "arguments that fill a packet go in one",
        script: b"call 2 1 maxarg 1436\ndeliver 1\nwork 1\nwork 1\nwork 1\nwork 1\ndeliver 2\njournal\nend\n",
        transcript: b"start 2.1 65536\n\
packet 1 2>1 call 65536/0 -l 1440\n\
ready 1\n\
worker 1 claims 65536\n\
worker 1 admits 65536\n\
worker 1 runs 65536\n\
worker 1 replies 65536\n\
packet 2 1>2 result 65536/0 -l 0\n\
returned 2.1 65536 0:\n\
run 1 2.1 65536 maxarg 1440:#a114 -> 0:\n\
end runs 1 returned 1 signalled 0 failed 0 refused 0\n",
    },
    Row {
        shows: "arguments of one byte more go in two",
        script: b"call 2 1 maxarg 1437\ndeliver 1\nwork 1\nwork 1\ndeliver 2\ndeliver 3\nwork 1\nwork 1\nwork 1\n\
work 1\nwork 1\ndeliver 4\njournal\nend\n",
        transcript: b"start 2.1 65536\n\
packet 1 2>1 call 65536/0 a- 1440\n\
ready 1\n\
worker 1 claims 65536\n\
worker 1 begins 65536\n\
packet 2 1>2 ack 65536/0 -l 0\n\
packet 3 2>1 call 65536/1 -l 1\n\
ready 3\n\
worker 1 claims 65536\n\
worker 1 takes 65536\n\
worker 1 admits 65536\n\
worker 1 runs 65536\n\
worker 1 replies 65536\n\
packet 4 1>2 result 65536/0 -l 0\n\
returned 2.1 65536 0:\n\
run 1 2.1 65536 maxarg 1441:#5616 -> 0:\n\
end runs 1 returned 1 signalled 0 failed 0 refused 0\n",
    },
    Row {
        shows: "an acknowledgement fetches the next piece of a result",
        script: b"call 2 1 maxresult 1437\ndeliver 1\nwork 1\nwork 1\nwork 1\nwork 1\ndeliver 2\ndeliver 3\nwork 1\n\
work 1\nwork 1\ndeliver 4\nend\n",
        transcript: b"start 2.1 65536\n\
packet 1 2>1 call 65536/0 -l 4\n\
ready 1\n\
worker 1 claims 65536\n\
worker 1 admits 65536\n\
worker 1 runs 65536\n\
worker 1 replies 65536\n\
packet 2 1>2 result 65536/0 a- 1440\n\
packet 3 2>1 ack 65536/0 -l 0\n\
ready 3\n\
worker 1 claims 65536\n\
worker 1 fetches 65536\n\
worker 1 resends 65536\n\
packet 4 1>2 result 65536/1 -l 1\n\
returned 2.1 65536 1441:#5616\n\
end runs 1 returned 1 signalled 0 failed 0 refused 0\n",
    },
    Row {
        shows: "the largest call begins with a full piece",
        script: b"call 2 1 maxarg 92156\nend\n",
        transcript: b"start 2.1 65536\n\
packet 1 2>1 call 65536/0 a- 1440\n\
end runs 0 returned 0 signalled 0 failed 0 refused 0\n",
    },
];

#[test]
fn long_arguments_and_results(rt: HostRuntime) {
    assert_eq!(rt; first_other(rt.alloc(), &LONG), "");
}
