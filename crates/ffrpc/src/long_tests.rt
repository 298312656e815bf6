//! Long arguments and results in scripts of their own: each piece lost, repeated, out of order or damaged, and
//! machines that restart between two pieces.

use crate::rows::{Row, first_other};

/// Pieces that are lost, repeated, out of order or damaged, and restarts between two.
static PIECES: [Row; 6] = [
    // Three pieces. The first two are lost once; the first comes again behind the second, the second behind the
    // third; the third comes twice.
    Row {
        shows: "each piece of a call may be lost or come again",
        script: b"call 2 1 maxarg 2877\ntick 2 1 4\ndeliver 2\nwork 1\nwork 1\ndeliver 3\ntick 2 1 4\ndeliver 5\n\
work 1\nwork 1\nwork 1\ndeliver 1\nwork 1\nwork 1\nwork 1\ndeliver 7\ndeliver 6\ndeliver 4\n\
tick 2 1 4\ndeliver 9\ndeliver 9\nwork 1\nwork 1\nwork 1\nwork 1\nwork 2\nwork 1\nwork 1\nwork 2\n\
work 1\nwork 1\ndeliver 10\ndeliver 11\njournal\nend\n",
        transcript: b"start 2.1 65536\n\
packet 1 2>1 call 65536/0 a- 1440\n\
packet 2 2>1 call 65536/0 a- 1440\n\
ready 2\n\
worker 1 claims 65536\n\
worker 1 begins 65536\n\
packet 3 1>2 ack 65536/0 -l 0\n\
packet 4 2>1 call 65536/1 a- 1440\n\
packet 5 2>1 call 65536/1 a- 1440\n\
ready 5\n\
worker 1 claims 65536\n\
worker 1 takes 65536\n\
worker 1 rests 65536\n\
packet 6 1>2 ack 65536/1 -l 0\n\
ready 1\n\
worker 1 claims 65536\n\
worker 1 takes 65536\n\
worker 1 rests 65536\n\
packet 7 1>2 ack 65536/0 -l 0\n\
drop Unused\n\
packet 8 2>1 call 65536/2 -l 1\n\
ready 4\n\
packet 9 2>1 call 65536/2 al 1\n\
ready 9\n\
ready 9\n\
worker 1 claims 65536\n\
worker 1 takes 65536\n\
worker 1 rests 65536\n\
packet 10 1>2 ack 65536/1 -l 0\n\
worker 1 claims 65536\n\
worker 2 claims 65536\n\
worker 1 takes 65536\n\
worker 1 admits 65536\n\
worker 2 drops Lost\n\
worker 1 runs 65536\n\
worker 1 replies 65536\n\
packet 11 1>2 result 65536/0 -l 0\n\
drop Unused\n\
returned 2.1 65536 0:\n\
run 1 2.1 65536 maxarg 2881:#31ad -> 0:\n\
end runs 1 returned 1 signalled 0 failed 0 refused 0\n",
    },
    // Three pieces. Each is lost once, and comes again behind the next.
    Row {
        shows: "each piece of a result may be lost or come again",
        script: b"call 2 1 maxresult 2877\ndeliver 1\nwork 1\nwork 1\nwork 1\nwork 1\ntick 2 1 4\ndeliver 3\nwork 1\n\
work 1\nwork 1\ndeliver 4\ndeliver 4\ndeliver 5\nwork 1\nwork 1\nwork 1\ntick 2 1 4\ndeliver 7\n\
work 1\nwork 1\nwork 1\ndeliver 8\ndeliver 2\ndeliver 6\ndeliver 9\nwork 1\nwork 1\nwork 1\n\
tick 2 1 4\ndeliver 11\nwork 1\nwork 1\nwork 1\ndeliver 12\ndeliver 10\njournal\nend\n",
        transcript: b"start 2.1 65536\n\
packet 1 2>1 call 65536/0 -l 4\n\
ready 1\n\
worker 1 claims 65536\n\
worker 1 admits 65536\n\
worker 1 runs 65536\n\
worker 1 replies 65536\n\
packet 2 1>2 result 65536/0 a- 1440\n\
packet 3 2>1 call 65536/0 al 4\n\
ready 3\n\
worker 1 claims 65536\n\
worker 1 fetches 65536\n\
worker 1 resends 65536\n\
packet 4 1>2 result 65536/0 a- 1440\n\
packet 5 2>1 ack 65536/0 -l 0\n\
drop Unused\n\
ready 5\n\
worker 1 claims 65536\n\
worker 1 fetches 65536\n\
worker 1 resends 65536\n\
packet 6 1>2 result 65536/1 a- 1440\n\
packet 7 2>1 ack 65536/0 -l 0\n\
ready 7\n\
worker 1 claims 65536\n\
worker 1 fetches 65536\n\
worker 1 resends 65536\n\
packet 8 1>2 result 65536/1 a- 1440\n\
packet 9 2>1 ack 65536/1 -l 0\n\
drop Unused\n\
drop Unused\n\
ready 9\n\
worker 1 claims 65536\n\
worker 1 fetches 65536\n\
worker 1 resends 65536\n\
packet 10 1>2 result 65536/2 -l 1\n\
packet 11 2>1 ack 65536/1 -l 0\n\
ready 11\n\
worker 1 claims 65536\n\
worker 1 fetches 65536\n\
worker 1 resends 65536\n\
packet 12 1>2 result 65536/2 -l 1\n\
returned 2.1 65536 2881:#31ad\n\
drop Stale\n\
run 1 2.1 65536 maxresult 4:00000b3d -> 2881:#31ad\n\
end runs 1 returned 1 signalled 0 failed 0 refused 0\n",
    },
    // In each piece a bit of its data is flipped once: of the first piece the last bit of its frame.
    Row {
        shows: "a damaged piece is lost",
        script: b"call 2 1 maxarg 1437\ndamage 1 12111\ntick 2 1 4\ndeliver 2\nwork 1\nwork 1\ndeliver 3\n\
damage 4 592\ndamage 4 599\ndamage 4 600\ndeliver 4\nwork 1\nwork 1\nwork 1\nwork 1\nwork 1\n\
deliver 5\ncall 2 1 maxresult 1437\ndeliver 6\nwork 1\nwork 1\nwork 1\nwork 1\ndamage 7 592\n\
deliver 7\ndeliver 8\nwork 1\nwork 1\nwork 1\ndamage 9 595\ndeliver 9\njournal\nend\n",
        transcript: b"start 2.1 65536\n\
packet 1 2>1 call 65536/0 a- 1440\n\
drop frame UdpChecksum\n\
packet 2 2>1 call 65536/0 a- 1440\n\
ready 2\n\
worker 1 claims 65536\n\
worker 1 begins 65536\n\
packet 3 1>2 ack 65536/0 -l 0\n\
packet 4 2>1 call 65536/1 -l 1\n\
drop frame UdpChecksum\n\
drop frame UdpChecksum\n\
impossible\n\
ready 4\n\
worker 1 claims 65536\n\
worker 1 takes 65536\n\
worker 1 admits 65536\n\
worker 1 runs 65536\n\
worker 1 replies 65536\n\
packet 5 1>2 result 65536/0 -l 0\n\
returned 2.1 65536 0:\n\
start 2.1 65537\n\
packet 6 2>1 call 65537/0 -l 4\n\
ready 6\n\
worker 1 claims 65537\n\
worker 1 admits 65537\n\
worker 1 runs 65537\n\
worker 1 replies 65537\n\
packet 7 1>2 result 65537/0 a- 1440\n\
drop frame UdpChecksum\n\
packet 8 2>1 ack 65537/0 -l 0\n\
ready 8\n\
worker 1 claims 65537\n\
worker 1 fetches 65537\n\
worker 1 resends 65537\n\
packet 9 1>2 result 65537/1 -l 1\n\
drop frame UdpChecksum\n\
returned 2.1 65537 1441:#5616\n\
run 1 2.1 65536 maxarg 1441:#5616 -> 0:\n\
run 2 2.1 65537 maxresult 4:0000059d -> 1441:#5616\n\
end runs 2 returned 2 signalled 0 failed 0 refused 0\n",
    },
    // The server has gathered a piece, and the next one is on its way.
    Row {
        shows: "a client restarts in the middle of its arguments",
        script: b"call 2 1 maxarg 1437\ndeliver 1\nwork 1\nwork 1\ndeliver 2\nsecond 2\nrestart 2\ncall 2 1 null\n\
deliver 4\nwork 1\nwork 1\nwork 1\nwork 1\ndeliver 3\nwork 1\ndeliver 2\ndeliver 5\njournal\nend\n",
        transcript: b"start 2.1 65536\n\
packet 1 2>1 call 65536/0 a- 1440\n\
ready 1\n\
worker 1 claims 65536\n\
worker 1 begins 65536\n\
packet 2 1>2 ack 65536/0 -l 0\n\
packet 3 2>1 call 65536/1 -l 1\n\
second 2\n\
restarted 2 2\n\
start 2.1 131072\n\
packet 4 2>1 call 131072/0 -l 0\n\
ready 4\n\
worker 1 claims 131072\n\
worker 1 admits 131072\n\
worker 1 runs 131072\n\
worker 1 replies 131072\n\
packet 5 1>2 result 131072/0 -l 0\n\
ready 3\n\
worker 1 drops Older\n\
drop Stale\n\
returned 2.1 131072 0:\n\
run 1 2.1 131072 null 0: -> 0:\n\
end runs 1 returned 1 signalled 0 failed 0 refused 0\n",
    },
    // A process has one piece of a result; its acknowledgement still fetches the next one.
    Row {
        shows: "a client restarts in the middle of a result",
        script: b"call 2 1 maxresult 1437\ndeliver 1\nwork 1\nwork 1\nwork 1\nwork 1\ndeliver 2\nsecond 2\nrestart 2\n\
deliver 3\nwork 1\nwork 1\nwork 1\ndeliver 4\ncall 2 1 null\ndeliver 2\ndeliver 4\nend\n",
        transcript: b"start 2.1 65536\n\
packet 1 2>1 call 65536/0 -l 4\n\
ready 1\n\
worker 1 claims 65536\n\
worker 1 admits 65536\n\
worker 1 runs 65536\n\
worker 1 replies 65536\n\
packet 2 1>2 result 65536/0 a- 1440\n\
packet 3 2>1 ack 65536/0 -l 0\n\
second 2\n\
restarted 2 2\n\
ready 3\n\
worker 1 claims 65536\n\
worker 1 fetches 65536\n\
worker 1 resends 65536\n\
packet 4 1>2 result 65536/1 -l 1\n\
drop Stale\n\
start 2.1 131072\n\
packet 5 2>1 call 131072/0 -l 0\n\
drop Stale\n\
drop Stale\n\
end runs 1 returned 0 signalled 0 failed 0 refused 0\n",
    },
    // A worker holds what is gathered of a call.
    Row {
        shows: "a server restarts in the middle of arguments",
        script: b"call 2 1 maxarg 1437\ndeliver 1\nwork 1\nwork 1\ndeliver 2\ndeliver 3\nwork 1\nwork 1\nsecond 2\n\
restart 1\nwork 1\ndeliver 3\nwork 1\ndeliver 4\njournal\nend\n",
        transcript: b"start 2.1 65536\n\
packet 1 2>1 call 65536/0 a- 1440\n\
ready 1\n\
worker 1 claims 65536\n\
worker 1 begins 65536\n\
packet 2 1>2 ack 65536/0 -l 0\n\
packet 3 2>1 call 65536/1 -l 1\n\
ready 3\n\
worker 1 claims 65536\n\
worker 1 takes 65536\n\
second 2\n\
restarted 1 2\n\
worker 1 idle\n\
ready 3\n\
worker 1 rejects 65536 1\n\
packet 4 1>2 reject 65536/0 -l 0\n\
refused 2.1 65536 1\n\
journal empty\n\
end runs 0 returned 0 signalled 0 failed 0 refused 1\n",
    },
];

#[test]
fn pieces_that_are_lost_repeated_or_damaged(rt: HostRuntime) {
    assert_eq!(rt; first_other(rt.alloc(), &PIECES), "");
}
