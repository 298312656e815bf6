//! Worked scripts and the transcripts that they print.

use crate::tests::{ends, never_failing};
use std::alloc::Global;
use std::test::Fail;

/// A script, the transcript that it prints, and what that shows.
pub struct Row {
    pub shows: &'static str,
    pub script: &'static [u8],
    pub transcript: &'static [u8],
}

/// Whether the script is played to its end and prints this.
pub fn prints(alloc: Global, script: &[u8], transcript: &[u8]) -> bool {
    ends(alloc, &["replay"], &never_failing(script), 0, transcript)
}

/// What the first row shows whose script doesn't print its transcript; nothing if each does.
pub fn first_other(alloc: Global, rows: &[Row]) -> &'static str {
    for row in rows {
        if !prints(alloc, row.script, row.transcript) {
            return row.shows;
        }
    }
    ""
}

/// Calls, frames and damages.
static CALLS: [Row; 5] = [
    Row {
        shows: "a sum that is too large is an exception",
        script: b"call 2 1 add 4294967295 1\n\
deliver 1\nwork 1\nwork 1\nwork 1\nwork 1\ndeliver 2\njournal\nend\n",
        transcript: b"start 2.1 65536\n\
packet 1 2>1 call 65536/0 -l 8\n\
ready 1\n\
worker 1 claims 65536\n\
worker 1 admits 65536\n\
worker 1 runs 65536\n\
worker 1 replies 65536\n\
packet 2 1>2 signal 65536/0 -l 2\n\
signalled 2.1 65536 1\n\
run 1 2.1 65536 add 8:ffffffff00000001 -> !1\n\
end runs 1 returned 0 signalled 1 failed 0 refused 0\n",
    },
    Row {
        shows: "the largest sum is returned",
        script: b"call 2 1 add 4294967295 0\n\
deliver 1\nwork 1\nwork 1\nwork 1\nwork 1\ndeliver 2\nend\n",
        transcript: b"start 2.1 65536\n\
packet 1 2>1 call 65536/0 -l 8\n\
ready 1\n\
worker 1 claims 65536\n\
worker 1 admits 65536\n\
worker 1 runs 65536\n\
worker 1 replies 65536\n\
packet 2 1>2 result 65536/0 -l 4\n\
returned 2.1 65536 4:ffffffff\n\
end runs 1 returned 1 signalled 0 failed 0 refused 0\n",
    },
    Row {
        shows: "frames are shown",
        script: b"call 2 1 null\nshow 1\nend\n",
        transcript: b"start 2.1 65536\n\
packet 1 2>1 call 65536/0 -l 0\n\
frame 1 74 02000a00000102000a00000208004500003c00000000401166af0a0000020a0000010fa30fa30028c94f0101020000000002000100000000000100000000000000010000000000000000\n\
end runs 0 returned 0 signalled 0 failed 0 refused 0\n",
    },
    Row {
        shows: "a checksum of zero is sent as ones",
        script: b"call 2 1 add 51510 0\nshow 1\n\
deliver 1\nwork 1\nwork 1\nwork 1\nwork 1\ndeliver 2\njournal\nend\n",
        transcript: b"start 2.1 65536\n\
packet 1 2>1 call 65536/0 -l 8\n\
frame 1 82 02000a00000102000a00000208004500004400000000401166a70a0000020a0000010fa30fa30030ffff01010200000000020001000000000001000000000000000100000001000800000000c93600000000\n\
ready 1\n\
worker 1 claims 65536\n\
worker 1 admits 65536\n\
worker 1 runs 65536\n\
worker 1 replies 65536\n\
packet 2 1>2 result 65536/0 -l 4\n\
returned 2.1 65536 4:0000c936\n\
run 1 2.1 65536 add 8:0000c93600000000 -> 4:0000c936\n\
end runs 1 returned 1 signalled 0 failed 0 refused 0\n",
    },
    // The call packet and the result each come with a bit of the Ethernet source flipped; another result comes
    // with one of its checksum flipped, and its call stays open.
    Row {
        shows: "a bit that nobody reads changes nothing",
        script: b"call 2 1 null\ncall 9 8 add 1 2\ndamage 1 48\ndamage 2 95\n\
work 1\nwork 1\nwork 1\nwork 1\nwork 2\nwork 2\nwork 2\nwork 2\n\
damage 3 60\ndamage 4 320\nend\n",
        transcript: b"start 2.1 65536\n\
packet 1 2>1 call 65536/0 -l 0\n\
start 9.8 65536\n\
packet 2 9>1 call 65536/0 -l 8\n\
ready 1\n\
ready 2\n\
worker 1 claims 65536\n\
worker 1 admits 65536\n\
worker 1 runs 65536\n\
worker 1 replies 65536\n\
packet 3 1>2 result 65536/0 -l 0\n\
worker 2 claims 65536\n\
worker 2 admits 65536\n\
worker 2 runs 65536\n\
worker 2 replies 65536\n\
packet 4 1>9 result 65536/0 -l 4\n\
returned 2.1 65536 0:\n\
drop frame UdpChecksum\n\
end runs 2 returned 1 signalled 0 failed 0 refused 0\n",
    },
];

#[test]
fn calls_and_frames(rt: HostRuntime) {
    assert_eq!(rt; first_other(rt.alloc(), &CALLS), "");
}

/// What is printed where the call packet comes with one bit flipped: for the bits before each of these, and
/// not before the one above it.
const DAMAGES: [(u16, &str); 17] = [
    (48, "drop frame NotForUs"),
    (96, "ready 1"),
    (112, "drop frame NotIp"),
    (116, "drop frame Version"),
    (120, "drop frame Options"),
    // The type of service counts for nothing but the checksum.
    (128, "drop frame IpChecksum"),
    (144, "drop frame IpLength"),
    // So does the identification.
    (160, "drop frame IpChecksum"),
    (161, "drop frame IpFragment"),
    // A datagram that must not be cut.
    (162, "drop frame IpChecksum"),
    (176, "drop frame IpFragment"),
    (184, "drop frame IpChecksum"),
    (192, "drop frame NotUdp"),
    // The checksum itself, and the addresses behind it.
    (272, "drop frame IpChecksum"),
    (304, "drop frame Port"),
    (320, "drop frame UdpLength"),
    (592, "drop frame UdpChecksum"),
];

/// The line for a bit, of the table.
fn line_of(bit: u16) -> &'static str {
    match DAMAGES.iter().find(|(past, _)| bit < *past) {
        Some((_, line)) => *line,
        None => "impossible",
    }
}

/// Whether a damage of this bit of an empty call's packet prints this line.
fn damage_prints(alloc: Global, bit: u16, line: &str) -> Result<bool, Fail> {
    let script = format!(in alloc; "call 2 1 null\ndamage 1 {bit}\nend\n")?;
    let transcript = format!(in alloc;
        "start 2.1 65536\npacket 1 2>1 call 65536/0 -l 0\n{line}\nend runs 0 returned 0 signalled 0 failed 0 refused 0\n"
    )?;
    Ok(prints(alloc, script.as_bytes(), transcript.as_bytes()))
}

#[test]
fn each_flipped_bit_has_its_cause(rt: HostRuntime) -> Result<(), Fail> {
    for bit in 0..593 {
        assert!(rt; damage_prints(rt.alloc(), bit, line_of(bit))?, "bit {bit}");
    }
    Ok(())
}

#[test]
fn worked_damages_have_their_causes(rt: HostRuntime) -> Result<(), Fail> {
    let worked = [
        (0, "drop frame NotForUs"),
        (48, "ready 1"),
        (95, "ready 1"),
        (96, "drop frame NotIp"),
        (112, "drop frame Version"),
        (116, "drop frame Options"),
        (128, "drop frame IpLength"),
        (160, "drop frame IpFragment"),
        (161, "drop frame IpChecksum"),
        (184, "drop frame NotUdp"),
        (272, "drop frame Port"),
        (304, "drop frame UdpLength"),
        (320, "drop frame UdpChecksum"),
        (591, "drop frame UdpChecksum"),
    ];
    for (bit, line) in worked {
        assert!(rt; damage_prints(rt.alloc(), bit, line)?, "bit {bit}");
    }
    Ok(())
}

#[test]
fn lines_that_say_nothing_are_skipped(rt: HostRuntime) {
    let transcript = b"start 2.1 65536\n\
packet 1 2>1 call 65536/0 -l 0\n\
end runs 0 returned 0 signalled 0 failed 0 refused 0\n";
    let scripts: [&[u8]; 5] = [
        b"call 2 1 null\nend\n",
        b"call 2 1 null\r\nend\r\n",
        b"# a call\n\n \t\ncall 2 1 null\nend",
        b"call 2 1 null\n  #\xff\r\x00 any bytes\r\nend\n",
        b"call 2 1 null\nend\n\n# the end\n \r\n",
    ];
    for script in scripts {
        assert!(rt; prints(rt.alloc(), script, transcript));
    }
}
