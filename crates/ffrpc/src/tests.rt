//! The program over sources and sinks in memory: how it ends.

ghost use Rattle.std.specs.Prelude.{◌≤◌};

use crate::command::ffrpc;
use crate::storm_tests::SMALL_SUMMARY;
use commands::Status;
use ff_io::{MemorySink, MemorySource, Short};
use std::alloc::{AllocError, Global};
use std::test::Fail;

const EMPTY_CALL: &[u8] =
    b"call 2 1 null\ndeliver 1\nwork 1\nwork 1\nwork 1\nwork 1\ndeliver 2\njournal\nend\n";

const EMPTY_CALL_TRANSCRIPT: &[u8] =
    b"start 2.1 65536\npacket 1 2>1 call 65536/0 -l 0\nready 1\nworker 1 claims 65536\nworker 1 admits 65536\nworker 1 runs 65536\nworker 1 replies 65536\npacket 2 1>2 result 65536/0 -l 0\nreturned 2.1 65536 0:\nrun 1 2.1 65536 null 0: -> 0:\nend runs 1 returned 1 signalled 0 failed 0 refused 0\n";

/// More bytes than a run here writes.
const ROOM: usize = 65_536;

/// The outside of a run: the input, which reads and writes fail, and the most bytes of one.
#[derive(Clone, Copy)]
pub struct Given<'a> {
    input: &'a [u8],
    pub failing_reads: &'a [u64],
    pub failing_writes: &'a [u64],
    pub most: usize,
}

/// A run whose outside never fails.
pub fn never_failing(input: &[u8]) -> Given<'_> {
    Given {
        input,
        failing_reads: &[],
        failing_writes: &[],
        most: 65_536,
    }
}

/// The status of a run, and what it has written.
pub fn ran(
    alloc: Global,
    words: &[&str],
    outside: &Given,
) -> Result<(Status, Vec<u8>), AllocError> {
    let most = outside.most.max(1);
    let mut all_words = Vec::new(alloc);
    for word in words {
        all_words.push(String::from_str(alloc, word)?)?;
    }
    let input = Vec::from_slice(alloc, outside.input)?;
    let failing_reads = Vec::from_slice(alloc, outside.failing_reads)?;
    let failing_writes = Vec::from_slice(alloc, outside.failing_writes)?;
    let mut source = Short {
        inner: MemorySource::new(input, failing_reads),
        most,
    };
    let mut sink = Short {
        inner: MemorySink::new(failing_writes, Vec::with_capacity(alloc, ROOM)?),
        most,
    };
    let status = ffrpc(alloc, &all_words, &mut source, &mut sink);
    let written = Vec::from_slice(alloc, sink.inner.written())?;
    Ok((status, written))
}

/// Whether a run ends with this number, and has written this.
pub fn ends(alloc: Global, words: &[&str], outside: &Given, number: u8, transcript: &[u8]) -> bool {
    match ran(alloc, words, outside) {
        Ok((status, written)) => status.number() == number && written.as_slice() == transcript,
        Err(_) => false,
    }
}

#[test]
fn an_empty_call_is_played(rt: HostRuntime) {
    let given = never_failing(EMPTY_CALL);
    assert!(rt; ends(rt.alloc(), &["replay"], &given, 0, EMPTY_CALL_TRANSCRIPT));
}

#[test]
fn short_reads_and_writes_change_nothing(rt: HostRuntime) {
    let mut short = never_failing(EMPTY_CALL);
    short.most = 7;
    assert!(rt; ends(rt.alloc(), &["replay"], &short, 0, EMPTY_CALL_TRANSCRIPT));
}

#[test]
fn a_source_that_fails_is_told(rt: HostRuntime) {
    let mut failing = never_failing(EMPTY_CALL);
    failing.failing_reads = &[1];
    assert!(rt; ends(rt.alloc(), &["replay"], &failing, 4, b"fault ReadFault\n"));
}

#[test]
fn a_sink_that_fails_at_once_takes_nothing(rt: HostRuntime) {
    let mut failing = never_failing(EMPTY_CALL);
    failing.failing_writes = &[1];
    assert!(rt; ends(rt.alloc(), &["replay"], &failing, 5, b""));
}

#[test]
fn a_sink_that_fails_in_mid_stream_has_a_prefix(rt: HostRuntime) {
    let mut failing = never_failing(EMPTY_CALL);
    failing.failing_writes = &[3];
    failing.most = 20;
    let prefix = b"start 2.1 65536\npacket 1 2>1 call 65536/";
    assert!(rt; ends(rt.alloc(), &["replay"], &failing, 5, prefix));
}

#[test]
fn one_byte_above_the_limit_is_too_long(rt: HostRuntime) -> Result<(), Fail> {
    let input = vec![in rt.alloc(); b'#'; 1_048_577]?;
    assert!(rt; is_refused(rt.alloc(), &input, 8, b"fault TooLong\n"));
    assert!(rt; is_refused(rt.alloc(), &input[1..], 3, b"fault BadText 1 7\n"));
    Ok(())
}

#[test]
fn other_words_are_refused(rt: HostRuntime) {
    let table: [&[&str]; 5] = [
        &[],
        &["replay", "replay"],
        &["play"],
        &["replay "],
        &["storm", "--seed=1"],
    ];
    for words in table {
        let given = never_failing(EMPTY_CALL);
        assert!(rt; ends(rt.alloc(), words, &given, 2, b"fault Usage\n"));
    }
}

#[test]
fn a_storm_is_played_by_its_words(rt: HostRuntime) {
    let words = ["storm", "--calls", "100", "--seed=1"];
    let given = never_failing(EMPTY_CALL);
    assert!(rt; ends(rt.alloc(), &words, &given, 0, SMALL_SUMMARY));
}

/// Whether a run over this text ends with this number, and has written this line.
fn is_refused(alloc: Global, text: &[u8], number: u8, line: &[u8]) -> bool {
    ends(alloc, &["replay"], &never_failing(text), number, line)
}

#[test]
fn a_text_is_refused_at_its_first_fault(rt: HostRuntime) {
    let table: [(&[u8], &[u8]); 7] = [
        (b"", b"fault BadText 1 7\n"),
        (b"call 2 1 null\ndeliv", b"fault BadText 2 1\n"),
        (b"end\njournal\n", b"fault BadText 2 6\n"),
        (b"deliver 01\nend\n", b"fault BadText 1 3\n"),
        (b"call 2 9 null\nend\n", b"fault BadText 1 4\n"),
        // A text of one byte too many.
        (b"call 2 1 maxarg 92157\nend\n", b"fault BadText 1 4\n"),
        (b"journal\nholders\nend\n", b"fault BadText 2 9\n"),
    ];
    for (text, line) in table {
        assert!(rt; is_refused(rt.alloc(), text, 3, line));
    }
}

#[test]
fn one_line_above_the_limit_is_too_long(rt: HostRuntime) -> Result<(), Fail> {
    let lines = vec![in rt.alloc(); b'\n'; 20_001]?;
    assert!(rt; is_refused(rt.alloc(), &lines, 8, b"fault TooLong\n"));
    assert!(rt; is_refused(rt.alloc(), &lines[1..], 3, b"fault BadText 20001 7\n"));
    Ok(())
}

#[test]
fn an_end_alone_is_a_script(rt: HostRuntime) {
    let transcript = b"end runs 0 returned 0 signalled 0 failed 0 refused 0\n";
    assert!(rt;
        ends(
            rt.alloc(),
            &["replay"],
            &never_failing(b"end\n"),
            0,
            transcript
        )
    );
}
