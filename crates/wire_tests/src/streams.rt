//! Sources and sinks: each call once, at a concrete type, with real memory.
use crate::pieces::text_of;
use ff_io::{
    FIRST_MACHINE, LAST_MACHINE, MemorySink, MemorySource, ReadAll, ReadFailed, Short, Sink,
    Source, Station, WriteFailed, read_all, write_all,
};
use std::alloc::{AllocError, Global};
use std::test::Fail;

fn source_of(alloc: Global, bytes: &[u8], fail: &[u64]) -> Result<MemorySource, AllocError> {
    let bytes = Vec::from_slice(alloc, bytes)?;
    let fail = Vec::from_slice(alloc, fail)?;
    Ok(MemorySource::new(bytes, fail))
}

fn sink_of(alloc: Global, fail: &[u64], room: usize) -> Result<MemorySink, AllocError> {
    let fail = Vec::from_slice(alloc, fail)?;
    Ok(MemorySink::new(fail, Vec::with_capacity(alloc, room)?))
}

/// A read of two bytes: how many came, and the bytes.
fn read_two(source: &mut MemorySource) -> Result<(usize, [u8; 2]), ReadFailed> {
    let mut into = [0; 2];
    let read = source.read(&mut into)?;
    Ok((read, into))
}

#[test]
fn the_listed_reads_fail(rt: HostRuntime) -> Result<(), Fail> {
    let mut source = source_of(rt.alloc(), b"abcde", &[1, 3])?;
    let reads = [
        read_two(&mut source),
        read_two(&mut source),
        read_two(&mut source),
    ];
    assert!(rt; reads == [Err(ReadFailed), Ok((2, *b"ab")), Err(ReadFailed)]);
    assert!(rt; (source.left(), source.faults()) == (b"cde".as_slice(), 2));
    Ok(())
}

/// What is read to the end of a source of these bytes.
fn read_to_end(alloc: Global, bytes: &[u8], limit: usize) -> Result<Vec<u8>, ReadAll> {
    let mut source = source_of(alloc, bytes, &[])?;
    read_all(alloc, &mut source, limit)
}

fn length_read(alloc: Global, bytes: &[u8], limit: usize) -> Result<usize, ReadAll> {
    Ok(read_to_end(alloc, bytes, limit)?.len())
}

#[test]
fn a_source_is_read_to_its_end(rt: HostRuntime) {
    let alloc = rt.alloc();
    let lengths = [
        length_read(alloc, b"hello", 4),
        length_read(alloc, b"hello", 5),
        length_read(alloc, b"hello", usize::MAX),
        length_read(alloc, b"", 0),
    ];
    assert!(rt; lengths == [Err(ReadAll::TooLong), Ok(5), Ok(5), Ok(0)]);
}

/// Whether a text of this length is read to its end, and is as it was.
fn is_read(alloc: Global, len: usize) -> Result<bool, ReadAll> {
    let text = text_of(alloc, len)?;
    Ok(read_to_end(alloc, &text, len)?.as_slice() == text.as_slice())
}

#[test]
fn a_long_source_is_read_to_its_end(rt: HostRuntime) {
    assert!(rt; is_read(rt.alloc(), 10_000) == Ok(true));
}

/// Reads `hello` to its end, two bytes at a time, from a source that fails at these reads: whether this fault comes, or
/// the whole text, and these bytes and so many faults are left.
fn reads_on(
    alloc: Global,
    fail: &[u64],
    fault: Option<ReadAll>,
    left: &[u8],
    faults: u64,
) -> Result<bool, AllocError> {
    let inner = source_of(alloc, b"hello", fail)?;
    let mut source = Short { inner, most: 2 };
    let is_so = match read_all(alloc, &mut source, 5) {
        Ok(bytes) => fault.is_none() && bytes.as_slice() == b"hello".as_slice(),
        Err(why) => fault == Some(why),
    };
    Ok(is_so && source.inner.left() == left && source.inner.faults() == faults)
}

#[test]
fn short_reads_are_read_on(rt: HostRuntime) {
    assert!(rt; reads_on(rt.alloc(), &[], None, b"", 0) == Ok(true));
}

#[test]
fn a_read_that_fails_in_mid_stream_is_told(rt: HostRuntime) {
    assert!(rt; reads_on(rt.alloc(), &[2], Some(ReadAll::Failed), b"llo", 1) == Ok(true));
}

/// Writes `hello` two bytes at a time to a sink that fails at these writes: whether this is answered, and these bytes are
/// written and so many faults counted.
fn writes_on(
    alloc: Global,
    fail: &[u64],
    answer: Result<(), WriteFailed>,
    written: &[u8],
    faults: u64,
) -> Result<bool, AllocError> {
    let inner = sink_of(alloc, fail, 5)?;
    let mut sink = Short { inner, most: 2 };
    let is_so = write_all(&mut sink, b"hello") == answer;
    Ok(is_so && sink.inner.written() == written && sink.inner.faults() == faults)
}

#[test]
fn short_writes_are_written_on(rt: HostRuntime) {
    assert!(rt; writes_on(rt.alloc(), &[], Ok(()), b"hello", 0) == Ok(true));
}

#[test]
fn a_write_that_fails_in_mid_stream_leaves_a_prefix(rt: HostRuntime) {
    assert!(rt; writes_on(rt.alloc(), &[2], Err(WriteFailed), b"he", 1) == Ok(true));
}

/// What is written, and what that answers.
type Write = (&'static [u8], Result<usize, WriteFailed>);

/// Whether a sink with room for five bytes that fails at these writes answers these, and has these bytes and so many
/// faults then.
fn takes(
    alloc: Global,
    fail: &[u64],
    writes: &[Write],
    written: &[u8],
    faults: u64,
) -> Result<bool, AllocError> {
    let mut sink = sink_of(alloc, fail, 5)?;
    for (bytes, answer) in writes {
        if sink.write(bytes) != *answer {
            return Ok(false);
        }
    }
    Ok(sink.written() == written && sink.faults() == faults)
}

static SECOND_FAILS: [Write; 3] = [(b"ab", Ok(2)), (b"cd", Err(WriteFailed)), (b"ef", Ok(2))];

#[test]
fn the_listed_writes_fail(rt: HostRuntime) {
    assert!(rt; takes(rt.alloc(), &[2], &SECOND_FAILS, b"abef", 1) == Ok(true));
}

static TOO_MANY: [Write; 5] = [
    (b"abc", Ok(3)),
    (b"def", Err(WriteFailed)),
    (b"de", Ok(2)),
    (b"", Ok(0)),
    (b"f", Err(WriteFailed)),
];

#[test]
fn a_sink_takes_no_more_than_its_room(rt: HostRuntime) {
    assert!(rt; takes(rt.alloc(), &[], &TOO_MANY[..3], b"abcde", 1) == Ok(true));
    assert!(rt; takes(rt.alloc(), &[], &TOO_MANY, b"abcde", 2) == Ok(true));
}

#[test]
fn what_the_room_holds_counts_as_written(rt: HostRuntime) -> Result<(), Fail> {
    let mut room = Vec::with_capacity(rt.alloc(), 7)?;
    room.extend_from_slice(b"old ")?;
    let mut sink = MemorySink::new(Vec::new(rt.alloc()), room);
    write_all(&mut sink, b"new")?;
    assert!(rt; sink.written() == b"old new".as_slice());
    Ok(())
}

#[test]
fn a_station_is_a_machine(rt: HostRuntime) {
    let station = Station {
        machine: LAST_MACHINE,
    };
    assert!(rt; station.machine == 254);
    assert!(rt;
        station
            != (Station {
                machine: FIRST_MACHINE
            })
    );
}
