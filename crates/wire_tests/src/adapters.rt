//! The adapters over readers and writers, each with a call that fails.

use ff_io::{ReadFailed, Sink, Source, StreamSink, StreamSource, WriteFailed};
use std::io;
use std::io::{ErrorKind, Read, Write};

/// A reader or a writer whose second call fails.
#[derive(Drop)]
struct FailsSecond<T> {
    inner: T,
    calls: u64,
}

impl<T> FailsSecond<T> {
    /// Counts a call, which fails if it is the second.
    fn called(&mut self) -> io::Result<()> {
        self.calls = self.calls.saturating_add(1);
        if self.calls == 2 {
            return Err(io::Error::from(ErrorKind::BrokenPipe));
        }
        Ok(())
    }
}

impl<T: Read> Read for FailsSecond<T> {
    fn read(&mut self, buf: &mut [u8]) -> io::Result<usize> {
        self.called()?;
        self.inner.read(buf)
    }
}

impl<T: Write> Write for FailsSecond<T> {
    fn write(&mut self, buf: &[u8]) -> io::Result<usize> {
        self.called()?;
        self.inner.write(buf)
    }

    fn flush(&mut self) -> io::Result<()> {
        self.inner.flush()
    }
}

/// What a read of three bytes answers, how many faults there are then, and what the three bytes are.
static READS: [(Result<usize, ReadFailed>, u64, &[u8]); 4] = [
    (Ok(3), 0, b"abc"),
    (Err(ReadFailed), 1, b"abc"),
    (Ok(2), 1, b"dec"),
    (Ok(0), 1, b"dec"),
];

#[test]
fn a_reader_is_a_source_that_counts_what_fails(rt: HostRuntime) {
    let mut source = StreamSource::new(FailsSecond {
        inner: b"abcde".as_slice(),
        calls: 0,
    });
    let mut into = [0u8; 3];
    for (answer, faults, bytes) in READS {
        assert!(rt; source.read(&mut into) == answer);
        assert!(rt; source.faults == faults && into.as_slice() == bytes);
    }
}

/// What is written, what that answers, and how many faults there are then.
static WRITES: [(&[u8], Result<usize, WriteFailed>, u64); 3] = [
    (b"abc", Ok(3), 0),
    (b"def", Err(WriteFailed), 1),
    (b"gh", Ok(2), 1),
];

#[test]
fn a_writer_is_a_sink_that_counts_what_fails(rt: HostRuntime) {
    let mut sink = StreamSink::new(FailsSecond {
        inner: Vec::new(rt.alloc()),
        calls: 0,
    });
    for (bytes, answer, faults) in WRITES {
        assert!(rt; sink.write(bytes) == answer);
        assert!(rt; sink.faults == faults);
    }
    assert!(rt; sink.writer.inner.as_slice() == b"abcgh".as_slice());
}
