// Readers and writers as sources and sinks. They tell nothing of content; what std says of the bytes that its readers
// and writers have, where these are known, is handed on.
ghost use Rattle.std.specs.Prelude.{◌≡◌, ◌↔◌, ◌≤◌, ◌<◌, [], length, take, IfOk, IfSome, OnOk, OnErr};
ghost use Rattle.std.specs.Io.KnownBytes.{ReadConsumes, WriteAppends};
ghost use Rattle.ff_io.specs.Count.{Rose};
ghost use Rattle.ff_io.specs.Told.{Appended, Gave, untold};

use crate::{ReadFailed, Sink, Source, WriteFailed};
use std::io::{Read, Write};

/// A reader as a source.
#[derive(Drop)]
pub struct StreamSource<R> {
    /// What is read.
    pub reader: R,
    /// How many reads have failed.
    pub faults: u64,
}

impl<R> StreamSource<R> {
    /// A source over the reader, no read of which has failed.
    pub fn new(reader: R) -> Self
        ensures reader { result.reader ≡ reader }
        ensures faults { result.faults ≡ 0 }
    {
        StreamSource { reader, faults: 0 }
    }
}

impl<R: Read> Source for StreamSource<R> {
    ghost faults = { λ s. s.faults };

    ghost left = { λ _. untold };

    fn read(&mut self, into: &mut [u8]) -> Result<usize, ReadFailed>
        // The reader's bytes are handed on as it gave them, and its end is told exactly there.
        ensures reads { ReadConsumes (R.remaining self.old.reader) (R.remaining self.new.reader) result into.new }

        // As of each source.
        ensures within { IfOk result (λ n. n ≤ length into.new) }
        ensures given { IfOk result (λ n. Gave (take n into.new) untold untold) }
        ensures end { IfOk result (λ n. 0 < length into.new → IfSome untold (λ bytes. (n ≡ 0) ↔ (bytes ≡ []))) }
        ensures untouched { OnErr result (untold ≡ untold) }
        ensures failed { OnErr result (Rose self.old.faults self.new.faults) }
        ensures still { OnOk result (self.new.faults ≡ self.old.faults) }
        ensures count { self.old.faults ≤ self.new.faults }
    {
        match self.reader.read(into) {
            Ok(n) => Ok(n),
            Err(_) => {
                self.faults = self.faults.saturating_add(1);
                Err(ReadFailed)
            }
        }
    }
}

/// A writer as a sink.
#[derive(Drop)]
pub struct StreamSink<W> {
    /// What is written to.
    pub writer: W,
    /// How many writes have failed.
    pub faults: u64,
}

impl<W> StreamSink<W> {
    /// A sink over the writer, no write to which has failed.
    pub fn new(writer: W) -> Self
        ensures writer { result.writer ≡ writer }
        ensures faults { result.faults ≡ 0 }
    {
        StreamSink { writer, faults: 0 }
    }
}

impl<W: Write> Sink for StreamSink<W> {
    ghost faults = { λ s. s.faults };

    ghost written = { λ _. untold };

    fn write(&mut self, bytes: &[u8]) -> Result<usize, WriteFailed>
        // The bytes that are told as written are those that the writer took.
        ensures writes { WriteAppends (W.contents self.old.writer) (W.contents self.new.writer) result bytes.now }

        // As of each sink.
        ensures within { IfOk result (λ n. n ≤ length bytes.now) }
        ensures progress { IfOk result (λ n. 0 < length bytes.now → 0 < n) }
        ensures appended { IfOk result (λ n. Appended (take n bytes.now) untold untold) }
        ensures untouched { OnErr result (Appended [] untold untold) }
        ensures failed { OnErr result (Rose self.old.faults self.new.faults) }
        ensures still { OnOk result (self.new.faults ≡ self.old.faults) }
        ensures count { self.old.faults ≤ self.new.faults }
    {
        match self.writer.write(bytes) {
            Ok(n) if n > 0 || bytes.is_empty() => Ok(n),
            _ => {
                self.faults = self.faults.saturating_add(1);
                Err(WriteFailed)
            }
        }
    }
}
