// Short reads and writes.
ghost use Rattle.std.specs.Prelude.{◌≡◌, ◌↔◌, ◌≤◌, ◌<◌, [], length, take, IfOk, IfSome, OnOk, OnErr};
ghost use Rattle.ff_io.specs.Count.{Rose};
ghost use Rattle.ff_io.specs.Told.{Appended, Gave};

use crate::{ReadFailed, Sink, Source, WriteFailed};

/// A source or a sink that gives or takes at most `most` bytes a call, as a terminal or a socket may.
#[derive(Debug, Drop)]
pub struct Short<T> {
    /// What is behind it.
    pub inner: T,
    /// The most bytes of one call, at least 1.
    pub most: usize,
    pub ghost some: { 1 ≤ most },
}

impl<S: Source> Source for Short<S> {
    ghost faults = { λ source. S.faults source.inner };

    ghost left = { λ source. S.left source.inner };

    fn read(&mut self, into: &mut [u8]) -> Result<usize, ReadFailed>
        ensures short { IfOk result (λ n. n ≤ self.old.most) }
        ensures most { self.new.most ≡ self.old.most }

        // As of each source.
        ensures within { IfOk result (λ n. n ≤ length into.new) }
        ensures given { IfOk result (λ n. Gave (take n into.new) (S.left self.old.inner) (S.left self.new.inner)) }
        ensures end { IfOk result (λ n. 0 < length into.new →
            IfSome (S.left self.old.inner) (λ bytes. (n ≡ 0) ↔ (bytes ≡ []))) }
        ensures untouched { OnErr result (S.left self.new.inner ≡ S.left self.old.inner) }
        ensures failed { OnErr result (Rose (S.faults self.old.inner) (S.faults self.new.inner)) }
        ensures still { OnOk result (S.faults self.new.inner ≡ S.faults self.old.inner) }
        ensures count { S.faults self.old.inner ≤ S.faults self.new.inner }
    {
        let most = self.most.min(into.len());
        self.inner.read(&mut into[..most])
    }
}

impl<K: Sink> Sink for Short<K> {
    ghost faults = { λ sink. K.faults sink.inner };

    ghost written = { λ sink. K.written sink.inner };

    fn write(&mut self, bytes: &[u8]) -> Result<usize, WriteFailed>
        ensures short { IfOk result (λ n. n ≤ self.old.most) }
        ensures most { self.new.most ≡ self.old.most }

        // As of each sink.
        ensures within { IfOk result (λ n. n ≤ length bytes.now) }
        ensures progress { IfOk result (λ n. 0 < length bytes.now → 0 < n) }
        ensures appended { IfOk result (λ n. Appended (take n bytes.now) (K.written self.old.inner) (K.written self.new.inner)) }
        ensures untouched { OnErr result (Appended [] (K.written self.old.inner) (K.written self.new.inner)) }
        ensures failed { OnErr result (Rose (K.faults self.old.inner) (K.faults self.new.inner)) }
        ensures still { OnOk result (K.faults self.new.inner ≡ K.faults self.old.inner) }
        ensures count { K.faults self.old.inner ≤ K.faults self.new.inner }
    {
        let most = self.most.min(bytes.len());
        self.inner.write(&bytes[..most])
    }
}
