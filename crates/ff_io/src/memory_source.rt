// A source over bytes in memory.
ghost use Rattle.std.specs.Prelude.{◌≡◌, ◌↔◌, ◌≤◌, ◌<◌, Some, [], length, take, drop, min, is_err, IsErr, IfOk, IfSome, OnOk, OnErr};
ghost use Rattle.ff_io.specs.CallLog.{NextFails, no_calls, called};
ghost use Rattle.ff_io.specs.Count.{Rose};
ghost use Rattle.ff_io.specs.MemorySource.{MemorySourceState};
ghost use Rattle.ff_io.specs.Told.{Gave};

use crate::calls::Calls;
use crate::{ReadFailed, Source};
use std::marker::Model;

/// A source over bytes in memory. It tells what is left.
#[derive(Debug, Drop)]
pub struct MemorySource {
    bytes: Vec<u8>,
    at: usize,
    calls: Calls,
}

impl Model for MemorySource {
    ghost Value = { MemorySourceState };

    ghost view = { λ s. record { left = drop s.at s.bytes.items; calls = s.calls } };

    ghost invariant = { λ s. s.at ≤ length s.bytes.items };
}

impl MemorySource {
    /// A source of these bytes, whose k-th read, counted from 1, fails where k stands in `fail`.
    pub fn new(bytes: Vec<u8>, fail: Vec<u64>) -> Self
        ensures left { result.left ≡ bytes.items }
        ensures calls { result.calls ≡ no_calls fail.items }
    {
        MemorySource {
            bytes,
            at: 0,
            calls: Calls::new(fail),
        }
    }

    /// The bytes that are left.
    pub fn left(&self) -> &[u8]
        ensures { result.now ≡ self.now.left }
    {
        &self.bytes[self.at..]
    }

    /// How many reads have failed.
    pub fn faults(&self) -> u64
        ensures { result ≡ self.now.calls.faults }
    {
        self.calls.faults()
    }
}

impl Source for MemorySource {
    ghost faults = { λ source. source.calls.faults };

    ghost left = { λ source. Some source.left };

    fn read(&mut self, into: &mut [u8]) -> Result<usize, ReadFailed>
        // A read fails exactly where its number stands in the list, and else gives as much as there is room for.
        ensures fails { IsErr result ↔ NextFails self.old.calls }
        ensures amount { IfOk result (λ n. n ≡ min (length into.new) (length self.old.left)) }
        ensures calls { self.new.calls ≡ called (is_err result) self.old.calls }

        // As of each source.
        ensures within { IfOk result (λ n. n ≤ length into.new) }
        ensures given { IfOk result (λ n. Gave (take n into.new) (Some self.old.left) (Some self.new.left)) }
        ensures end { IfOk result (λ n. 0 < length into.new → (n ≡ 0) ↔ (self.old.left ≡ [])) }
        ensures untouched { OnErr result (Some self.new.left ≡ Some self.old.left) }
        ensures failed { OnErr result (Rose self.old.calls.faults self.new.calls.faults) }
        ensures still { OnOk result (self.new.calls.faults ≡ self.old.calls.faults) }
        ensures count { self.old.calls.faults ≤ self.new.calls.faults }
    {
        if self.calls.next_fails() {
            self.calls.count_failure();
            return Err(ReadFailed);
        }
        self.calls.count_success();
        let n = into.len().min(self.bytes.len() - self.at);
        into[..n].copy_from_slice(&self.bytes[self.at..self.at + n]);
        self.at += n;
        Ok(n)
    }
}
