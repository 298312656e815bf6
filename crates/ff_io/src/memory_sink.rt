// A sink that keeps in memory what is written.
ghost use Rattle.std.specs.Prelude.{◌≡◌, ◌↔◌, ◌⊎◌, ◌≤◌, ◌<◌, ◌+◌, ◌-◌, ◌++◌, Some, [], length, take, is_err, vec_len, vec_capacity, IsErr, IfOk, OnOk, OnErr};
ghost use Rattle.ff_io.specs.CallLog.{NextFails, no_calls, called};
ghost use Rattle.ff_io.specs.Count.{Rose};
ghost use Rattle.ff_io.specs.MemorySink.{MemorySinkState};
ghost use Rattle.ff_io.specs.Told.{Appended};

use crate::calls::Calls;
use crate::{Sink, WriteFailed};
use std::marker::Model;

/// A sink that keeps in memory what is written, and tells it.
#[derive(Debug, Drop)]
pub struct MemorySink {
    written: Vec<u8>,
    calls: Calls,
}

impl Model for MemorySink {
    ghost Value = { MemorySinkState };

    ghost view = { λ s. record {
      written = s.written.items;
      room = vec_capacity s.written - vec_len s.written;
      calls = s.calls;
    } };
}

impl MemorySink {
    /// A sink that appends to `room`, whose k-th write, counted from 1, fails where k stands in `fail`. What
    /// `room` holds counts as written. It never grows: a write of more than its spare capacity fails too.
    pub fn new(fail: Vec<u64>, room: Vec<u8>) -> Self
        ensures written { result.written ≡ room.items }
        ensures room { result.room ≡ vec_capacity room - vec_len room }
        ensures calls { result.calls ≡ no_calls fail.items }
    {
        MemorySink {
            written: room,
            calls: Calls::new(fail),
        }
    }

    /// What was written.
    pub fn written(&self) -> &[u8]
        ensures { result.now ≡ self.now.written }
    {
        self.written.as_slice()
    }

    /// How many writes have failed.
    pub fn faults(&self) -> u64
        ensures { result ≡ self.now.calls.faults }
    {
        self.calls.faults()
    }
}

impl Sink for MemorySink {
    ghost faults = { λ sink. sink.calls.faults };

    ghost written = { λ sink. Some sink.written };

    fn write(&mut self, bytes: &[u8]) -> Result<usize, WriteFailed>
        // A write fails exactly where its number stands in the list or the room is too small, and else takes all.
        ensures fails { IsErr result ↔ (NextFails self.old.calls ⊎ (self.old.room < length bytes.now)) }
        ensures amount { IfOk result (λ n. n ≡ length bytes.now) }

        // What is appended takes up its room, and the room never grows.
        ensures room { OnOk result (self.old.room ≡ self.new.room + length bytes.now) }
        ensures full { OnErr result (self.new.room ≡ self.old.room) }
        ensures calls { self.new.calls ≡ called (is_err result) self.old.calls }

        // As of each sink.
        ensures within { IfOk result (λ n. n ≤ length bytes.now) }
        ensures progress { IfOk result (λ n. 0 < length bytes.now → 0 < n) }
        ensures appended { IfOk result (λ n. Appended (take n bytes.now) (Some self.old.written) (Some self.new.written)) }
        ensures untouched { OnErr result (Appended [] (Some self.old.written) (Some self.new.written)) }
        ensures failed { OnErr result (Rose self.old.calls.faults self.new.calls.faults) }
        ensures still { OnOk result (self.new.calls.faults ≡ self.old.calls.faults) }
        ensures count { self.old.calls.faults ≤ self.new.calls.faults }
    {
        let room = self.written.capacity() - self.written.len();
        if self.calls.next_fails() || bytes.len() > room {
            self.calls.count_failure();
            return Err(WriteFailed);
        }
        self.calls.count_success();
        append_in_room(&mut self.written, bytes);
        Ok(bytes.len())
    }
}

// Appends the bytes, for which there is room.
fn append_in_room(written: &mut Vec<u8>, bytes: &[u8])
    requires { length bytes.now ≤ vec_capacity written.old - vec_len written.old }
    ensures items { written.new.items ≡ written.old.items ++ bytes.now }
    ensures capacity { vec_capacity written.new ≡ vec_capacity written.old }
{
    for byte in bytes {
        written.push_reserved(*byte);
    }
}
