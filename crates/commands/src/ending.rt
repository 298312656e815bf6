//! How a run ends with a fault.

ghost use Rattle.std.specs.Prelude.{◌≡◌, ◌≤◌, ℕ, []};
ghost use Rattle.commands.specs.Outside.{input, output, WroteUnlessFailed};
ghost use Rattle.commands.specs.Replay.{Replays};
ghost use Rattle.commands.specs.Status.{fault_line};
ghost use Rattle.commands.specs.Storm.{Storms};
ghost use Rattle.commands.specs.Stubs.{Stubs};

use crate::fault_line::fault_line_of;
use crate::status::Status;
use ff_io::{Sink, Source, write_all};
use once_law::{once_after_any_events, packets_survive_any_events};
use rpc_header::a_spelling_is_32_bytes;
use script_text::{no_fault_where_spelled, one_reading};

/// Writes the fault line of a status, which stays also where that fails.
pub fn end_with<K: Sink>(sink: &mut K, status: Status) -> Status
    ensures same { result ≡ status }
    ensures line { WroteUnlessFailed [] (fault_line status)
        (output (K.written sink.old) (K.faults sink.old)) (output (K.written sink.new) (K.faults sink.new)) }
    ensures count { K.faults sink.old ≤ K.faults sink.new }
{
    let line = fault_line_of(status);
    let _ = write_all(sink, line.as_str().as_bytes());
    status
}

/// Ends a run for want of memory to read its words. So may the run of any command end.
pub fn end_without_memory<S: Source, K: Sink>(source: &S, sink: &mut K) -> Status
    ensures same { result ≡ Status.NoMemory }
    ensures replays { Replays result
        (input (S.left source.now) (S.faults source.now)) (input (S.left source.now) (S.faults source.now))
        (output (K.written sink.old) (K.faults sink.old)) (output (K.written sink.new) (K.faults sink.new)) }
    ensures stubs { Stubs result
        (input (S.left source.now) (S.faults source.now)) (input (S.left source.now) (S.faults source.now))
        (output (K.written sink.old) (K.faults sink.old)) (output (K.written sink.new) (K.faults sink.new)) }
    ensures storms { (seed calls : ℕ) → Storms result seed calls
        (output (K.written sink.old) (K.faults sink.old)) (output (K.written sink.new) (K.faults sink.new)) }
    ensures line { WroteUnlessFailed [] (fault_line result)
        (output (K.written sink.old) (K.faults sink.old)) (output (K.written sink.new) (K.faults sink.new)) }
    ensures count { K.faults sink.old ≤ K.faults sink.new }
{
    one_reading();
    no_fault_where_spelled();
    once_after_any_events();
    packets_survive_any_events();
    a_spelling_is_32_bytes();
    end_with(sink, Status::NoMemory)
}
