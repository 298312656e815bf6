//! `replay`: a script is read to its end, then played, and its transcript is written.

ghost use Rattle.std.specs.Prelude.{◌≡◌, ◌≤◌, ◌<◌, ℕ, List, [], length, take, IfOk, IfErr, IsErrOf, OnOk, OnErr, vec_len, IfSome, All};
ghost use Rattle.ff_io.specs.Count.{Rose};
ghost use Rattle.ff_io.specs.Told.{Appended};
ghost use Rattle.replay_model.specs.Forms.{InRange};
ghost use Rattle.replay_model.specs.Transcript.{transcript};
ghost use Rattle.script_text.specs.Reading.{script_of};
ghost use Rattle.commands.specs.Outside.{input, output, Flushed};
ghost use Rattle.commands.specs.Replay.{Reads, Replays, Stopped};

use crate::ending::end_with;
use crate::status::Status;
use ff_io::{Sink, Source, WriteFailed, read_all, told_laws, write_all};
use once_law::once_after_any_events;
use replay_model::acts_print_whole_lines;
use replay_world::{Script, World, parse_script};
use script_text::{count_lines, no_fault_where_spelled, one_reading};
use std::alloc::Global;

/// The most bytes of input.
pub const INPUT_LIMIT: usize = 1_048_576;

/// The most lines of input.
pub const LINE_LIMIT: usize = 20_000;

/// How many bytes of a transcript are kept before they are written.
const FLUSH_BYTES: usize = 65_536;

/// Plays the script that the source gives, and writes its transcript. Where it can't, a fault line stands
/// last, unless writing fails.
pub fn run_replay<S: Source, K: Sink>(alloc: Global, source: &mut S, sink: &mut K) -> Status
    ensures replays { Replays result
        (input (S.left source.old) (S.faults source.old)) (input (S.left source.new) (S.faults source.new))
        (output (K.written sink.old) (K.faults sink.old)) (output (K.written sink.new) (K.faults sink.new)) }

    // No failure is hidden: a read that failed is told, and a write that failed isn't told as Ok.
    ensures read_still { (result ≡ Status.ReadFault → ⊥) → S.faults source.new ≡ S.faults source.old }
    ensures write_still { result ≡ Status.Ok → K.faults sink.new ≡ K.faults sink.old }
    ensures read_count { S.faults source.old ≤ S.faults source.new }
    ensures write_count { K.faults sink.old ≤ K.faults sink.new }
{
    one_reading();
    no_fault_where_spelled();
    once_after_any_events();
    told_laws();
    let script = match read_script(alloc, source) {
        Ok(script) => script,
        Err(status) => return end_with(sink, status),
    };
    match play(alloc, &script, sink) {
        Ok(()) => Status::Ok,
        Err(status) => end_with(sink, status),
    }
}

/// Reads the source to its end, and the script of its text.
fn read_script<S: Source>(alloc: Global, source: &mut S) -> Result<Script, Status>
    // The text is what the source had left, where it tells that.
    ensures read { (text : List ℕ) × IfSome (S.left source.old) (λ left. left ≡ text) × Reads result text
        (input (S.left source.old) (S.faults source.old)) (input (S.left source.new) (S.faults source.new)) }
    ensures still { (IsErrOf result Status.ReadFault → ⊥) → S.faults source.new ≡ S.faults source.old }
    ensures small { IfOk result (λ s. (s.small ≡ 256) × (s.long ≡ 72)) }
    ensures in_range { IfOk result (λ s. All InRange s.events) }
    ensures events { IfOk result (λ s. length s.events ≤ INPUT_LIMIT) }
    ensures count { S.faults source.old ≤ S.faults source.new }
{
    let bytes = read_all(alloc, source, INPUT_LIMIT)?;
    let text = bytes.as_slice();
    if count_lines(text) > LINE_LIMIT {
        return Err(Status::TooLong);
    }
    Ok(parse_script(alloc, text)?)
}

/// Plays a script from the first world, and writes its transcript.
fn play<K: Sink>(alloc: Global, script: &Script, sink: &mut K) -> Result<(), Status>
    requires small { script.now.small ≡ 256 }
    requires long { script.now.long ≡ 72 }
    requires in_range { All InRange script.now.events }
    requires events { length script.now.events ≤ INPUT_LIMIT }
    ensures ok { OnOk result (Appended (transcript (script_of script.now)) (K.written sink.old) (K.written sink.new)) }
    ensures err { IfErr result (λ status. Stopped status (script_of script.now)
        (output (K.written sink.old) (K.faults sink.old)) (output (K.written sink.new) (K.faults sink.new))) }
    ensures still { OnOk result (K.faults sink.new ≡ K.faults sink.old) }
    ensures count { K.faults sink.old ≤ K.faults sink.new }
{
    once_after_any_events();
    told_laws();
    acts_print_whole_lines();
    let mut world = World::make(alloc, script.small, script.long)?;
    let mut out = Vec::new(alloc);
    for event in script.events.as_slice() {
        world.apply(alloc, event, &mut out)?;
        flush_full(sink, &mut out)?;
    }
    write_all(sink, out.as_slice())?;
    Ok(())
}

/// Writes what is kept of a transcript, where it is much.
fn flush_full<K: Sink>(sink: &mut K, out: &mut Vec<u8>) -> Result<(), WriteFailed>
    ensures ok { OnOk result (Flushed out.old.items out.new.items
        (output (K.written sink.old) (K.faults sink.old)) (output (K.written sink.new) (K.faults sink.new))) }
    ensures part { OnErr result ((n : ℕ) × (n < length out.old.items)
        × Appended (take n out.old.items) (K.written sink.old) (K.written sink.new)) }
    ensures little { OnOk result (vec_len out.new < FLUSH_BYTES) }
    ensures failed { OnErr result (Rose (K.faults sink.old) (K.faults sink.new)) }
    ensures still { OnOk result (K.faults sink.new ≡ K.faults sink.old) }
    ensures count { K.faults sink.old ≤ K.faults sink.new }
{
    if out.len() < FLUSH_BYTES {
        return Ok(());
    }
    write_all(sink, out.as_slice())?;
    out.clear();
    Ok(())
}
