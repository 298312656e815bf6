//! The commands of the program.

ghost use Rattle.std.specs.Prelude.{◌≡◌, ◌≤◌, ◌⊎◌, [], Some, true, false, map, string_bytes, IsErr, IfErr, IfOk};
ghost use Rattle.std.specs.IoError.{error_kind};
ghost use Rattle.command_words.specs.Words.{are_taken, command_of};
ghost use Rattle.commands.specs.Outside.{input, output, WroteUnlessFailed};
ghost use Rattle.commands.specs.Replay.{Replays};
ghost use Rattle.commands.specs.Status.{fault_line, status_of_words};
ghost use Rattle.commands.specs.Storm.{Storms};
ghost use Rattle.commands.specs.Stubs.{Stubs};
ghost use Rattle.replay_model.specs.declared.options.StormOptions.{StormOptions};

use command_words::{Command, WordsFault, read_command};
use commands::{Status, end_with, end_without_memory, run_replay, run_storm, run_stubs};
use ff_io::{Sink, Source};
use std::alloc::Global;
use std::io;

/// Does what the words behind the program's name ask for, and refuses words that can't be had.
pub fn run_words<S: Source, K: Sink>(
    alloc: Global,
    words: io::Result<Vec<String>>,
    source: &mut S,
    sink: &mut K,
) -> Status
    // The words do what `ffrpc` does with them.
    ensures usage { IfOk words (λ words. result ≡ Status.Usage → are_taken (map string_bytes words.items) ≡ false) }
    ensures refused { IfOk words (λ words. are_taken (map string_bytes words.items) ≡ false
        → (result ≡ Status.Usage) ⊎ (result ≡ Status.NoMemory)) }
    ensures replays { IfOk words (λ words. command_of (map string_bytes words.items) ≡ Some Command.Replay → Replays result
        (input (S.left source.old) (S.faults source.old)) (input (S.left source.new) (S.faults source.new))
        (output (K.written sink.old) (K.faults sink.old)) (output (K.written sink.new) (K.faults sink.new))) }
    ensures stubs { IfOk words (λ words. command_of (map string_bytes words.items) ≡ Some Command.Stubs → Stubs result
        (input (S.left source.old) (S.faults source.old)) (input (S.left source.new) (S.faults source.new))
        (output (K.written sink.old) (K.faults sink.old)) (output (K.written sink.new) (K.faults sink.new))) }
    ensures storms { IfOk words (λ words. (options : StormOptions) → command_of (map string_bytes words.items) ≡ Some (Command.Storm options)
        → Storms result options.seed options.calls
        (output (K.written sink.old) (K.faults sink.old)) (output (K.written sink.new) (K.faults sink.new))) }
    ensures unread { IfOk words (λ words. are_taken (map string_bytes words.items) ≡ false → source.new ≡ source.old) }
    ensures refused_line { IfOk words (λ words. are_taken (map string_bytes words.items) ≡ false → WroteUnlessFailed [] (fault_line result)
        (output (K.written sink.old) (K.faults sink.old)) (output (K.written sink.new) (K.faults sink.new))) }

    // Where they can't be had, the fault of that is told.
    ensures unknown { IfErr words (λ error. result ≡ status_of_words (error_kind error)) }
    ensures unread_too { IsErr words → source.new ≡ source.old }
    ensures line { IsErr words → WroteUnlessFailed [] (fault_line result)
        (output (K.written sink.old) (K.faults sink.old)) (output (K.written sink.new) (K.faults sink.new)) }
{
    match words {
        Ok(words) => ffrpc(alloc, &words, source, sink),
        Err(error) => end_with(sink, Status::from(error)),
    }
}

/// Does what the words behind the program's name ask for.
pub fn ffrpc<S: Source, K: Sink>(
    alloc: Global,
    words: &[String],
    source: &mut S,
    sink: &mut K,
) -> Status
    // What the words ask for is done, as the run call of their command says.
    ensures replays { command_of (map string_bytes words.now) ≡ Some Command.Replay → Replays result
        (input (S.left source.old) (S.faults source.old)) (input (S.left source.new) (S.faults source.new))
        (output (K.written sink.old) (K.faults sink.old)) (output (K.written sink.new) (K.faults sink.new)) }
    ensures stubs { command_of (map string_bytes words.now) ≡ Some Command.Stubs → Stubs result
        (input (S.left source.old) (S.faults source.old)) (input (S.left source.new) (S.faults source.new))
        (output (K.written sink.old) (K.faults sink.old)) (output (K.written sink.new) (K.faults sink.new)) }
    ensures storms { (options : StormOptions) → command_of (map string_bytes words.now) ≡ Some (Command.Storm options)
        → Storms result options.seed options.calls
        (output (K.written sink.old) (K.faults sink.old)) (output (K.written sink.new) (K.faults sink.new)) }
    ensures storms_unread { (options : StormOptions) → command_of (map string_bytes words.now) ≡ Some (Command.Storm options)
        → source.new ≡ source.old }

    // Words that `clap` refuses are refused, unless memory runs out. Then the source is left as it was, and
    // nothing but the fault line is written.
    ensures usage { result ≡ Status.Usage → are_taken (map string_bytes words.now) ≡ false }
    ensures refused { are_taken (map string_bytes words.now) ≡ false → (result ≡ Status.Usage) ⊎ (result ≡ Status.NoMemory) }
    ensures unread { are_taken (map string_bytes words.now) ≡ false → source.new ≡ source.old }
    ensures refused_line { are_taken (map string_bytes words.now) ≡ false → WroteUnlessFailed [] (fault_line result)
        (output (K.written sink.old) (K.faults sink.old)) (output (K.written sink.new) (K.faults sink.new)) }

    // No failure is hidden: a read that failed is told, and a write that failed isn't told as Ok.
    ensures read_still { (result ≡ Status.ReadFault → ⊥) → S.faults source.new ≡ S.faults source.old }
    ensures write_still { result ≡ Status.Ok → K.faults sink.new ≡ K.faults sink.old }
    ensures read_count { S.faults source.old ≤ S.faults source.new }
    ensures write_count { K.faults sink.old ≤ K.faults sink.new }
{
    match read_command(alloc, words) {
        Ok(Command::Replay) => run_replay(alloc, source, sink),
        Ok(Command::Stubs) => run_stubs(alloc, source, sink),
        Ok(Command::Storm(options)) => run_storm(alloc, &options, sink),
        Err(WordsFault::Usage) => end_with(sink, Status::Usage),
        Err(WordsFault::Memory) => end_without_memory(source, sink),
    }
}
