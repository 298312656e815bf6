//! `storm`: random events are played on the world, and their summary is written.

ghost use Rattle.std.specs.Prelude.{◌≡◌, ◌≤◌, IfOk};
ghost use Rattle.replay_model.specs.declared.options.TheConstants.{MOST_CALLS};
ghost use Rattle.replay_model.specs.Summary.{storm_text};
ghost use Rattle.commands.specs.Outside.{output};
ghost use Rattle.commands.specs.Storm.{Storms};

use crate::ending::end_with;
use crate::rounds::play_storm;
use crate::status::Status;
use crate::summary::put_summary;
use ff_io::{Sink, write_all};
use once_law::{once_after_any_events, packets_survive_any_events};
use replay_model::StormOptions;
use rpc_header::a_spelling_is_32_bytes;
use std::alloc::{AllocError, Global};
use storm_law::each_call_has_one_end;

/// Plays the storm of these options, and writes its summary. Where it can't, a fault line stands last, unless writing
/// fails.
pub fn run_storm<K: Sink>(alloc: Global, options: &StormOptions, sink: &mut K) -> Status
    requires calls { (1 ≤ options.now.calls) × (options.now.calls ≤ MOST_CALLS) }
    ensures storms { Storms result options.now.seed options.now.calls
        (output (K.written sink.old) (K.faults sink.old)) (output (K.written sink.new) (K.faults sink.new)) }

    // No failure is hidden: a write that failed isn't told as Ok.
    ensures write_still { result ≡ Status.Ok → K.faults sink.new ≡ K.faults sink.old }
    ensures write_count { K.faults sink.old ≤ K.faults sink.new }
{
    once_after_any_events();
    packets_survive_any_events();
    a_spelling_is_32_bytes();
    each_call_has_one_end();
    let text = match text_of_storm(alloc, options) {
        Ok(text) => text,
        Err(AllocError) => return end_with(sink, Status::NoMemory),
    };
    match write_all(sink, text.as_slice()) {
        Ok(()) => Status::Ok,
        Err(failed) => Status::from(failed),
    }
}

/// Plays the storm of these options, and makes the text of its summary. `Err` only where memory is short.
fn text_of_storm(alloc: Global, options: &StormOptions) -> Result<Vec<u8>, AllocError>
    requires calls { (1 ≤ options.now.calls) × (options.now.calls ≤ MOST_CALLS) }
    ensures { IfOk result (λ text. text.items ≡ storm_text options.now.seed options.now.calls) }
{
    let summary = play_storm(alloc, options)?;
    let mut text = Vec::new(alloc);
    put_summary(&mut text, options, &summary)?;
    Ok(text)
}
