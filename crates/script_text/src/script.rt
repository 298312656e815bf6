//! Scripts, and how their texts are read.
ghost use Rattle.std.specs.Prelude.{◌≡◌, ◌+◌, ◌-◌, ◌^◌, ◌<◌, ◌≤◌, ◌⊎◌, Some, None, length, IfOk, IfErr, OnOk, All, vec_len};
ghost use Rattle.replay_model.specs.Forms.{InRange};
ghost use Rattle.replay_model.specs.Script.{IsScript, is_end};
ghost use Rattle.replay_model.specs.TextFault.{first_fault};
ghost use Rattle.script_text.specs.Reading.{script_of, ReadsText, IsRefusal};

use crate::fault::ScriptFault;
use crate::line::read_line;
use crate::lines::first_line;
use crate::word::{is_fine, is_plain};
use item_list::Items;
use replay_model::limits::{LONG_BUFFERS, SMALL_BUFFERS};
use replay_model::{Event, TextFault};
use std::alloc::Global;

/// What a script asks for.
#[derive(Drop)]
pub struct Script {
    /// The server's number of small buffers.
    pub small: usize,
    /// The server's number of long buffers.
    pub long: usize,
    /// The lines in their order.
    pub events: Items<Event>,
}

/// Reads a script. Another text is refused at its first fault.
pub fn parse_script(alloc: Global, text: &[u8]) -> Result<Script, ScriptFault>
    requires { length text.now < 2 ^ 32 - 1 }
    ensures accepted { IfOk result (λ s. IsScript text.now (script_of s)) }
    ensures no_fault { OnOk result (first_fault text.now ≡ None) }
    ensures refused { IfErr result (λ e. (e ≡ ScriptFault.MEMORY) ⊎ IsRefusal text.now e) }

    // What those that play the events may rely on.
    ensures in_range { IfOk result (λ s. All InRange s.events) }
    ensures few { IfOk result (λ s. length s.events ≤ length text.now) }
{
    let events = read_events(alloc, text)?;
    Ok(Script {
        small: SMALL_BUFFERS,
        long: LONG_BUFFERS,
        events: Items::from(events),
    })
}

/// The event of each line that isn't skipped.
fn read_events(alloc: Global, text: &[u8]) -> Result<Vec<Event>, ScriptFault>
    requires { length text.now < 2 ^ 32 - 1 }
    ensures read { IfOk result (λ v. ReadsText text.now v.items) }
    ensures refused { IfErr result (λ e. (e ≡ ScriptFault.MEMORY) ⊎ IsRefusal text.now e) }
    ensures in_range { IfOk result (λ v. All InRange v.items) }
    ensures few { IfOk result (λ v. vec_len v ≤ length text.now) }
{
    let mut events = Vec::new(alloc);
    let plain = is_plain(text);
    let mut ended = false;
    let mut line = 0;
    let mut rest = Some(text);
    while let Some(text) = rest {
        let (first, behind) = first_line(text);
        line += 1;
        match read_line(first, is_fine(first, plain), ended) {
            Ok(None) => {}
            Ok(Some(event)) => {
                ended = is_end(&event);
                events.push(event)?;
            }
            Err(fault) => return Err(ScriptFault::at(line, fault)),
        }
        rest = behind;
    }
    if ended {
        Ok(events)
    } else {
        Err(ScriptFault::at(line, TextFault::NoEnd))
    }
}

fn is_end(event: &Event) -> bool
    ensures { result ≡ is_end event.now }
{
    matches!(event, Event::End)
}
