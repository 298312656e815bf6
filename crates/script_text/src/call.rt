//! The calls that lines spell.
ghost use Rattle.std.specs.Prelude.{◌∷◌, Bool, IfOk, codes};
ghost use Rattle.replay_model.specs.Forms.{InRange};
ghost use Rattle.replay_model.specs.Script.{words_of};
ghost use Rattle.script_text.specs.Reading.{ReadsWords};
ghost use Rattle.script_text.specs.Words.{call_line};

use crate::place::{any_number, client, process, text_length};
use crate::verb::{CallVerb, call_verb_of};
use crate::word::{CallWords, call_words, no_words, one_word, two_words};
use replay_model::{CallWord, Event, TextFault};

/// The call of a line that begins with `call`. A call word that isn't built is not yet read.
pub fn call_of(rest: &[u8]) -> Result<Event, TextFault>
    ensures reads { (begun : Bool) → ReadsWords begun (codes "call" ∷ words_of rest.now) result }
    ensures in_range { IfOk result InRange }
{
    let line = call_words(rest)?;
    let Some(verb) = call_verb_of(line.asked) else {
        return Err(TextFault::Word);
    };
    match verb {
        CallVerb::Null => null_of(line),
        CallVerb::Add => add_of(line),
        CallVerb::Bump => bump_of(line),
        CallVerb::MaxArg => max_arg_of(line),
        CallVerb::MaxResult => max_result_of(line),
        CallVerb::BigArg | CallVerb::BigResult => Err(TextFault::NotYet),
    }
}

fn null_of(line: CallWords) -> Result<Event, TextFault>
    ensures reads { (begun : Bool) → ReadsWords begun (call_line line.entry (codes "null")) result }
    ensures in_range { IfOk result InRange }
{
    no_words(line.rest)?;
    Ok(Event::Call {
        machine: client(line.machine)?,
        process: process(line.process)?,
        word: CallWord::Null,
    })
}

fn add_of(line: CallWords) -> Result<Event, TextFault>
    ensures reads { (begun : Bool) → ReadsWords begun (call_line line.entry (codes "add")) result }
    ensures in_range { IfOk result InRange }
{
    let (one, other) = two_words(line.rest)?;
    Ok(Event::Call {
        machine: client(line.machine)?,
        process: process(line.process)?,
        word: CallWord::Add(any_number(one)?, any_number(other)?),
    })
}

fn bump_of(line: CallWords) -> Result<Event, TextFault>
    ensures reads { (begun : Bool) → ReadsWords begun (call_line line.entry (codes "bump")) result }
    ensures in_range { IfOk result InRange }
{
    let number = one_word(line.rest)?;
    Ok(Event::Call {
        machine: client(line.machine)?,
        process: process(line.process)?,
        word: CallWord::Bump(any_number(number)?),
    })
}

fn max_arg_of(line: CallWords) -> Result<Event, TextFault>
    ensures reads { (begun : Bool) → ReadsWords begun (call_line line.entry (codes "maxarg")) result }
    ensures in_range { IfOk result InRange }
{
    let length = one_word(line.rest)?;
    Ok(Event::Call {
        machine: client(line.machine)?,
        process: process(line.process)?,
        word: CallWord::MaxArg(text_length(length)?),
    })
}

fn max_result_of(line: CallWords) -> Result<Event, TextFault>
    ensures reads { (begun : Bool) → ReadsWords begun (call_line line.entry (codes "maxresult")) result }
    ensures in_range { IfOk result InRange }
{
    let length = one_word(line.rest)?;
    Ok(Event::Call {
        machine: client(line.machine)?,
        process: process(line.process)?,
        word: CallWord::MaxResult(any_number(length)?),
    })
}
