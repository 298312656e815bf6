//! What one line of a script spells.
ghost use Rattle.std.specs.Prelude.{◌≡◌, ◌∷◌, ℕ, List, Bool, IfOk, IfSome, codes};
ghost use Rattle.script_text.specs.Words.{CountsFrom, IsVerb, text_of};
ghost use Rattle.script_text.specs.Reading.{ReadsWords, ReadsLine, SpellsOpenly};
ghost use Rattle.replay_model.specs.Forms.{InRange};
ghost use Rattle.replay_model.specs.Script.{is_skipped, words_of};
ghost use Rattle.std.specs.List.{list_all};
ghost use Rattle.replay_model.specs.TextFault.{Above, is_byte_of_line};

use crate::call::call_of;
use crate::number::short_number;
use crate::place::{client, machine, name, packet, process, time, worker};
use crate::verb::{Verb, verb_of};
use crate::word::{first_word, no_words, one_word, process_words, tick_words, two_words};
use replay_model::limits::{LARGEST_COUNT, LAST_BIT};
use replay_model::{Event, TextFault};

/// The event that a line spells, or nothing where it is skipped. `fine` says whether it has only bytes that a line may
/// have, and `ended` whether a line above is the end.
pub fn read_line(line: &[u8], fine: bool, ended: bool) -> Result<Option<Event>, TextFault>
    requires { fine ≡ list_all is_byte_of_line line.now }
    ensures reads { (above : Above) → above.ended ≡ ended → ReadsLine above line.now result }
    ensures in_range { IfOk result (λ e. IfSome e InRange) }
{
    if fine && !ended {
        if let Some(event) = common_event(line) {
            return Ok(Some(event));
        }
    }
    let Some((first, rest)) = first_word(line) else {
        return Ok(None);
    };
    if is_comment(first) {
        return Ok(None);
    }
    read_counted(verb_of(first), rest, fine, ended)
}

/// The event of a line of one of the two forms that most lines have, where its number stands one blank behind its
/// word. Any other line is left to be read word by word.
#[inline(always)]
fn common_event(line: &[u8]) -> Option<Event>
    ensures reads { IfSome result (λ e. SpellsOpenly line.now e) }
    ensures in_range { IfSome result InRange }
{
    if let Some(rest) = line.strip_prefix(b"work ") {
        return match worker(rest) {
            Ok(worker) => Some(Event::Work(worker)),
            Err(_) => None,
        };
    }
    if let Some(rest) = line.strip_prefix(b"deliver ") {
        return match packet(rest) {
            Ok(packet) => Some(Event::Deliver(packet)),
            Err(_) => None,
        };
    }
    None
}

/// The event of a line that isn't skipped. It begins with this word, or with one that begins no form.
#[inline(always)]
fn read_counted(
    verb: Option<Verb>,
    rest: &[u8],
    fine: bool,
    ended: bool,
) -> Result<Option<Event>, TextFault>
    ensures reads { (above : Above) (line first : List ℕ) → CountsFrom line first (words_of rest.now) → IsVerb first verb
        → fine ≡ list_all is_byte_of_line line → above.ended ≡ ended → ReadsLine above line result }
    ensures in_range { IfOk result (λ e. IfSome e InRange) }
{
    if !fine {
        return Err(TextFault::Byte);
    }
    if ended {
        return Err(TextFault::Late);
    }
    match verb {
        None => Err(TextFault::Word),
        Some(verb) => match event_of(verb, rest) {
            Ok(event) => Ok(Some(event)),
            Err(fault) => Err(fault),
        },
    }
}

/// A line that begins with this word is a comment.
fn is_comment(word: &[u8]) -> bool
    ensures { (more : List (List ℕ)) → result ≡ is_skipped (word.now ∷ more) }
{
    matches!(word, [b'#', ..])
}

/// The event of a line that begins with this word. A form that isn't built is not yet read.
fn event_of(verb: Verb, rest: &[u8]) -> Result<Event, TextFault>
    ensures reads { (begun : Bool) → ReadsWords begun (text_of verb ∷ words_of rest.now) result }
    ensures in_range { IfOk result InRange }
{
    match verb {
        Verb::Second => Ok(Event::Second(time(one_word(rest)?)?)),
        Verb::Call => call_of(rest),
        Verb::Bind => bind_of(rest),
        Verb::Tick => ticks_of(rest),
        Verb::Deliver => Ok(Event::Deliver(packet(one_word(rest)?)?)),
        Verb::Damage => {
            let (word, bit) = two_words(rest)?;
            Ok(Event::Damage {
                packet: packet(word)?,
                bit: short_number(bit, 0, LAST_BIT)?,
            })
        }
        Verb::Work => Ok(Event::Work(worker(one_word(rest)?)?)),
        Verb::Export => Ok(Event::Export(name(one_word(rest)?)?)),
        Verb::Withdraw => Ok(Event::Withdraw(name(one_word(rest)?)?)),
        Verb::Restart => Ok(Event::Restart(machine(one_word(rest)?)?)),
        Verb::Skip => skip_of(rest),
        Verb::Show => Ok(Event::Show(packet(one_word(rest)?)?)),
        Verb::Journal => no_words(rest).map(|()| Event::Journal),
        Verb::End => no_words(rest).map(|()| Event::End),
        Verb::Pool | Verb::Holders | Verb::Sweep => Err(TextFault::NotYet),
    }
}

/// The bind of a line that begins with `bind`.
fn bind_of(rest: &[u8]) -> Result<Event, TextFault>
    ensures reads { (begun : Bool) → ReadsWords begun (codes "bind" ∷ words_of rest.now) result }
    ensures in_range { IfOk result InRange }
{
    let line = process_words(rest)?;
    Ok(Event::Bind {
        machine: client(line.machine)?,
        process: process(line.process)?,
        name: name(line.word)?,
    })
}

/// The numbers that a line that begins with `skip` passes over.
fn skip_of(rest: &[u8]) -> Result<Event, TextFault>
    ensures reads { (begun : Bool) → ReadsWords begun (codes "skip" ∷ words_of rest.now) result }
    ensures in_range { IfOk result InRange }
{
    let line = process_words(rest)?;
    Ok(Event::Skip {
        machine: client(line.machine)?,
        process: process(line.process)?,
        by: time(line.word)?,
    })
}

/// The ticks of a line that begins with `tick`: one, where it has no number of them.
fn ticks_of(rest: &[u8]) -> Result<Event, TextFault>
    ensures reads { (begun : Bool) → ReadsWords begun (codes "tick" ∷ words_of rest.now) result }
    ensures in_range { IfOk result InRange }
{
    let line = tick_words(rest)?;
    match line.count {
        None => Ok(Event::Tick {
            machine: client(line.machine)?,
            process: process(line.process)?,
            times: 1,
        }),
        Some(count) => Ok(Event::Tick {
            machine: client(line.machine)?,
            process: process(line.process)?,
            times: short_number(count, 1, LARGEST_COUNT)?,
        }),
    }
}
