//! From a text to the interface that it declares.
ghost use Rattle.std.specs.Prelude.{◌≡◌, ◌<◌, ◌≤◌, length, IfOk, IfErr, All};
ghost use Rattle.interface_text.specs.Depths.{IsShallow};
ghost use Rattle.interface_tokens.specs.Outcome.{Gives};
ghost use Rattle.interface_tokens.specs.Scanning.{tokens_view};
ghost use Rattle.interface_text.specs.States.{interface_view};
ghost use Rattle.interface_text.specs.Texts as texts;
ghost use Rattle.interface_text.specs.Texts.{Declares, IsFirstFault};

use crate::fault::TextFault;
use crate::interface::Interface;
use crate::reader::Reader;
use interface_tokens::{
    Cause, Ending, Ident, Sign, Spot, Stop, Tokens, Word, is_sign, is_word, name_of, tokens_of,
};
use std::alloc::Global;

/// The interface that a text declares, or its first fault. Number 0 is want of memory.
#[tactic(auto, using(crate::proofs::Telling::first_told, crate::proofs::Telling::memory_told, crate::proofs::Limited::read_few))]
pub fn parse(alloc: Global, text: &[u8]) -> Result<Interface, TextFault>
    requires { length text.now < u32.MAX }
    ensures interface { IfOk result (λ interface. Declares text.now (interface_view interface)) }
    ensures few { IfOk result (λ interface. length interface.procedures ≤ 256) }
    ensures shallow { IfOk result (λ interface. All IsShallow interface.procedures) }
    ensures fault { IfErr result (λ fault. 0 < fault.number → IsFirstFault text.now fault) }
    ensures memory { IfErr result (λ fault. fault.number ≡ 0 → (fault.line ≡ 0) × (fault.column ≡ 0)) }
{
    match read(alloc, text) {
        Ok(interface) => Ok(interface),
        Err(stop) => Err(TextFault::from(stop)),
    }
}

#[tactic(auto, unfolding(crate::specs::Texts::read_text))]
fn read(alloc: Global, text: &[u8]) -> Result<Interface, Stop>
    requires { length text.now < u32.MAX }
    ensures { Gives interface_view result (texts.read_text text.now) }
{
    let tokens = tokens_of(alloc, text)?;
    read_tokens(alloc, &tokens)
}

fn read_tokens(alloc: Global, tokens: &Tokens) -> Result<Interface, Stop>
    ensures { Gives interface_view result (texts.read_tokens (tokens_view tokens.now)) }
{
    match first_line(tokens) {
        Ok((name, spots)) => {
            let mut reader = Reader::new(alloc, name);
            reader.take_all(alloc, spots)?;
            reader.finish(tokens.ending, tokens.end)
        }
        Err(stop) => Err(stop),
    }
}

/// The name of the interface, and the tokens behind `INTERFACE name ;`.
#[tactic(auto, unfolding(crate::specs::Texts::first_line))]
fn first_line(tokens: &Tokens) -> Result<(Ident, &[Spot]), Stop>
    ensures { Gives (λ line. (line.0, line.1.now)) result (texts.first_line (tokens_view tokens.now)) }
{
    let (spot, rest) = first(tokens, tokens.spots.as_slice())?;
    if !is_word(&spot.token, Word::Interface) {
        return Err(Stop::Fault(spot.place, Cause::Expected));
    }
    let (spot, rest) = first(tokens, rest)?;
    let name = match name_of(&spot.token) {
        Ok(name) => name,
        Err(cause) => return Err(Stop::Fault(spot.place, cause)),
    };
    let (spot, rest) = first(tokens, rest)?;
    if !is_sign(&spot.token, Sign::Semicolon) {
        return Err(Stop::Fault(spot.place, Cause::Expected));
    }
    Ok((name, rest))
}

/// The first of the spots, and the others.
#[tactic(auto, unfolding(crate::specs::Texts::first))]
fn first<'a>(tokens: &Tokens, spots: &'a [Spot]) -> Result<(&'a Spot, &'a [Spot]), Stop>
    ensures { Gives (λ parts. (parts.0.now, parts.1.now)) result (texts.first (tokens_view tokens.now) spots.now) }
{
    match spots {
        [spot, rest @ ..] => Ok((spot, rest)),
        [] => Err(Stop::Fault(tokens.end, cause_of(tokens.ending))),
    }
}

/// The fault of a text that ends where there should be a token.
fn cause_of(ending: Ending) -> Cause
    ensures { result ≡ texts.cause_of ending }
{
    match ending {
        Ending::Text => Cause::Expected,
        Ending::Character => Cause::Character,
        Ending::OpenComment => Cause::OpenComment,
    }
}
