//! Reading the words.

ghost use Rattle.std.specs.Prelude.{◌≡◌, ◌≤◌, Some, None, true, false, map, string_bytes, codes, IfOk, IsErrOf, OnOk};
ghost use Rattle.clap.specs.Words.{IsPlainArg, found_of, matches_of, rows_of, rule_of};
ghost use Rattle.command_words.specs.Parsed.{HasNumber};
ghost use Rattle.command_words.specs.Words.{are_taken, are_taken_by, command_of, name_in, no_options, number_given, number_option, storm_options, IsInRange};
ghost use Rattle.replay_model.specs.declared.options.TheConstants.{MOST_CALLS};

use crate::command::Command;
use crate::fault::WordsFault;
use clap::builder::ValueParser;
use clap::{Arg, ArgAction, ArgMatches};
use replay_model::{MOST_CALLS, StormOptions};
use std::alloc::Global;

/// Reads the words behind the program's name.
pub fn read_command(alloc: Global, words: &[String]) -> Result<Command, WordsFault>
    ensures read { IfOk result (λ command. command_of (map string_bytes words.now) ≡ Some command) }
    ensures taken { OnOk result (are_taken (map string_bytes words.now) ≡ true) }
    ensures range { IfOk result IsInRange }

    // Words that are taken are refused for want of memory alone.
    ensures usage { IsErrOf result WordsFault.Usage → are_taken (map string_bytes words.now) ≡ false }
    ensures nothing { IsErrOf result WordsFault.Usage → command_of (map string_bytes words.now) ≡ None }
{
    let name = name_of(words);
    if name == "replay" {
        read_no_options(alloc, "replay", words)?;
        return Ok(Command::Replay);
    }
    if name == "stubs" {
        read_no_options(alloc, "stubs", words)?;
        return Ok(Command::Stubs);
    }
    if name == "storm" {
        return Ok(Command::Storm(read_storm_options(alloc, words)?));
    }
    Err(WordsFault::Usage)
}

/// The first word, or an empty text.
fn name_of(words: &[String]) -> &str
    ensures { result.now ≡ name_in (map string_bytes words.now) }
{
    match words {
        [name, ..] => name.as_str(),
        [] => "",
    }
}

/// Reads the words behind the name of a command that has no options.
fn read_no_options(alloc: Global, name: &'static str, words: &[String]) -> Result<(), WordsFault>
    ensures taken { OnOk result (are_taken_by (Some (no_options name.entry.now)) (map string_bytes words.now) ≡ true) }
    ensures usage { IsErrOf result WordsFault.Usage
        → are_taken_by (Some (no_options name.entry.now)) (map string_bytes words.now) ≡ false }
{
    let command = clap::Command::new(alloc, name);
    command.try_get_matches_from(words)?;
    Ok(())
}

/// Reads the options of `storm`.
fn read_storm_options(alloc: Global, words: &[String]) -> Result<StormOptions, WordsFault>
    ensures taken { OnOk result (are_taken_by (Some storm_options) (map string_bytes words.now) ≡ true) }
    ensures seed { IfOk result (λ options. number_given storm_options (codes "seed") (map string_bytes words.now) ≡ Some options.seed) }
    ensures calls { IfOk result (λ options. number_given storm_options (codes "calls") (map string_bytes words.now) ≡ Some options.calls) }
    ensures range { IfOk result (λ options. (1 ≤ options.calls) × (options.calls ≤ MOST_CALLS)) }
    ensures usage { IsErrOf result WordsFault.Usage → are_taken_by (Some storm_options) (map string_bytes words.now) ≡ false }
{
    let matches = storm_matches(alloc, words)?;
    let Some(seed) = matches.get_one::<u64>("seed") else {
        return Err(WordsFault::Usage);
    };
    let Some(calls) = matches.get_one::<u32>("calls") else {
        return Err(WordsFault::Usage);
    };
    Ok(StormOptions { seed, calls })
}

/// What `clap` finds in the words of `storm`.
fn storm_matches<'a>(alloc: Global, words: &'a [String]) -> Result<ArgMatches<'a>, WordsFault>
    ensures taken { OnOk result (are_taken_by (Some storm_options) (map string_bytes words.entry.now) ≡ true) }
    ensures found { IfOk result (λ m. rows_of (found_of m) ≡ matches_of storm_options (map string_bytes words.entry.now)) }
    ensures seed { IfOk result (λ m. HasNumber m (codes "seed") 0 18446744073709551615) }
    ensures calls { IfOk result (λ m. HasNumber m (codes "calls") 1 MOST_CALLS) }
    ensures usage { IsErrOf result WordsFault.Usage → are_taken_by (Some storm_options) (map string_bytes words.entry.now) ≡ false }
{
    let seed = number_option(alloc, "seed", 0, u64::MAX);
    let calls = number_option(alloc, "calls", 1, MOST_CALLS as u64);
    let command = clap::Command::new(alloc, "storm").arg(seed)?.arg(calls)?;
    Ok(command.try_get_matches_from(words)?)
}

/// The option `--NAME=N` or `--NAME N`, which must be there, of a decimal number in a range.
fn number_option(alloc: Global, name: &'static str, least: u64, most: u64) -> Arg<'static>
    ensures rule { rule_of result ≡ number_option name.entry.now least most }
    ensures plain { IsPlainArg result }
    ensures whole { (result.val_delim ≡ None) × (result.global ≡ false) }
{
    Arg::new(alloc, name)
        .long(name)
        .action(ArgAction::Set)
        .value_parser(ValueParser::unsigned(least, most))
        .required(true)
}
