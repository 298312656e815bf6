//! Spellings of the words that are read, and of those that are refused.

use command_words::{Command, WordsFault, read_command};
use replay_model::StormOptions;
use std::alloc::{AllocError, Global};
use std::test::Fail;

/// What words ask for, of which each but the first stands behind a bar.
fn read(alloc: Global, text: &str) -> Result<Result<Command, WordsFault>, AllocError> {
    let mut words = Vec::new(alloc);
    for word in text.split('|') {
        words.push(String::from_str(alloc, word)?)?;
    }
    Ok(read_command(alloc, &words))
}

static STORMS: [(&str, u64, u32); 10] = [
    ("storm|--seed=1|--calls=100", 1, 100),
    ("storm|--calls=100|--seed=1", 1, 100),
    ("storm|--seed|1|--calls|100", 1, 100),
    ("storm|--calls|100|--seed|1", 1, 100),
    ("storm|--seed=1|--calls|100", 1, 100),
    ("storm|--seed|1|--calls=100", 1, 100),
    ("storm|--calls=100|--seed|1", 1, 100),
    ("storm|--calls|100|--seed=1", 1, 100),
    ("storm|--seed=0|--calls=1", 0, 1),
    (
        "storm|--seed=18446744073709551615|--calls=20000",
        18_446_744_073_709_551_615,
        20_000,
    ),
];

/// The first of the words above that don't ask for their storm.
fn first_other_storm(alloc: Global) -> Result<Option<&'static str>, AllocError> {
    for (words, seed, calls) in &STORMS {
        let wanted = Command::Storm(StormOptions {
            seed: *seed,
            calls: *calls,
        });
        if read(alloc, words)? != Ok(wanted) {
            return Ok(Some(words));
        }
    }
    Ok(None)
}

#[test]
fn options_are_read_in_any_order_and_in_both_spellings(rt: HostRuntime) -> Result<(), Fail> {
    assert!(rt; first_other_storm(rt.alloc())?.is_none());
    Ok(())
}

#[test]
fn commands_without_options_are_read(rt: HostRuntime) -> Result<(), Fail> {
    assert!(rt; read(rt.alloc(), "replay")? == Ok(Command::Replay));
    assert!(rt; read(rt.alloc(), "stubs")? == Ok(Command::Stubs));
    Ok(())
}

static REFUSED: [&str; 36] = [
    "",
    "Replay",
    "storms",
    "--seed=1",
    "--help",
    "help",
    "serve|--base=40000",
    "call|--base=40000|--machine=2",
    "local",
    "many",
    "replay|replay",
    "replay|",
    "replay|--seed=1",
    "replay|--help",
    "stubs|stubs",
    "stubs|-h",
    "storm",
    "storm|--seed=1",
    "storm|--calls=1",
    "storm|--seed=1|--calls=1|--seed=1",
    "storm|--calls=1|--calls=2|--seed=1",
    "storm|--seed=|--calls=1",
    "storm|--seed||--calls=1",
    "storm|--calls=1|--seed",
    "storm|--seed=1|--calls=0",
    "storm|--seed=1|--calls=20001",
    "storm|--seed=18446744073709551616|--calls=1",
    "storm|--seed=-1|--calls=1",
    "storm|--seed|-1|--calls=1",
    "storm|--seed=one|--calls=1",
    "storm|--seed=1 |--calls=1",
    "storm|--seed=1|--calls=1|--depth=1",
    "storm|--seed=1|--calls=1|1",
    "storm|seed=1|calls=1",
    "storm|--seed=1|--calls=1|--help",
    "storm|-h",
];

/// The first of the words above that are read.
fn first_read(alloc: Global) -> Result<Option<&'static str>, AllocError> {
    for words in &REFUSED {
        if read(alloc, words)? != Err(WordsFault::Usage) {
            return Ok(Some(words));
        }
    }
    Ok(None)
}

#[test]
fn other_words_are_refused(rt: HostRuntime) -> Result<(), Fail> {
    assert!(rt; first_read(rt.alloc())?.is_none());
    let none: Vec<String> = Vec::new(rt.alloc());
    assert!(rt; read_command(rt.alloc(), &none) == Err(WordsFault::Usage));
    Ok(())
}
