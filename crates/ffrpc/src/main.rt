//! The program `ffrpc`: a player of remote procedure calls, packet by packet.
#![tactic(auto)]

mod command;

use command::run_words;
use ff_io::{StreamSink, StreamSource};
use std::process::ExitCode;
use std::rt::Env;
use std::{env, io};

fn main(rt: HostRuntime) -> ExitCode {
    let mut source = StreamSource::new(rt.stdin());
    let mut sink = StreamSink::new(rt.stdout());
    ExitCode::from(run_words(rt.alloc(), words_of(&rt), &mut source, &mut sink))
}

/// The words behind the program's name. A word that isn't UTF-8 is an error.
fn words_of<R: Env + AllocGlobal>(rt: &R) -> io::Result<Vec<String>> {
    let mut words = Vec::new(rt.alloc());
    for word in env::args(rt)?.skip(1) {
        words.push(word)?;
    }
    Ok(words)
}

#[cfg(test)]
mod life_rows;
#[cfg(test)]
mod life_tests;
#[cfg(test)]
mod long_rows;
#[cfg(test)]
mod long_tests;
#[cfg(test)]
mod loss_rows;
#[cfg(test)]
mod restart_tests;
#[cfg(test)]
mod rows;
#[cfg(test)]
mod storm_tests;
#[cfg(test)]
mod stubs_tests;
#[cfg(test)]
mod tests;
#[cfg(test)]
mod words_tests;
