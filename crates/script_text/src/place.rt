//! What a word says at its place in a line: the number of a machine, a process or a packet, or a name.
ghost use Rattle.std.specs.Prelude.{◌≤◌, IfOk, IsTrue};
ghost use Rattle.binder.specs.Names.{is_name};
ghost use Rattle.script_text.specs.Reading.{ReadsName, ReadsNumber};

use crate::number::{number, small_number};
use binder::{Name, read_name};
use replay_model::TextFault;
use replay_model::limits::{
    FIRST_CLIENT, LARGEST_NUMBER, LARGEST_TEXT, LAST_CLIENT, LAST_PROCESS, LAST_WORKER,
    SERVER_MACHINE,
};

/// A client by its machine.
pub fn client(word: &[u8]) -> Result<u8, TextFault>
    ensures reads { ReadsNumber FIRST_CLIENT LAST_CLIENT word.now result }
    ensures in_range { IfOk result (λ n. (FIRST_CLIENT ≤ n) × (n ≤ LAST_CLIENT)) }
{
    small_number(word, FIRST_CLIENT, LAST_CLIENT)
}

/// Any machine.
pub fn machine(word: &[u8]) -> Result<u8, TextFault>
    ensures reads { ReadsNumber SERVER_MACHINE LAST_CLIENT word.now result }
    ensures in_range { IfOk result (λ n. (SERVER_MACHINE ≤ n) × (n ≤ LAST_CLIENT)) }
{
    small_number(word, SERVER_MACHINE, LAST_CLIENT)
}

/// A process of a client.
pub fn process(word: &[u8]) -> Result<u8, TextFault>
    ensures reads { ReadsNumber 1 LAST_PROCESS word.now result }
    ensures in_range { IfOk result (λ n. (1 ≤ n) × (n ≤ LAST_PROCESS)) }
{
    small_number(word, 1, LAST_PROCESS)
}

/// A worker of the server.
pub fn worker(word: &[u8]) -> Result<u8, TextFault>
    ensures reads { ReadsNumber 1 LAST_WORKER word.now result }
    ensures in_range { IfOk result (λ n. (1 ≤ n) × (n ≤ LAST_WORKER)) }
{
    small_number(word, 1, LAST_WORKER)
}

/// A packet by its number.
pub fn packet(word: &[u8]) -> Result<u32, TextFault>
    ensures reads { ReadsNumber 1 LARGEST_NUMBER word.now result }
    ensures in_range { IfOk result (λ n. (1 ≤ n) × (n ≤ LARGEST_NUMBER)) }
{
    number(word, 1, LARGEST_NUMBER)
}

/// A second, or how many call numbers are passed over.
pub fn time(word: &[u8]) -> Result<u32, TextFault>
    ensures reads { ReadsNumber 1 LARGEST_NUMBER word.now result }
    ensures in_range { IfOk result (λ n. (1 ≤ n) × (n ≤ LARGEST_NUMBER)) }
{
    number(word, 1, LARGEST_NUMBER)
}

/// A number that a call asks with.
pub fn any_number(word: &[u8]) -> Result<u32, TextFault>
    ensures reads { ReadsNumber 0 LARGEST_NUMBER word.now result }
    ensures in_range { IfOk result (λ n. n ≤ LARGEST_NUMBER) }
{
    number(word, 0, LARGEST_NUMBER)
}

/// The length of a text that a call gives the test service.
pub fn text_length(word: &[u8]) -> Result<u32, TextFault>
    ensures reads { ReadsNumber 0 LARGEST_TEXT word.now result }
    ensures in_range { IfOk result (λ n. n ≤ LARGEST_TEXT) }
{
    number(word, 0, LARGEST_TEXT)
}

/// The name of an interface.
pub fn name(word: &[u8]) -> Result<Name, TextFault>
    ensures reads { ReadsName word.now result }
    ensures in_range { IfOk result (λ n. IsTrue (is_name n)) }
{
    match read_name(word) {
        Some(name) => Ok(name),
        None => Err(TextFault::Name),
    }
}
