//! What a word of a script asks of the test service, and what a bind carries.

ghost use Rattle.std.specs.Prelude.{◌≡◌, ◌≤◌, length, IfOk};
ghost use Rattle.byteorder.specs.Endian.{big_bytes};
ghost use Rattle.fragments.specs.declared.limits.TheConstants.{LONG, PIECE};
ghost use Rattle.binder.specs.Interfaces.{bind_data};
ghost use Rattle.replay_model.specs.Forms.{IsAskable};
ghost use Rattle.replay_model.specs.Service as rules;
ghost use Rattle.replay_model.specs.World.{test_name};

use binder::{BIND_DATA_LIMIT, Name, write_bind_data};
use byteorder::{BigEndian, ByteOrder};
use replay_model::{ADD, BUMP, CallWord, MAX_ARG, MAX_RESULT, NULL};
use replay_packets::{counted_text, test_name};
use std::alloc::{AllocError, Global};

/// How many bytes a number is marshalled in, the highest first.
const NUMBER_BYTES: usize = 4;

/// The number of the procedure that a call asks for.
pub fn procedure_of(word: CallWord) -> u16
    ensures { result ≡ rules.procedure_of word }
{
    match word {
        CallWord::Null => NULL,
        CallWord::Add(..) => ADD,
        CallWord::Bump(_) => BUMP,
        CallWord::MaxArg(_) => MAX_ARG,
        CallWord::MaxResult(_) => MAX_RESULT,
    }
}

/// The marshalled arguments of a call. `Err` only where memory is short.
pub fn arguments_of(alloc: Global, word: CallWord) -> Result<Vec<u8>, AllocError>
    requires { IsAskable word }
    ensures bytes { IfOk result (λ bytes. bytes.items ≡ rules.arguments_of word) }
    ensures long { IfOk result (λ bytes. length bytes.items ≤ LONG) }
{
    match word {
        CallWord::Null => Ok(Vec::new(alloc)),
        CallWord::Add(a, b) => {
            let mut bytes = [0; 2 * NUMBER_BYTES];
            BigEndian::write_u32(&mut bytes, a);
            BigEndian::write_u32(&mut bytes[NUMBER_BYTES..], b);
            Vec::from_slice(alloc, &bytes)
        }
        CallWord::Bump(n) | CallWord::MaxResult(n) => number_bytes(alloc, n),
        CallWord::MaxArg(count) => counted_text(alloc, count),
    }
}

fn number_bytes(alloc: Global, n: u32) -> Result<Vec<u8>, AllocError>
    ensures bytes { IfOk result (λ bytes. bytes.items ≡ big_bytes 4 n) }
    ensures length { IfOk result (λ bytes. length bytes.items ≡ 4) }
{
    let mut bytes = [0; NUMBER_BYTES];
    BigEndian::write_u32(&mut bytes, n);
    Vec::from_slice(alloc, &bytes)
}

/// The data of a bind to a name. `Err` only where memory is short.
pub fn bind_data_of(alloc: Global, name: &Name) -> Result<Vec<u8>, AllocError>
    ensures bytes { IfOk result (λ bytes. bytes.items ≡ bind_data (test_name name.now)) }
    ensures short { IfOk result (λ bytes. length bytes.items ≤ PIECE) }
{
    let mut data = [0; BIND_DATA_LIMIT];
    let len = write_bind_data(&test_name(name), &mut data);
    Vec::from_slice(alloc, &data[..len])
}
