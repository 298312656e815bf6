//! The test service.

ghost use Rattle.std.specs.Prelude.{◌≡◌, ◌≤◌, length, IfOk};
ghost use Rattle.fragments.specs.declared.limits.TheConstants.{LONG};
ghost use Rattle.byteorder.specs.Endian.{big_bytes};
ghost use Rattle.replay_model.specs.Service as rules;
ghost use Rattle.replay_server.specs.Service.{served_of};

use crate::texts::Answer;
use byteorder::{BigEndian, ByteOrder};
use replay_model::limits::LARGEST_TEXT;
use replay_model::{ADD, BUMP, MAX_ARG, MAX_RESULT, NULL};
use replay_packets::counted_text;
use std::alloc::{AllocError, Global};

/// An answer, and the service's total after it.
#[derive(Drop)]
pub struct Served {
    pub answer: Answer,
    pub total: u32,
}

/// The exception for arguments that can't be read, and for a procedure that isn't there.
const BAD_ARGUMENTS: u8 = 0;

/// The exception for a sum that is too large.
const OVERFLOW: u8 = 1;

/// How many bytes a number is marshalled in, the highest first.
const NUMBER_BYTES: usize = 4;

/// Runs a procedure's body.
pub fn serve(
    alloc: Global,
    total: u32,
    procedure: u16,
    arguments: &[u8],
) -> Result<Served, AllocError>
    ensures { IfOk result (λ s. served_of s ≡ rules.served total procedure arguments.now) }
{
    match procedure {
        NULL if arguments.is_empty() => reply(alloc, total, &[]),
        ADD if arguments.len() == 2 * NUMBER_BYTES => {
            let a = BigEndian::read_u32(arguments);
            let b = BigEndian::read_u32(&arguments[NUMBER_BYTES..]);
            add(alloc, total, a, b)
        }
        BUMP if arguments.len() == NUMBER_BYTES => {
            bump(alloc, total, BigEndian::read_u32(arguments))
        }
        MAX_ARG if is_counted(arguments) => reply(alloc, total, &[]),
        MAX_RESULT if arguments.len() == NUMBER_BYTES => {
            give_text(alloc, total, BigEndian::read_u32(arguments))
        }
        _ => raise(alloc, total, BAD_ARGUMENTS),
    }
}

/// The sum of two numbers, or the exception where it is too large.
fn add(alloc: Global, total: u32, a: u32, b: u32) -> Result<Served, AllocError>
    ensures { IfOk result (λ s. served_of s ≡ rules.adds total a b) }
{
    match a.checked_add(b) {
        Some(sum) => reply_number(alloc, total, sum),
        None => raise(alloc, total, OVERFLOW),
    }
}

/// The total with a number added, which it becomes, or the exception where it is too large.
fn bump(alloc: Global, total: u32, n: u32) -> Result<Served, AllocError>
    ensures { IfOk result (λ s. served_of s ≡ rules.bumps total n) }
{
    match total.checked_add(n) {
        Some(sum) => reply_number(alloc, sum, sum),
        None => raise(alloc, total, OVERFLOW),
    }
}

/// Whether these are bytes behind their count, and not too many.
fn is_counted(arguments: &[u8]) -> bool
    ensures { result ≡ rules.is_counted arguments.now }
{
    if arguments.len() < NUMBER_BYTES {
        return false;
    }
    let count = BigEndian::read_u32(arguments);
    arguments.len() == NUMBER_BYTES + count as usize && count <= LARGEST_TEXT
}

/// A text of so many bytes, or the exception where it would be too long.
fn give_text(alloc: Global, total: u32, count: u32) -> Result<Served, AllocError>
    ensures { IfOk result (λ s. served_of s ≡ rules.gives_text total count) }
{
    if count > LARGEST_TEXT {
        return raise(alloc, total, OVERFLOW);
    }
    let answer = Answer {
        signal: false,
        reply: counted_text(alloc, count)?,
    };
    Ok(Served { answer, total })
}

/// Answers with a number.
fn reply_number(alloc: Global, total: u32, number: u32) -> Result<Served, AllocError>
    ensures { IfOk result (λ s. served_of s ≡ rules.replies total (big_bytes 4 number)) }
{
    let mut bytes = [0; NUMBER_BYTES];
    BigEndian::write_u32(&mut bytes, number);
    reply(alloc, total, &bytes)
}

/// Answers with a reply.
fn reply(alloc: Global, total: u32, bytes: &[u8]) -> Result<Served, AllocError>
    requires { length bytes.now ≤ LONG }
    ensures { IfOk result (λ s. served_of s ≡ rules.replies total bytes.now) }
{
    let answer = Answer {
        signal: false,
        reply: Vec::from_slice(alloc, bytes)?,
    };
    Ok(Served { answer, total })
}

/// Answers with an exception.
fn raise(alloc: Global, total: u32, exception: u8) -> Result<Served, AllocError>
    ensures { IfOk result (λ s. served_of s ≡ rules.raises total exception) }
{
    let answer = Answer {
        signal: true,
        reply: Vec::from_slice(alloc, &[0, exception])?,
    };
    Ok(Served { answer, total })
}
