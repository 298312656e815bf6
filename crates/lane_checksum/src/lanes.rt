//! The sum of one block: in lanes, and by a plain loop.
//!
//! A lane holds two words, the low byte of its number first, and no carry of it is lost, so its number has the same
//! sum as its words with their bytes swapped. The swap of the whole sum at the end swaps them all.
ghost use Rattle.std.specs.Prelude.{◌≡◌, ◌≤◌, length};
ghost use Rattle.lane_checksum.specs.PlainSum.{csum, reduced};

use crate::{BLOCK, add};
use std::simd::prelude::*;

/// How many bytes one step over the lanes takes.
const STEP: usize = 32;

/// The sum of at most a block, in lanes, and by the plain loop for what a step can't take.
pub(crate) fn block_sum(bytes: &[u8]) -> u16
    requires { length bytes.now ≤ BLOCK }
    ensures { result ≡ csum bytes.now }
{
    let (steps, rest) = bytes.as_chunks::<STEP>();
    let mut lanes = u64x8::splat(0);
    for step in steps {
        let pairs = u32x8::from_le_bytes(u8x32::from_array(*step));
        lanes = lanes.strict_add(pairs.cast::<u64>());
    }
    let front = fold(lanes.strict_reduce_sum()).swap_bytes();
    add(front, plain_sum(rest))
}

/// The sum of a text a word at a time, each carry brought round at once.
fn plain_sum(bytes: &[u8]) -> u16
    ensures { result ≡ csum bytes.now }
{
    let (words, odd) = bytes.as_chunks::<2>();
    let mut sum = 0;
    for word in words {
        sum = add(sum, u16::from_be_bytes(*word));
    }
    match odd.first() {
        Some(high) => add(sum, u16::from_be_bytes([*high, 0])),
        None => sum,
    }
}

/// How many values a word has.
const WORD_VALUES: u64 = 65_536;

/// The total with its carries brought round to the low end until none is left.
fn fold(mut total: u64) -> u16
    ensures { result ≡ reduced total }
{
    while total >= WORD_VALUES {
        total = total % WORD_VALUES + total / WORD_VALUES;
    }
    total as u16
}
