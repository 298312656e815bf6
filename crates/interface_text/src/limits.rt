//! The limits of interfaces.
ghost use Rattle.std.specs.Prelude.{◌≡◌, ◌≤◌, ◌<◌, ◌+◌, MatchOption};
ghost use Rattle.interface_text.specs.TypeRules as rules;

use interface_tokens::MAX_ARRAY_LEN;

/// The most exceptions of an interface.
pub const MAX_EXCEPTIONS: usize = 256;
/// The most procedures of an interface.
pub const MAX_PROCEDURES: usize = 256;
/// The greatest depth of a type.
pub const MAX_DEPTH: usize = 16;
/// The most parts of a type, and of the parameters and the result of a procedure.
pub const MAX_PARTS: u32 = 4096;
/// The most values of an enumeration.
pub const MAX_VALUES: usize = 65_536;

/// The level of a part of this depth that stands in so many types, if it isn't too deep.
pub(crate) fn level_of(round: usize, depth: u32) -> Option<u32>
    ensures { MatchOption result (MAX_DEPTH < round + depth) (λ level. (level ≡ round + depth) × (level ≤ MAX_DEPTH)) }
{
    let level = round.saturating_add(depth as usize);
    if level > MAX_DEPTH {
        return None;
    }
    Some(level as u32)
}

/// What is counted once parts are counted so many times. More than there may be count as one more.
pub(crate) fn counted(total: u32, times: u32, parts: u32) -> u32
    ensures { result ≡ rules.counted total times parts }
{
    total
        .saturating_add(times.saturating_mul(parts))
        .min(MAX_PARTS + 1)
}

/// One more name in a group. More than there may be parts count as one more.
pub(crate) fn one_more(count: u32) -> u32
    ensures { result ≡ rules.one_more count }
{
    count.saturating_add(1).min(MAX_PARTS + 1)
}

/// Whether an array may have this number.
pub(crate) fn is_length(number: u32) -> bool
    ensures { result ≡ rules.is_length number }
{
    1 <= number && number <= MAX_ARRAY_LEN
}
