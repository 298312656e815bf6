//! Numbers as a script has them: decimal digits without a leading zero, in a range.
ghost use Rattle.std.specs.Prelude.{◌≡◌, ◌≤◌, ◌^◌, true, IfOk, MatchOption};
ghost use Rattle.std.specs.List.{list_all};
ghost use Rattle.std.specs.Char.{is_ascii_digit};
ghost use Rattle.replay_model.specs.TextFault.{begins_plainly, is_numeral, value};
ghost use Rattle.script_text.specs.Reading.{ReadsNumber};

use replay_model::TextFault;

/// The number from `low` to `high` that the word spells.
pub fn number(word: &[u8], low: u32, high: u32) -> Result<u32, TextFault>
    ensures reads { ReadsNumber low high word.now result }
    ensures at_least { IfOk result (λ n. low ≤ n) }
    ensures at_most { IfOk result (λ n. n ≤ high) }
{
    let Some(n) = value_of(word) else {
        if is_numeral(word) {
            return Err(TextFault::Range);
        }
        return Err(TextFault::Number);
    };
    if !begins_plainly(word) {
        return Err(TextFault::Number);
    }
    if low <= n && n <= high {
        Ok(n)
    } else {
        Err(TextFault::Range)
    }
}

/// The number that a word of digits writes, where it has at most 32 bits.
fn value_of(word: &[u8]) -> Option<u32>
    ensures { MatchOption result (list_all is_ascii_digit word.now ≡ true → 2 ^ 32 ≤ value word.now)
        (λ n. (list_all is_ascii_digit word.now ≡ true) × (n ≡ value word.now)) }
{
    let mut value: u32 = 0;
    for byte in word {
        if !byte.is_ascii_digit() {
            return None;
        }
        value = value.checked_mul(10)?.checked_add(u32::from(*byte - b'0'))?;
    }
    Some(value)
}

/// The same, for a range within 16 bits.
pub fn short_number(word: &[u8], low: u16, high: u16) -> Result<u16, TextFault>
    ensures reads { ReadsNumber low high word.now result }
    ensures at_least { IfOk result (λ n. low ≤ n) }
    ensures at_most { IfOk result (λ n. n ≤ high) }
{
    number(word, u32::from(low), u32::from(high)).map(|n| n as u16)
}

/// The same, for a range within 8 bits.
pub fn small_number(word: &[u8], low: u8, high: u8) -> Result<u8, TextFault>
    ensures reads { ReadsNumber low high word.now result }
    ensures at_least { IfOk result (λ n. low ≤ n) }
    ensures at_most { IfOk result (λ n. n ≤ high) }
{
    number(word, u32::from(low), u32::from(high)).map(|n| n as u8)
}

fn is_numeral(word: &[u8]) -> bool
    ensures { result ≡ is_numeral word.now }
{
    has_only_digits(word) && begins_plainly(word)
}

fn has_only_digits(word: &[u8]) -> bool
    ensures { result ≡ list_all is_ascii_digit word.now }
{
    word.iter().all(|byte| byte.is_ascii_digit())
}

fn begins_plainly(word: &[u8]) -> bool
    ensures { result ≡ begins_plainly word.now }
{
    match word {
        [] => false,
        [_] => true,
        [first, ..] => *first > b'0',
    }
}
