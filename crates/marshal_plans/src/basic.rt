//! Types whose values are one number.
ghost use Rattle.std.specs.Prelude.{◌≡◌, ◌≤◌, ◌<◌, ◌^◌, IfSome};
ghost use Rattle.marshal_plans.specs.Basics.{width, code_of, value_of, plain_code, plain_value, integer_code, integer_value};

/// The values of INTEGER lie from 2^31 below 0 up to this number, which isn't one of them.
const INTEGER_LIMIT: i128 = 1 << 31;

/// The number of numbers that 4 bytes hold.
const FOUR_BYTES: i128 = 1 << 32;

/// The greatest number of values of an enumeration.
const MAX_VALUES: u32 = 1 << 16;

/// A type whose values are one number each.
#[derive(Clone, Copy, PartialEq, Eq)]
pub enum Basic {
    /// 0 or 1, in one byte.
    Bool,
    /// One byte.
    Byte,
    /// A number in 4 bytes.
    Cardinal,
    /// A number in 4 bytes, in two's complement.
    Integer,
    /// A number in 8 bytes.
    LongCard,
    /// The ordinal of one of so many values, from 0, in 2 bytes.
    Choice(u32),
}

impl Basic {
    /// The number of bytes of a value.
    pub fn width(self) -> usize
        ensures value { result ≡ width self }
        ensures low { 1 ≤ result }
        ensures high { result ≤ 8 }
    {
        match self {
            Basic::Bool | Basic::Byte => 1,
            Basic::Choice(_) => 2,
            Basic::Cardinal | Basic::Integer => 4,
            Basic::LongCard => 8,
        }
    }

    /// The number that stands in the bytes for a value, if the type has it.
    pub fn code_of(self, value: i128) -> Option<u64>
        ensures value { result ≡ code_of self value }
        ensures fits { IfSome result (λ code. code < 256 ^ width self) }
    {
        match self {
            Basic::Bool => plain_code(value, 2),
            Basic::Byte => plain_code(value, 1 << 8),
            Basic::Cardinal => plain_code(value, 1 << 32),
            Basic::Integer => integer_code(value),
            Basic::LongCard => plain_code(value, 1 << 64),
            Basic::Choice(count) => plain_code(value, u128::from(count.min(MAX_VALUES))),
        }
    }

    /// The value for which a number stands in the bytes, if there is one.
    pub fn value_of(self, code: u64) -> Option<i128>
        requires { code < 256 ^ width self }
        ensures { result ≡ value_of self code }
    {
        match self {
            Basic::Bool => plain_value(code, 2),
            Basic::Byte => plain_value(code, 1 << 8),
            Basic::Cardinal => plain_value(code, 1 << 32),
            Basic::Integer => Some(integer_value(code)),
            Basic::LongCard => Some(i128::from(code)),
            Basic::Choice(count) => plain_value(code, u64::from(count.min(MAX_VALUES))),
        }
    }
}

/// A number below the limit stands for itself.
fn plain_code(value: i128, limit: u128) -> Option<u64>
    requires { limit ≤ 2 ^ 64 }
    ensures value { result ≡ plain_code limit value }
    ensures fits { IfSome result (λ code. code < limit) }
{
    let code = u128::try_from(value).ok()?;
    if code >= limit {
        return None;
    }
    Some(code as u64)
}

fn plain_value(code: u64, limit: u64) -> Option<i128>
    ensures { result ≡ plain_value limit code }
{
    if code < limit {
        Some(i128::from(code))
    } else {
        None
    }
}

/// Two's complement in 4 bytes.
fn integer_code(value: i128) -> Option<u64>
    ensures value { result ≡ integer_code value }
    ensures fits { IfSome result (λ code. code < 2 ^ 32) }
{
    if value < -INTEGER_LIMIT || value >= INTEGER_LIMIT {
        None
    } else if value < 0 {
        Some((value + FOUR_BYTES) as u64)
    } else {
        Some(value as u64)
    }
}

fn integer_value(code: u64) -> i128
    requires { code < 2 ^ 32 }
    ensures { result ≡ integer_value code }
{
    let code = i128::from(code);
    if code < INTEGER_LIMIT {
        code
    } else {
        code - FOUR_BYTES
    }
}
