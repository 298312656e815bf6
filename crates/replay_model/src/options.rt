//! The options of a storm.

/// The most calls that a storm may start.
pub const MOST_CALLS: u32 = 20_000;

/// The rounds that a storm has for each of its calls.
pub const ROUNDS_A_CALL: u32 = 24;

/// What a storm is made of: the seed of what it draws, and the most calls that it starts, 1 to `MOST_CALLS`.
#[derive(Clone, Copy, PartialEq, Eq)]
pub struct StormOptions {
    pub seed: u64,
    pub calls: u32,
}
