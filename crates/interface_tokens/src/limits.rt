//! The limit that is in the tokens.

/// The greatest number that an array may have.
pub const MAX_ARRAY_LEN: u32 = 92_160;
