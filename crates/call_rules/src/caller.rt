//! The counts of a caller.

/// How often a caller transmits what is never answered, before it fails.
pub const TRIES: u8 = 8;

/// The ticks without an act after each transmission.
pub const QUIET_TICKS: u8 = 3;
