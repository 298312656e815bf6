// The sizes of pieces. How many pieces a text may have depends on the version of the packet header, and
// nothing else in this crate does.

/// The bytes of a full piece.
pub const PIECE: usize = 1440;

/// The most pieces of a text.
pub const PIECES: u16 = 64;

/// The bytes of the longest text.
pub const LONG: usize = PIECE * PIECES as usize;
