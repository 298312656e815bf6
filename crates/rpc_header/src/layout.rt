// Where each field of a header stands, and what its numbers mean.

ghost use Rattle.std.specs.Prelude.{◌≡◌, ◌+◌, ◌*◌, ◌≤◌, ◌==◌, ◌||◌, ℕ, nat_lt, not};
ghost use Rattle.rpc_header.specs.Fields.{flags_number, is_reason, kind_number, kind_of};
ghost use Rattle.rpc_header.specs.Limits.{data_limit};
ghost use Rattle.rpc_header.specs.Spelling.{HasSpelling, is_short_fragment};
ghost use Rattle.rpc_header.specs.Versions;
ghost use Rattle.rpc_header.specs.Versions.{fragments_of, longest_of};

use crate::{Header, Kind};

/// The number of bytes of a header.
pub const HEADER_LEN: usize = 32;

/// The most bytes of data behind a header.
pub const MAX_DATA: usize = 1440;

/// The bit of the flags by which the sender asks for an acknowledgement.
pub(crate) const PLEASE_ACK: u8 = 1;
/// The bit of the flags that marks the last piece.
pub(crate) const LAST: u8 = 2;

/// The place of each field's first byte.
pub(crate) mod place {
    pub const VERSION: usize = 0;

    pub const KIND: usize = 1;

    pub const FLAGS: usize = 2;

    pub const REASON: usize = 3;

    pub const MACHINE: usize = 4;

    pub const PROCESS: usize = 8;

    pub const HINT: usize = 10;

    pub const CALL_NUMBER: usize = 12;

    pub const FRAGMENT: usize = 18;

    pub const IDENTIFIER: usize = 20;

    pub const INDEX: usize = 24;

    pub const PROCEDURE: usize = 26;

    pub const DATA_LENGTH: usize = 28;

    pub const RESERVED: usize = 30;
}

/// The number of fragments that a version counts, where the version is known.
pub(crate) fn fragments_of_version(version: u8) -> Option<u16>
    ensures { result ≡ fragments_of version }
{
    match version {
        1 => Some(64),
        _ => None,
    }
}

/// The version in which a header is spelled: that of every header is 1.
pub(crate) fn version_of(_header: &Header) -> u8
    ensures { result ≡ Versions.version_of _header.now }
{
    1
}

/// The number of fragments that a header's version counts.
pub(crate) fn fragments_in(header: &Header) -> u16
    ensures { result ≡ Versions.fragments_in header.now }
{
    fragments_of_version(version_of(header)).unwrap_or(0)
}

/// The most bytes that the arguments or the reply of a call have whose packets have this header: full
/// pieces, as many as the header's version counts.
pub fn longest(header: &Header) -> usize
    ensures pieces { result ≡ longest_of header.now }
    ensures bytes { result ≡ 92160 }

    // The data of a packet with this header lies within it, at its piece's place.
    ensures each_piece { (len : ℕ) → HasSpelling header.now len → header.now.fragment * MAX_DATA + len ≤ result }
{
    usize::from(fragments_in(header)) * MAX_DATA
}

/// The kind's byte.
pub(crate) fn kind_byte(kind: Kind) -> u8
    ensures { result ≡ kind_number kind }
{
    kind as u8
}

/// The kind of a byte, if there is one.
pub(crate) fn kind_of_byte(byte: u8) -> Option<Kind>
    ensures { result ≡ kind_of byte }
{
    match byte {
        1 => Some(Kind::Call),
        2 => Some(Kind::Result),
        3 => Some(Kind::Ack),
        4 => Some(Kind::Probe),
        5 => Some(Kind::Reject),
        6 => Some(Kind::Signal),
        7 => Some(Kind::Bind),
        8 => Some(Kind::Bound),
        _ => None,
    }
}

/// The flags' byte.
pub(crate) fn flags_byte(please_ack: bool, last: bool) -> u8
    ensures { result ≡ flags_number please_ack last }
{
    let ack_bit = if please_ack { PLEASE_ACK } else { 0 };
    let last_bit = if last { LAST } else { 0 };
    ack_bit + last_bit
}

/// Whether a header of this kind may give this reason.
pub(crate) fn may_give(kind: Kind, reason: u8) -> bool
    ensures { result ≡ is_reason kind reason }
{
    match kind {
        Kind::Reject => reason == 1 || reason == 2,
        Kind::Bound => reason <= 1,
        _ => reason == 0,
    }
}

/// Whether a piece before the last one isn't full.
pub(crate) fn is_short(kind: Kind, last: bool, data_len: usize) -> bool
    ensures { result ≡ is_short_fragment kind last data_len }
{
    let in_pieces = matches!(kind, Kind::Call | Kind::Result | Kind::Signal);
    in_pieces && !last && data_len != MAX_DATA
}

/// Whether the data's length in a header is other than the number of bytes behind it, or too large.
pub(crate) fn is_wrong_length(data_len: usize, behind: usize) -> bool
    ensures { result ≡ (not (data_len == behind) || nat_lt data_limit data_len) }
{
    data_len != behind || data_len > MAX_DATA
}
