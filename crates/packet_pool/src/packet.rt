//! Packets: buffers in a seat's hands, and the answers of a pool.
ghost use Rattle.std.specs.Prelude.{◌≡◌, ◌≤◌, vec_len};
ghost use Rattle.fragments.specs.declared.limits.TheConstants.{LONG, PIECE};
ghost use Rattle.packet_board.specs.declared.buffer.TheConstants.{SMALL_BYTES};

use fragments::Gathered;
use packet_board::Word;
use rpc_header::{HEADER_LEN, Header, HeaderFault};
use thiserror::Error;
use udp_frames::{FrameFault, HEADERS_LEN};

/// Where the data of a small packet begins: behind the headers of its frame and its own.
pub const DATA_AT: usize = HEADERS_LEN + HEADER_LEN;

/// A small buffer in a seat's hands: its number, and what the board keeps of a buffer. It must be spent: it is given back
/// or posted, and cannot be dropped.
pub struct Packet {
    pub(crate) number: u16,
    pub(crate) bytes: Vec<u8>,
    pub(crate) header: Header,
    pub(crate) from: u8,
    pub(crate) len: usize,
    pub(crate) gathered: Gathered,
    pub(crate) signal: bool,
    pub ghost within: { (vec_len bytes ≡ SMALL_BYTES) × (len ≤ PIECE) × (1 ≤ from) × (from ≤ 254) },
}

/// A long buffer in a seat's hands. It must be spent too.
pub struct LongPacket {
    pub(crate) number: u16,
    pub(crate) bytes: Vec<u8>,
    pub(crate) header: Header,
    pub(crate) from: u8,
    pub(crate) len: usize,
    pub(crate) gathered: Gathered,
    pub(crate) signal: bool,
    pub ghost within: { (vec_len bytes ≡ LONG) × (len ≤ LONG) × (1 ≤ from) × (from ≤ 254) },
}

/// Each free cell was seen without its buffer.
#[derive(Clone, Copy, PartialEq, Eq, Debug, Error)]
#[error("no buffer of that size is free")]
pub struct Empty;

/// Why no packet was claimed.
#[derive(Clone, Copy, PartialEq, Eq, Debug, Error)]
pub enum NoPacket {
    #[error("no packet waits")]
    Empty,
    #[error("another seat was first")]
    Lost(Word),
}

/// Why bytes that came are no packet.
#[derive(Clone, Copy, PartialEq, Eq, Debug, Error)]
pub enum Unread {
    #[error("no frame for this machine: {0}")]
    Frame(FrameFault),
    #[error("no header with its data: {0}")]
    Header(HeaderFault),
}
