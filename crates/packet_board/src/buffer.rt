//! What lies behind a number.
ghost use Rattle.std.specs.Prelude.{◌≡◌, ◌<◌, IfOk, length};

use fragments::Gathered;
use item_list::Items;
use rpc_header::{Activity, CallId, CallNumber, Export, Header, Kind};
use std::alloc::{AllocError, Global};

/// The bytes of a small buffer: a frame with the most data.
pub const SMALL_BYTES: usize = 1514;

/// A packet's bytes, and what is known of them. `bytes` has 1514 bytes in a small buffer and 92,160 in a long one.
#[derive(Drop)]
pub struct Buffer {
    pub bytes: Items<u8>,
    /// The header that was read from the bytes, or written into them.
    pub header: Header,
    /// The station that sent it, 1 to 254.
    pub from: u8,
    /// The number of data bytes, at most 1440 in a small buffer and 92,160 in a long one.
    pub len: usize,
    /// How far a call or a reply of several packets is gathered here.
    pub gathered: Gathered,
    /// Whether the data is a signal's.
    pub signal: bool,
}

/// The header of a buffer that no packet was read into yet.
const NO_HEADER: Header = Header {
    kind: Kind::Call,
    please_ack: false,
    last: true,
    reason: 0,
    call: CallId {
        activity: Activity {
            machine: 0,
            process: 0,
        },
        number: CallNumber { value: 0 },
    },
    hint: 0,
    fragment: 0,
    export: Export {
        identifier: 0,
        index: 0,
    },
    procedure: 0,
};

impl Buffer {
    /// A buffer of that many bytes, all 0.
    pub(crate) fn blank(alloc: Global, size: usize) -> Result<Buffer, AllocError>
        ensures { IfOk result (λ buffer. (length buffer.bytes ≡ size) × (buffer.len ≡ 0) × (buffer.from ≡ 1)) }
    {
        Ok(Buffer {
            bytes: Items::new(Vec::from_elem(alloc, 0, size)?),
            header: NO_HEADER,
            from: 1,
            len: 0,
            gathered: Gathered { len: 0, next: 0 },
            signal: false,
        })
    }
}
