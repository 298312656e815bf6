//! What a caller does.

use rpc_header::{Export, Header};

/// What a caller does about a start or a packet.
#[derive(Clone, Copy, PartialEq, Eq, Debug)]
pub enum Action {
    /// Send a packet with this header, and with this piece of the arguments as data, or with no data.
    Send { header: Header, piece: Option<u16> },
    /// Keep the packet's data, and send this acknowledgement.
    Keep { ack: Header },
    /// Keep the packet's data: the reply is whole, and is a signal or not.
    Last { signal: bool },
    /// The server has the call, and works on it.
    Waiting,
    /// The name is bound to this export.
    Bound(Export),
    /// The name isn't exported.
    Unbound,
    /// The server refuses the call for this reason.
    Refused(u8),
    /// No transmission was answered.
    Failed,
    /// A tick without an act.
    Quiet,
    /// A packet that changes nothing.
    Unused,
}
