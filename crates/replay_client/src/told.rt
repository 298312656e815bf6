//! What a process tells of a step.

use lane_checksum::Digest;
use replay_packets::Outgoing;
use rpc_header::{CallId, Export};

/// Why a call failed.
#[derive(Clone, Copy, PartialEq, Eq)]
pub enum Cause {
    /// No transmission was answered.
    Unanswered,
    /// The server refused it, for this reason.
    Refused(u8),
}

/// What a step says.
#[derive(Drop)]
pub enum Said {
    /// Nothing happens.
    Nothing,
    /// A packet is sent.
    Sends(Outgoing),
    /// The server has the call, and works on it.
    Waits,
    /// The call returns, by a signal or not.
    Returned { signal: bool, reply: Digest },
    /// The call failed.
    Fails(Cause),
    /// No transmission of the bind was answered.
    BindFails,
    /// The name is bound to this export.
    BoundTo(Export),
    /// The name isn't exported.
    NotBound,
}

/// What a step says, of this call or bind.
#[derive(Drop)]
pub struct Told {
    /// The call or the bind that the process has made last.
    pub call: CallId,
    /// What the step says of it.
    pub said: Said,
}
