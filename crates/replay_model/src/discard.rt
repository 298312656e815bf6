//! Why a delivery ends.

ghost use Rattle.std.specs.Prelude.{◌≡◌};
ghost use Rattle.replay_model.specs.declared.discard.Discard.TheVariants as why;

use rpc_header::HeaderFault;
use thiserror::Error;
use udp_frames::FrameFault;

/// Why a delivery ends without a packet handed on, in the order in which this is looked for.
#[derive(Clone, Copy, PartialEq, Eq, Debug, Error)]
pub enum Discard {
    /// The bytes are no frame for the machine.
    #[error("no frame for this machine: {0}")]
    Frame(FrameFault),
    /// The frame's data is no header with its data.
    #[error("no header with its data: {0}")]
    Header(HeaderFault),
    /// The machine takes no packet of this kind.
    #[error("a kind that this machine does not take")]
    Kind,
    /// The header names another machine's call.
    #[error("a call of another machine")]
    Foreign,
    /// No buffer is free.
    #[error("no buffer is free")]
    NoBuffer,
    /// The server has no place for a further ready packet.
    #[error("no place for a further ready packet")]
    NoRoom,
    /// Its hint names no process of the client.
    #[error("a hint that names no process of the client")]
    NoCell,
    /// The process has no call or bind of the packet's number open.
    #[error("a packet of a call that isn't open")]
    Stale,
    /// The process holds a packet already.
    #[error("the process holds a packet already")]
    Taken,
    /// The process has changed meanwhile.
    #[error("the process has changed meanwhile")]
    Lost,
    /// The process waits for no such packet.
    #[error("a packet that the process does not wait for")]
    Unused,
}

impl From<FrameFault> for Discard {
    ghost from_gives = { λ fault e. e ≡ why.Frame fault };

    fn from(fault: FrameFault) -> Discard {
        Discard::Frame(fault)
    }
}

impl From<HeaderFault> for Discard {
    ghost from_gives = { λ fault e. e ≡ why.Header fault };

    fn from(fault: HeaderFault) -> Discard {
        Discard::Header(fault)
    }
}
