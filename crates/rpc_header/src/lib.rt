//! The 32-byte header of every packet: its types, when a header has a spelling, and the one way in
//! which it is written and read.
#![tactic(auto)]

ghost use Rattle.std.specs.Prelude.{◌≡◌, ◌<◌, ◌≤◌, ◌-◌, ◌^◌, ◌↔◌, Some, IfSome, IsNone, slice_get};

use thiserror::Error;

mod laws;
mod layout;
mod reading;
mod writing;

pub use laws::{
    a_call_number_is_its_value, a_spelling_is_32_bytes, what_is_read_was_written,
    what_is_written_is_read,
};
pub use layout::{HEADER_LEN, MAX_DATA, longest};
pub use reading::read_header;
pub use writing::{fits, write_header};

/// The first number that is no call number: a call number has 48 bits.
pub const CALL_NUMBER_LIMIT: u64 = 1 << 48;

/// A thread of control that makes one call at a time, named by its machine and a process there.
#[derive(Clone, Copy, PartialEq, Eq, Debug)]
pub struct Activity {
    pub machine: u32,
    pub process: u16,
}

/// The number of a call among the calls of its activity. It fits 6 bytes.
#[derive(Clone, Copy, PartialEq, Eq, PartialOrd, Ord, Debug)]
pub struct CallNumber {
    pub value: u64,
    pub ghost below_limit: { value < 2 ^ 48 },
}

/// The name of a call: who made it, and its number there.
#[derive(Clone, Copy, PartialEq, Eq, Debug)]
pub struct CallId {
    pub activity: Activity,
    pub number: CallNumber,
}

/// An exported interface at its server: where it stands in the server's table, and the identifier
/// that tells it from every other export that stood there.
#[derive(Clone, Copy, PartialEq, Eq, Debug)]
pub struct Export {
    pub identifier: u32,
    pub index: u16,
}

/// What a packet is for. Its number is the kind's byte in a header.
#[derive(Clone, Copy, PartialEq, Eq, Debug)]
pub enum Kind {
    /// A piece of a call's arguments.
    Call = 1,
    /// A piece of a call's results.
    Result = 2,
    /// Tells that a piece has come.
    Ack = 3,
    /// Asks how a call stands.
    Probe = 4,
    /// The server refuses the call.
    Reject = 5,
    /// The procedure raised an exception.
    Signal = 6,
    /// Asks for the export of a name.
    Bind = 7,
    /// Answers a `Bind`.
    Bound = 8,
}

/// The fields of a header, but for the version, the data's length and the reserved bytes.
#[derive(Clone, Copy, PartialEq, Eq, Debug)]
pub struct Header {
    pub kind: Kind,
    /// The sender asks for an acknowledgement.
    pub please_ack: bool,
    /// This is the last piece.
    pub last: bool,
    /// Why a `Reject` refuses, or whether a `Bound` found the name; 0 at the other kinds.
    pub reason: u8,
    pub call: CallId,
    /// The number of the caller's cell.
    pub hint: u16,
    /// The number of this piece, from 0.
    pub fragment: u16,
    pub export: Export,
    pub procedure: u16,
}

/// Why some bytes are no header with its data behind it, each with its number. Where several apply, the one of
/// the least number is given.
#[derive(Clone, Copy, PartialEq, Eq, Debug, Error)]
pub enum HeaderFault {
    #[error("fewer bytes than a header has")]
    Short = 1,
    #[error("a version that is not known")]
    Version = 2,
    #[error("a kind that is not known")]
    Kind = 3,
    #[error("flags that are not known")]
    Flags = 4,
    #[error("a reason that the kind does not have")]
    Reason = 5,
    #[error("a data length other than that of the data, or too large")]
    Length = 6,
    #[error("reserved bytes that are not zero")]
    Reserved = 7,
    #[error("a piece before the last that is not full")]
    ShortFragment = 8,
    #[error("a fragment number out of range")]
    FragmentNumber = 9,
}

impl HeaderFault {
    ghost use Rattle.rpc_header.specs.Reading.{faults};

    /// The fault's number: its place among the faults, counted from 1.
    pub fn number(self) -> u8
        ensures from_one { 1 ≤ result }
        ensures place { slice_get faults (result - 1) ≡ Some self }
    {
        self as u8
    }
}

/// The call number of value `n`, or `None` exactly where `n` has more than 48 bits.
pub fn number(n: u64) -> Option<CallNumber>
    ensures none { IsNone result ↔ (2 ^ 48 ≤ n) }
    ensures some { IfSome result (λ number. number.value ≡ n) }
{
    if n < CALL_NUMBER_LIMIT {
        Some(CallNumber { value: n })
    } else {
        None
    }
}
