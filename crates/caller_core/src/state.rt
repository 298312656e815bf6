//! The states of a caller.

/// What a caller waits for.
#[derive(Clone, Copy, PartialEq, Eq, Debug)]
pub enum State {
    Idle,
    /// This piece of the arguments was sent, and isn't answered yet.
    Sending(u16),
    /// The server has all of the call.
    Waiting,
    /// Pieces of the reply have come, this one the last of them.
    Receiving { kept: u16 },
    /// A name was sent, and isn't answered yet.
    Binding,
}
