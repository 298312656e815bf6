//! What a server keeps for an activity, as a worker sees it, and what a packet is judged to be by it.

/// The state of an activity's entry.
#[derive(Clone, Copy, PartialEq, Eq)]
pub enum Phase {
    /// No call has come.
    Empty,
    /// Pieces of the arguments are gathered, and no worker is at it.
    Gather,
    /// A worker adds a piece to what is gathered.
    Filling,
    /// The call's body runs, or is about to.
    Running,
    /// The body has run, and the reply is kept.
    Done,
    /// A worker sends the reply again.
    Sending,
}

/// What a packet is by its activity's entry: what is to be done with it, or why it is dropped.
#[derive(Clone, Copy, PartialEq, Eq)]
pub enum Judged {
    /// A later call of the activity has come.
    Older,
    /// It says what the entry has already.
    Same,
    /// A worker is at the activity's call.
    Busy,
    /// The entry knows of no such call.
    Unknown,
    /// A later piece, where the first has not come.
    Skipped,
    /// It is to be acknowledged.
    Ack,
    /// It is the whole of a new call, which is to run.
    Admit,
    /// It is the first piece of a new call.
    Begin,
    /// It is a further piece of the call that is gathered.
    More,
    /// It asks for a piece of the reply.
    Fetch,
}
