//! What a worker does in a step.

/// Why a worker drops its packet.
#[derive(Clone, Copy, PartialEq, Eq)]
pub enum Unfit {
    /// A later call of the activity has come.
    Older,
    /// The packet says what its entry has already.
    Same,
    /// Another worker is at the entry's call.
    Busy,
    /// The entry knows of no such call.
    Unknown,
    /// A piece that isn't the one that is due.
    Skipped,
    /// Another worker was faster.
    Lost,
    /// There is no entry for the activity.
    Full,
    /// There is no buffer for a call of many pieces.
    NoBuffer,
    /// The data isn't a name.
    BadName,
}

/// What a worker does in a step, where it has a packet.
#[derive(Clone, Copy, PartialEq, Eq)]
pub enum Did {
    /// It takes the oldest ready packet.
    Claims,
    /// It has the entry run its call.
    Admits,
    /// It runs the body.
    Runs,
    /// It sends the reply.
    Replies,
    /// It keeps the first piece of a call.
    Begins,
    /// It takes what is gathered of a call.
    Takes,
    /// It gives what is gathered back, with its piece.
    Rests,
    /// It takes the kept reply.
    Fetches,
    /// It sends a piece of the kept reply.
    Resends,
    /// It acknowledges its packet.
    Acks,
    /// It answers whether a name is exported.
    Answers,
    /// It refuses the call for this reason.
    Rejects(u8),
    /// It waits for a buffer for the reply.
    Waits,
    /// It gives its packet up.
    Drops(Unfit),
}
