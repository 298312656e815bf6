//! The counts of a world.

/// How many calls were started so far, how many bodies ran, and how the calls ended. A bind is no call.
#[derive(Clone, Copy, PartialEq, Eq)]
pub struct Counts {
    /// The calls whose start was accepted.
    pub started: u64,
    /// The runs of bodies.
    pub runs: u64,
    /// The calls that returned without a signal.
    pub returned: u64,
    /// The calls that returned by a signal.
    pub signalled: u64,
    /// The calls that nobody answered.
    pub failed: u64,
    /// The calls that the server refused.
    pub refused: u64,
    /// The calls that were open when their client booted anew.
    pub lost: u64,
}
