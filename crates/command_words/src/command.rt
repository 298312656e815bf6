//! What the words ask for.

use replay_model::StormOptions;

/// A command of the program, with its options.
#[derive(Clone, Copy, PartialEq, Eq)]
pub enum Command {
    /// Play a script.
    Replay,
    /// Print the plan text of an interface.
    Stubs,
    /// Play a storm.
    Storm(StormOptions),
}
