//! Why a text is no script.

use thiserror::Error;

/// What is wrong at one line of a text.
#[derive(Clone, Copy, PartialEq, Eq, Debug, Error)]
pub enum TextFault {
    #[error("no such word")]
    Word,
    #[error("another number of words")]
    Shape,
    #[error("no number")]
    Number,
    #[error("a number out of range")]
    Range,
    #[error("no name")]
    Name,
    #[error("a line in a place that it can't have")]
    Late,
    #[error("no last line")]
    NoEnd,
    #[error("a byte that no line has")]
    Byte,
    #[error("a line that can't be played yet")]
    NotYet,
}

impl From<TextFault> for u8 {
    ghost use Rattle.std.specs.Prelude.{◌≡◌};
    ghost use Rattle.replay_model.specs.FaultNumber.{number_of};

    ghost from_gives = { λ fault n. n ≡ number_of fault };

    fn from(fault: TextFault) -> u8 {
        match fault {
            TextFault::Word => 1,
            TextFault::Shape => 2,
            TextFault::Number => 3,
            TextFault::Range => 4,
            TextFault::Name => 5,
            TextFault::Late => 6,
            TextFault::NoEnd => 7,
            TextFault::Byte => 8,
            TextFault::NotYet => 9,
        }
    }
}
