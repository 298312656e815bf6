//! Faults of an interface text.

use interface_tokens::Stop;
use thiserror::Error;

/// The first fault of a text, or want of memory.
#[derive(Debug, Drop, Error)]
#[error("fault {number} in line {line}, column {column}")]
pub struct TextFault {
    /// The line from 1, or 0 for want of memory.
    pub line: u32,
    /// The column in bytes from 1, or 0 for want of memory.
    pub column: u32,
    /// The number of the cause, or 0 for want of memory.
    pub number: u8,
}

impl From<Stop> for TextFault {
    ghost use Rattle.std.specs.Prelude.{◌≡◌};
    ghost use Rattle.interface_text.specs.Faults.{told};

    ghost from_gives = { λ stop fault. fault ≡ told stop };

    fn from(stop: Stop) -> TextFault {
        match stop {
            Stop::Memory => TextFault {
                line: 0,
                column: 0,
                number: 0,
            },
            Stop::Fault(place, cause) => TextFault {
                line: place.line,
                column: place.column,
                number: cause as u8,
            },
        }
    }
}
