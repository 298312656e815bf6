//! Places in a text.
ghost use Rattle.std.specs.Prelude.{◌≡◌, ◌<◌, ◌^◌};
ghost use Rattle.interface_tokens.specs.Tokens.{behind};

/// A place in a text: its line and its column in bytes, both from 1.
#[derive(Clone, Copy)]
pub struct Place {
    pub line: u32,
    pub column: u32,
}

/// Where a text begins.
pub const START: Place = Place { line: 1, column: 1 };

impl Place {
    /// The place behind a byte that stands here.
    pub(crate) fn behind(self, byte: u8) -> Place
        requires line { self.line < u32.MAX }
        requires column { self.column < u32.MAX }
        ensures { result ≡ behind self byte }
    {
        if byte == b'\n' {
            Place {
                line: self.line + 1,
                column: 1,
            }
        } else {
            Place {
                line: self.line,
                column: self.column + 1,
            }
        }
    }
}
