//! Numbers in decimal digits.

ghost use Rattle.std.specs.Prelude.{◌≡◌, IfSome, Some};
ghost use Rattle.std.specs.Fmt.{decimal};

use itoa::Buffer;
use std::fmt::{self, Display, Formatter};

/// A number in decimal digits. One below 10, as those of machines, processes and workers are, is printed by its digit
/// alone, which costs less than to print a number of any length.
#[derive(Clone, Copy)]
pub(crate) struct Short(pub u64);

impl Display for Short {
    ghost output = { λ n. Some (decimal n.0) };

    fn fmt<W: fmt::Write>(&self, f: &mut Formatter<W>) -> fmt::Result {
        let number = self.0;
        match digit(number) {
            Some(digit) => f.write_str(digit),
            None => f.write(Decimal(number)),
        }
    }
}

/// A number below 10 as its digit.
fn digit(number: u64) -> Option<&'static str>
    ensures { IfSome result (λ digit. digit.now ≡ decimal number) }
{
    match number {
        0 => Some("0"),
        1 => Some("1"),
        2 => Some("2"),
        3 => Some("3"),
        4 => Some("4"),
        5 => Some("5"),
        6 => Some("6"),
        7 => Some("7"),
        8 => Some("8"),
        9 => Some("9"),
        _ => None,
    }
}

/// A number in decimal digits, printed by `itoa`, which costs less than the standard formatter.
#[derive(Clone, Copy)]
pub(crate) struct Decimal(pub u64);

impl Display for Decimal {
    ghost output = { λ n. Some (decimal n.0) };

    fn fmt<W: fmt::Write>(&self, f: &mut Formatter<W>) -> fmt::Result {
        let mut buffer = Buffer::new();
        f.write_str(buffer.format(self.0))
    }
}
