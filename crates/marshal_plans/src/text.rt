//! How a plan is printed: a line for each instruction but the marks of a record.
ghost use Rattle.std.specs.Prelude.{◌≡◌, Some};
ghost use Rattle.marshal_plans.specs.Text.{basic_text, instruction_text, has_line};

use crate::basic::Basic;
use crate::instruction::{Extent, Instruction};
use std::fmt::{self, Display, Formatter};

impl Display for Basic {
    ghost output = { λ b. Some (basic_text b) };

    fn fmt<W: fmt::Write>(&self, f: &mut Formatter<W>) -> fmt::Result {
        match self {
            Basic::Bool => f.write_str("bool"),
            Basic::Byte => f.write_str("u8"),
            Basic::Cardinal => f.write_str("u32"),
            Basic::Integer => f.write_str("i32"),
            Basic::LongCard => f.write_str("u64"),
            Basic::Choice(count) => write!(f, "enum {count}"),
        }
    }
}

impl Display for Instruction {
    ghost output = { λ i. Some (instruction_text i) };

    fn fmt<W: fmt::Write>(&self, f: &mut Formatter<W>) -> fmt::Result {
        match self {
            Instruction::Item(basic) => write!(f, "{basic}"),
            Instruction::Bytes(Extent::Exactly(n)) => write!(f, "bytes {n}"),
            Instruction::Bytes(Extent::UpTo(n)) => write!(f, "openbytes {n}"),
            Instruction::Loop(Extent::Exactly(n), _) => write!(f, "loop {n}"),
            Instruction::Loop(Extent::UpTo(n), _) => write!(f, "open {n}"),
            Instruction::Next => f.write_str("next"),
            Instruction::Record(_) | Instruction::End => Ok(()),
        }
    }
}

impl Instruction {
    /// Whether a plan's text has a line for it: all but the marks of a record have.
    pub fn has_line(&self) -> bool
        ensures { result ≡ has_line self.now }
    {
        !matches!(self, Instruction::Record(_) | Instruction::End)
    }
}
