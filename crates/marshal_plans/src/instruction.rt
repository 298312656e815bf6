//! The instructions of a plan.

use crate::basic::Basic;

/// How many elements an array has.
#[derive(Clone, Copy, PartialEq, Eq)]
pub enum Extent {
    /// So many. Their number isn't written.
    Exactly(u32),
    /// At most so many. Their number is written before them, in 4 bytes.
    UpTo(u32),
}

/// A step of a plan.
#[derive(Clone, Copy, PartialEq, Eq)]
pub enum Instruction {
    /// A number.
    Item(Basic),
    /// An array of bytes.
    Bytes(Extent),
    /// An array of other elements: the so many instructions behind this one are the element's, and then comes `Next`.
    Loop(Extent, usize),
    /// The end of an array's element.
    Next,
    /// A record: the so many instructions behind this one are its fields', and then comes `End`.
    Record(usize),
    /// The end of a record.
    End,
}
