//! Types of an interface, with their names resolved.

/// A type of an interface.
#[derive(Drop)]
pub enum Shape {
    /// BOOLEAN.
    Bool,
    /// BYTE or CHAR.
    Byte,
    /// CARDINAL.
    Cardinal,
    /// INTEGER.
    Integer,
    /// LONGCARD.
    LongCard,
    /// An enumeration of so many values.
    Choice(u32),
    /// An array of so many elements of one type.
    Array(u32, Box<Shape>),
    /// An open array of at most so many elements of one type.
    Open(u32, Box<Shape>),
    /// A record, with the types of its fields in order. Contracts see a shape by `kind_of`, so this vector as its list.
    Fields(Vec<Shape>),
}
