//! What is expected at each point of an interface, and what tokens say there.

use crate::ident::Ident;

/// What is expected next, behind `INTERFACE name ;`.
#[derive(Clone, Copy)]
pub enum Expect {
    Top(AtTop),
    Procedure(AtProcedure),
    Type(AtType),
}

/// Outside procedures and types.
#[derive(Clone, Copy)]
pub enum AtTop {
    /// A declaration or END.
    Declaration,
    TypeName,
    Equals,
    ExceptionName,
    /// The semicolon of a type or an exception.
    Semicolon,
    EndName,
    FullStop,
    /// Nothing: behind the last full stop.
    Nothing,
}

/// In a procedure, outside its types.
#[derive(Clone, Copy)]
pub enum AtProcedure {
    Name,
    Open,
    /// A group or `)`.
    FirstGroup,
    Group,
    /// IN, OUT or a name.
    Way,
    Parameter,
    /// A comma or a colon.
    MoreParameters,
    /// A semicolon or `)`.
    MoreGroups,
    /// A colon, RAISES or a semicolon.
    Answer,
    /// RAISES or a semicolon.
    Raises,
    OpenRaises,
    Raise,
    /// A comma or `}`.
    MoreRaises,
    Semicolon,
}

/// In a type.
#[derive(Clone, Copy)]
pub enum AtType {
    /// A type.
    Begin,
    Value,
    /// A comma or `)`.
    MoreValues,
    /// A number or OF.
    Length,
    Of,
    Upto,
    Limit,
    Field,
    /// A comma or a colon.
    MoreFields,
    /// A semicolon or END.
    EndRecord,
}

/// A basic type.
#[derive(Clone, Copy)]
pub enum Basic {
    Boolean,
    Byte,
    Cardinal,
    Integer,
    Longcard,
}

/// How a parameter is passed.
#[derive(Clone, Copy)]
pub enum Way {
    Value,
    Var,
    In,
    Out,
}

/// What a token says where it stands.
#[derive(Clone, Copy)]
pub enum Act {
    /// Nothing but what is expected behind it.
    Go(Expect),
    Declare(Declare),
    Procedure(InProcedure),
    /// The type goes on.
    Step(TypeStep),
    /// A part of the type, or the type, ends.
    End(TypeEnd),
}

#[derive(Clone, Copy)]
pub enum Declare {
    /// The word EXCEPTION.
    BeginException,
    /// The word PROCEDURE.
    BeginProcedure,
    Type(Ident),
    /// The equals sign of a type.
    Equals,
    Exception(Ident),
    Procedure(Ident),
    EndInterface(Ident),
}

#[derive(Clone, Copy)]
pub enum InProcedure {
    /// VAR, IN or OUT.
    Pass(Way),
    /// The first name of a group without VAR.
    FirstParameter(Ident),
    Parameter(Ident),
    /// The colon of a group.
    TypeParameters,
    /// The colon of the result.
    TypeResult,
    Raise(Ident),
    End,
}

#[derive(Clone, Copy)]
pub enum TypeStep {
    BeginValues,
    Value(Ident),
    BeginArray,
    Length(u32),
    OpenArray,
    BeginRecord,
    Field(Ident),
    /// The colon of fields.
    TypeFields,
    /// The semicolon behind fields.
    NextFields,
}

#[derive(Clone, Copy)]
pub enum TypeEnd {
    Basic(Basic),
    Named(Ident),
    Values,
    Limit(u32),
    Record,
}
