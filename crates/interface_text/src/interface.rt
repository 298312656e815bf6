//! What an interface declares.

use crate::shape::Shape;
use interface_tokens::Ident;
use item_list::Items;

/// The exceptions and procedures of an interface.
#[derive(Drop)]
pub struct Interface {
    /// Its own name, which is in no set of names.
    pub name: Ident,
    /// The exceptions, which are numbered from 1.
    pub exceptions: Items<Ident>,
    /// The procedures, which are numbered from 0.
    pub procedures: Items<Procedure>,
}

/// A procedure of an interface.
#[derive(Drop)]
pub struct Procedure {
    /// Its name.
    pub name: Ident,
    /// The line of the text on which it is declared.
    pub line: u32,
    /// The numbers of the exceptions that it may raise.
    pub raises: Items<u16>,
    /// The types of what a call carries to the server: the parameters by value, VAR and VAR IN, in order.
    pub arguments: Items<Shape>,
    /// The types of what it carries back: the VAR and VAR OUT parameters in order, and then the returned value.
    pub reply: Items<Shape>,
}
