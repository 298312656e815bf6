//! Interfaces of remote procedures: the language, what a text in it declares, and the limits.
#![tactic(auto)]

mod fault;
mod frames;
mod heading;
mod interface;
mod laws;
mod limits;
mod names;
mod parsing;
mod reader;
mod shape;
mod tree;
mod types;
mod values;

pub use fault::TextFault;
pub use interface::{Interface, Procedure};
pub use interface_tokens::{Ident, MAX_ARRAY_LEN, MAX_NAME_LEN};
pub use laws::{
    a_text_declares_one_interface_or_has_one_first_fault, only_what_the_grammar_lacks_ends_early,
    only_what_the_grammar_lacks_is_refused, what_is_declared_is_in_the_grammar,
    what_is_declared_is_within_the_limits,
};
pub use limits::{MAX_DEPTH, MAX_EXCEPTIONS, MAX_PARTS, MAX_PROCEDURES, MAX_VALUES};
pub use parsing::parse;
pub use shape::Shape;
