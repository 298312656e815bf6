//! Tokens of interface texts, and what each says where it stands. Below `interface_text`, which reads whole texts.
#![tactic(auto)]

mod expect;
mod fault;
mod ident;
mod limits;
mod place;
mod scanner;
mod table;
mod token;

pub use expect::{
    Act, AtProcedure, AtTop, AtType, Basic, Declare, Expect, InProcedure, TypeEnd, TypeStep, Way,
};
pub use fault::{Cause, Stop};
pub use ident::{Ident, MAX_NAME_LEN};
pub use limits::MAX_ARRAY_LEN;
pub use place::{Place, START};
pub use scanner::{Ending, Tokens, tokens_of};
pub use table::{act_of, is_sign, is_word, name_of};
pub use token::{Sign, Spot, Token, Word};
