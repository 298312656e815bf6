//! What holds of interface texts. Each function here does nothing: its contract is the law.
ghost use Rattle.std.specs.Prelude.{◌≡◌, ◌⊎◌, ◌++◌, ◌∷◌, ℕ, List, Ok, Err};
ghost use Rattle.interface_text.specs.Depths.{IsWithinLimits};
ghost use Rattle.interface_text.specs.Grammar as grammar;
ghost use Rattle.interface_text.specs.Grammar.{Derives, tokens_in};
ghost use Rattle.interface_text.specs.Interfaces.{DeclaredInterface};
ghost use Rattle.interface_text.specs.Rules.{Reading, beginning, take_all};
ghost use Rattle.interface_tokens.specs.Syntax.{act_of};
ghost use Rattle.interface_text.specs.Texts.{Declares, FirstFault};
ghost use Rattle.interface_tokens.specs.Tokens.{tokens_of};
ghost use Rattle.interface_tokens.specs.declared.fault.Cause.{Cause};
ghost use Rattle.interface_tokens.specs.declared.place.Place.{Place};
ghost use Rattle.interface_tokens.specs.declared.token.Spot.{Spot};
ghost use Rattle.interface_tokens.specs.declared.token.Token.{Token};

use interface_tokens::{AtTop, Expect};

/// A text has no fault exactly where it declares an interface, and then exactly one. It has one first fault at
/// the most.
pub fn a_text_declares_one_interface_or_has_one_first_fault()
    ensures either { (text : List ℕ) → ((interface : DeclaredInterface) × Declares text interface)
        ⊎ ((place : Place) × (cause : Cause) × FirstFault text place cause) }
    ensures not_both { (text : List ℕ) (interface : DeclaredInterface) (place : Place) (cause : Cause)
        → Declares text interface → ¬ FirstFault text place cause }
    ensures one_interface { (text : List ℕ) (one other : DeclaredInterface) → Declares text one → Declares text other → one ≡ other }
    ensures one_fault { (text : List ℕ) (place elsewhere : Place) (cause other : Cause)
        → FirstFault text place cause → FirstFault text elsewhere other → (place ≡ elsewhere) × (cause ≡ other) }
{}

/// The tokens of a text that declares an interface derive from the grammar.
pub fn what_is_declared_is_in_the_grammar()
    ensures { (text : List ℕ) (interface : DeclaredInterface) → Declares text interface
        → Derives grammar.interface (tokens_in (tokens_of text).spots) }
{}

/// A token that has no meaning behind others that were read without a fault is in no text of the grammar that
/// begins so.
pub fn only_what_the_grammar_lacks_is_refused()
    ensures { (name : List ℕ) (spots : List Spot) (reading : Reading) (spot : Spot) (cause : Cause) (more : List Token)
        → take_all (beginning name) spots ≡ Ok reading → act_of reading.expect spot.token ≡ Err cause
        → ¬ Derives grammar.behind_first_line (tokens_in spots ++ spot.token ∷ more) }
{}

/// Tokens of the grammar that were read without a fault are a whole interface, and what
/// ends early isn't in the grammar.
pub fn only_what_the_grammar_lacks_ends_early()
    ensures { (name : List ℕ) (spots : List Spot) (reading : Reading) → take_all (beginning name) spots ≡ Ok reading
        → Derives grammar.behind_first_line (tokens_in spots) → reading.expect ≡ Expect.Top AtTop.Nothing }
{}

/// What a text declares has at most 256 procedures, and no type that is deeper than 16.
pub fn what_is_declared_is_within_the_limits()
    ensures { (text : List ℕ) (interface : DeclaredInterface) → Declares text interface → IsWithinLimits interface }
{}
