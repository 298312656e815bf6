//! Laws of scripts and their texts. The contract of each function is the law, and its body is empty.
ghost use Rattle.std.specs.Prelude.{◌≡◌, ℕ, List, None};
ghost use Rattle.replay_model.specs.Script.{IsScript, Script};
ghost use Rattle.replay_model.specs.TextFault.{first_fault};

/// A text has no fault just where a script spells it.
pub fn no_fault_where_spelled()
    ensures spelled { (text : List ℕ) → first_fault text ≡ None → (s : Script) × IsScript text s }
    ensures no_fault { (text : List ℕ) (s : Script) → IsScript text s → first_fault text ≡ None }
{}

/// No text is two scripts.
pub fn one_reading()
    ensures { (text : List ℕ) (a b : Script) → IsScript text a → IsScript text b → a ≡ b }
{}
