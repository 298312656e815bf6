// Names.

ghost use Rattle.std.specs.Prelude.{◌≡◌, ◌||◌, IsTrue};
ghost use Rattle.std.specs.List.{list_all};
ghost use Rattle.binder.specs.Names.{begins_with_letter, is_digit, is_letter, is_name, name_of};

use std::hash::{Hash, Hasher};
use std::marker::Model;

/// The most bytes of a name.
pub const NAME_LIMIT: usize = 32;

/// A name: 1 to 32 ASCII letters and digits, of which the first is a letter.
#[derive(Clone, Copy, Debug)]
pub struct Name {
    // zeros behind the name
    bytes: [u8; NAME_LIMIT],
    len: u8,
}

impl Model for Name {
    ghost use Rattle.std.specs.Prelude.{◌-◌, ◌++◌, ℕ, List, length, take, replicate};
    ghost use Rattle.binder.specs.Names.{name_limit};
    ghost use Rattle.binder.specs.Padded.{IsPadded, length-padded, padded_again};

    ghost Value = { List ℕ };

    ghost view = { λ name. take name.len name.bytes };

    ghost invariant = { λ name. IsPadded name.bytes name.len };

    ghost inverse = { λ name. record { bytes = name ++ replicate (name_limit - length name) 0; len = length name } };

    ghost inverse_ok = { λ name h i. record { bytes = padded_again name.bytes name.len h i; len = length-padded name.bytes name.len h i } };
}

impl PartialEq for Name {
    ghost use Rattle.std.specs.Prelude.{nat_eq};
    ghost use Rattle.std.specs.Cmp.{partial_equiv_from_equiv};
    ghost use Rattle.std.specs.Cmp.Lexicographic.{pointwise};
    ghost use Rattle.std.proofs.lemmas.Cmp.{nat_list_eq_equiv};

    ghost eq = { pointwise nat_eq };

    ghost laws = { partial_equiv_from_equiv nat_list_eq_equiv };

    fn eq(&self, other: &Self) -> bool {
        self.as_bytes() == other.as_bytes()
    }
}

impl Eq for Name {
    ghost use Rattle.std.proofs.lemmas.Cmp.{nat_list_eq_equiv};

    ghost laws = { nat_list_eq_equiv };
}

impl Hash for Name {
    ghost use Rattle.std.specs.Hash as fed;
    ghost use Rattle.binder.specs.Same.{same_writes};

    ghost hash_input = { fed.slice fed.u8 };

    ghost respects_eq = { same_writes };

    fn hash<H: Hasher>(&self, state: &mut H) {
        self.as_bytes().hash(state);
    }
}

impl Name {
    /// The name's bytes.
    pub fn as_bytes(&self) -> &[u8]
        ensures bytes { result.now ≡ self.now }
        ensures name { IsTrue (is_name result.now) }
    {
        &self.bytes[..usize::from(self.len)]
    }
}

/// The name that some bytes are, or `None` exactly where they are no name.
pub fn read_name(bytes: &[u8]) -> Option<Name>
    ensures { result ≡ name_of bytes.now }
{
    if !is_name(bytes) {
        return None;
    }
    let mut padded = [0; NAME_LIMIT];
    padded[..bytes.len()].copy_from_slice(bytes);
    Some(Name {
        bytes: padded,
        len: bytes.len() as u8,
    })
}

/// Whether some bytes are a name.
fn is_name(bytes: &[u8]) -> bool
    ensures { result ≡ is_name bytes.now }
{
    begins_with_letter(bytes) && has_no_other(bytes) && bytes.len() <= NAME_LIMIT
}

fn begins_with_letter(bytes: &[u8]) -> bool
    ensures { result ≡ begins_with_letter bytes.now }
{
    match bytes {
        [first, ..] => is_letter(*first),
        [] => false,
    }
}

/// Whether there are only letters and digits.
fn has_no_other(bytes: &[u8]) -> bool
    ensures { result ≡ list_all (λ byte. is_letter byte || is_digit byte) bytes.now }
{
    bytes.iter().all(|byte| is_letter(*byte) || is_digit(*byte))
}

fn is_letter(byte: u8) -> bool
    ensures { result ≡ is_letter byte }
{
    matches!(byte, b'A'..=b'Z' | b'a'..=b'z')
}

fn is_digit(byte: u8) -> bool
    ensures { result ≡ is_digit byte }
{
    matches!(byte, b'0'..=b'9')
}
