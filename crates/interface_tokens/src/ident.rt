//! Names in interfaces.
ghost use Rattle.std.specs.Prelude.{◌≡◌, ◌≤◌, ◌<◌, IsTrue, IfSome, IfNone, IsSome, false, length};
ghost use Rattle.std.specs.Char.{is_ascii_alphanumeric};
ghost use Rattle.std.specs.List.{list_all};
ghost use Rattle.interface_tokens.specs.Names.{is_name};

use std::hash::{Hash, Hasher};
use std::marker::Model;

/// The greatest length of a name.
pub const MAX_NAME_LEN: usize = 32;

/// A name: a letter and then letters and digits, at most 32 in all, of ASCII. Contracts see it as its bytes.
#[derive(Clone, Copy, Debug)]
pub struct Ident {
    // zeros behind the name
    bytes: [u8; MAX_NAME_LEN],
    len: u8,
}

impl Model for Ident {
    ghost use Rattle.std.specs.Prelude.{ℕ, List, length, take, ◌++◌, ◌-◌, replicate};
    ghost use Rattle.interface_tokens.specs.Names.{name_limit};
    ghost use Rattle.interface_tokens.specs.Stored.{IsStored, length_again, bytes_again};

    ghost Value = { List ℕ };

    ghost view = { λ n. take n.len n.bytes };

    ghost invariant = { λ n. IsStored n.bytes n.len };

    ghost inverse = { λ n. record { bytes = n ++ replicate (name_limit - length n) 0; len = length n } };

    ghost inverse_ok = { λ n h i. record { bytes = bytes_again n.bytes n.len h i; len = length_again n.bytes n.len h i } };
}

impl PartialEq for Ident {
    ghost use Rattle.std.specs.Cmp.{partial_equiv_from_equiv};
    ghost use Rattle.std.proofs.lemmas.Cmp.{nat_list_eq_equiv};
    ghost use Rattle.interface_tokens.specs.Names.{is_same};

    ghost eq = { is_same };

    ghost laws = { partial_equiv_from_equiv nat_list_eq_equiv };

    fn eq(&self, other: &Self) -> bool {
        self.as_bytes() == other.as_bytes()
    }
}

impl Eq for Ident {
    ghost use Rattle.std.proofs.lemmas.Cmp.{nat_list_eq_equiv};

    ghost laws = { nat_list_eq_equiv };
}

impl Hash for Ident {
    ghost use Rattle.std.specs.Hash as fed;
    ghost use Rattle.interface_tokens.specs.Stored.{same_input};

    ghost hash_input = { fed.slice fed.u8 };

    ghost respects_eq = { same_input };

    fn hash<H: Hasher>(&self, state: &mut H) {
        self.as_bytes().hash(state);
    }
}

impl Ident {
    /// The name that the bytes are, if they are one.
    pub fn read(bytes: &[u8]) -> Option<Ident>
        ensures found { IfSome result (λ n. (n ≡ bytes.now) × IsTrue (is_name bytes.now)) }
        ensures none { IfNone result (is_name bytes.now ≡ false) }
    {
        let mut name = [0; MAX_NAME_LEN];
        if !is_name(bytes) {
            return None;
        }
        name[..bytes.len()].copy_from_slice(bytes);
        Some(Ident {
            bytes: name,
            len: bytes.len() as u8,
        })
    }

    /// The bytes of the name.
    pub fn as_bytes(&self) -> &[u8]
        ensures bytes { result.now ≡ self.now }
        ensures name { IsTrue (is_name result.now) }
    {
        &self.bytes[..usize::from(self.len)]
    }
}

fn is_name(bytes: &[u8]) -> bool
    ensures { result ≡ is_name bytes.now }
{
    match bytes.split_first() {
        Some((first, others)) => {
            first.is_ascii_alphabetic()
                && are_letters_and_digits(others)
                && bytes.len() <= MAX_NAME_LEN
        }
        None => false,
    }
}

fn are_letters_and_digits(bytes: &[u8]) -> bool
    ensures { result ≡ list_all is_ascii_alphanumeric bytes.now }
{
    bytes.iter().all(|byte| byte.is_ascii_alphanumeric())
}
