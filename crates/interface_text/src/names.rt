//! Names that are declared, and what they stand for.
ghost use Rattle.std.specs.Prelude.{◌≡◌, ◌≤◌, ◌+◌, ◌++◌, ◌∷◌, [], OnOk, IfOk, None, length, not, is_some, option_map, option_copied, cond, if◌then◌else◌};
ghost use Rattle.interface_tokens.specs.Names.{is_among};
ghost use Rattle.interface_text.specs.Meanings.{declare, exception_in, look_up, type_in};
ghost use Rattle.interface_text.specs.Senses.{known_of, sense_of, senses_of};

use crate::tree::Tree;
use indexmap::{IndexMap, IndexSet};
use interface_tokens::Ident;
use std::alloc::{AllocError, Global};
use std::rc::Rc;

/// A type that has a name, with its depth and its parts.
#[derive(Drop)]
pub(crate) struct Known {
    pub tree: Rc<Tree>,
    pub depth: u32,
    pub parts: u32,
}

/// What a name stands for.
#[derive(Drop)]
pub(crate) enum Meaning {
    Type(Known),
    /// An exception, by its number from 1.
    Exception(u16),
    Procedure,
}

/// Names with what they stand for.
#[derive(Drop)]
pub(crate) struct Names {
    pub map: IndexMap<Ident, Meaning>,
}

impl Names {
    #[tactic(auto, unfolding(crate::specs::Senses::senses_of))]
    pub(crate) fn new(alloc: Global) -> Self
        ensures { senses_of result ≡ [] }
    {
        Names {
            map: IndexMap::new(alloc),
        }
    }

    #[tactic(auto, using(crate::proofs::Looking::looked_up), unfolding(crate::specs::Senses::senses_of))]
    pub(crate) fn has(&self, name: &Ident) -> bool
        ensures { result ≡ is_some (look_up name.now (senses_of self.now)) }
    {
        self.map.get(name).is_some()
    }

    /// The type of a name.
    #[tactic(auto, using(crate::proofs::Looking::looked_up), unfolding(crate::specs::Senses::senses_of))]
    pub(crate) fn type_of(&self, name: &Ident) -> Option<&Known>
        ensures { option_map known_of (option_copied result) ≡ type_in (look_up name.now (senses_of self.now)) }
    {
        match self.map.get(name) {
            Some(Meaning::Type(known)) => Some(known),
            Some(Meaning::Exception(_) | Meaning::Procedure) | None => None,
        }
    }

    /// The number of the exception of a name.
    #[tactic(auto, using(crate::proofs::Looking::looked_up), unfolding(crate::specs::Senses::senses_of))]
    pub(crate) fn exception_of(&self, name: &Ident) -> Option<u16>
        ensures { result ≡ exception_in (look_up name.now (senses_of self.now)) }
    {
        match self.map.get(name) {
            Some(Meaning::Exception(number)) => Some(*number),
            Some(Meaning::Type(_) | Meaning::Procedure) | None => None,
        }
    }

    /// Declares a name.
    #[tactic(auto, using(crate::proofs::Looking::declared), unfolding(crate::specs::Senses::senses_of))]
    pub(crate) fn add(&mut self, name: Ident, meaning: Meaning) -> Result<(), AllocError>
        ensures { OnOk result (senses_of self.new ≡ declare (senses_of self.old) name (sense_of meaning)) }
    {
        self.map.insert(name, meaning)?;
        Ok(())
    }
}

/// Names that differ.
#[derive(Drop)]
pub(crate) struct NameSet {
    pub set: IndexSet<Ident>,
}

impl NameSet {
    pub(crate) fn new(alloc: Global) -> Self
        ensures { result.set.keys ≡ [] }
    {
        NameSet {
            set: IndexSet::new(alloc),
        }
    }

    pub(crate) fn len(&self) -> usize
        ensures { result ≡ length self.now.set.keys }
    {
        self.set.len()
    }

    pub(crate) fn has(&self, name: &Ident) -> bool
        ensures { result ≡ is_among name.now self.now.set.keys }
    {
        self.set.contains(name)
    }

    /// Adds a name, and says whether it wasn't there.
    pub(crate) fn add(&mut self, name: Ident) -> Result<bool, AllocError>
        ensures grows { length self.new.set.keys ≤ length self.old.set.keys + 1 }
        ensures added { IfOk result (λ added. added ≡ not (is_among name self.old.set.keys)) }
        ensures names { OnOk result (self.new.set.keys ≡ (if is_among name self.old.set.keys then self.old.set.keys else self.old.set.keys ++ name ∷ [])) }
    {
        let (_, added) = self.set.insert_full(name)?;
        Ok(added)
    }
}
