//! The values of an enumeration.
ghost use Rattle.std.specs.Prelude.{◌≡◌, ◌≤◌, ◌++◌, ◌∷◌, [], length, IfOk};
ghost use Rattle.interface_text.specs.Adding.{adds_value};

use crate::limits::MAX_VALUES;
use crate::names::NameSet;
use interface_tokens::Ident;
use std::alloc::{AllocError, Global};

/// The values of an enumeration so far: names that differ.
#[derive(Drop)]
pub(crate) struct Values {
    pub names: NameSet,
    ghost few: { length names.set.keys ≤ 65536 },
}

/// Whether a value was added.
#[derive(Clone, Copy)]
pub(crate) enum Added {
    Added,
    /// It is there already.
    Known,
    /// There are as many as there may be.
    Full,
}

impl Values {
    pub(crate) fn new(alloc: Global) -> Self
        ensures { result.names.set.keys ≡ [] }
    {
        Values {
            names: NameSet::new(alloc),
        }
    }

    pub(crate) fn len(&self) -> u32
        ensures { result ≡ length self.now.names.set.keys }
    {
        self.names.len() as u32
    }

    /// Adds a value where it may.
    pub(crate) fn add(&mut self, name: Ident) -> Result<Added, AllocError>
        ensures { IfOk result (λ added. adds_value self.old.names.set.keys self.new.names.set.keys name added) }
    {
        if self.names.has(&name) {
            return Ok(Added::Known);
        }
        if self.names.len() >= MAX_VALUES {
            return Ok(Added::Full);
        }
        self.names.add(name)?;
        Ok(Added::Added)
    }
}
