//! Types that wait for their parts.
ghost use Rattle.std.specs.Prelude.{◌≡◌, ◌==◌, ◌++◌, ◌∷◌, [], length, not, MatchOption, OnOk, IfOk};
ghost use Rattle.std.specs.Bool.{OnTrue};
ghost use Rattle.interface_tokens.specs.Names.{is_among};
ghost use Rattle.interface_text.specs.TypeRules.{one_more};
ghost use Rattle.interface_text.specs.Views.{form_of, forms_of, group_of};

use crate::limits::one_more;
use crate::names::NameSet;
use crate::tree::Tree;
use interface_tokens::Ident;
use std::alloc::{AllocError, Global};
use std::rc::Rc;

/// The fields of a record that is being read.
#[derive(Drop)]
pub(crate) struct Fields {
    pub names: NameSet,
    pub parts: Vec<Rc<Tree>>,
    /// The names of the last group. More than there may be parts count as one more.
    pub fresh: u32,
    /// How often each part of the record counts.
    pub times: u32,
}

impl Fields {
    /// Adds a name to the last group, and says whether it wasn't there.
    pub(crate) fn add(&mut self, name: Ident) -> Result<bool, AllocError>
        ensures added { IfOk result (λ added. added ≡ not (is_among name (group_of self.old).names)) }
        ensures group { IfOk result (λ added. OnTrue added (group_of self.new ≡ record (group_of self.old) { names = (group_of self.old).names ++ name ∷ []; fresh = one_more (group_of self.old).fresh })) }
    {
        let added = self.names.add(name)?;
        self.fresh = one_more(self.fresh);
        Ok(added)
    }

    /// The types of the fields.
    pub(crate) fn into_parts(self) -> Vec<Rc<Tree>>
        ensures { result ≡ self.parts }
    {
        self.parts
    }
}

/// A type that waits for its parts.
#[derive(Drop)]
pub(crate) enum Frame {
    Array(u32),
    /// An open array, with its element once that is read.
    Open(Option<Rc<Tree>>),
    Fields(Fields),
}

/// Types that wait, the outermost first.
#[derive(Drop)]
pub(crate) struct Frames {
    pub frames: Vec<Frame>,
}

#[tactic(auto, using(crate::proofs::Forms::forms_push), unfolding(crate::specs::Views::forms_of))]
impl Frames {
    pub(crate) fn new(alloc: Global) -> Self
        ensures { forms_of result ≡ [] }
    {
        Frames {
            frames: Vec::new(alloc),
        }
    }

    pub(crate) fn len(&self) -> usize
        ensures { result ≡ length (forms_of self.now) }
    {
        self.frames.len()
    }

    pub(crate) fn is_empty(&self) -> bool
        ensures { result ≡ (length (forms_of self.now) == 0) }
    {
        self.len() == 0
    }

    /// Puts a type inside the others.
    pub(crate) fn push(&mut self, frame: Frame) -> Result<(), AllocError>
        ensures { OnOk result (forms_of self.new ≡ form_of frame ∷ forms_of self.old) }
    {
        self.frames.push(frame)?;
        Ok(())
    }

    /// Takes the innermost type out.
    pub(crate) fn pop(&mut self) -> Option<Frame>
        ensures { MatchOption result ((forms_of self.old ≡ []) × (forms_of self.new ≡ [])) (λ frame. forms_of self.old ≡ form_of frame ∷ forms_of self.new) }
    {
        self.frames.pop()
    }
}
