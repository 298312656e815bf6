//! The procedure that is being read.
ghost use Rattle.std.specs.Prelude.{◌≡◌, ◌++◌, OnOk, IfOk, map, not, replicate};
ghost use Rattle.std.specs.Bool.{OnTrue};
ghost use Rattle.interface_text.specs.Kinds.{kind_of};
ghost use Rattle.interface_text.specs.Trees.{kind_of_tree};
ghost use Rattle.interface_tokens.specs.Names.{is_among};
ghost use Rattle.interface_text.specs.Rules as rules;
ghost use Rattle.interface_text.specs.States.{head_of, procedure_view};

use crate::interface::Procedure;
use crate::limits::one_more;
use crate::names::NameSet;
use crate::shape::Shape;
use crate::tree::{Tree, shape_of};
use interface_tokens::{Ident, Way};
use item_list::Items;
use std::alloc::{AllocError, Global};

/// What a procedure has so far.
#[derive(Drop)]
pub(crate) struct Heading {
    pub line: u32,
    pub raises: Vec<u16>,
    pub arguments: Vec<Shape>,
    pub reply: Vec<Shape>,
    pub parameters: NameSet,
    /// How the last group is passed.
    pub way: Way,
    /// The names of the last group. More than there may be parts count as one more.
    pub fresh: u32,
}

impl Heading {
    /// A procedure whose declaration begins in this line.
    pub(crate) fn new(alloc: Global, line: u32) -> Self
        ensures { head_of result ≡ rules.head_in line }
    {
        Heading {
            line,
            raises: Vec::new(alloc),
            arguments: Vec::new(alloc),
            reply: Vec::new(alloc),
            parameters: NameSet::new(alloc),
            way: Way::Value,
            fresh: 0,
        }
    }

    /// Begins a group that is passed in this way.
    pub(crate) fn pass(&mut self, way: Way, fresh: u32)
        ensures { head_of self.new ≡ rules.passed (head_of self.old) way fresh }
    {
        self.way = way;
        self.fresh = fresh;
    }

    /// Adds a parameter, and says whether its name wasn't there.
    pub(crate) fn add(&mut self, name: Ident) -> Result<bool, AllocError>
        ensures added { IfOk result (λ added. added ≡ not (is_among name (head_of self.old).parameters)) }
        ensures head { IfOk result (λ added. OnTrue added (head_of self.new ≡ rules.with_parameter (head_of self.old) name)) }
    {
        let added = self.parameters.add(name)?;
        self.fresh = one_more(self.fresh);
        Ok(added)
    }

    /// The type of the last group is this.
    pub(crate) fn set_type(&mut self, alloc: Global, tree: &Tree) -> Result<(), AllocError>
        ensures { OnOk result (head_of self.new ≡ rules.typed (head_of self.old) self.old.way (kind_of_tree tree.now)) }
    {
        match self.way {
            Way::Value | Way::In => push_shapes(alloc, &mut self.arguments, tree, self.fresh),
            Way::Out => push_shapes(alloc, &mut self.reply, tree, self.fresh),
            Way::Var => {
                push_shapes(alloc, &mut self.arguments, tree, self.fresh)?;
                push_shapes(alloc, &mut self.reply, tree, self.fresh)
            }
        }
    }

    /// The whole procedure.
    pub(crate) fn end(self, name: Ident) -> Procedure
        ensures { procedure_view result ≡ rules.procedure_of (head_of self) name }
    {
        Procedure {
            name,
            line: self.line,
            raises: Items::new(self.raises),
            arguments: Items::new(self.arguments),
            reply: Items::new(self.reply),
        }
    }
}

/// Pushes so many shapes that a tree is.
fn push_shapes(
    alloc: Global,
    shapes: &mut Vec<Shape>,
    tree: &Tree,
    count: u32,
) -> Result<(), AllocError>
    ensures { OnOk result (map kind_of shapes.new.items ≡ map kind_of shapes.old.items ++ replicate count (kind_of_tree tree.now)) }
{
    'copies: for _ in 0..count {
        shapes.push(shape_of(alloc, tree)?)?;
    }
    Ok(())
}
