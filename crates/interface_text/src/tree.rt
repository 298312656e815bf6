//! Types as they are read: what a name stands for is shared.
ghost use Rattle.std.specs.Prelude.{◌≡◌, IfOk, map};
ghost use Rattle.interface_text.specs.Kinds.{kind_of};
ghost use Rattle.interface_text.specs.Trees.{kind_of_basic, kind_of_tree, part_kind};

use crate::shape::Shape;
use interface_tokens::Basic;
use std::alloc::{AllocError, Global};
use std::rc::Rc;

/// A type. Each use of a named type shares what the name stands for.
#[derive(Drop)]
pub(crate) enum Tree {
    Bool,
    Byte,
    Cardinal,
    Integer,
    LongCard,
    Choice(u32),
    Array(u32, Rc<Tree>),
    Open(u32, Rc<Tree>),
    Fields(Vec<Rc<Tree>>),
}

impl Tree {
    pub(crate) fn of_basic(basic: Basic) -> Tree
        ensures { kind_of_tree result ≡ kind_of_basic basic }
    {
        match basic {
            Basic::Boolean => Tree::Bool,
            Basic::Byte => Tree::Byte,
            Basic::Cardinal => Tree::Cardinal,
            Basic::Integer => Tree::Integer,
            Basic::Longcard => Tree::LongCard,
        }
    }
}

/// The shape that a tree is, with everything shared copied.
#[cycle(shapes)]
pub(crate) fn shape_of(alloc: Global, tree: &Tree) -> Result<Shape, AllocError>
    ensures { IfOk result (λ shape. kind_of shape ≡ kind_of_tree tree.now) }
{
    match tree {
        Tree::Bool => Ok(Shape::Bool),
        Tree::Byte => Ok(Shape::Byte),
        Tree::Cardinal => Ok(Shape::Cardinal),
        Tree::Integer => Ok(Shape::Integer),
        Tree::LongCard => Ok(Shape::LongCard),
        Tree::Choice(count) => Ok(Shape::Choice(*count)),
        Tree::Array(n, part) => {
            let shape = shape_of(alloc, part)?;
            Ok(Shape::Array(*n, Box::new(alloc, shape)?))
        }
        Tree::Open(n, part) => {
            let shape = shape_of(alloc, part)?;
            Ok(Shape::Open(*n, Box::new(alloc, shape)?))
        }
        Tree::Fields(parts) => {
            let shapes = shapes_of(alloc, parts.as_slice())?;
            Ok(Shape::Fields(shapes))
        }
    }
}

/// The shapes that trees are.
#[cycle(shapes)]
fn shapes_of(alloc: Global, trees: &[Rc<Tree>]) -> Result<Vec<Shape>, AllocError>
    ensures { IfOk result (λ shapes. map kind_of shapes.items ≡ map part_kind trees.now) }
{
    let mut shapes = Vec::new(alloc);
    for tree in trees {
        let shape = shape_of(alloc, tree)?;
        shapes.push(shape)?;
    }
    Ok(shapes)
}
