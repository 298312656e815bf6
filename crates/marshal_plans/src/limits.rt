//! How deep types go.
ghost use Rattle.std.specs.Prelude.{◌≡◌, ◌≤◌, ◌↔◌, IsTrue, All, map};
ghost use Rattle.interface_text.specs.Kinds.{kind_of, row};
ghost use Rattle.interface_text.specs.Depths.{depth, deepest, IsShallow};

use interface_text::{Interface, Procedure, Shape};

/// The greatest depth of a type.
pub const MAX_DEPTH: u8 = 16;

/// Whether no type of the interface is deeper than `compile` takes. It calls itself at most as deep.
pub fn is_shallow(interface: &Interface) -> bool
    ensures { IsTrue result ↔ All IsShallow interface.now.procedures }
{
    interface
        .procedures
        .as_slice()
        .iter()
        .all(|procedure| is_procedure_shallow(procedure))
}

fn is_procedure_shallow(procedure: &Procedure) -> bool
    ensures { IsTrue result ↔ IsShallow procedure.now }
{
    are_within(procedure.arguments.as_slice(), MAX_DEPTH)
        && are_within(procedure.reply.as_slice(), MAX_DEPTH)
}

/// Whether so many levels are enough for the types.
#[cycle(depths)]
fn are_within(shapes: &[Shape], levels: u8) -> bool
    ensures { IsTrue result ↔ (deepest (row (map kind_of shapes.now)) ≤ levels) }
{
    for shape in shapes {
        if !is_within(shape, levels) {
            return false;
        }
    }
    true
}

#[cycle(depths)]
fn is_within(shape: &Shape, levels: u8) -> bool
    ensures { IsTrue result ↔ (depth (kind_of shape.now) ≤ levels) }
{
    let Some(inner) = levels.checked_sub(1) else {
        return false;
    };
    match shape {
        Shape::Array(_, part) | Shape::Open(_, part) => is_within(part, inner),
        Shape::Fields(parts) => are_within(parts, inner),
        _ => true,
    }
}
