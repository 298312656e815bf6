//! How long encodings may be.
ghost use Rattle.std.specs.Prelude.{◌≡◌, ◌+◌, ◌<◌, ◌≤◌, ◌^◌, length, None, Some, MatchResult};
ghost use Rattle.marshal_plans.specs.Lengths.{least, least_all, largest, largest_all, clipped, too_long};
ghost use Rattle.marshal_plans.specs.Forms.{form_in, forms_in};

use crate::fault::PlanFault;
use interface_text::{Procedure, Shape};

/// The greatest number of bytes of a call's arguments, and of its reply.
pub const MAX_BYTES: u32 = 92_160;

/// The number of bytes of an open array's count.
const COUNT_BYTES: u32 = 4;

/// Whether each plan of the procedures is short enough; if not, the first that isn't.
pub fn check_lengths(procedures: &[Procedure]) -> Result<(), PlanFault>
    requires { length procedures.now ≤ 65536 }
    ensures { MatchResult result (λ _. too_long 0 procedures.now ≡ None) (λ fault. too_long 0 procedures.now ≡ Some fault) }
{
    for (index, procedure) in procedures.iter().enumerate() {
        check_length(index as u16, procedure.arguments.as_slice())?;
        check_length(index as u16, procedure.reply.as_slice())?;
    }
    Ok(())
}

fn check_length(procedure: u16, shapes: &[Shape]) -> Result<(), PlanFault>
    ensures { MatchResult result (λ _. largest_all (forms_in shapes.now) ≤ 92160)
        (λ fault. (92160 < largest_all (forms_in shapes.now)) × (fault ≡ PlanFault.TooLong procedure (clipped (largest_all (forms_in shapes.now))))) }
{
    let bytes = largest_len(shapes);
    if bytes <= MAX_BYTES {
        Ok(())
    } else {
        Err(PlanFault::TooLong { procedure, bytes })
    }
}

/// The greatest length of an encoding by these types, or 4294967295, whichever is less.
#[cycle(largest)]
pub fn largest_len(shapes: &[Shape]) -> u32
    ensures { result ≡ clipped (largest_all (forms_in shapes.now)) }
{
    let mut sum = 0u32;
    for shape in shapes {
        sum = sum.saturating_add(largest_of(shape));
    }
    sum
}

#[cycle(largest)]
fn largest_of(shape: &Shape) -> u32
    ensures { result ≡ clipped (largest (form_in shape.now)) }
{
    match shape {
        Shape::Bool | Shape::Byte => 1,
        Shape::Choice(_) => 2,
        Shape::Cardinal | Shape::Integer => 4,
        Shape::LongCard => 8,
        Shape::Array(count, part) => largest_of(part).saturating_mul(*count),
        Shape::Open(most, part) => largest_of(part)
            .saturating_mul(*most)
            .saturating_add(COUNT_BYTES),
        Shape::Fields(parts) => largest_len(parts),
    }
}

/// The least length of an encoding by these types, or 4294967295, whichever is less.
#[cycle(least)]
pub fn least_len(shapes: &[Shape]) -> u32
    ensures { result ≡ clipped (least_all (forms_in shapes.now)) }
{
    let mut sum = 0u32;
    for shape in shapes {
        sum = sum.saturating_add(least_of(shape));
    }
    sum
}

#[cycle(least)]
#[tactic(auto, using(crate::proofs::Shapes::form_open, crate::proofs::Shapes::form_fields))]
fn least_of(shape: &Shape) -> u32
    ensures { result ≡ clipped (least (form_in shape.now)) }
{
    match shape {
        Shape::Bool | Shape::Byte => 1,
        Shape::Choice(_) => 2,
        Shape::Cardinal | Shape::Integer => 4,
        Shape::Open(..) => COUNT_BYTES,
        Shape::LongCard => 8,
        Shape::Array(count, part) => least_of(part).saturating_mul(*count),
        Shape::Fields(parts) => least_len(parts),
    }
}
