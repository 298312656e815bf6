//! What a plan asks for first.
ghost use Rattle.std.specs.Prelude.{◌≡◌, ◌+◌, ◌<◌, ◌≤◌, length, take, drop, MatchOption, IfSome};
ghost use Rattle.marshal_plans.specs.Forms.{Forms};
ghost use Rattle.marshal_plans.specs.Plan.{plans};
ghost use Rattle.marshal_plans.specs.Steps.{Opens, parts_len};

use crate::basic::Basic;
use crate::instruction::{Extent, Instruction};

/// What a type asks for, with the plan of its parts.
#[derive(Clone, Copy)]
pub enum Step<'a> {
    Item(Basic),
    Bytes(Extent),
    Array(Extent, &'a [Instruction]),
    Record(&'a [Instruction]),
}

/// The first step of a plan, and the plan behind it.
pub fn first_of(plan: &[Instruction]) -> Option<(Step, &[Instruction])>
    ensures opens { (fs : Forms) → plan.now ≡ plans fs → Opens fs result }
    ensures behind { IfSome result (λ r. length r.1.now < length plan.now) }
    ensures parts { IfSome result (λ r. parts_len r.0 < length plan.now) }
{
    let [first, rest @ ..] = plan else {
        return None;
    };
    match *first {
        Instruction::Item(basic) => Some((Step::Item(basic), rest)),
        Instruction::Bytes(extent) => Some((Step::Bytes(extent), rest)),
        Instruction::Loop(extent, len) => {
            let (element, behind) = parted(rest, len)?;
            Some((Step::Array(extent, element), behind))
        }
        Instruction::Record(len) => {
            let (parts, behind) = parted(rest, len)?;
            Some((Step::Record(parts), behind))
        }
        Instruction::Next | Instruction::End => None,
    }
}

/// So many instructions, and those behind the mark that ends them.
fn parted(plan: &[Instruction], len: usize) -> Option<(&[Instruction], &[Instruction])>
    ensures { MatchOption result (length plan.now ≤ len)
        (λ r. (len < length plan.now) × (r.0.now ≡ take len plan.now) × (r.1.now ≡ drop (len + 1) plan.now)) }
{
    if len >= plan.len() {
        return None;
    }
    Some((&plan[..len], &plan[len + 1..]))
}
