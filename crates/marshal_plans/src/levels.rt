//! What is left of the group that a plan's running is in.
ghost use Rattle.std.specs.Prelude.{◌≡◌, ◌<◌, ◌≤◌, IfSome};
ghost use Rattle.marshal_plans.specs.Lefts.{Todo, IsLeft, IsTurn, opened, left_size, left_bound};
ghost use Rattle.marshal_plans.specs.Steps.{parts_len};

use crate::instruction::Instruction;
use crate::step::{Step, first_of};

/// The greatest number of groups that stand in one another.
pub const MAX_GROUPS: usize = 16;

/// What is left of a group, or of the whole.
#[derive(Clone, Copy)]
pub enum Left<'a> {
    /// The fields that these instructions are the plan of.
    Fields(&'a [Instruction]),
    /// So many elements of an array, each by the same plan.
    Elements(u32, &'a [Instruction]),
}

impl<'a> Left<'a> {
    /// What comes next, and what is left behind it.
    pub fn next(self) -> Option<(Step<'a>, Left<'a>)>
        ensures turns { (t : Todo) → IsLeft t self.entry → IsTurn (opened t) result }
        ensures smaller { IfSome result (λ r. left_size r.1 < left_size self.entry) }
        ensures behind { IfSome result (λ r. left_bound r.1 ≤ left_bound self.entry) }
        ensures parts { IfSome result (λ r. parts_len r.0 ≤ left_bound self.entry) }
    {
        match self {
            Left::Fields(plan) => {
                let (step, behind) = first_of(plan)?;
                Some((step, Left::Fields(behind)))
            }
            Left::Elements(count, element) => {
                let others = count.checked_sub(1)?;
                let (step, _) = first_of(element)?;
                Some((step, Left::Elements(others, element)))
            }
        }
    }
}
