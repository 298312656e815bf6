//! Plans of a procedure.

use crate::instruction::Instruction;
use item_list::Items;
use std::marker::Model;

/// The instructions of the types of some values, in a flat list.
#[derive(Drop)]
pub struct Plan {
    instructions: Items<Instruction>,
}

impl Model for Plan {
    ghost use Rattle.std.specs.Prelude.{List};
    ghost use Rattle.marshal_plans.specs.declared.instruction.Instruction.{Instruction};

    ghost Value = { List Instruction };

    ghost view = { λ p. p.instructions };

    ghost use Rattle.marshal_plans.specs.Plan.{IsPlan};

    ghost invariant = { λ p. IsPlan p.instructions };
}

impl Plan {
    ghost use Rattle.std.specs.Prelude.{◌≡◌};
    ghost use Rattle.marshal_plans.specs.Plan.{IsPlan};

    pub(crate) fn new(instructions: Items<Instruction>) -> Plan
        requires { IsPlan instructions }
        ensures { result ≡ instructions }
    {
        Plan { instructions }
    }

    /// The instructions, in order.
    pub fn as_slice(&self) -> &[Instruction]
        ensures all { result.now ≡ self.now }
        ensures plan { IsPlan self.now }
    {
        self.instructions.as_slice()
    }
}

/// The plans of a procedure.
#[derive(Drop)]
pub struct PlanPair {
    /// Of what a call carries to the server.
    pub arguments: Plan,
    /// Of what it carries back.
    pub reply: Plan,
}

/// The plans of an interface.
#[derive(Drop)]
pub struct Plans {
    /// One pair for each procedure, in the order of the interface.
    pub procedures: Items<PlanPair>,
}
