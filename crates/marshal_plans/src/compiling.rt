//! From the types of an interface to its plans.
ghost use Rattle.std.specs.Prelude.{◌≡◌, ◌≢◌, ◌++◌, [], ◌∷◌, ◌<◌, ◌≤◌, length, vec_len, slice_set, map, All, None, Some, Ok, IfOk, IfErr, OnOk};
ghost use Rattle.marshal_plans.specs.Lengths.{too_long};
ghost use Rattle.interface_text.specs.Depths.{IsShallow, AreShallow};
ghost use Rattle.marshal_plans.specs.Pairs.{pair_of, plans_of};
ghost use Rattle.marshal_plans.specs.Plan.{plan, plans, array_plan, is_byte};
ghost use Rattle.marshal_plans.specs.Forms.{form_in, forms_in};

use crate::basic::Basic;
use crate::fault::PlanFault;
use crate::instruction::{Extent, Instruction};
use crate::lengths::check_lengths;
use crate::plan::{Plan, PlanPair, Plans};
use interface_text::{Interface, Procedure, Shape};
use item_list::Items;
use std::alloc::{AllocError, Global};

/// The plans of an interface's procedures. It calls itself as deep as the types nest.
pub fn compile(alloc: Global, interface: &Interface) -> Result<Plans, PlanFault>
    requires few { length interface.now.procedures ≤ 256 }
    requires shallow { All IsShallow interface.now.procedures }
    ensures plans { IfOk result (λ made. map pair_of made.procedures ≡ map plans_of interface.now.procedures) }
    ensures short_enough { IfOk result (λ _. too_long 0 interface.now.procedures ≡ None) }
    ensures fault { IfErr result (λ fault. fault ≢ PlanFault.Memory → too_long 0 interface.now.procedures ≡ Some fault) }
{
    check_lengths(interface.procedures.as_slice())?;
    let procedures = pairs_of(alloc, interface.procedures.as_slice())?;
    Ok(Plans {
        procedures: Items::new(procedures),
    })
}

fn pairs_of(alloc: Global, procedures: &[Procedure]) -> Result<Vec<PlanPair>, AllocError>
    requires { All IsShallow procedures.now }
    ensures { IfOk result (λ made. map pair_of made.items ≡ map plans_of procedures.now) }
{
    let mut pairs = Vec::new(alloc);
    for procedure in procedures {
        let pair = pair_of(alloc, procedure)?;
        pairs.push(pair)?;
    }
    Ok(pairs)
}

/// The plans of a procedure.
fn pair_of(alloc: Global, procedure: &Procedure) -> Result<PlanPair, AllocError>
    requires { IsShallow procedure.now }
    ensures { IfOk result (λ made. pair_of made ≡ plans_of procedure.now) }
{
    let arguments = plan_of(alloc, procedure.arguments.as_slice())?;
    let reply = plan_of(alloc, procedure.reply.as_slice())?;
    Ok(PlanPair { arguments, reply })
}

/// The plan of some types.
fn plan_of(alloc: Global, shapes: &[Shape]) -> Result<Plan, AllocError>
    requires { AreShallow shapes.now }
    ensures { IfOk result (λ p. p ≡ plans (forms_in shapes.now)) }
{
    let mut instructions = Vec::new(alloc);
    emit_all(&mut instructions, shapes)?;
    Ok(Plan::new(Items::new(instructions)))
}

#[cycle(emit)]
fn emit_all(code: &mut Vec<Instruction>, shapes: &[Shape]) -> Result<(), AllocError>
    ensures { OnOk result (code.new.items ≡ code.old.items ++ plans (forms_in shapes.now)) }
{
    for shape in shapes {
        emit(code, shape)?;
    }
    Ok(())
}

#[cycle(emit)]
fn emit(code: &mut Vec<Instruction>, shape: &Shape) -> Result<(), AllocError>
    ensures { OnOk result (code.new.items ≡ code.old.items ++ plan (form_in shape.now)) }
{
    match shape {
        Shape::Bool => append(code, Instruction::Item(Basic::Bool)),
        Shape::Byte => append(code, Instruction::Item(Basic::Byte)),
        Shape::Cardinal => append(code, Instruction::Item(Basic::Cardinal)),
        Shape::Integer => append(code, Instruction::Item(Basic::Integer)),
        Shape::LongCard => append(code, Instruction::Item(Basic::LongCard)),
        Shape::Choice(values) => append(code, Instruction::Item(Basic::Choice(*values))),
        Shape::Array(count, part) => emit_array(code, Extent::Exactly(*count), part),
        Shape::Open(most, part) => emit_array(code, Extent::UpTo(*most), part),
        Shape::Fields(parts) => {
            let start = code.len();
            append(code, Instruction::Record(0))?;
            emit_all(code, parts)?;
            let len = code.len() - start - 1;
            replace(code, start, Instruction::Record(len));
            append(code, Instruction::End)
        }
    }
}

#[cycle(emit)]
fn emit_array(
    code: &mut Vec<Instruction>,
    extent: Extent,
    element: &Shape,
) -> Result<(), AllocError>
    ensures { OnOk result (code.new.items ≡ code.old.items
        ++ array_plan (is_byte (form_in element.now)) extent (plan (form_in element.now))) }
{
    if is_byte(element) {
        return append(code, Instruction::Bytes(extent));
    }
    let start = code.len();
    append(code, Instruction::Loop(extent, 0))?;
    emit(code, element)?;
    let len = code.len() - start - 1;
    replace(code, start, Instruction::Loop(extent, len));
    append(code, Instruction::Next)
}

/// Whether the bytes of an array of this type are one instruction.
#[tactic(auto, using(crate::proofs::Shapes::form_array, crate::proofs::Shapes::form_open, crate::proofs::Shapes::form_fields))]
fn is_byte(shape: &Shape) -> bool
    ensures { result ≡ is_byte (form_in shape.now) }
{
    match shape {
        Shape::Byte => true,
        Shape::Bool | Shape::Cardinal | Shape::Integer | Shape::LongCard | Shape::Choice(_) =>
            false,
        Shape::Array(..) | Shape::Open(..) | Shape::Fields(_) => false,
    }
}

/// Puts an instruction in the place of another.
fn replace(code: &mut Vec<Instruction>, at: usize, instruction: Instruction)
    requires { at < vec_len code.old }
    ensures { code.new.items ≡ slice_set code.old.items at instruction }
{
    code[at] = instruction;
}

fn append(code: &mut Vec<Instruction>, instruction: Instruction) -> Result<(), AllocError>
    ensures { OnOk result (code.new.items ≡ code.old.items ++ instruction ∷ []) }
{
    code.push(instruction)?;
    Ok(())
}
