//! The plan text of an interface, line by line.

ghost use Rattle.std.specs.Prelude.{◌≡◌, ◌≤◌, ◌<◌, ◌+◌, ◌++◌, ◌∷◌, [], OnOk, length, map, drop, codes, None, Some};
ghost use Rattle.std.specs.Fmt.{decimal};
ghost use Rattle.interface_text.specs.States.{interface_view, procedure_view};
ghost use Rattle.marshal_plans.specs.Lengths.{largest_all};
ghost use Rattle.marshal_plans.specs.Forms.{forms_in};
ghost use Rattle.marshal_plans.specs.Pairs.{pair_of, plans_of};
ghost use Rattle.marshal_plans.specs.Plan.{plans};
ghost use Rattle.marshal_plans.specs.Text.{raises_lines, exceptions_lines, procedure_lines, procedures_lines};
ghost use Rattle.commands.specs.PlanText.{AreShort, IsShort, lines_text, part_text, text_of, told_of};

use interface_text::{Ident, Interface, Procedure, Shape};
use marshal_plans::{Plan, PlanPair, Plans, largest_len, least_len};
use replay_lines::Print;
use std::alloc::AllocError;

/// Appends the plan text of an interface, of which these are the plans.
pub fn put_plan_text(
    out: &mut Vec<u8>,
    interface: &Interface,
    plans: &Plans,
) -> Result<(), AllocError>
    requires plans { map pair_of plans.now.procedures ≡ map plans_of interface.now.procedures }
    requires short { AreShort interface.now.procedures }
    requires few { length interface.now.procedures ≤ 256 }
    ensures { OnOk result (out.new.items ≡ out.old.items ++ text_of (interface_view interface.now)) }
{
    write!(out, "interface ")?;
    put_name_line(out, &interface.name)?;
    put_exceptions(out, interface.exceptions.as_slice())?;
    put_procedures(
        out,
        interface.procedures.as_slice(),
        plans.procedures.as_slice(),
    )?;
    writeln!(out, "end")?;
    Ok(())
}

/// Appends a name, and ends the line.
fn put_name_line(out: &mut Vec<u8>, name: &Ident) -> Result<(), AllocError>
    ensures { OnOk result (out.new.items ≡ out.old.items ++ (name.now ++ 10 ∷ [])) }
{
    out.extend_from_slice(name.as_bytes())?;
    out.push(b'\n')?;
    Ok(())
}

/// Appends a line for each exception. They are numbered from 1.
fn put_exceptions(out: &mut Vec<u8>, names: &[Ident]) -> Result<(), AllocError>
    ensures { OnOk result (out.new.items ≡ out.old.items ++ lines_text (exceptions_lines 1 names.now)) }
{
    for (index, name) in names.iter().enumerate() {
        write!(out, "exception {} ", index + 1)?;
        put_name_line(out, name)?;
    }
    Ok(())
}

/// Appends the lines of the procedures. They are numbered from 0.
fn put_procedures(
    out: &mut Vec<u8>,
    procedures: &[Procedure],
    pairs: &[PlanPair],
) -> Result<(), AllocError>
    requires plans { map pair_of pairs.now ≡ map plans_of procedures.now }
    requires short { AreShort procedures.now }
    ensures { OnOk result (out.new.items ≡ out.old.items ++ lines_text (procedures_lines 0 (map told_of (map procedure_view procedures.now)))) }
{
    for (index, procedure) in procedures.iter().enumerate() {
        put_procedure(out, index, procedure, &pairs[index])?;
    }
    Ok(())
}

/// Appends the lines of a procedure.
fn put_procedure(
    out: &mut Vec<u8>,
    number: usize,
    procedure: &Procedure,
    pair: &PlanPair,
) -> Result<(), AllocError>
    requires plans { pair_of pair.now ≡ plans_of procedure.now }
    requires short { IsShort procedure.now }
    ensures { OnOk result (out.new.items ≡ out.old.items ++ lines_text (procedure_lines number (told_of (procedure_view procedure.now)))) }
{
    write!(out, "procedure {number} ")?;
    put_name_line(out, &procedure.name)?;
    put_raises(out, procedure.raises.as_slice())?;
    write!(out, "arguments ")?;
    put_part(out, procedure.arguments.as_slice(), &pair.arguments)?;
    write!(out, "reply ")?;
    put_part(out, procedure.reply.as_slice(), &pair.reply)?;
    Ok(())
}

/// Appends the line of the exceptions that a procedure raises, where it raises any.
fn put_raises(out: &mut Vec<u8>, numbers: &[u16]) -> Result<(), AllocError>
    ensures { OnOk result (out.new.items ≡ out.old.items ++ lines_text (raises_lines numbers.now)) }
{
    if numbers.is_empty() {
        return Ok(());
    }
    write!(out, "raises")?;
    for number in numbers {
        write!(out, " {number}")?;
    }
    out.push(b'\n')?;
    Ok(())
}

/// Appends the lengths of what is carried, ends the line, and appends the lines of its plan.
fn put_part(out: &mut Vec<u8>, shapes: &[Shape], plan: &Plan) -> Result<(), AllocError>
    requires plan { plan.now ≡ plans (forms_in shapes.now) }
    requires short { largest_all (forms_in shapes.now) ≤ 92160 }
    ensures { OnOk result (out.new.items ≡ out.old.items ++ part_text (forms_in shapes.now)) }
{
    writeln!(out, "{} {}", least_len(shapes), largest_len(shapes))?;
    for instruction in plan.as_slice() {
        if instruction.has_line() {
            writeln!(out, "{instruction}")?;
        }
    }
    Ok(())
}
