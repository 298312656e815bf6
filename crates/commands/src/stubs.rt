//! `stubs`: an interface text is read to its end, and its plan text is written.

ghost use Rattle.std.specs.Prelude.{◌≡◌, ◌≤◌, ◌<◌, ℕ, List, length, IsErrOf, IfSome, slice_index_or};
ghost use Rattle.interface_text.specs.declared.interface.Procedure.{Procedure};
ghost use Rattle.commands.specs.Outside.{input, output};
ghost use Rattle.commands.specs.Stubs.{ReadsPlans, Stubs, PlanTextOf};

use crate::ending::end_with;
use crate::plan_text::put_plan_text;
use crate::replay::{INPUT_LIMIT, LINE_LIMIT};
use crate::status::Status;
use ff_io::{Sink, Source, read_all, write_all};
use interface_text::{Interface, TextFault, parse};
use marshal_plans::{PlanFault, compile};
use script_text::count_lines;
use std::alloc::Global;

/// The number of the fault of a plan that is too long.
const PLAN_TOO_LONG: u8 = 12;

/// Writes the plan text of the interface text that the source gives. Where it can't, a fault line stands last,
/// unless writing fails.
pub fn run_stubs<S: Source, K: Sink>(alloc: Global, source: &mut S, sink: &mut K) -> Status
    ensures stubs { Stubs result
        (input (S.left source.old) (S.faults source.old)) (input (S.left source.new) (S.faults source.new))
        (output (K.written sink.old) (K.faults sink.old)) (output (K.written sink.new) (K.faults sink.new)) }

    // No failure is hidden: a read that failed is told, and a write that failed isn't told as Ok.
    ensures read_still { (result ≡ Status.ReadFault → ⊥) → S.faults source.new ≡ S.faults source.old }
    ensures write_still { result ≡ Status.Ok → K.faults sink.new ≡ K.faults sink.old }
    ensures read_count { S.faults source.old ≤ S.faults source.new }
    ensures write_count { K.faults sink.old ≤ K.faults sink.new }
{
    let plan_text = match read_plans(alloc, source) {
        Ok(plan_text) => plan_text,
        Err(status) => return end_with(sink, status),
    };
    match write_all(sink, plan_text.as_slice()) {
        Ok(()) => Status::Ok,
        Err(failed) => Status::from(failed),
    }
}

/// Reads the source to its end, and makes the plan text of what it gave.
fn read_plans<S: Source>(alloc: Global, source: &mut S) -> Result<Vec<u8>, Status>
    // The text is what the source had left, where it tells that.
    ensures read { (text : List ℕ) × IfSome (S.left source.old) (λ left. left ≡ text) × ReadsPlans result text
        (input (S.left source.old) (S.faults source.old)) (input (S.left source.new) (S.faults source.new)) }
    ensures still { (IsErrOf result Status.ReadFault → ⊥) → S.faults source.new ≡ S.faults source.old }
    ensures count { S.faults source.old ≤ S.faults source.new }
{
    let bytes = read_all(alloc, source, INPUT_LIMIT)?;
    let text = bytes.as_slice();
    if count_lines(text) > LINE_LIMIT {
        return Err(Status::TooLong);
    }
    plan_text_of(alloc, text)
}

/// The plan text of an interface text, or its first fault.
fn plan_text_of(alloc: Global, text: &[u8]) -> Result<Vec<u8>, Status>
    requires { length text.now ≤ INPUT_LIMIT }
    ensures { PlanTextOf result text.now }
{
    let interface = parse(alloc, text)?;
    let plans = match compile(alloc, &interface) {
        Ok(plans) => plans,
        Err(PlanFault::Memory) => return Err(Status::NoMemory),
        Err(PlanFault::TooLong { procedure, .. }) => return Err(Status::BadText(
            line_of(&interface, procedure),
            PLAN_TOO_LONG,
        )),
    };
    let mut out = Vec::new(alloc);
    put_plan_text(&mut out, &interface, &plans)?;
    Ok(out)
}

/// The line on which a procedure is declared.
fn line_of(interface: &Interface, procedure: u16) -> u32
    requires { procedure < length interface.now.procedures }
    ensures { (d : Procedure) → result ≡ (slice_index_or interface.now.procedures procedure d).line }
{
    interface.procedures.as_slice()[usize::from(procedure)].line
}

impl From<TextFault> for Status {
    ghost use Rattle.commands.specs.Status.{status_of_interface};

    ghost from_gives = { λ fault s. s ≡ status_of_interface fault };

    fn from(fault: TextFault) -> Self {
        if fault.number == 0 {
            Status::NoMemory
        } else {
            Status::BadText(fault.line, fault.number)
        }
    }
}
