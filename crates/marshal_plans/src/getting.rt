//! The reading of values by a plan.
ghost use Rattle.std.specs.Prelude.{◌≡◌, ◌≤◌, ◌^◌, ◌-◌, ℕ, List, [], ◌∷◌, max, length, IfOk, Ok, Some};
ghost use Rattle.marshal_plans.specs.declared.basic.Basic.TheVariants.{Byte};
ghost use Rattle.marshal_plans.specs.Data.{Data, group, no_data, datum_then, data_of, datum_of, followed};
ghost use Rattle.marshal_plans.specs.Forms.{Form, Forms, number};
ghost use Rattle.marshal_plans.specs.Gets.{TurnsOut, Begins, BeginsWithin, Lessens, read_along};
ghost use Rattle.marshal_plans.specs.Lefts.{Todo, IsLeft, left_bound};
ghost use Rattle.marshal_plans.specs.Plan.{plans, IsPlan};
ghost use Rattle.marshal_plans.specs.Reading.{reads, reads_all, times, decoded};
ghost use Rattle.marshal_plans.specs.Steps.{Gives, IsStep, parts_len};

use crate::fault::GetFault;
use crate::instruction::Instruction;
use crate::levels::{Left, MAX_GROUPS};
use crate::plan::Plan;
use crate::reading::{bytes_at, count_at, number_at};
use crate::step::Step;
use crate::value::{Value, Values};
use arrayvec::ArrayVec;
use std::alloc::{AllocError, Global};
use std::default::MadeWith;

/// Reads the values that the bytes are, by the plan of their types.
pub fn get(alloc: Global, plan: &Plan, bytes: &[u8]) -> Result<Vec<Value>, GetFault>
    ensures { (fs : Forms) → plan.now ≡ plans fs → Gives (λ v. data_of v.items) result (decoded fs bytes.now) }
{
    let (values, rest) = run(alloc, plan.as_slice(), bytes)?;
    if rest.is_empty() {
        Ok(values)
    } else {
        let at = bytes.len() - rest.len();
        Err(GetFault::Left { at })
    }
}

/// A group that isn't whole: what is left of its types, and its values so far.
#[derive(Drop)]
pub struct Unread<'a> {
    pub left: Left<'a>,
    pub values: Vec<Value>,
}

impl MadeWith<Global> for Unread<'_> {
    fn made_with(alloc: Global) -> Self {
        Unread {
            left: Left::Fields(&[]),
            values: Vec::new(alloc),
        }
    }
}

/// What a turn leaves.
#[derive(Drop)]
pub enum GetTurn<'a> {
    /// The group is whole, with these values.
    Done(Vec<Value>),
    /// The group, one value further.
    Along(Unread<'a>),
    /// The group behind a value that is itself a group, and that one, which has begun.
    Down(Unread<'a>, Unread<'a>),
}

/// What was read of a value.
#[derive(Drop)]
pub enum Begun<'a> {
    /// The value.
    Whole(Value),
    /// What stands before a group's own values, of which this is what is left.
    Group(Left<'a>),
}

/// Reads the values of a plan, and gives the bytes behind them.
fn run<'b>(
    alloc: Global,
    plan: &[Instruction],
    bytes: &'b [u8],
) -> Result<(Vec<Value>, &'b [u8]), GetFault>
    requires { IsPlan plan.now }
    ensures read { (fs : Forms) → plan.now ≡ plans fs → Gives (λ r. (data_of r.0.items, r.1.now)) result (reads_all (length bytes.now) fs bytes.now) }
    ensures within { IfOk result (λ r. length r.1.now ≤ length bytes.now) }
{
    let total = bytes.len();
    let mut outer: ArrayVec<Unread, MAX_GROUPS, Global> = ArrayVec::new_in(alloc);
    let mut level = Unread {
        left: Left::Fields(plan),
        values: Vec::new(alloc),
    };
    let mut rest = bytes;
    loop {
        let (turn, behind) = get_turn(alloc, level, total, rest)?;
        rest = behind;
        match turn {
            GetTurn::Along(more) => level = more,
            GetTurn::Down(more, inner) => {
                outer.push(more);
                level = inner;
            }
            GetTurn::Done(values) => match outer.pop() {
                Some(more) => level = with_group(more, values)?,
                None => return Ok((values, rest)),
            },
        }
    }
}

/// A group with one more value, which is itself a group.
fn with_group(level: Unread, values: Vec<Value>) -> Result<Unread, AllocError>
    ensures left { IfOk result (λ more. more.left ≡ level.entry.left) }
    ensures values { IfOk result (λ more. data_of more.values.items
        ≡ followed (data_of level.entry.values.items) (datum_then (group (data_of values.items)) no_data)) }
{
    let Unread {
        left,
        values: mut all,
    } = level;
    all.push(Value::Group(Values::new(values)))?;
    Ok(Unread { left, values: all })
}

/// Reads what comes next of a group, up to the beginning of a group in it. `total` is the number of all bytes, of which these are the last.
fn get_turn<'a, 'b>(
    alloc: Global,
    level: Unread<'a>,
    total: usize,
    bytes: &'b [u8],
) -> Result<(GetTurn<'a>, &'b [u8]), GetFault>
    requires { length bytes.now ≤ total }
    ensures turned { (t : Todo) → IsLeft t level.entry.left → TurnsOut total t level.entry bytes.now (read_along result) }
    ensures within { IfOk result (λ r. length r.1.now ≤ length bytes.now) }
    ensures lessens { IfOk result (λ r. Lessens (2 ^ 32 - 1) level.entry r.0) }
{
    let Unread { left, mut values } = level;
    let Some((step, left)) = left.next() else {
        return Ok((GetTurn::Done(values), bytes));
    };
    let (begun, rest) = read_step(alloc, step, total, bytes)?;
    match begun {
        Begun::Whole(value) => {
            values.push(value)?;
            Ok((GetTurn::Along(Unread { left, values }), rest))
        }
        Begun::Group(inner) => {
            let group = Unread {
                left: inner,
                values: Vec::new(alloc),
            };
            Ok((GetTurn::Down(Unread { left, values }, group), rest))
        }
    }
}

/// Reads one value. Of a group other than an array of bytes, it reads what stands before the group's own values.
fn read_step<'a, 'b>(
    alloc: Global,
    step: Step<'a>,
    total: usize,
    bytes: &'b [u8],
) -> Result<(Begun<'a>, &'b [u8]), GetFault>
    requires { length bytes.now ≤ total }
    ensures begins { (f : Form) → IsStep f step.entry → Begins total f bytes.now (read_along result) }
    ensures within { IfOk result (λ r. length r.1.now ≤ length bytes.now) }
    ensures bound { IfOk result (λ r. BeginsWithin (max (2 ^ 32 - 1) (parts_len step.entry)) r.0) }
{
    match step {
        Step::Item(basic) => {
            let (value, rest) = number_at(total, basic, bytes)?;
            Ok((Begun::Whole(Value::Number(value)), rest))
        }
        Step::Bytes(extent) => {
            let (count, rest) = count_at(total, extent, bytes)?;
            let (text, rest) = bytes_at(alloc, total, count, rest)?;
            Ok((Begun::Whole(Value::Group(Values::of_bytes(text))), rest))
        }
        Step::Array(extent, element) => {
            let (count, rest) = count_at(total, extent, bytes)?;
            Ok((Begun::Group(Left::Elements(count, element)), rest))
        }
        Step::Record(parts) => Ok((Begun::Group(Left::Fields(parts)), bytes)),
    }
}
