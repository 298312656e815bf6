//! The writing of values by a plan.
ghost use Rattle.std.specs.Prelude.{◌≡◌, ◌++◌, ◌≤◌, ◌^◌, ◌-◌, ℕ, max, List, length, drop, IfOk, IfSome, Some};
ghost use Rattle.marshal_plans.specs.declared.basic.Basic.TheVariants.{Byte};
ghost use Rattle.marshal_plans.specs.Cursors.{cursor_data, taken_datum};
ghost use Rattle.marshal_plans.specs.Data.{behind_bytes, count, datum_of, data_of};
ghost use Rattle.marshal_plans.specs.Encoding.{enc, enc_all, each, count_code};
ghost use Rattle.marshal_plans.specs.Forms.{Form, Forms, number};
ghost use Rattle.marshal_plans.specs.Lefts.{Todo, IsLeft, left_bound};
ghost use Rattle.marshal_plans.specs.Plan.{plans, IsPlan};
ghost use Rattle.marshal_plans.specs.Puts.{Turned, Started, Headed, Falls};
ghost use Rattle.marshal_plans.specs.Steps.{IsStep, parts_len};
ghost use Rattle.marshal_plans.specs.Writing.{Puts, put_of};

use crate::basic::Basic;
use crate::cursor::{Cursor, Taken};
use crate::fault::PutFault;
use crate::instruction::{Extent, Instruction};
use crate::levels::{Left, MAX_GROUPS};
use crate::plan::Plan;
use crate::step::Step;
use crate::value::Value;
use crate::writing::{put_count, put_number, put_text};
use arrayvec::ArrayVec;

/// Writes the values' encoding by the plan of their types to the front of the room, and gives its length. After a fault the bytes of the
/// room are some bytes.
pub fn put(plan: &Plan, values: &[Value], into: &mut [u8]) -> Result<usize, PutFault>
    ensures answer { (fs : Forms) → plan.now ≡ plans fs → result ≡ put_of (length into.old) (enc_all fs (data_of values.now)) }
    ensures written { (fs : Forms) (bytes : List ℕ) → plan.now ≡ plans fs → enc_all fs (data_of values.now) ≡ Some bytes
        → IfOk result (λ n. into.new ≡ bytes ++ drop n into.old) }
{
    let room = into.len();
    let len = run(plan.as_slice(), Cursor::over(values), into)?;
    if len <= room {
        Ok(len)
    } else {
        Err(PutFault::Room)
    }
}

/// What is left of a group: of its types, and of its values.
#[derive(Clone, Copy)]
pub struct Unput<'a> {
    pub left: Left<'a>,
    pub values: Cursor<'a>,
}

impl Default for Unput<'_> {
    fn default() -> Self {
        Unput {
            left: Left::Fields(&[]),
            values: Cursor::over(&[]),
        }
    }
}

/// What a turn leaves.
pub enum PutTurn<'a> {
    /// Nothing of the group.
    Done,
    /// The group, one value further.
    Along(Unput<'a>),
    /// The group behind a value that is itself a group, and that one, which has begun.
    Down(Unput<'a>, Unput<'a>),
}

/// Writes the values of a plan, and gives the place behind them.
fn run<'a>(plan: &'a [Instruction], values: Cursor<'a>, into: &mut [u8]) -> Result<usize, PutFault>
    requires { IsPlan plan.now }
    ensures { (fs : Forms) → plan.now ≡ plans fs → Puts into.old into.new 0 result (enc_all fs (cursor_data values.entry)) }
{
    let mut outer: ArrayVec<Unput, MAX_GROUPS> = ArrayVec::new();
    let mut level = Unput {
        left: Left::Fields(plan),
        values,
    };
    let mut place = 0;
    loop {
        let (turn, next) = put_turn(level, into, place)?;
        place = next;
        match turn {
            PutTurn::Along(more) => level = more,
            PutTurn::Down(more, inner) => {
                outer.push(more);
                level = inner;
            }
            PutTurn::Done => match outer.pop() {
                Some(more) => level = more,
                None => return Ok(place),
            },
        }
    }
}

/// Writes what comes next of a group, up to the beginning of a group in it.
fn put_turn<'a>(
    level: Unput<'a>,
    into: &mut [u8],
    at: usize,
) -> Result<(PutTurn<'a>, usize), PutFault>
    ensures turned { (t : Todo) → IsLeft t level.entry.left → Turned t level.entry into.old into.new at result }
    ensures falls { IfOk result (λ r. Falls (2 ^ 32 - 1) level.entry r.0) }
{
    match (level.left.next(), level.values.next()) {
        (Some((step, left)), Some((value, values))) => {
            let more = Unput { left, values };
            let (begun, next) = put_step(step, value, into, at)?;
            match begun {
                None => Ok((PutTurn::Along(more), next)),
                Some(inner) => Ok((PutTurn::Down(more, inner), next)),
            }
        }
        (None, None) => Ok((PutTurn::Done, at)),
        _ => Err(PutFault::Shape),
    }
}

/// Writes one value. Of a group other than an array of bytes, it writes what stands before the group's own values, and gives these.
fn put_step<'a>(
    step: Step<'a>,
    value: Taken<'a>,
    into: &mut [u8],
    at: usize,
) -> Result<(Option<Unput<'a>>, usize), PutFault>
    ensures started { (f : Form) → IsStep f step.entry → Started f (taken_datum value.entry) into.old into.new at result }
    ensures bound { IfOk result (λ r. IfSome r.0 (λ inner. left_bound inner.left ≤ max (2 ^ 32 - 1) (parts_len step.entry))) }
{
    match (step, value) {
        (Step::Item(basic), Taken::Number(n)) => Ok((None, put_number(into, at, basic, n)?)),
        (Step::Bytes(extent), Taken::Group(values)) => {
            let (_, next) = put_head(extent, values, into, at)?;
            Ok((None, put_bytes(values.bytes, values.others, into, next)?))
        }
        (Step::Array(extent, element), Taken::Group(values)) => {
            let (count, next) = put_head(extent, values, into, at)?;
            let left = Left::Elements(count, element);
            Ok((Some(Unput { left, values }), next))
        }
        (Step::Record(parts), Taken::Group(values)) => {
            let left = Left::Fields(parts);
            Ok((Some(Unput { left, values }), at))
        }
        _ => Err(PutFault::Shape),
    }
}

/// Writes what stands before the elements of an array, and tells how many they are.
fn put_head(
    extent: Extent,
    values: Cursor,
    into: &mut [u8],
    at: usize,
) -> Result<(u32, usize), PutFault>
    ensures { Headed (count (cursor_data values.entry)) (count_code extent (count (cursor_data values.entry))) into.old into.new at result }
{
    let count = values.count().ok_or(PutFault::Shape)?;
    Ok((count, put_count(into, at, extent, count)?))
}

/// Writes an array of bytes: those that stand as bytes, and then those that stand as other values.
fn put_bytes(bytes: &[u8], others: &[Value], into: &mut [u8], at: usize) -> Result<usize, PutFault>
    ensures { Puts into.old into.new at result (each (enc (number Byte)) (behind_bytes bytes.now (data_of others.now))) }
{
    let mut place = put_text(bytes, into, at);
    for value in others {
        place = put_byte(value, into, place)?;
    }
    Ok(place)
}

/// Writes a value that is a byte.
fn put_byte(value: &Value, into: &mut [u8], at: usize) -> Result<usize, PutFault>
    ensures { Puts into.old into.new at result (enc (number Byte) (datum_of value.now)) }
{
    match value {
        Value::Number(n) => put_number(into, at, Basic::Byte, *n),
        Value::Group(_) => Err(PutFault::Shape),
    }
}
