//! A place in a list of values.
ghost use Rattle.std.specs.Prelude.{◌≡◌, ◌≤◌, ◌^◌, MatchOption};
ghost use Rattle.marshal_plans.specs.Data.{datum_of, data_of, data_in, count};
ghost use Rattle.marshal_plans.specs.Cursors.{cursor_data, taken_datum, cut_data};

use crate::value::{Value, Values};

/// The values from a place on.
#[derive(Clone, Copy)]
pub struct Cursor<'a> {
    pub bytes: &'a [u8],
    pub others: &'a [Value],
}

/// One value.
#[derive(Clone, Copy)]
pub enum Taken<'a> {
    Number(i128),
    Group(Cursor<'a>),
}

impl<'a> Cursor<'a> {
    /// All of these values.
    pub fn over(values: &'a [Value]) -> Cursor<'a>
        ensures { cursor_data result ≡ data_of values.now }
    {
        Cursor {
            bytes: &[],
            others: values,
        }
    }

    /// All values of a list.
    pub fn within(values: &'a Values) -> Cursor<'a>
        ensures { cursor_data result ≡ data_in values.now }
    {
        Cursor {
            bytes: values.as_bytes(),
            others: values.as_slice(),
        }
    }

    #[tactic(auto, using(crate::proofs::Counting::counted))]
    /// The number of values, if 4 bytes hold it.
    pub fn count(self) -> Option<u32>
        ensures { MatchOption result (2 ^ 32 ≤ count (cursor_data self.entry)) (λ n. n ≡ count (cursor_data self.entry)) }
    {
        u32::try_from(self.bytes.len().saturating_add(self.others.len())).ok()
    }

    /// The first value, and those behind it.
    pub fn next(self) -> Option<(Taken<'a>, Cursor<'a>)>
        ensures { cursor_data self.entry ≡ cut_data result }
    {
        if let [first, bytes @ ..] = self.bytes {
            let behind = Cursor {
                bytes,
                others: self.others,
            };
            return Some((Taken::Number(i128::from(*first)), behind));
        }
        let [first, others @ ..] = self.others else {
            return None;
        };
        Some((take_one(first), Cursor { bytes: &[], others }))
    }
}

/// What a value is.
fn take_one(value: &Value) -> Taken<'_>
    ensures { datum_of value.now ≡ taken_datum result }
{
    match value {
        Value::Number(n) => Taken::Number(*n),
        Value::Group(values) => Taken::Group(Cursor::within(values)),
    }
}
