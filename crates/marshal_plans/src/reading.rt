//! The reading of items from bytes.
ghost use Rattle.std.specs.Prelude.{◌≡◌, ◌≤◌, ◌<◌, ◌^◌, ℕ, length, Option, Some, None, IfOk, nat_le, if◌then◌else◌};
ghost use Rattle.marshal_plans.specs.Basics.{width, value_of};
ghost use Rattle.marshal_plans.specs.declared.basic.Basic.TheVariants.{Byte};
ghost use Rattle.marshal_plans.specs.Data.{behind_bytes, no_data};
ghost use Rattle.marshal_plans.specs.Forms.{number};
ghost use Rattle.marshal_plans.specs.Reading.{item, counted, times, reads};
ghost use Rattle.marshal_plans.specs.Steps.{Gives};

use crate::basic::Basic;
use crate::fault::GetFault;
use crate::instruction::Extent;
use byteorder::{BigEndian, ByteOrder};
use std::alloc::Global;

/// The number of bytes of an array's count.
pub const COUNT_LEN: usize = 4;

/// A number of so many bytes, and the bytes behind it. `total` is the number of all bytes, of which these are the last.
fn code_at(total: usize, len: usize, bytes: &[u8]) -> Result<(u64, &[u8]), GetFault>
    requires low { 1 ≤ len }
    requires high { len ≤ 8 }
    requires within { length bytes.now ≤ total }
    ensures read { Gives (λ r. (r.0, r.1.now)) result (item total len (λ code. Some code) bytes.now) }
    ensures fits { IfOk result (λ r. r.0 < 256 ^ len) }
{
    if bytes.len() < len {
        let at = total - bytes.len();
        return Err(GetFault::Short { at });
    }
    Ok((BigEndian::read_uint(bytes, len), &bytes[len..]))
}

/// A value that is one number, and the bytes behind it.
pub fn number_at(total: usize, basic: Basic, bytes: &[u8]) -> Result<(i128, &[u8]), GetFault>
    requires { length bytes.now ≤ total }
    ensures { Gives (λ r. (r.0, r.1.now)) result (item total (width basic) (value_of basic) bytes.now) }
{
    let (code, behind) = code_at(total, basic.width(), bytes)?;
    match basic.value_of(code) {
        Some(value) => Ok((value, behind)),
        None => Err(GetFault::Range {
            at: total - bytes.len(),
        }),
    }
}

/// How many elements an array has, and the bytes behind their count.
pub fn count_at(total: usize, extent: Extent, bytes: &[u8]) -> Result<(u32, &[u8]), GetFault>
    requires { length bytes.now ≤ total }
    ensures { Gives (λ r. (r.0, r.1.now)) result (counted total extent bytes.now) }
{
    match extent {
        Extent::Exactly(count) => Ok((count, bytes)),
        Extent::UpTo(most) => {
            let (count, behind) = code_at(total, COUNT_LEN, bytes)?;
            if count <= u64::from(most) {
                Ok((count as u32, behind))
            } else {
                Err(GetFault::Range {
                    at: total - bytes.len(),
                })
            }
        }
    }
}

/// So many bytes of an array as they are, and those behind them.
pub fn bytes_at(
    alloc: Global,
    total: usize,
    count: u32,
    bytes: &[u8],
) -> Result<(Vec<u8>, &[u8]), GetFault>
    requires { length bytes.now ≤ total }
    ensures read { Gives (λ r. (behind_bytes r.0.items no_data, r.1.now)) result (times (reads total (number Byte)) count bytes.now) }
    ensures within { IfOk result (λ r. length r.1.now ≤ length bytes.now) }
{
    let count = count as usize;
    if bytes.len() < count {
        return Err(GetFault::Short { at: total });
    }
    let text = Vec::from_slice(alloc, &bytes[..count])?;
    Ok((text, &bytes[count..]))
}
