//! The writing of items to bytes.
ghost use Rattle.std.specs.Prelude.{◌≡◌, ◌≤◌, ◌<◌, ◌^◌, IfSome};
ghost use Rattle.byteorder.specs.Endian.{big_bytes};
ghost use Rattle.marshal_plans.specs.Basics.{width, code_of};
ghost use Rattle.marshal_plans.specs.Encoding.{spelled, count_code};
ghost use Rattle.marshal_plans.specs.Writing.{Wrote, Puts};

use crate::basic::Basic;
use crate::fault::PutFault;
use crate::instruction::Extent;
use crate::reading::COUNT_LEN;
use byteorder::{BigEndian, ByteOrder};

/// Writes a number in so many bytes, if there is room, and gives the place behind it.
fn put_code(into: &mut [u8], at: usize, code: u64, len: usize) -> usize
    requires low { 1 ≤ len }
    requires high { len ≤ 8 }
    requires fits { code < 256 ^ len }
    ensures { Wrote into.old into.new at result (big_bytes len code) }
{
    let next = at.saturating_add(len);
    if next > into.len() {
        return next;
    }
    BigEndian::write_uint(&mut into[at..], code, len);
    next
}

/// Writes bytes, if there is room, and gives the place behind them.
pub fn put_text(bytes: &[u8], into: &mut [u8], at: usize) -> usize
    ensures { Wrote into.old into.new at result bytes.now }
{
    let next = at.saturating_add(bytes.len());
    if next <= into.len() {
        into[at..next].copy_from_slice(bytes);
    }
    next
}

/// Writes a value that is one number.
pub fn put_number(into: &mut [u8], at: usize, basic: Basic, value: i128) -> Result<usize, PutFault>
    ensures { Puts into.old into.new at result (spelled (width basic) (code_of basic value)) }
{
    let code = basic.code_of(value).ok_or(PutFault::Shape)?;
    Ok(put_code(into, at, code, basic.width()))
}

/// Writes how many elements an array has, where that isn't fixed.
pub fn put_count(into: &mut [u8], at: usize, extent: Extent, count: u32) -> Result<usize, PutFault>
    ensures { Puts into.old into.new at result (count_code extent count) }
{
    match extent {
        Extent::Exactly(n) if count == n => Ok(at),
        Extent::UpTo(n) if count <= n => Ok(put_code(into, at, u64::from(count), COUNT_LEN)),
        _ => Err(PutFault::Shape),
    }
}
