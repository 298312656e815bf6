//! The long texts that calls and replies of the test service carry.

ghost use Rattle.std.specs.Prelude.{◌≡◌, ◌≤◌, ◌+◌, length, IfOk};
ghost use Rattle.replay_model.specs.Service.{counted_text, text_of};

use byteorder::{BigEndian, ByteOrder};
use replay_model::limits::LARGEST_TEXT;
use std::alloc::{AllocError, Global};

/// What the bytes of a text count up to, before they begin again with 0.
const PERIOD: usize = 251;

/// A text of so many bytes, byte i of which is i modulo 251, behind their count in 4 bytes, the highest first. `Err`
/// only where memory is short.
pub fn counted_text(alloc: Global, count: u32) -> Result<Vec<u8>, AllocError>
    requires { count ≤ LARGEST_TEXT }
    ensures text { IfOk result (λ text. text.items ≡ counted_text count) }
    ensures length { IfOk result (λ text. length text.items ≡ 4 + count) }
{
    let mut front = [0; 4];
    BigEndian::write_u32(&mut front, count);
    let count = count as usize;
    let mut text = Vec::with_capacity(alloc, front.len() + count)?;
    text.extend_from_slice(&front)?;
    let period = period();
    for _whole in 0..count / PERIOD {
        text.extend_from_slice(&period)?;
    }
    text.extend_from_slice(&period[..count % PERIOD])?;
    Ok(text)
}

/// The first bytes of a text, up to where they begin again.
fn period() -> [u8; PERIOD]
    ensures { result ≡ text_of PERIOD }
{
    let mut bytes = [0; PERIOD];
    for place in 0..PERIOD {
        bytes[place] = place as u8;
    }
    bytes
}
