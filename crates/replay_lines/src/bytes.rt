//! Texts of bytes, printed from their digests.

ghost use Rattle.std.specs.Prelude.{◌≡◌, ◌≤◌, take, Some};
ghost use Rattle.std.specs.Fmt.{decimal};
ghost use Rattle.replay_model.specs.Lines.{bytes_text, exception_number, hex, hex_byte, reply_text};

use crate::numbers::Short;
use lane_checksum::{Digest, HEAD_LEN};
use std::fmt::{self, Display, Formatter};

/// Bytes in small hexadecimal, two digits each.
#[derive(Clone, Copy)]
pub(crate) struct Hex<'a>(pub &'a [u8]);

impl Display for Hex<'_> {
    ghost output = { λ h. Some (hex h.0.now) };

    fn fmt<W: fmt::Write>(&self, f: &mut Formatter<W>) -> fmt::Result {
        for byte in self.0 {
            f.write(HexByte(*byte))?;
        }
        Ok(())
    }
}

/// A byte in small hexadecimal, two digits.
#[derive(Clone, Copy)]
struct HexByte(u8);

impl Display for HexByte {
    ghost output = { λ h. Some (hex_byte h.0) };

    fn fmt<W: fmt::Write>(&self, f: &mut Formatter<W>) -> fmt::Result {
        let byte = self.0;
        write!(f, "{byte:02x}")
    }
}

/// A text's length, and its bytes where the digest has them all, else its sum.
#[derive(Clone, Copy)]
pub(crate) struct BytesText(pub Digest);

impl Display for BytesText {
    ghost output = { λ d. Some (bytes_text d.0) };

    fn fmt<W: fmt::Write>(&self, f: &mut Formatter<W>) -> fmt::Result {
        let Digest { len, sum, .. } = self.0;
        if len as usize <= HEAD_LEN {
            write!(f, "{}:{}", Short(len as u64), Hex(whole_text(&self.0)))
        } else {
            write!(f, "{len}:#{}", Hex(&sum.to_be_bytes()))
        }
    }
}

/// A short text, all of whose bytes its digest has.
fn whole_text(digest: &Digest) -> &[u8]
    requires { digest.now.len ≤ HEAD_LEN }
    ensures { result.now ≡ take digest.now.len digest.now.head }
{
    let len = digest.len as usize;
    &digest.head[..len]
}

/// The number of an exception: the first two bytes, the high one first.
#[derive(Clone, Copy)]
pub(crate) struct ExceptionText(pub Digest);

impl Display for ExceptionText {
    ghost output = { λ d. Some (decimal (exception_number d.0)) };

    fn fmt<W: fmt::Write>(&self, f: &mut Formatter<W>) -> fmt::Result {
        let head = self.0.head;
        write!(f, "{}", u16::from_be_bytes([head[0], head[1]]))
    }
}

/// A reply: its bytes, or the number of its exception behind a mark.
#[derive(Clone, Copy)]
pub(crate) struct ReplyText {
    pub signal: bool,
    pub reply: Digest,
}

impl Display for ReplyText {
    ghost output = { λ r. Some (reply_text r.signal r.reply) };

    fn fmt<W: fmt::Write>(&self, f: &mut Formatter<W>) -> fmt::Result {
        let reply = self.reply;
        if self.signal {
            write!(f, "!{}", ExceptionText(reply))
        } else {
            write!(f, "{}", BytesText(reply))
        }
    }
}
