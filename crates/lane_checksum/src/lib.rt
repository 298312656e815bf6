//! The one's complement sum of 16-bit words (RFC 1071) that IP and UDP headers carry (RFC 791, RFC 768).
#![tactic(auto)]

ghost use Rattle.std.specs.Prelude.{◌≡◌, ℕ, List, ◌∷◌, ◌+◌, ◌/◌, ◌%◌, ◌^◌, ◌<◌, ◌++◌, length, take, replicate};
ghost use Rattle.lane_checksum.specs.Digests.{digest};
ghost use Rattle.lane_checksum.specs.PlainSum.{csum, finish_of, reduced};

mod lanes;
mod laws;

use lanes::block_sum;
pub use laws::sum_laws;

/// How many bytes are summed in lanes before their carries are brought round: an even number, within which no lane
/// overflows, and more than the largest text of this system.
const BLOCK: usize = 131_072;

/// The one's complement sum of a text: of its 16-bit words, high byte first, with one zero byte added at an odd
/// length.
pub fn sum(bytes: &[u8]) -> u16
    ensures { result ≡ csum bytes.now }
{
    let (blocks, rest) = bytes.as_chunks::<BLOCK>();
    let mut sum = 0;
    for block in blocks {
        sum = add(sum, block_sum(block));
    }
    add(sum, block_sum(rest))
}

/// The sum of a text whose front, of an even length, has sum `a` and whose rest has sum `b`: their total with its
/// carry brought round to the low end.
#[inline]
pub fn add(a: u16, b: u16) -> u16
    ensures total { result ≡ reduced (a + b) }
    ensures joins { (x y : List ℕ) → length x % 2 ≡ 0 → csum x ≡ a → csum y ≡ b → result ≡ csum (x ++ y) }
{
    let (total, carry) = a.overflowing_add(b);
    total + u16::from(carry)
}

/// The checksum field of a text whose sum, with that field 0, is `sum`: the bitwise complement, with 0xFFFF in
/// place of 0, since a UDP field of 0 says that there is no checksum.
pub fn finish(sum: u16) -> u16
    ensures value { result ≡ finish_of sum }

    // A text whose field, at an even place, is filled in has the sum 0xFFFF.
    ensures fills { (front back : List ℕ) → length front % 2 ≡ 0 → csum (front ++ 0 ∷ 0 ∷ back) ≡ sum →
        csum (front ++ result / 256 ∷ result % 256 ∷ back) ≡ 65535 }
{
    if sum == u16::MAX { u16::MAX } else { !sum }
}

/// How many bytes of a text its digest shows.
pub const HEAD_LEN: usize = 16;

/// What is shown of a text in place of the text itself.
#[derive(Debug, Clone, Copy, PartialEq, Eq)]
pub struct Digest {
    /// The length in bytes.
    pub len: u32,
    /// The first bytes, with zeros behind a shorter text.
    pub head: [u8; HEAD_LEN],
    /// The one's complement sum.
    pub sum: u16,
}

/// The digest of a text of fewer than 2^32 bytes.
pub fn digest_of(bytes: &[u8]) -> Digest
    requires { length bytes.now < 2 ^ 32 }
    ensures digest { result ≡ digest bytes.now }
    ensures len { result.len ≡ length bytes.now }
    ensures head { result.head ≡ take HEAD_LEN (bytes.now ++ replicate HEAD_LEN 0) }
    ensures sum { result.sum ≡ csum bytes.now }
{
    let mut head = [0; HEAD_LEN];
    let shown = bytes.len().min(HEAD_LEN);
    head[..shown].copy_from_slice(&bytes[..shown]);
    Digest {
        len: bytes.len() as u32,
        head,
        sum: sum(bytes),
    }
}
