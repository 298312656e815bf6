// Reading a source to its end.
ghost use Rattle.std.specs.Prelude.{◌≡◌, ◌↔◌, ◌≤◌, ◌<◌, ◌+◌, ℕ, List, [], length, IfOk, IfSome, OnOk, IsErrOf, vec_len};
ghost use Rattle.ff_io.specs.Count.{Rose};
ghost use Rattle.ff_io.specs.Told.{Gave};
ghost use Rattle.ff_io.specs.declared.reading.ReadAll.TheVariants.{Failed, Memory};

use crate::{ReadFailed, Source};
use std::alloc::{AllocError, Global};
use thiserror::Error;

/// Why a source wasn't read to its end.
#[derive(Clone, Copy, Debug, PartialEq, Eq, Error)]
pub enum ReadAll {
    /// A read failed.
    #[error("a read failed")]
    Failed = 1,
    /// There are more bytes than the limit.
    #[error("the input is too long")]
    TooLong = 2,
    /// There is no memory for them.
    #[error("out of memory")]
    Memory = 3,
}

impl From<ReadFailed> for ReadAll {
    ghost from_gives = { λ _ e. e ≡ Failed };

    fn from(_: ReadFailed) -> Self {
        ReadAll::Failed
    }
}

impl From<AllocError> for ReadAll {
    ghost from_gives = { λ _ e. e ≡ Memory };

    fn from(_: AllocError) -> Self {
        ReadAll::Memory
    }
}

// How many bytes one read asks for at most.
const CHUNK: usize = 4096;

/// Reads to the end, where at most `limit` bytes are left. What comes first decides: the end, a read that
/// fails, byte `limit + 1`, or want of memory.
pub fn read_all<S: Source>(alloc: Global, source: &mut S, limit: usize) -> Result<Vec<u8>, ReadAll>
    // All that was left, and nothing is left now.
    ensures all { IfOk result (λ bytes. IfSome (S.left source.old) (λ left. bytes.items ≡ left)) }
    ensures end { OnOk result (IfSome (S.left source.new) (λ left. left ≡ [])) }
    ensures fits { IfOk result (λ bytes. vec_len bytes ≤ limit) }

    // `TooLong` comes exactly where `limit + 1` bytes were read, and more are never read.
    ensures too_long { IsErrOf result ReadAll.TooLong →
        IfSome (S.left source.old) (λ left. limit < length left) }
    ensures read { (bytes : List ℕ) × Gave bytes (S.left source.old) (S.left source.new)
        × (length bytes ≤ limit + 1) × (IsErrOf result ReadAll.TooLong ↔ (length bytes ≡ limit + 1)) }

    // `Failed` comes exactly where the count rose: no read is tried again after one that failed.
    ensures failed { IsErrOf result ReadAll.Failed → Rose (S.faults source.old) (S.faults source.new) }
    ensures counted { S.faults source.old < S.faults source.new → IsErrOf result ReadAll.Failed }
    ensures still { (IsErrOf result ReadAll.Failed → ⊥) → S.faults source.new ≡ S.faults source.old }
    ensures count { S.faults source.old ≤ S.faults source.new }
{
    let mut bytes = Vec::new(alloc);
    let mut chunk = [0u8; CHUNK];
    loop {
        let room = limit - bytes.len();
        let most = room.saturating_add(1).min(CHUNK);
        let n = source.read(&mut chunk[..most])?;
        if n == 0 {
            return Ok(bytes);
        }
        if n > room {
            return Err(ReadAll::TooLong);
        }
        bytes.extend_from_slice(&chunk[..n])?;
    }
}
