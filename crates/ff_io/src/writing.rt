// Writing all of a slice.
ghost use Rattle.std.specs.Prelude.{◌≡◌, ◌≤◌, ◌<◌, ℕ, length, take, OnOk, OnErr};
ghost use Rattle.ff_io.specs.Count.{Rose};
ghost use Rattle.ff_io.specs.Told.{Appended};

use crate::{Sink, WriteFailed};

/// Writes all bytes. Where a write fails, a part of them was written, from the first on.
pub fn write_all<K: Sink>(sink: &mut K, bytes: &[u8]) -> Result<(), WriteFailed>
    ensures all { OnOk result (Appended bytes.now (K.written sink.old) (K.written sink.new)) }
    ensures part { OnErr result ((n : ℕ) × (n < length bytes.now)
        × Appended (take n bytes.now) (K.written sink.old) (K.written sink.new)) }

    // It fails exactly where the count rose: no write is tried again after one that failed.
    ensures failed { OnErr result (Rose (K.faults sink.old) (K.faults sink.new)) }
    ensures still { OnOk result (K.faults sink.new ≡ K.faults sink.old) }
    ensures count { K.faults sink.old ≤ K.faults sink.new }
{
    let mut at = 0;
    while at < bytes.len() {
        at += sink.write(&bytes[at..])?;
    }
    Ok(())
}
