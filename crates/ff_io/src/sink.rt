// Where bytes go to.
ghost use Rattle.std.specs.Prelude.{◌≡◌, ◌≤◌, ◌<◌, ℕ, List, Option, [], length, take, IfOk, OnOk, OnErr};
ghost use Rattle.ff_io.specs.Count.{Rose};
ghost use Rattle.ff_io.specs.Told.{Appended};

use crate::WriteFailed;

/// What bytes are written to.
pub trait Sink {
    /// How many calls have failed. A count stands still at 2^64 - 1.
    ghost faults: { Self → ℕ };

    /// The bytes that were written, where the sink tells them. It may cease to tell them.
    ghost written: { Self → Option (List ℕ) };

    /// Appends the first bytes of `bytes` to what was written, and returns how many. It is at least one byte
    /// of a slice that isn't empty.
    fn write(&mut self, bytes: &[u8]) -> Result<usize, WriteFailed>
        ensures within { IfOk result (λ n. n ≤ length bytes.now) }
        ensures progress { IfOk result (λ n. 0 < length bytes.now → 0 < n) }
        ensures appended { IfOk result (λ n. Appended (take n bytes.now) (written self.old) (written self.new)) }

        // A failed call appends nothing, and it alone is counted.
        ensures untouched { OnErr result (Appended [] (written self.old) (written self.new)) }
        ensures failed { OnErr result (Rose (faults self.old) (faults self.new)) }
        ensures still { OnOk result (faults self.new ≡ faults self.old) }
        ensures count { faults self.old ≤ faults self.new };
}
