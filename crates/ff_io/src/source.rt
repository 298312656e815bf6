// Where bytes come from.
ghost use Rattle.std.specs.Prelude.{◌≡◌, ◌↔◌, ◌≤◌, ◌<◌, ℕ, List, Option, [], length, take, IfOk, OnOk, OnErr, IfSome};
ghost use Rattle.ff_io.specs.Count.{Rose};
ghost use Rattle.ff_io.specs.Told.{Gave};

use crate::ReadFailed;

/// What bytes are read from.
pub trait Source {
    /// How many calls have failed. A count stands still at 2^64 - 1.
    ghost faults: { Self → ℕ };

    /// The bytes that are left to read, where the source tells them.
    ghost left: { Self → Option (List ℕ) };

    /// Reads the next bytes into the front of `into`, and returns how many. None into a slice that isn't
    /// empty is the end of the input.
    fn read(&mut self, into: &mut [u8]) -> Result<usize, ReadFailed>
        ensures within { IfOk result (λ n. n ≤ length into.new) }

        // What was left are the bytes that were given, and then what is left now.
        ensures given { IfOk result (λ n. Gave (take n into.new) (left self.old) (left self.new)) }
        ensures end { IfOk result (λ n. 0 < length into.new →
            IfSome (left self.old) (λ bytes. (n ≡ 0) ↔ (bytes ≡ []))) }

        // A failed call takes nothing, and it alone is counted.
        ensures untouched { OnErr result (left self.new ≡ left self.old) }
        ensures failed { OnErr result (Rose (faults self.old) (faults self.new)) }
        ensures still { OnOk result (faults self.new ≡ faults self.old) }
        ensures count { faults self.old ≤ faults self.new };
}
