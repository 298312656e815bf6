//! What holds of the plain sum of every text.
ghost use Rattle.std.specs.Prelude.{◌≡◌, ℕ, List, ◌+◌, ◌%◌, ◌≤◌, ◌++◌, length, replicate};
ghost use Rattle.lane_checksum.specs.PlainSum.{csum, reduced, word_total};

/// The laws of the sum. The function does nothing: its contract is what it is for.
pub fn sum_laws()
    ensures bound { (text : List ℕ) → csum text ≤ 65535 }

    // The sum is 0 for a text of zeros, and for no other.
    ensures zeros { (n : ℕ) → csum (replicate n 0) ≡ 0 }
    ensures zero { (text : List ℕ) → csum text ≡ 0 → text ≡ replicate (length text) 0 }

    ensures joins { (x y : List ℕ) → length x % 2 ≡ 0 → csum (x ++ y) ≡ reduced (csum x + csum y) }

    // Texts with the same sum have plain totals that differ by whole rounds of 65535.
    ensures remainder { (text : List ℕ) → csum text % 65535 ≡ word_total text % 65535 }
    ensures same { (x y : List ℕ) → csum x ≡ csum y → word_total x % 65535 ≡ word_total y % 65535 }
{}
