//! The numbers that a storm draws.

ghost use Rattle.std.specs.Prelude.{◌≡◌, ◌≤◌, ◌<◌, ◌^◌};
ghost use Rattle.replay_model.specs.Draws.{draw};

use std::marker::Model;

/// The multiplier of Knuth's MMIX.
const MULTIPLIER: u64 = 6_364_136_223_846_793_005;

/// The increment of Knuth's MMIX.
const INCREMENT: u64 = 1_442_695_040_888_963_407;

/// A linear congruential generator modulo 2^64, of whose numbers the upper 31 bits serve. Contracts see it as its
/// state.
#[derive(Drop)]
pub struct Draws {
    x: u64,
}

impl Model for Draws {
    ghost use Rattle.std.specs.Prelude.{ℕ};

    ghost Value = { ℕ };

    ghost view = { λ draws. draws.x };
}

impl Draws {
    /// The generator that begins with this seed.
    pub fn from_seed(seed: u64) -> Self
        ensures { result ≡ seed }
    {
        Draws { x: seed }
    }

    /// Draws a number below `n`.
    pub fn draw(&mut self, n: u64) -> u64
        requires { 1 ≤ n }
        ensures drawn { record { value = result; x = self.new } ≡ draw self.old n }
        ensures below { result < n }
        ensures short { result < 2 ^ 31 }
    {
        self.x = self.x.wrapping_mul(MULTIPLIER).wrapping_add(INCREMENT);
        (self.x >> 33) % n
    }
}
