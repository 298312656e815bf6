// The calls of an object in memory, and which of them fail.
ghost use Rattle.std.specs.Prelude.{◌≡◌, ◌↔◌, ◌≤◌, ◌+◌, true, false, Contains, IsTrue};
ghost use Rattle.ff_io.specs.CallLog.{CallLog, NextFails, no_calls, called};

use std::marker::Model;

/// The calls that an object in memory has had. The k-th, counted from 1, fails where k stands in a list.
#[derive(Debug, Drop)]
pub struct Calls {
    fail: Vec<u64>,
    made: u64,
    faults: u64,
}

impl Model for Calls {
    ghost Value = { CallLog };

    ghost view = { λ c. record { fail = c.fail.items; made = c.made; faults = c.faults } };
}

impl Calls {
    pub fn new(fail: Vec<u64>) -> Self
        ensures { result ≡ no_calls fail.items }
    {
        Calls {
            fail,
            made: 0,
            faults: 0,
        }
    }

    /// How many have failed.
    pub fn faults(&self) -> u64
        ensures { result ≡ self.now.faults }
    {
        self.faults
    }

    /// Whether the list makes the next call fail.
    pub fn next_fails(&self) -> bool
        ensures { IsTrue result ↔ NextFails self.now }
    {
        lists_next(&self.fail, self.made)
    }

    /// Counts a call that succeeded.
    pub fn count_success(&mut self)
        ensures { self.new ≡ called false self.old }
    {
        self.made = self.made.saturating_add(1);
    }

    /// Counts a call that failed.
    pub fn count_failure(&mut self)
        ensures counted { self.new ≡ called true self.old }
        ensures grows { self.old.faults ≤ self.new.faults }
    {
        self.made = self.made.saturating_add(1);
        self.faults = self.faults.saturating_add(1);
    }
}

// Whether the list has the number of the call after so many.
fn lists_next(fail: &[u64], made: u64) -> bool
    ensures { IsTrue result ↔ Contains fail.now (made + 1) }
{
    match made.checked_add(1) {
        Some(number) => fail.contains(&number),
        None => false,
    }
}
