//! The counts of calls, and the last line, which shows them.

ghost use Rattle.std.specs.Prelude.{◌≡◌, ◌<◌, ◌^◌, OnOk};
ghost use Rattle.replay_model.specs.Record as act;
ghost use Rattle.replay_model.specs.Record.{counts_of, no_records};
ghost use Rattle.replay_model.specs.Lines.{lines_of_act};
ghost use Rattle.replay_lines.specs.Counts.{counts_run, counts_return, counts_failure, counts_refusal};
ghost use Rattle.replay_lines.specs.Page.{written};

use crate::text::{Page, Print};
use std::alloc::AllocError;
use std::marker::Model;

/// How many calls ran, and how they ended for their callers.
#[derive(Drop)]
pub struct Counts {
    /// The runs of bodies.
    pub runs: u64,
    /// The calls that returned without a signal.
    pub returned: u64,
    /// The calls that returned by a signal.
    pub signalled: u64,
    /// The calls that nobody answered.
    pub failed: u64,
    /// The calls that the server refused.
    pub refused: u64,
}

impl Model for Counts {
    ghost use Rattle.replay_model.specs.Record.{Counts};

    ghost Value = { Counts };

    ghost view = { λ c. record { runs = c.runs; returned = c.returned; signalled = c.signalled; failed = c.failed; refused = c.refused } };
}

impl Counts {
    /// Makes counts of no run and no end of a call.
    pub fn none() -> Self
        ensures { result ≡ counts_of no_records }
    {
        Counts {
            runs: 0,
            returned: 0,
            signalled: 0,
            failed: 0,
            refused: 0,
        }
    }

    /// Counts a run of a body.
    pub fn count_run(&mut self)
        requires { self.old.runs < 2 ^ 63 }
        ensures { self.new ≡ counts_run self.old }
    {
        self.runs += 1;
    }

    /// Counts a call that has returned, by a signal or not.
    pub fn count_return(&mut self, signal: bool)
        requires returned { self.old.returned < 2 ^ 63 }
        requires signalled { self.old.signalled < 2 ^ 63 }
        ensures { self.new ≡ counts_return self.old signal }
    {
        if signal {
            self.signalled += 1;
        } else {
            self.returned += 1;
        }
    }

    /// Counts a call that failed, since nobody answered.
    pub fn count_failure(&mut self)
        requires { self.old.failed < 2 ^ 63 }
        ensures { self.new ≡ counts_failure self.old }
    {
        self.failed += 1;
    }

    /// Counts a call that failed, since the server refused it.
    pub fn count_refusal(&mut self)
        requires { self.old.refused < 2 ^ 63 }
        ensures { self.new ≡ counts_refusal self.old }
    {
        self.refused += 1;
    }
}

/// Appends the last line, which shows the counts.
pub fn put_end(out: &mut Page, counts: &Counts) -> Result<(), AllocError>
    ensures { OnOk result (out.new ≡ written out.old (lines_of_act (act.Ends counts.now))) }
{
    let Counts {
        runs,
        returned,
        signalled,
        failed,
        refused,
    } = *counts;
    writeln!(
        out,
        "end runs {runs} returned {returned} signalled {signalled} failed {failed} refused {refused}"
    )
}
