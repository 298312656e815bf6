//! The lines of workers.

ghost use Rattle.std.specs.Prelude.{◌≡◌, OnOk, Some};
ghost use Rattle.replay_model.specs.Record as act;
ghost use Rattle.replay_model.specs.Lines.{did_text, unfit_text, lines_of_act};
ghost use Rattle.replay_lines.specs.Page.{written};

use crate::numbers::{Decimal, Short};
use crate::text::{Page, Print};
use call_rules::{Did, Unfit};
use std::alloc::AllocError;
use std::fmt::{self, Display, Formatter};

/// Appends the line of a worker that finds nothing to do.
pub fn put_idle(out: &mut Page, worker: u8) -> Result<(), AllocError>
    ensures { OnOk result (out.new ≡ written out.old (lines_of_act (act.Idles worker))) }
{
    writeln!(out, "worker {worker} idle")
}

/// Appends the line of a worker's step for a call of this number.
pub fn put_work(out: &mut Page, worker: u8, number: u64, did: Did) -> Result<(), AllocError>
    ensures { OnOk result (out.new ≡ written out.old (lines_of_act (act.Works worker number did))) }
{
    let worker = Short(worker as u64);
    writeln!(out, "worker {worker} {}", DidText { number, did })
}

/// What a worker did for a call of this number.
#[derive(Clone, Copy)]
struct DidText {
    number: u64,
    did: Did,
}

impl Display for DidText {
    ghost output = { λ d. Some (did_text d.number d.did) };

    fn fmt<W: fmt::Write>(&self, f: &mut Formatter<W>) -> fmt::Result {
        let number = Decimal(self.number);
        match self.did {
            Did::Claims => write!(f, "claims {number}"),
            Did::Admits => write!(f, "admits {number}"),
            Did::Runs => write!(f, "runs {number}"),
            Did::Replies => write!(f, "replies {number}"),
            Did::Begins => write!(f, "begins {number}"),
            Did::Takes => write!(f, "takes {number}"),
            Did::Rests => write!(f, "rests {number}"),
            Did::Fetches => write!(f, "fetches {number}"),
            Did::Resends => write!(f, "resends {number}"),
            Did::Acks => write!(f, "acks {number}"),
            Did::Answers => write!(f, "answers {number}"),
            Did::Rejects(reason) => write!(f, "rejects {number} {reason}"),
            Did::Waits => f.write_str("waits"),
            Did::Drops(why) => write!(f, "drops {}", UnfitText(why)),
        }
    }
}

/// The name of a reason to drop a packet.
#[derive(Clone, Copy)]
struct UnfitText(Unfit);

impl Display for UnfitText {
    ghost output = { λ u. Some (unfit_text u.0) };

    fn fmt<W: fmt::Write>(&self, f: &mut Formatter<W>) -> fmt::Result {
        f.write_str(match self.0 {
            Unfit::Older => "Older",
            Unfit::Same => "Same",
            Unfit::Busy => "Busy",
            Unfit::Unknown => "Unknown",
            Unfit::Skipped => "Skipped",
            Unfit::Lost => "Lost",
            Unfit::Full => "Full",
            Unfit::NoBuffer => "NoBuffer",
            Unfit::BadName => "BadName",
        })
    }
}
