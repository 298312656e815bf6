//! The summary of a storm.

ghost use Rattle.std.specs.Prelude.{◌≡◌, ◌++◌, OnOk};
ghost use Rattle.replay_model.specs.Summary.{count_line, summary_text};

use replay_lines::Print;
use replay_model::StormOptions;
use std::alloc::AllocError;
use std::marker::Model;

/// What became of the calls of a storm, and how many packets were sent.
#[derive(Drop)]
pub struct Summary {
    /// The accepted starts of calls.
    pub started: u64,
    /// The runs of bodies.
    pub runs: u64,
    /// The calls that returned without a signal.
    pub returned: u64,
    /// The calls that returned by a signal.
    pub signalled: u64,
    /// The calls that nobody answered.
    pub failed: u64,
    /// The calls that the server refused.
    pub refused: u64,
    /// The calls that were open at their client's restart.
    pub lost: u64,
    /// The calls that are open at the end.
    pub still_open: u64,
    /// The packets that were sent.
    pub packets: u64,
}

impl Model for Summary {
    ghost use Rattle.replay_model.specs.Summary.{Summary};

    ghost Value = { Summary };

    ghost view = { λ s. record {
      started = s.started;
      runs = s.runs;
      returned = s.returned;
      signalled = s.signalled;
      failed = s.failed;
      refused = s.refused;
      lost = s.lost;
      still_open = s.still_open;
      packets = s.packets;
    } };
}

/// Appends the lines of the summary of a storm.
pub fn put_summary(
    out: &mut Vec<u8>,
    options: &StormOptions,
    summary: &Summary,
) -> Result<(), AllocError>
    ensures { OnOk result (out.new.items ≡ out.old.items ++ summary_text options.now.seed options.now.calls summary.now) }
{
    writeln!(out, "storm {} {}", options.seed, options.calls)?;
    put_count(out, "started", summary.started)?;
    put_count(out, "runs", summary.runs)?;
    put_count(out, "returned", summary.returned)?;
    put_count(out, "signalled", summary.signalled)?;
    put_count(out, "failed", summary.failed)?;
    put_count(out, "refused", summary.refused)?;
    put_count(out, "lost", summary.lost)?;
    put_count(out, "open", summary.still_open)?;
    put_count(out, "packets", summary.packets)
}

/// Appends a line with a name and a number.
fn put_count(out: &mut Vec<u8>, name: &str, count: u64) -> Result<(), AllocError>
    ensures { OnOk result (out.new.items ≡ out.old.items ++ count_line name.now count) }
{
    writeln!(out, "{name} {count}")
}
