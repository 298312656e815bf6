//! The lines of the world's second, of exports, of machines that boot anew and of numbers that are passed over.

ghost use Rattle.std.specs.Prelude.{◌≡◌, OnOk, Some};
ghost use Rattle.replay_model.specs.Record as act;
ghost use Rattle.replay_model.specs.Lines.{lines_of_act, no_export_text};
ghost use Rattle.replay_lines.specs.Page.{written};

use crate::text::{Page, Print};
use binder::ExportFault;
use rpc_header::{Activity, Export};
use std::alloc::AllocError;
use std::fmt::{self, Display, Formatter};

/// Appends the line of the world's second, which is this one now.
pub fn put_second(out: &mut Page, second: u32) -> Result<(), AllocError>
    ensures { OnOk result (out.new ≡ written out.old (lines_of_act (act.Seconds second))) }
{
    writeln!(out, "second {second}")
}

/// Appends the line of a name that the server exports now.
pub fn put_export(out: &mut Page, export: Export) -> Result<(), AllocError>
    ensures { OnOk result (out.new ≡ written out.old (lines_of_act (act.Exports export))) }
{
    writeln!(out, "export {} {}", export.index, export.identifier)
}

/// Appends the line of a name that it doesn't export, for this reason. No script prints want of memory.
pub fn put_no_export(out: &mut Page, why: ExportFault) -> Result<(), AllocError>
    ensures { OnOk result (out.new ≡ written out.old (lines_of_act (act.NoExport why))) }
{
    writeln!(out, "noexport {}", NoExportText(why))
}

/// Appends the line of an export that is taken back.
pub fn put_withdrawn(out: &mut Page, index: u16) -> Result<(), AllocError>
    ensures { OnOk result (out.new ≡ written out.old (lines_of_act (act.Withdraws index))) }
{
    writeln!(out, "withdrawn {index}")
}

/// Appends the line of a machine that has booted in this second.
pub fn put_restarted(out: &mut Page, machine: u8, second: u32) -> Result<(), AllocError>
    ensures { OnOk result (out.new ≡ written out.old (lines_of_act (act.Restarts machine second))) }
{
    writeln!(out, "restarted {machine} {second}")
}

/// Appends the line of an activity that passes over numbers, with its new next one.
pub fn put_skipped(out: &mut Page, activity: Activity, next: u64) -> Result<(), AllocError>
    ensures { OnOk result (out.new ≡ written out.old (lines_of_act (act.Skips activity next))) }
{
    writeln!(
        out,
        "skipped {}.{} {next}",
        activity.machine, activity.process
    )
}

/// The reason for which a name isn't exported.
#[derive(Clone, Copy)]
struct NoExportText(ExportFault);

impl Display for NoExportText {
    ghost output = { λ x. Some (no_export_text x.0) };

    fn fmt<W: fmt::Write>(&self, f: &mut Formatter<W>) -> fmt::Result {
        match self.0 {
            ExportFault::Exists => f.write_str("Exists"),
            ExportFault::Full => f.write_str("Full"),
            ExportFault::TooFast { next, now } => write!(f, "TooFast {next} {now}"),
            ExportFault::Memory => f.write_str("Memory"),
        }
    }
}
