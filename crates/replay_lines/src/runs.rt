//! The lines of the journal.

ghost use Rattle.std.specs.Prelude.{◌≡◌, List, map, OnOk, Some};
ghost use Rattle.call_rules.specs.Worker.{Run};
ghost use Rattle.replay_model.specs.Record as act;
ghost use Rattle.replay_model.specs.Lines.{lines_of_act, procedure_text, run_text};
ghost use Rattle.replay_model.specs.Digests.{run_digest};
ghost use Rattle.replay_lines.specs.Page.{written};

use crate::bytes::{BytesText, ReplyText};
use crate::calls::CallText;
use crate::text::{Page, Print};
use replay_model::{ADD, BUMP, MAX_ARG, MAX_RESULT, NULL, RunLine};
use std::alloc::AllocError;
use std::fmt::{self, Display, Formatter};

/// Appends the journal: the line of each run, or one line that says that there is none.
pub fn put_runs(out: &mut Page, runs: &[RunLine]) -> Result<(), AllocError>
    ensures { (journal : List Run) → runs.now ≡ map run_digest journal →
        OnOk result (out.new ≡ written out.old (lines_of_act (act.ListsRuns journal))) }
{
    if runs.is_empty() {
        return writeln!(out, "journal empty");
    }
    for (i, run) in runs.iter().enumerate() {
        writeln!(out, "run {} {}", i + 1, RunText(run))?;
    }
    Ok(())
}

/// A run as it is printed.
#[derive(Clone, Copy)]
struct RunText<'a>(&'a RunLine);

impl Display for RunText<'_> {
    ghost output = { λ r. Some (run_text r.0.now) };

    fn fmt<W: fmt::Write>(&self, f: &mut Formatter<W>) -> fmt::Result {
        let run = self.0;
        let call = CallText(run.call);
        let procedure = ProcedureText(run.procedure);
        let arguments = BytesText(run.arguments);
        let reply = ReplyText {
            signal: run.signal,
            reply: run.reply,
        };
        write!(f, "{call} {procedure} {arguments} -> {reply}")
    }
}

/// A procedure by its name, where the test service has it.
#[derive(Clone, Copy)]
struct ProcedureText(u16);

impl Display for ProcedureText {
    ghost output = { λ p. Some (procedure_text p.0) };

    fn fmt<W: fmt::Write>(&self, f: &mut Formatter<W>) -> fmt::Result {
        match self.0 {
            NULL => f.write_str("null"),
            ADD => f.write_str("add"),
            BUMP => f.write_str("bump"),
            MAX_ARG => f.write_str("maxarg"),
            MAX_RESULT => f.write_str("maxresult"),
            number => write!(f, "{number}"),
        }
    }
}
