//! The lines of calls and binds: how they start and how they end.

ghost use Rattle.std.specs.Prelude.{◌≡◌, OnOk, Some};
ghost use Rattle.rpc_header.specs.declared.Activity.{Activity};
ghost use Rattle.call_rules.specs.Packet.{call_of};
ghost use Rattle.replay_model.specs.Record as act;
ghost use Rattle.replay_model.specs.Record.{Start, Unanswered, RefusedFor};
ghost use Rattle.replay_model.specs.Lines.{call_text, lines_of_act, return_line};
ghost use Rattle.replay_lines.specs.Page.{written};

use crate::bytes::{BytesText, ExceptionText};
use crate::numbers::{Decimal, Short};
use crate::text::{Page, Print};
use call_rules::TRIES;
use lane_checksum::Digest;
use rpc_header::{CallId, Export};
use std::alloc::AllocError;
use std::fmt::{self, Display, Formatter};

/// A call by its machine, its process and its number.
#[derive(Clone, Copy)]
pub(crate) struct CallText(pub CallId);

impl Display for CallText {
    ghost output = { λ c. Some (call_text (call_of c.0)) };

    fn fmt<W: fmt::Write>(&self, f: &mut Formatter<W>) -> fmt::Result {
        let CallId { activity, number } = self.0;
        let machine = Short(activity.machine as u64);
        let process = Short(activity.process as u64);
        write!(f, "{machine}.{process} {}", Decimal(number.value))
    }
}

/// Appends the line of an event that can't happen now.
pub fn put_impossible(out: &mut Page) -> Result<(), AllocError>
    ensures { OnOk result (out.new ≡ written out.old (lines_of_act act.Impossible)) }
{
    writeln!(out, "impossible")
}

/// Appends the line of a call that was started.
pub fn put_start(out: &mut Page, call: CallId) -> Result<(), AllocError>
    ensures { (start : Start) → start.call ≡ call_of call →
        OnOk result (out.new ≡ written out.old (lines_of_act (act.Starts start))) }
{
    writeln!(out, "start {}", CallText(call))
}

/// Appends the line of a bind that was started.
pub fn put_bind(out: &mut Page, call: CallId) -> Result<(), AllocError>
    ensures { OnOk result (out.new ≡ written out.old (lines_of_act (act.Binds (call_of call)))) }
{
    writeln!(out, "bind {}", CallText(call))
}

/// Appends the line of a refused start of a call or a bind, with the number that it would have had, and the second.
pub fn put_too_fast(out: &mut Page, number: u64, second: u32) -> Result<(), AllocError>
    ensures { (activity : Activity) →
        OnOk result (out.new ≡ written out.old (lines_of_act (act.TooFast activity number second))) }
{
    writeln!(out, "nostart TooFast {number} {second}")
}

/// Appends the line of a call that returned, by a signal or not, with the digest of its reply.
pub fn put_return(
    out: &mut Page,
    call: CallId,
    signal: bool,
    reply: Digest,
) -> Result<(), AllocError>
    ensures { OnOk result (out.new ≡ written out.old (return_line (call_of call) signal reply)) }
{
    let call = CallText(call);
    if signal {
        writeln!(out, "signalled {call} {}", ExceptionText(reply))
    } else {
        writeln!(out, "returned {call} {}", BytesText(reply))
    }
}

/// Appends the line of a call that the server has, and works on.
pub fn put_waiting(out: &mut Page, call: CallId) -> Result<(), AllocError>
    ensures { OnOk result (out.new ≡ written out.old (lines_of_act (act.TellsWaiting (call_of call)))) }
{
    writeln!(out, "waiting {}", CallText(call))
}

/// Appends the line of a call that failed, since none of its last transmissions was answered.
pub fn put_failure(out: &mut Page, call: CallId) -> Result<(), AllocError>
    ensures { OnOk result (out.new ≡ written out.old (lines_of_act (act.Fails (call_of call) Unanswered))) }
{
    writeln!(out, "failed {} {TRIES}", CallText(call))
}

/// Appends the line of a call that failed, since the server refused it for this reason.
pub fn put_refusal(out: &mut Page, call: CallId, reason: u8) -> Result<(), AllocError>
    ensures { OnOk result (out.new ≡ written out.old (lines_of_act (act.Fails (call_of call) (RefusedFor reason)))) }
{
    writeln!(out, "refused {} {reason}", CallText(call))
}

/// Appends the line of a bind that failed, since none of its transmissions was answered.
pub fn put_bind_failure(out: &mut Page, call: CallId) -> Result<(), AllocError>
    ensures { OnOk result (out.new ≡ written out.old (lines_of_act (act.BindFails (call_of call)))) }
{
    writeln!(out, "bindfailed {} {TRIES}", CallText(call))
}

/// Appends the line of a bind that has found this export.
pub fn put_bound(out: &mut Page, call: CallId, export: Export) -> Result<(), AllocError>
    ensures { OnOk result (out.new ≡ written out.old (lines_of_act (act.BindsTo (call_of call) export))) }
{
    let call = CallText(call);
    writeln!(out, "bound {call} {} {}", export.index, export.identifier)
}

/// Appends the line of a bind that has found no export.
pub fn put_unbound(out: &mut Page, call: CallId) -> Result<(), AllocError>
    ensures { OnOk result (out.new ≡ written out.old (lines_of_act (act.Unbinds (call_of call)))) }
{
    writeln!(out, "unbound {}", CallText(call))
}

/// Appends the line of ticks in which nothing happened.
pub fn put_quiet(out: &mut Page) -> Result<(), AllocError>
    ensures { OnOk result (out.new ≡ written out.old (lines_of_act act.Quiet)) }
{
    writeln!(out, "quiet")
}
