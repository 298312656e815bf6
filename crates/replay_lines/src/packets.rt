//! The lines of packets that are sent.

ghost use Rattle.std.specs.Prelude.{◌≡◌, OnOk, Some};
ghost use Rattle.call_rules.specs.Packet.{fields_of};
ghost use Rattle.replay_model.specs.Lines.{flags_text, header_text, kind_text, packet_line};
ghost use Rattle.replay_lines.specs.Page.{written};

use crate::numbers::{Decimal, Short};
use crate::text::{Page, Print};
use rpc_header::{Header, Kind};
use std::alloc::AllocError;
use std::fmt::{self, Display, Formatter};

/// Appends the line of a packet that machine `from`, a client or the server, sends to machine `to`, with its number
/// and the length of its data.
pub fn put_packet(
    out: &mut Page,
    number: usize,
    from: u8,
    to: u8,
    header: &Header,
    len: usize,
) -> Result<(), AllocError>
    ensures { OnOk result (out.new ≡ written out.old (packet_line number from to (fields_of header.now) len)) }
{
    let from = Short(from as u64);
    let to = Short(to as u64);
    let header = HeaderText(header);
    let number = Decimal(number as u64);
    let len = Short(len as u64);
    writeln!(out, "packet {number} {from}>{to} {header} {len}")
}

/// A header by its kind, its call's number with its fragment's, and its flags.
#[derive(Clone, Copy)]
struct HeaderText<'a>(&'a Header);

impl Display for HeaderText<'_> {
    ghost output = { λ h. Some (header_text (fields_of h.0.now)) };

    fn fmt<W: fmt::Write>(&self, f: &mut Formatter<W>) -> fmt::Result {
        let header = self.0;
        let kind = KindText(header.kind);
        let call = Decimal(header.call.number.value);
        let fragment = Short(header.fragment as u64);
        write!(f, "{kind} {call}/{fragment} {}", FlagsText(header))
    }
}

/// The name of a kind.
#[derive(Clone, Copy)]
struct KindText(Kind);

impl Display for KindText {
    ghost output = { λ k. Some (kind_text k.0) };

    fn fmt<W: fmt::Write>(&self, f: &mut Formatter<W>) -> fmt::Result {
        f.write_str(match self.0 {
            Kind::Call => "call",
            Kind::Result => "result",
            Kind::Ack => "ack",
            Kind::Probe => "probe",
            Kind::Reject => "reject",
            Kind::Signal => "signal",
            Kind::Bind => "bind",
            Kind::Bound => "bound",
        })
    }
}

/// The flags of a header, each a letter or a dash.
#[derive(Clone, Copy)]
struct FlagsText<'a>(&'a Header);

impl Display for FlagsText<'_> {
    ghost output = { λ h. Some (flags_text (fields_of h.0.now)) };

    fn fmt<W: fmt::Write>(&self, f: &mut Formatter<W>) -> fmt::Result {
        f.write_str(match (self.0.please_ack, self.0.last) {
            (false, false) => "--",
            (false, true) => "-l",
            (true, false) => "a-",
            (true, true) => "al",
        })
    }
}
