//! The lines of deliveries that hand no packet on to a caller.

ghost use Rattle.std.specs.Prelude.{◌≡◌, OnOk, Some};
ghost use Rattle.replay_model.specs.Record as act;
ghost use Rattle.replay_model.specs.Lines.{lines_of_act, discard_text, frame_fault_text, header_fault_text};
ghost use Rattle.replay_lines.specs.Page.{written};

use crate::bytes::Hex;
use crate::numbers::Decimal;
use crate::text::{Page, Print};
use replay_model::Discard;
use rpc_header::HeaderFault;
use std::alloc::AllocError;
use std::fmt::{self, Display, Formatter};
use udp_frames::FrameFault;

/// Appends the line of a packet that comes to the server's ready ones.
pub fn put_ready(out: &mut Page, packet: u32) -> Result<(), AllocError>
    ensures { OnOk result (out.new ≡ written out.old (lines_of_act (act.Readies packet))) }
{
    writeln!(out, "ready {}", Decimal(packet as u64))
}

/// Appends the line of a delivery that ends without a packet handed on.
pub fn put_discard(out: &mut Page, why: Discard) -> Result<(), AllocError>
    ensures { OnOk result (out.new ≡ written out.old (lines_of_act (act.Discards why))) }
{
    writeln!(out, "drop {}", DiscardText(why))
}

/// Appends the line that shows a packet's frame: the packet's number, and the length and the bytes of the frame.
pub fn put_frame(out: &mut Page, number: u32, frame: &[u8]) -> Result<(), AllocError>
    ensures { OnOk result (out.new ≡ written out.old (lines_of_act (act.Shows number frame.now))) }
{
    writeln!(out, "frame {number} {} {}", frame.len(), Hex(frame))
}

/// The reason for which a delivery ends.
#[derive(Clone, Copy)]
struct DiscardText(Discard);

impl Display for DiscardText {
    ghost output = { λ d. Some (discard_text d.0) };

    fn fmt<W: fmt::Write>(&self, f: &mut Formatter<W>) -> fmt::Result {
        match self.0 {
            Discard::Frame(fault) => write!(f, "frame {}", FrameFaultText(fault)),
            Discard::Header(fault) => write!(f, "header {}", HeaderFaultText(fault)),
            Discard::Kind => f.write_str("Kind"),
            Discard::Foreign => f.write_str("Foreign"),
            Discard::NoBuffer => f.write_str("NoBuffer"),
            Discard::NoRoom => f.write_str("NoRoom"),
            Discard::NoCell => f.write_str("NoCell"),
            Discard::Stale => f.write_str("Stale"),
            Discard::Taken => f.write_str("Taken"),
            Discard::Lost => f.write_str("Lost"),
            Discard::Unused => f.write_str("Unused"),
        }
    }
}

/// The name of a frame's fault.
#[derive(Clone, Copy)]
struct FrameFaultText(FrameFault);

impl Display for FrameFaultText {
    ghost output = { λ x. Some (frame_fault_text x.0) };

    fn fmt<W: fmt::Write>(&self, f: &mut Formatter<W>) -> fmt::Result {
        f.write_str(match self.0 {
            FrameFault::Short => "Short",
            FrameFault::NotForUs => "NotForUs",
            FrameFault::NotIp => "NotIp",
            FrameFault::Version => "Version",
            FrameFault::Options => "Options",
            FrameFault::IpLength => "IpLength",
            FrameFault::IpFragment => "IpFragment",
            FrameFault::NotUdp => "NotUdp",
            FrameFault::IpChecksum => "IpChecksum",
            FrameFault::Address => "Address",
            FrameFault::Port => "Port",
            FrameFault::UdpLength => "UdpLength",
            FrameFault::NoChecksum => "NoChecksum",
            FrameFault::UdpChecksum => "UdpChecksum",
        })
    }
}

/// The name of a header's fault.
#[derive(Clone, Copy)]
struct HeaderFaultText(HeaderFault);

impl Display for HeaderFaultText {
    ghost output = { λ x. Some (header_fault_text x.0) };

    fn fmt<W: fmt::Write>(&self, f: &mut Formatter<W>) -> fmt::Result {
        f.write_str(match self.0 {
            HeaderFault::Short => "Short",
            HeaderFault::Version => "Version",
            HeaderFault::Kind => "Kind",
            HeaderFault::Flags => "Flags",
            HeaderFault::Reason => "Reason",
            HeaderFault::Length => "Length",
            HeaderFault::Reserved => "Reserved",
            HeaderFault::ShortFragment => "ShortFragment",
            HeaderFault::FragmentNumber => "FragmentNumber",
        })
    }
}
