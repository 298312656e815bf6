//! What a caller sends.

ghost use Rattle.std.specs.Prelude.{◌≡◌, Some, true, false};
ghost use Rattle.call_rules.specs.Packet.{fields_of};
ghost use Rattle.call_rules.specs.Caller as rules;

use super::{Caller, NO_EXPORT};
use crate::action::Action;
use crate::state::State;
use rpc_header::{Header, Kind};

/// Headers of packets, each of which names the caller's call and cell.
impl Caller {
    ghost use Rattle.caller_core.specs.Action.{act_of};

    pub(super) fn first_sending(&self, piece: u16) -> Header
        ensures { fields_of result ≡ rules.first_sending self.now piece }
    {
        let last = piece == self.last_piece;
        Header {
            please_ack: !last,
            last,
            ..self.header(Kind::Call, piece)
        }
    }

    pub(super) fn acknowledgement(&self, piece: u16) -> Header
        ensures { fields_of result ≡ rules.acknowledgement self.now piece }
    {
        self.header(Kind::Ack, piece)
    }

    pub(super) fn bind(&self) -> Header
        ensures { fields_of result ≡ rules.bind self.now }
    {
        Header {
            export: NO_EXPORT,
            procedure: 0,
            ..self.header(Kind::Bind, 0)
        }
    }

    pub(super) fn sent_again(&self) -> Action
        ensures { act_of result ≡ rules.sent_again self.now self.now.state }
    {
        let (header, piece) = match self.state {
            State::Idle => return Action::Unused,
            State::Sending(piece) => (asking(self.first_sending(piece)), Some(piece)),
            State::Waiting => (self.probe(), None),
            State::Receiving { kept } => (self.acknowledgement(kept), None),
            State::Binding => (self.bind(), Some(0)),
        };
        Action::Send { header, piece }
    }

    fn probe(&self) -> Header
        ensures { fields_of result ≡ rules.probe self.now }
    {
        asking(self.header(Kind::Probe, self.last_piece))
    }

    /// A header that asks for nothing, of the only or last piece.
    fn header(&self, kind: Kind, fragment: u16) -> Header
        ensures { fields_of result ≡ rules.caller_header self.now kind false true fragment }
    {
        Header {
            kind,
            please_ack: false,
            last: true,
            reason: 0,
            call: self.call(),
            hint: self.hint,
            fragment,
            export: self.export,
            procedure: self.procedure,
        }
    }
}

/// The same packet, which asks for an acknowledgement.
fn asking(header: Header) -> Header
    ensures { fields_of result ≡ record (fields_of header) { please_ack = true } }
{
    Header {
        please_ack: true,
        ..header
    }
}
