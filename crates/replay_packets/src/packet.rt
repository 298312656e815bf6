//! Packets that have come to a machine.

ghost use Rattle.std.specs.Prelude.{◌≡◌, ◌≤◌, ◌<◌, length, IsTrue, not, IfOk, MatchResult};
ghost use Rattle.rpc_header.specs.Spelling.{HasSpelling};
ghost use Rattle.rpc_header.specs.Versions.{fragments_in};
ghost use Rattle.call_rules.specs.Packet.{fields_of};
ghost use Rattle.call_rules.specs.Worker as rules;
ghost use Rattle.replay_model.specs.Arrival as model;
ghost use Rattle.replay_packets.specs.Packet.{packet_of};

use crate::sent::Outgoing;
use ff_io::Station;
use replay_model::Discard;
use replay_model::limits::SERVER_MACHINE;
use rpc_header::{Header, Kind, MAX_DATA, read_header};
use std::alloc::{AllocError, Global};
use std::marker::Model;
use udp_frames::read_frame;

/// The machine that clients call: machine 1.
pub const SERVER: Station = Station {
    machine: SERVER_MACHINE,
};

/// A packet that was read, whose data stands in its frame.
#[derive(Clone, Copy)]
pub struct Arrived<'a> {
    /// The machine that sent it.
    pub from: Station,
    /// The machine that it came to.
    pub to: Station,
    /// Its header.
    pub header: Header,
    /// Its data: the bytes behind the header, at most `MAX_DATA`.
    pub payload: &'a [u8],
}

/// What machine `me` makes of the bytes of a frame: the packet that they carry, whose data stays where it is,
/// or the first reason to drop them. The reasons are looked for in this order: `Frame` (no frame for this
/// machine), `Header` (its data is no header with its data), `Kind` (the machine takes no such packet) and
/// `Foreign` (the call named is not of the machine that has to make it: at the server the sender, at a client
/// the client itself).
pub fn arrive(me: Station, frame: &[u8]) -> Result<Arrived<'_>, Discard>
    ensures arrival { MatchResult result
        (λ packet. model.arrives me.machine frame.now ≡ model.Comes (packet_of packet))
        (λ why. model.arrives me.machine frame.now ≡ model.Dropped why) }
    ensures here { IfOk result (λ packet. packet.to.machine ≡ me.machine) }
    ensures spelled { IfOk result (λ packet. HasSpelling packet.header (length packet.payload.now)) }
    ensures short { IfOk result (λ packet. length packet.payload.now ≤ MAX_DATA) }
{
    let seen = read_frame(frame, me)?;
    let (header, payload) = read_header(seen.payload)?;
    if !takes_kind(me, header.kind) {
        return Err(Discard::Kind);
    }
    if header.call.activity.machine != u32::from(calling_machine(me, seen.from).machine) {
        return Err(Discard::Foreign);
    }
    Ok(Arrived {
        from: seen.from,
        to: me,
        header,
        payload,
    })
}

/// Whether a machine takes packets of this kind.
fn takes_kind(me: Station, kind: Kind) -> bool
    ensures { result ≡ model.takes_kind me.machine kind }
{
    if me == SERVER {
        matches!(kind, Kind::Call | Kind::Ack | Kind::Probe | Kind::Bind)
    } else {
        matches!(
            kind,
            Kind::Ack | Kind::Result | Kind::Signal | Kind::Reject | Kind::Bound
        )
    }
}

/// The machine whose call a packet to this machine must name.
fn calling_machine(me: Station, from: Station) -> Station
    ensures { result.machine ≡ model.calling_machine me.machine from.machine }
{
    if me == SERVER { from } else { me }
}

/// A packet that the server keeps, apart from the frame that it came in. Its header has a spelling with its data
/// behind it, so it has at most `MAX_DATA` bytes of data.
#[derive(Drop)]
pub struct Packet {
    from: Station,
    to: Station,
    header: Header,
    payload: Vec<u8>,
}

impl Model for Packet {
    ghost use Rattle.std.specs.Prelude.{length};
    ghost use Rattle.rpc_header.specs.Spelling.{HasSpelling};
    ghost use Rattle.call_rules.specs.Packet.{Packet, fields_of};

    ghost Value = { Packet };

    ghost view = { λ p. record { from = p.from.machine; to = p.to.machine; header = fields_of p.header; payload = p.payload.items } };

    ghost invariant = { λ p. HasSpelling p.header (length p.payload.items) };
}

impl Packet {
    /// A packet that was read, taken out of its frame: its data is copied. `Err` only where memory is short.
    pub fn kept(alloc: Global, arrived: &Arrived) -> Result<Self, AllocError>
        requires { HasSpelling arrived.now.header (length arrived.now.payload.now) }
        ensures { IfOk result (λ packet. packet ≡ packet_of arrived.now) }
    {
        Ok(Packet {
            from: arrived.from,
            to: arrived.to,
            header: arrived.header,
            payload: Vec::from_slice(alloc, arrived.payload)?,
        })
    }

    /// Its header. A piece of a call's arguments that isn't the last is full.
    pub fn header(&self) -> &Header
        ensures fields { fields_of result.now ≡ self.now.header }
        ensures fragment { result.now.fragment < fragments_in result.now }
        ensures full { result.now.kind ≡ Kind.Call → IsTrue (not result.now.last) → length self.now.payload ≡ MAX_DATA }
    {
        &self.header
    }

    /// Its data, at most `MAX_DATA` bytes.
    pub fn payload(&self) -> &[u8]
        ensures data { result.now ≡ self.now.payload }
        ensures short { length result.now ≤ MAX_DATA }
    {
        self.payload.as_slice()
    }

    /// A packet with this header and this data that goes back to where this one came from, in its frame. `Err`
    /// only where memory is short.
    pub fn answer(
        &self,
        alloc: Global,
        header: Header,
        payload: &[u8],
    ) -> Result<Outgoing, AllocError>
        requires { HasSpelling header (length payload.now) }
        ensures { IfOk result (λ packet. packet ≡ rules.answer_to self.now (fields_of header) payload.now) }
    {
        Outgoing::new(alloc, self.to, self.from, header, payload)
    }
}
