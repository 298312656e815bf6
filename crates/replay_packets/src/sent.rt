//! Packets that are sent, in their frames.

ghost use Rattle.std.specs.Prelude.{◌≡◌, ◌≤◌, ◌<◌, ◌*◌, ◌++◌, length, replicate, IfOk, MatchOption};
ghost use Rattle.rpc_header.specs.Spelling.{HasSpelling, spelling};
ghost use Rattle.udp_frames.specs.Frame.{frame};
ghost use Rattle.udp_frames.specs.Damage.{flipped};
ghost use Rattle.call_rules.specs.Packet.{fields_of};
ghost use Rattle.replay_packets.specs.Sent.{sent_of};

use ff_io::Station;
use replay_model::fields_are_a_header;
use rpc_header::{HEADER_LEN, Header, a_spelling_is_32_bytes, write_header};
use std::alloc::{AllocError, Global};
use std::marker::Model;
use udp_frames::{HEADERS_LEN, write_headers};

/// The bytes of a frame in front of the packet's payload.
const ALL_HEADERS: usize = HEADERS_LEN + HEADER_LEN;

/// A packet that is about to be sent: its header, and the frame that carries it.
#[derive(Drop)]
pub struct Outgoing {
    from: Station,
    to: Station,
    header: Header,
    frame: Vec<u8>,
}

impl Model for Outgoing {
    ghost use Rattle.std.specs.Prelude.{◌≡◌};
    ghost use Rattle.call_rules.specs.Packet.{Packet};
    ghost use Rattle.replay_model.specs.Arrival.{frame_of};
    ghost use Rattle.replay_packets.specs.Sent.{packet_in};

    ghost Value = { Packet };

    ghost view = { λ p. packet_in p.from.machine p.to.machine p.header p.frame.items };

    ghost invariant = { λ p. p.frame.items ≡ frame_of (packet_in p.from.machine p.to.machine p.header p.frame.items) };
}

impl Outgoing {
    /// The packet with this header and this payload, in the frame in which `from` sends it to `to`. `Err` only
    /// where memory is short.
    pub fn new(
        alloc: Global,
        from: Station,
        to: Station,
        header: Header,
        payload: &[u8],
    ) -> Result<Self, AllocError>
        requires { HasSpelling header (length payload.now) }
        ensures { IfOk result (λ p. p ≡ record { from = from.machine; to = to.machine; header = fields_of header; payload = payload.now }) }
    {
        fields_are_a_header();
        a_spelling_is_32_bytes();
        let frame = framed(alloc, from, to, &header, payload)?;
        Ok(Outgoing {
            from,
            to,
            header,
            frame,
        })
    }

    /// The machine that sends it.
    pub fn from(&self) -> Station
        ensures { result.machine ≡ self.now.from }
    {
        self.from
    }

    /// The machine that it goes to.
    pub fn to(&self) -> Station
        ensures { result.machine ≡ self.now.to }
    {
        self.to
    }

    /// Its header.
    pub fn header(&self) -> &Header
        ensures { fields_of result.now ≡ self.now.header }
    {
        &self.header
    }

    /// How many bytes its payload has, without the headers.
    pub fn payload_len(&self) -> usize
        ensures { result ≡ length self.now.payload }
    {
        self.frame.len().saturating_sub(ALL_HEADERS)
    }

    /// What stays of it in the bag.
    pub fn sent(self) -> Sent
        ensures { result ≡ sent_of self }
    {
        Sent {
            to: self.to,
            frame: self.frame,
        }
    }
}

/// The frame around a header and a payload, built where it stays.
fn framed(
    alloc: Global,
    from: Station,
    to: Station,
    header: &Header,
    payload: &[u8],
) -> Result<Vec<u8>, AllocError>
    requires { HasSpelling header.now (length payload.now) }
    ensures { IfOk result (λ v. v.items ≡ frame from.machine to.machine (spelling header.now (length payload.now) ++ payload.now)) }
{
    a_spelling_is_32_bytes();
    let mut frame = unframed(alloc, header, payload)?;
    write_headers(&mut frame, from, to, HEADER_LEN + payload.len());
    Ok(frame)
}

/// The room for the headers of a frame, and behind it what the frame carries.
fn unframed(alloc: Global, header: &Header, payload: &[u8]) -> Result<Vec<u8>, AllocError>
    requires { HasSpelling header.now (length payload.now) }
    ensures { IfOk result (λ v. v.items ≡ replicate HEADERS_LEN 0 ++ (spelling header.now (length payload.now) ++ payload.now)) }
{
    let mut spelled = [0; HEADER_LEN];
    write_header(header, payload.len(), &mut spelled);
    let mut bytes = Vec::with_capacity(alloc, ALL_HEADERS + payload.len())?;
    bytes.extend_from_slice(&[0; HEADERS_LEN])?;
    bytes.extend_from_slice(&spelled)?;
    bytes.extend_from_slice(payload)?;
    Ok(bytes)
}

/// A packet that was sent: the frame that carries it, and the machine that it goes to.
#[derive(Drop)]
pub struct Sent {
    to: Station,
    frame: Vec<u8>,
}

impl Model for Sent {
    ghost use Rattle.replay_packets.specs.Sent.{SentFrame};

    ghost Value = { SentFrame };

    ghost view = { λ s. record { to = s.to.machine; frame = s.frame.items } };
}

impl Sent {
    /// The machine that it goes to.
    pub fn to(&self) -> Station
        ensures { result.machine ≡ self.now.to }
    {
        self.to
    }

    /// The bytes of its frame, from the first of the Ethernet destination on.
    pub fn frame(&self) -> &[u8]
        ensures { result.now ≡ self.now.frame }
    {
        self.frame.as_slice()
    }

    /// A copy of the frame with one bit flipped, or `None` where it has no such bit. Bits count from 0, the
    /// highest of the first byte; a frame of n bytes has 8 n. `Err` only where memory is short.
    pub fn damaged(&self, alloc: Global, bit: u16) -> Result<Option<Vec<u8>>, AllocError>
        ensures { IfOk result (λ damaged. MatchOption damaged (8 * length self.now.frame ≤ bit)
            (λ frame. (bit < 8 * length self.now.frame) × (frame.items ≡ flipped self.now.frame bit))) }
    {
        let place = usize::from(bit / 8);
        if place >= self.frame.len() {
            return Ok(None);
        }
        let mut frame = Vec::from_slice(alloc, self.frame.as_slice())?;
        frame[place] ^= 0x80 >> (bit % 8);
        Ok(Some(frame))
    }
}
