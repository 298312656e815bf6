//! A small packet's bytes, header and data.
ghost use Rattle.std.specs.Prelude.{◌≡◌, ◌+◌, ◌≤◌, ◌<◌, ◌↔◌, ◌++◌, ℕ, List, IsTrue, length, take, drop, slice_range, Ok, Err, MatchResult, IfOk, OnOk, OnErr};
ghost use Rattle.std.specs.Borrow.{sem};
ghost use Rattle.rpc_header.specs.Reading.{Accepted, read_of};
ghost use Rattle.rpc_header.specs.Spelling.{HasSpelling, spelling};
ghost use Rattle.packet_pool.specs.Packets.{number_of, content};
ghost use Rattle.packet_pool.specs.Contents.{payload_of, frame_of, packet_frame, reads_packet};
ghost use Rattle.packet_pool.specs.Lending.{LendsBytes, LendsData};

use crate::packet::{DATA_AT, Packet, Unread};
use ff_io::Station;
use fragments::PIECE;
use packet_board::SMALL_BYTES;
use rpc_header::{HEADER_LEN, Header, a_spelling_is_32_bytes, read_header, write_header};
use udp_frames::{HEADERS_LEN, read_frame, write_headers};

impl Packet {
    /// Whether n is its buffer.
    pub fn has(&self, n: u16) -> bool
        ensures { IsTrue result ↔ (n ≡ number_of self.now) }
    {
        n == self.number
    }

    /// The header that was read or sealed last.
    pub fn header(&self) -> &Header
        ensures { result.now ≡ (content self.now).header }
    {
        &self.header
    }

    /// The station that sent it.
    pub fn from(&self) -> Station
        ensures { result.machine ≡ (content self.now).from }
    {
        Station { machine: self.from }
    }

    /// Whether its data is a signal's.
    pub fn is_signal(&self) -> bool
        ensures { result ≡ (content self.now).signal }
    {
        self.signal
    }

    /// Its data.
    pub fn payload(&self) -> &[u8]
        ensures data { result.now ≡ payload_of (content self.now) }
        ensures len { length result.now ≡ (content self.now).len }
        ensures short { length result.now ≤ PIECE }
    {
        &self.bytes[DATA_AT..DATA_AT + self.len]
    }

    /// The bytes of its frame.
    pub fn frame(&self) -> &[u8]
        ensures frame { result.now ≡ frame_of (content self.now) }
        ensures len { length result.now ≡ DATA_AT + (content self.now).len }
        ensures short { length result.now ≤ SMALL_BYTES }
    {
        &self.bytes[..DATA_AT + self.len]
    }

    /// The 1440 bytes that may be data.
    pub fn room(&mut self) -> &mut [u8]
        ensures* writes_back { sem 𝓛 (LendsData self.entry result) }
        ensures value { result.now ≡ slice_range (content self.old).bytes DATA_AT SMALL_BYTES }
        ensures len { length result.now ≡ PIECE }
    {
        self.bytes.slice_mut(DATA_AT..SMALL_BYTES)
    }

    /// All its bytes.
    pub fn whole(&mut self) -> &mut [u8]
        ensures* writes_back { sem 𝓛 (LendsBytes self.entry result) }
        ensures value { result.now ≡ (content self.old).bytes }
        ensures len { length result.now ≡ SMALL_BYTES }
    {
        self.bytes.as_mut_slice()
    }

    /// Says whether the data is a signal's, and how long it is.
    pub fn set(&mut self, signal: bool, len: usize)
        requires { len ≤ PIECE }
        ensures number { number_of self.new ≡ number_of self.old }
        ensures content { content self.new ≡ record (content self.old) { signal = signal; len = len } }
    {
        self.signal = signal;
        self.len = len;
    }

    /// Copies a piece, of which it takes at most 1440 bytes, to where the data stands.
    pub fn fill(&mut self, piece: &[u8])
        ensures number { number_of self.new ≡ number_of self.old }
        ensures data { payload_of (content self.new) ≡ take PIECE piece.now }
        ensures content { content self.new ≡ record (content self.old) { len = length (take PIECE piece.now); bytes = take DATA_AT (content self.old).bytes ++ take PIECE piece.now ++ drop (DATA_AT + length (take PIECE piece.now)) (content self.old).bytes } }
    {
        let front = front(piece, PIECE);
        write_part(self.bytes.as_mut_slice(), DATA_AT, front);
        self.len = front.len();
    }

    /// Writes all headers of a packet from one station to another round the `len` bytes that stand as its data, and keeps
    /// the header, the sender and the length. What stands behind the data stays.
    pub fn seal(&mut self, from: Station, to: Station, header: &Header, len: usize)
        requires fits { HasSpelling header.now len }
        ensures number { number_of self.new ≡ number_of self.old }
        ensures frame { frame_of (content self.new) ≡ packet_frame from.machine to.machine header.now (payload_of (content self.new)) }
        ensures data { payload_of (content self.new) ≡ take len (drop DATA_AT (content self.old).bytes) }
        ensures behind { drop (DATA_AT + len) (content self.new).bytes ≡ drop (DATA_AT + len) (content self.old).bytes }
        ensures kept { content self.new ≡ record (content self.old) { bytes = (content self.new).bytes; header = header.now; from = from.machine; len = len } }

        // Its receiver reads just that.
        ensures reads { reads_packet (frame_of (content self.new)) to.machine ≡ Ok (record { sender = from.machine; header = header.now; payload = payload_of (content self.new) }) }
    {
        a_spelling_is_32_bytes();
        let bytes = self.bytes.as_mut_slice();
        write_spelling(bytes, header, len);
        write_headers(bytes, from, to, HEADER_LEN + len);
        self.header = *header;
        self.from = from.machine;
        self.len = len;
    }

    /// Takes its first n bytes as a frame for a station, and what that carries as a header with its data; keeps the
    /// header, the sender and the length of the data. After an error the packet is as it was.
    pub fn read(&mut self, n: usize, me: Station) -> Result<(), Unread>
        requires { n ≤ SMALL_BYTES }
        ensures number { number_of self.new ≡ number_of self.old }
        ensures read { MatchResult result
            (λ _. reads_packet (take n (content self.old).bytes) me.machine ≡ Ok (record { sender = (content self.new).from; header = (content self.new).header; payload = payload_of (content self.new) }))
            (λ why. reads_packet (take n (content self.old).bytes) me.machine ≡ Err why) }
        ensures has_spelling { OnOk result (HasSpelling (content self.new).header (content self.new).len) }
        ensures kept { content self.new ≡ record (content self.old) { header = (content self.new).header; from = (content self.new).from; len = (content self.new).len } }
        ensures err { OnErr result (content self.new ≡ content self.old) }
    {
        let came = read_packet(front(self.bytes.as_slice(), n), me)?;
        self.header = came.header;
        self.from = came.from.machine;
        self.len = came.len;
        Ok(())
    }
}

/// Who sent which header, and the length of the data behind it.
#[derive(Clone, Copy)]
struct Arrival {
    from: Station,
    header: Header,
    len: usize,
}

/// Reads a frame and the header in it.
fn read_packet(bytes: &[u8], me: Station) -> Result<Arrival, Unread>
    ensures read { MatchResult result
        (λ came. reads_packet bytes.now me.machine ≡ Ok (record { sender = came.from.machine; header = came.header; payload = drop DATA_AT bytes.now }))
        (λ why. reads_packet bytes.now me.machine ≡ Err why) }
    ensures len { IfOk result (λ came. DATA_AT + came.len ≡ length bytes.now) }
    ensures has_spelling { IfOk result (λ came. HasSpelling came.header came.len) }
{
    a_spelling_is_32_bytes();
    match read_frame(bytes, me) {
        Err(fault) => Err(Unread::Frame(fault)),
        Ok(seen) => match read_header(seen.payload) {
            Err(fault) => Err(Unread::Header(fault)),
            Ok((header, data)) => Ok(Arrival {
                from: seen.from,
                header,
                len: data.len(),
            }),
        },
    }
}

/// Writes a header behind the headers of a frame.
fn write_spelling(bytes: &mut [u8], header: &Header, len: usize)
    requires room { DATA_AT ≤ length bytes.old }
    requires fits { HasSpelling header.now len }
    ensures written { bytes.new ≡ take HEADERS_LEN bytes.old ++ spelling header.now len ++ drop DATA_AT bytes.old }
    ensures reads_back { (data_bytes : List ℕ) → length data_bytes ≡ len → read_of (spelling header.now len ++ data_bytes) ≡ Accepted header.now data_bytes }
{
    let (_, behind) = bytes.split_at_mut(HEADERS_LEN);
    match behind.first_chunk_mut::<HEADER_LEN>() {
        Some(place) => write_header(header, len, place),
        None => unreachable!(),
    }
}

/// At most so many bytes of the front of a text.
fn front(text: &[u8], most: usize) -> &[u8]
    ensures front { result.now ≡ take most text.now }
    ensures short { length result.now ≤ most }
{
    if text.len() > most {
        &text[..most]
    } else {
        text
    }
}

/// Writes bytes at a place.
fn write_part(bytes: &mut [u8], place: usize, part: &[u8])
    requires { place + length part.now ≤ length bytes.old }
    ensures { bytes.new ≡ take place bytes.old ++ part.now ++ drop (place + length part.now) bytes.old }
{
    bytes[place..place + part.len()].copy_from_slice(part);
}
