// Whether a header has a spelling, and the writing of it.

ghost use Rattle.std.specs.Prelude.{◌≡◌, ◌↔◌, ◌++◌, IsTrue, List, ℕ, length};
ghost use Rattle.rpc_header.specs.Reading.{Accepted, read_of};
ghost use Rattle.rpc_header.specs.Spelling.{FitsFields, HasSpelling, spelling};

use crate::Header;
use crate::layout::{
    HEADER_LEN, MAX_DATA, flags_byte, fragments_in, is_short, kind_byte, may_give, place,
    version_of,
};
use byteorder::{BigEndian, ByteOrder};

/// Whether the header of a packet with this many bytes of data has a spelling: its kind may give the
/// reason, the data is not too large, a piece before the last one is full, and the fragment's number
/// is in range.
pub fn fits(header: &Header, data_len: usize) -> bool
    ensures { IsTrue result ↔ HasSpelling header.now data_len }
{
    may_give(header.kind, header.reason)
        && data_len <= MAX_DATA
        && !is_short(header.kind, header.last, data_len)
        && header.fragment < fragments_in(header)
}

/// Writes the spelling of a header, for a packet with this many bytes of data behind it.
pub fn write_header(header: &Header, data_len: usize, into: &mut [u8; HEADER_LEN])
    requires { HasSpelling header.now data_len }
    ensures spelled { into.new ≡ spelling header.now data_len }
    ensures reads_back { (d : List ℕ) → length d ≡ data_len → read_of (into.new ++ d) ≡ Accepted header.now d }
{
    write_fields(*header, data_len, into);
}

/// Writes each field of a header at its place.
fn write_fields(header: Header, data_len: usize, into: &mut [u8; HEADER_LEN])
    requires { HasSpelling header data_len }
    ensures spelled { into.new ≡ spelling header data_len }
    ensures room { FitsFields header }
{
    into[place::VERSION] = version_of(&header);
    into[place::KIND] = kind_byte(header.kind);
    into[place::FLAGS] = flags_byte(header.please_ack, header.last);
    into[place::REASON] = header.reason;
    BigEndian::write_u32(&mut into[place::MACHINE..], header.call.activity.machine);
    BigEndian::write_u16(&mut into[place::PROCESS..], header.call.activity.process);
    BigEndian::write_u16(&mut into[place::HINT..], header.hint);
    BigEndian::write_u48(&mut into[place::CALL_NUMBER..], header.call.number.value);
    BigEndian::write_u16(&mut into[place::FRAGMENT..], header.fragment);
    BigEndian::write_u32(&mut into[place::IDENTIFIER..], header.export.identifier);
    BigEndian::write_u16(&mut into[place::INDEX..], header.export.index);
    BigEndian::write_u16(&mut into[place::PROCEDURE..], header.procedure);
    BigEndian::write_u16(&mut into[place::DATA_LENGTH..], data_len as u16);
    BigEndian::write_u16(&mut into[place::RESERVED..], 0);
}
