// Reading a header, and the data behind it, from the bytes of a packet.

ghost use Rattle.std.specs.Prelude.{◌≡◌, ◌+◌, ◌++◌, ◌≤◌, length, IfOk, MatchResult};
ghost use Rattle.rpc_header.specs.Fields.{data_length_field, flags_field, has_bit, version_field};
ghost use Rattle.rpc_header.specs.Spelling.{HasSpelling, spelling};
ghost use Rattle.rpc_header.specs.Versions.{fragments_of};
ghost use Rattle.rpc_header.specs.Reading.{Accepted, Refused, call_number_of, back_faults, first_fault, front_faults, header_in, number_at, number_in, piece_faults, read_of};

use crate::layout::{
    HEADER_LEN, LAST, PLEASE_ACK, fragments_of_version, is_short, is_wrong_length, kind_of_byte,
    may_give, place,
};
use crate::{Activity, CallId, CallNumber, Export, Header, HeaderFault, Kind};
use byteorder::{BigEndian, ByteOrder};

/// The byte at a place.
#[tactic(auto, unfolding(crate::specs::Reading::number_at))]
fn byte_at(bytes: &[u8], first: usize) -> u8
    requires { first + 1 ≤ length bytes.now }
    ensures { result ≡ number_at first 1 bytes.now }
{
    bytes[first]
}

/// The number in two bytes.
#[tactic(auto, unfolding(crate::specs::Reading::number_at))]
fn u16_at(bytes: &[u8], first: usize) -> u16
    requires { first + 2 ≤ length bytes.now }
    ensures { result ≡ number_at first 2 bytes.now }
{
    BigEndian::read_u16(&bytes[first..])
}

/// The number in four bytes.
#[tactic(auto, unfolding(crate::specs::Reading::number_at))]
fn u32_at(bytes: &[u8], first: usize) -> u32
    requires { first + 4 ≤ length bytes.now }
    ensures { result ≡ number_at first 4 bytes.now }
{
    BigEndian::read_u32(&bytes[first..])
}

/// The call number in six bytes.
#[tactic(auto, using(crate::proofs::CallNumbers::same_number), unfolding(crate::specs::Reading::number_at))]
fn call_number_at(bytes: &[u8], first: usize) -> CallNumber
    requires { first + 6 ≤ length bytes.now }
    ensures { result ≡ call_number_of (number_at first 6 bytes.now) }
{
    let value = BigEndian::read_u48(&bytes[first..]);
    CallNumber { value }
}

/// The call that a header names.
fn call_in(bytes: &[u8]) -> CallId
    requires { HEADER_LEN ≤ length bytes.now }
    ensures { result ≡ (header_in bytes.now).call }
{
    let activity = Activity {
        machine: u32_at(bytes, place::MACHINE),
        process: u16_at(bytes, place::PROCESS),
    };
    CallId {
        activity,
        number: call_number_at(bytes, place::CALL_NUMBER),
    }
}

/// The export that a header names.
fn export_in(bytes: &[u8]) -> Export
    requires { HEADER_LEN ≤ length bytes.now }
    ensures { result ≡ (header_in bytes.now).export }
{
    Export {
        identifier: u32_at(bytes, place::IDENTIFIER),
        index: u16_at(bytes, place::INDEX),
    }
}

/// Whether a flag is set.
fn has_flag(bytes: &[u8], flag: u8) -> bool
    requires { HEADER_LEN ≤ length bytes.now }
    ensures { result ≡ has_bit (number_in bytes.now flags_field) flag }
{
    byte_at(bytes, place::FLAGS) & flag != 0
}

/// The header that the bytes are, where no fault applies to them.
fn header_of(bytes: &[u8], kind: Kind) -> Header
    requires room { HEADER_LEN ≤ length bytes.now }
    requires kind { kind ≡ (header_in bytes.now).kind }
    ensures { result ≡ header_in bytes.now }
{
    Header {
        kind,
        please_ack: has_flag(bytes, PLEASE_ACK),
        last: has_flag(bytes, LAST),
        reason: byte_at(bytes, place::REASON),
        call: call_in(bytes),
        hint: u16_at(bytes, place::HINT),
        fragment: u16_at(bytes, place::FRAGMENT),
        export: export_in(bytes),
        procedure: u16_at(bytes, place::PROCEDURE),
    }
}

/// The number of fragments that the version counts, and the kind; or the first fault that applies
/// to the first four bytes of a header.
#[tactic(auto, unfolding(crate::specs::Reading::applies))]
fn fragments_and_kind(bytes: &[u8]) -> Result<(u16, Kind), HeaderFault>
    requires { HEADER_LEN ≤ length bytes.now }
    ensures faults { MatchResult result
        (λ read. first_fault front_faults bytes.now ≡ None)
        (λ fault. first_fault front_faults bytes.now ≡ Some fault) }
    ensures fragments { IfOk result (λ read. Some read.0 ≡ fragments_of (number_in bytes.now version_field)) }
    ensures kind { IfOk result (λ read. read.1 ≡ (header_in bytes.now).kind) }
{
    let version = byte_at(bytes, place::VERSION);
    let fragments = fragments_of_version(version).ok_or(HeaderFault::Version)?;
    let kind = kind_of_byte(byte_at(bytes, place::KIND)).ok_or(HeaderFault::Kind)?;
    if byte_at(bytes, place::FLAGS) > (PLEASE_ACK | LAST) {
        return Err(HeaderFault::Flags);
    }
    if !may_give(kind, byte_at(bytes, place::REASON)) {
        return Err(HeaderFault::Reason);
    }
    Ok((fragments, kind))
}

/// The length of the data, or the first fault that applies to the last four bytes of a header.
#[tactic(auto, unfolding(crate::specs::Reading::applies))]
fn data_len_of(bytes: &[u8]) -> Result<usize, HeaderFault>
    requires { HEADER_LEN ≤ length bytes.now }
    ensures faults { MatchResult result
        (λ data_len. first_fault back_faults bytes.now ≡ None)
        (λ fault. first_fault back_faults bytes.now ≡ Some fault) }
    ensures data_len { IfOk result (λ data_len. data_len ≡ number_in bytes.now data_length_field) }
{
    let data_len = u16_at(bytes, place::DATA_LENGTH) as usize;
    if is_wrong_length(data_len, bytes.len() - HEADER_LEN) {
        return Err(HeaderFault::Length);
    }
    if u16_at(bytes, place::RESERVED) != 0 {
        return Err(HeaderFault::Reserved);
    }
    Ok(data_len)
}

/// Looks for a fault of the fragment: a piece that isn't full, or a number out of range.
#[tactic(auto, unfolding(crate::specs::Reading::applies))]
fn check_fragment(
    bytes: &[u8],
    fragments: u16,
    kind: Kind,
    data_len: usize,
) -> Result<(), HeaderFault>
    requires room { HEADER_LEN ≤ length bytes.now }
    requires fragments { Some fragments ≡ fragments_of (number_in bytes.now version_field) }
    requires kind { kind ≡ (header_in bytes.now).kind }
    requires data_len { data_len ≡ number_in bytes.now data_length_field }
    ensures { MatchResult result
        (λ _. first_fault piece_faults bytes.now ≡ None)
        (λ fault. first_fault piece_faults bytes.now ≡ Some fault) }
{
    if is_short(kind, has_flag(bytes, LAST), data_len) {
        return Err(HeaderFault::ShortFragment);
    }
    if u16_at(bytes, place::FRAGMENT) >= fragments {
        return Err(HeaderFault::FragmentNumber);
    }
    Ok(())
}

/// Reads the header at the front of a packet's bytes. Gives it and the data behind it, or the first
/// fault that applies: exactly a header's one spelling with its data behind it is accepted.
#[tactic(auto, using(crate::proofs::Faults::short_read))]
pub fn read_header(bytes: &[u8]) -> Result<(Header, &[u8]), HeaderFault>
    ensures read { MatchResult result
        (λ read. read_of bytes.now ≡ Accepted read.0 read.1.now)
        (λ fault. read_of bytes.now ≡ Refused fault) }
    ensures has_spelling { IfOk result (λ read. HasSpelling read.0 (length read.1.now)) }
    ensures spelled { IfOk result (λ read. bytes.now ≡ spelling read.0 (length read.1.now) ++ read.1.now) }
{
    if bytes.len() < HEADER_LEN {
        return Err(HeaderFault::Short);
    }
    let (fragments, kind) = fragments_and_kind(bytes)?;
    let data_len = data_len_of(bytes)?;
    check_fragment(bytes, fragments, kind, data_len)?;
    Ok((header_of(bytes, kind), &bytes[HEADER_LEN..]))
}
