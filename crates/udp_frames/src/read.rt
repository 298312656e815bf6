//! Frames read in place.
ghost use Rattle.std.specs.Prelude.{◌≡◌, ◌+◌, ◌≤◌, ◌++◌, length, Ok, Err, is_some, IfSome, IfOk, IfErr};
ghost use Rattle.lane_checksum.specs.PlainSum.{csum};
ghost use Rattle.udp_frames.specs.Reading;

use crate::FrameFault;
use crate::address::{ethernet_address, internet_address};
use crate::layout::*;
use byteorder::{ByteOrder, NetworkEndian};
use ff_io::Station;
use lane_checksum::{add, sum};

/// What a frame says: who sent it, and the data that it carries, where they lie in the frame.
#[derive(Clone, Copy, Debug, PartialEq, Eq)]
pub struct Seen<'a> {
    pub from: Station,
    pub payload: &'a [u8],
}

/// Reads a frame for machine `me`: who sent which data, or the first fault.
pub fn read_frame(buffer: &[u8], me: Station) -> Result<Seen<'_>, FrameFault>
    ensures seen { IfOk result (λ seen. Reading.reads buffer.now me.machine ≡ Ok (record { sender = seen.from.machine; payload = seen.payload.now })) }
    ensures fault { IfErr result (λ fault. Reading.reads buffer.now me.machine ≡ Err fault) }
{
    if buffer.len() < HEADERS_LEN {
        return Err(FrameFault::Short);
    }
    check_ethernet(buffer, me)?;
    let from = check_internet(buffer, me)?;
    check_udp(buffer)?;
    Ok(Seen {
        from,
        payload: &buffer[place::PAYLOAD..],
    })
}

/// The number of 16 bits at a place.
fn number_at(frame: &[u8], place: usize) -> u16
    requires { place + 2 ≤ length frame.now }
    ensures { result ≡ Reading.number place frame.now }
{
    NetworkEndian::read_u16(&frame[place..])
}

/// Tests the Ethernet header.
fn check_ethernet(frame: &[u8], me: Station) -> Result<(), FrameFault>
    requires { HEADERS_LEN ≤ length frame.now }
    ensures { Reading.Finds result (Reading.ethernet_checks frame.now me.machine) }
{
    let destination = &frame[place::ETHERNET_DESTINATION..place::ETHERNET_SOURCE];
    if destination != ethernet_address(me).as_slice() {
        return Err(FrameFault::NotForUs);
    }
    if number_at(frame, place::ETHERNET_TYPE) != TYPE_IP {
        return Err(FrameFault::NotIp);
    }
    Ok(())
}

/// Tests the IP header, and says who sent the frame.
fn check_internet(frame: &[u8], me: Station) -> Result<Station, FrameFault>
    requires { HEADERS_LEN ≤ length frame.now }
    ensures fault { Reading.Finds result (Reading.internet_checks frame.now me.machine) }
    ensures from { IfOk result (λ from. from.machine ≡ Reading.source_machine frame.now) }
{
    let version_and_length = frame[place::VERSION_AND_LENGTH];
    if version_and_length >> 4 != VERSION_4 {
        return Err(FrameFault::Version);
    }
    if version_and_length & 0x0f != HEADER_WORDS {
        return Err(FrameFault::Options);
    }
    let total_length = usize::from(number_at(frame, place::TOTAL_LENGTH));
    if total_length != frame.len() - place::INTERNET_HEADER {
        return Err(FrameFault::IpLength);
    }
    match number_at(frame, place::FLAGS_AND_OFFSET) {
        0 | DO_NOT_FRAGMENT => {}
        _ => return Err(FrameFault::IpFragment),
    }
    if frame[place::PROTOCOL] != PROTOCOL_UDP {
        return Err(FrameFault::NotUdp);
    }
    let header = &frame[place::INTERNET_HEADER..place::UDP_HEADER];
    if sum(header) != RIGHT_SUM {
        return Err(FrameFault::IpChecksum);
    }
    sender(frame, me).ok_or(FrameFault::Address)
}

/// The station that an IP header names as its source, if it names `me` as its destination.
fn sender(frame: &[u8], me: Station) -> Option<Station>
    requires { HEADERS_LEN ≤ length frame.now }
    ensures some { is_some result ≡ Reading.is_between_machines frame.now me.machine }
    ensures machine { IfSome result (λ from. from.machine ≡ Reading.source_machine frame.now) }
{
    let machine = frame[place::SOURCE_MACHINE];
    if machine < 1 || machine > 254 {
        return None;
    }
    let from = Station { machine };
    let source = &frame[place::SOURCE_ADDRESS..place::DESTINATION_ADDRESS];
    let destination = &frame[place::DESTINATION_ADDRESS..place::UDP_HEADER];
    if source == internet_address(from).as_slice()
        && destination == internet_address(me).as_slice()
    {
        Some(from)
    } else {
        None
    }
}

/// Tests the UDP header and the data.
fn check_udp(frame: &[u8]) -> Result<(), FrameFault>
    requires { HEADERS_LEN ≤ length frame.now }
    ensures { Reading.Finds result (Reading.udp_checks frame.now) }
{
    let ports = number_at(frame, place::SOURCE_PORT) == PORT
        && number_at(frame, place::DESTINATION_PORT) == PORT;
    if !ports {
        return Err(FrameFault::Port);
    }
    let udp_length = usize::from(number_at(frame, place::UDP_LENGTH));
    let total_length = usize::from(number_at(frame, place::TOTAL_LENGTH));
    if udp_length != total_length.saturating_sub(INTERNET_LEN) {
        return Err(FrameFault::UdpLength);
    }
    if number_at(frame, place::UDP_CHECKSUM) == 0 {
        return Err(FrameFault::NoChecksum);
    }
    if udp_sum(frame) != RIGHT_SUM {
        return Err(FrameFault::UdpChecksum);
    }
    Ok(())
}

/// The sum that the UDP checksum makes right: of the pseudo header, the UDP header and the data.
pub(crate) fn udp_sum(frame: &[u8]) -> u16
    requires { HEADERS_LEN ≤ length frame.now }
    ensures { result ≡ csum (Reading.pseudo_header frame.now ++ Reading.udp_datagram frame.now) }
{
    let addresses = sum(&frame[place::SOURCE_ADDRESS..place::UDP_HEADER]);
    let protocol_and_length = sum(&[
        0,
        PROTOCOL_UDP,
        frame[place::UDP_LENGTH],
        frame[place::UDP_LENGTH + 1],
    ]);
    let datagram = sum(&frame[place::UDP_HEADER..]);
    add(add(addresses, protocol_and_length), datagram)
}
