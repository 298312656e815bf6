//! The headers of a frame, written around data that stands in place.
ghost use Rattle.std.specs.Prelude.{◌≡◌, ◌+◌, ◌-◌, ◌≤◌, ◌++◌, length, take, drop, Ok};
ghost use Rattle.udp_frames.specs.Frame;
ghost use Rattle.udp_frames.specs.Reading;
ghost use Rattle.udp_frames.specs.Writing.{with_part};

use crate::address::{ethernet_address, internet_address};
use crate::layout::*;
use crate::read::udp_sum;
use byteorder::{ByteOrder, NetworkEndian};
use ff_io::Station;
use lane_checksum::{finish, sum};

/// Makes the first `HEADERS_LEN + data_len` bytes of `buffer` a frame round the `data_len` bytes behind its headers.
pub fn write_headers(buffer: &mut [u8], from: Station, to: Station, data_len: usize)
    requires fits { data_len ≤ LARGEST_PAYLOAD }
    requires room { HEADERS_LEN + data_len ≤ length buffer.old }
    ensures frame { buffer.new ≡ Frame.frame from.machine to.machine (take data_len (drop HEADERS_LEN buffer.old)) ++ drop (HEADERS_LEN + data_len) buffer.old }

    // The receiver of that frame sees the sender and the data.
    ensures read { Reading.reads (take (HEADERS_LEN + data_len) buffer.new) to.machine ≡ Ok (record { sender = from.machine; payload = take data_len (drop HEADERS_LEN buffer.old) }) }
{
    write_frame(&mut buffer[..HEADERS_LEN + data_len], from, to);
}

/// Makes the bytes a frame round the data that stands behind the headers.
fn write_frame(frame: &mut [u8], from: Station, to: Station)
    requires room { HEADERS_LEN ≤ length frame.old }
    requires fits { length frame.old ≤ LARGEST_FRAME }
    ensures { frame.new ≡ Frame.frame from.machine to.machine (drop HEADERS_LEN frame.old) }
{
    write_ethernet(frame, from, to);
    write_internet(frame, from, to);
    write_udp(frame);
    let internet_checksum = !sum(&frame[place::INTERNET_HEADER..place::UDP_HEADER]);
    write_number(frame, place::INTERNET_CHECKSUM, internet_checksum);
    let udp_checksum = finish(udp_sum(frame));
    write_number(frame, place::UDP_CHECKSUM, udp_checksum);
}

/// Writes bytes at a place.
fn write_part(frame: &mut [u8], place: usize, part: &[u8])
    requires { place + length part.now ≤ length frame.old }
    ensures { frame.new ≡ with_part place part.now frame.old }
{
    frame[place..place + part.len()].copy_from_slice(part);
}

/// Writes a number of 16 bits at a place.
fn write_number(frame: &mut [u8], place: usize, number: u16)
    requires { place + 2 ≤ length frame.old }
    ensures { frame.new ≡ with_part place (Frame.two_bytes number) frame.old }
{
    NetworkEndian::write_u16(&mut frame[place..], number);
}

/// Writes the Ethernet header.
fn write_ethernet(frame: &mut [u8], from: Station, to: Station)
    requires { HEADERS_LEN ≤ length frame.old }
    ensures { frame.new ≡ with_part 0 (Frame.ethernet_header from.machine to.machine) frame.old }
{
    write_part(frame, place::ETHERNET_DESTINATION, &ethernet_address(to));
    write_part(frame, place::ETHERNET_SOURCE, &ethernet_address(from));
    write_number(frame, place::ETHERNET_TYPE, TYPE_IP);
}

/// Writes the IP header, with 0 for its checksum.
fn write_internet(frame: &mut [u8], from: Station, to: Station)
    requires room { HEADERS_LEN ≤ length frame.old }
    requires fits { length frame.old ≤ LARGEST_FRAME }
    ensures { frame.new ≡ with_part Frame.ethernet_len (Frame.internet_header from.machine to.machine (length frame.old - Frame.ethernet_len) 0) frame.old }
{
    let total_length = (frame.len() - place::INTERNET_HEADER) as u16;
    frame[place::VERSION_AND_LENGTH] = VERSION_4 << 4 | HEADER_WORDS;
    frame[place::TYPE_OF_SERVICE] = 0;
    write_number(frame, place::TOTAL_LENGTH, total_length);
    write_number(frame, place::IDENTIFICATION, 0);
    write_number(frame, place::FLAGS_AND_OFFSET, 0);
    frame[place::TIME_TO_LIVE] = TIME_TO_LIVE;
    frame[place::PROTOCOL] = PROTOCOL_UDP;
    write_number(frame, place::INTERNET_CHECKSUM, 0);
    write_part(frame, place::SOURCE_ADDRESS, &internet_address(from));
    write_part(frame, place::DESTINATION_ADDRESS, &internet_address(to));
}

/// Writes the UDP header, with 0 for its checksum.
fn write_udp(frame: &mut [u8])
    requires room { HEADERS_LEN ≤ length frame.old }
    requires fits { length frame.old ≤ LARGEST_FRAME }
    ensures { frame.new ≡ with_part (Frame.ethernet_len + Frame.internet_len) (Frame.udp_header (length frame.old - (Frame.ethernet_len + Frame.internet_len)) 0) frame.old }
{
    let udp_length = (frame.len() - place::UDP_HEADER) as u16;
    write_number(frame, place::SOURCE_PORT, PORT);
    write_number(frame, place::DESTINATION_PORT, PORT);
    write_number(frame, place::UDP_LENGTH, udp_length);
    write_number(frame, place::UDP_CHECKSUM, 0);
}
