//! Frames that are worked out by hand, byte by byte, and one damage for each fault.
use ff_io::Station;
use udp_frames::{FrameFault, HEADERS_LEN, read_frame, write_headers};

/// An empty call from machine 2 to machine 1.
const EMPTY_CALL: [u8; 74] = [
    0x02, 0x00, 0x0a, 0x00, 0x00, 0x01, 0x02, 0x00, 0x0a, 0x00, 0x00, 0x02, 0x08, 0x00, 0x45, 0x00,
    0x00, 0x3c, 0x00, 0x00, 0x00, 0x00, 0x40, 0x11, 0x66, 0xaf, 0x0a, 0x00, 0x00, 0x02, 0x0a, 0x00,
    0x00, 0x01, 0x0f, 0xa3, 0x0f, 0xa3, 0x00, 0x28, 0xc9, 0x4f, 0x01, 0x01, 0x02, 0x00, 0x00, 0x00,
    0x00, 0x02, 0x00, 0x01, 0x00, 0x00, 0x00, 0x00, 0x00, 0x01, 0x00, 0x00, 0x00, 0x00, 0x00, 0x00,
    0x00, 0x01, 0x00, 0x00, 0x00, 0x00, 0x00, 0x00, 0x00, 0x00,
];

/// A call from machine 2 to machine 1 whose data makes its UDP checksum come out as 0, which is sent as ffff.
const CHECKSUM_OF_ZERO: [u8; 82] = [
    0x02, 0x00, 0x0a, 0x00, 0x00, 0x01, 0x02, 0x00, 0x0a, 0x00, 0x00, 0x02, 0x08, 0x00, 0x45, 0x00,
    0x00, 0x44, 0x00, 0x00, 0x00, 0x00, 0x40, 0x11, 0x66, 0xa7, 0x0a, 0x00, 0x00, 0x02, 0x0a, 0x00,
    0x00, 0x01, 0x0f, 0xa3, 0x0f, 0xa3, 0x00, 0x30, 0xff, 0xff, 0x01, 0x01, 0x02, 0x00, 0x00, 0x00,
    0x00, 0x02, 0x00, 0x01, 0x00, 0x00, 0x00, 0x00, 0x00, 0x01, 0x00, 0x00, 0x00, 0x00, 0x00, 0x00,
    0x00, 0x01, 0x00, 0x00, 0x00, 0x01, 0x00, 0x08, 0x00, 0x00, 0x00, 0x00, 0xc9, 0x36, 0x00, 0x00,
    0x00, 0x00,
];

const SENDER: Station = Station { machine: 2 };

const RECEIVER: Station = Station { machine: 1 };

/// Whether the headers round a frame's data are written into a longer buffer as the frame has them, and what stands behind
/// it stays.
fn is_written(buffer: &mut [u8], frame: &[u8]) -> bool {
    let len = frame.len();
    if len < HEADERS_LEN || len > buffer.len() || len > 100 {
        return false;
    }
    for i in HEADERS_LEN..len {
        buffer[i] = frame[i];
    }
    write_headers(buffer, SENDER, RECEIVER, len - HEADERS_LEN);
    buffer.starts_with(frame) && buffer[len..].iter().all(|byte| *byte == 0xee)
}

/// Whether a frame is read as its sender's, with its data.
fn is_read(frame: &[u8]) -> bool {
    match read_frame(frame, RECEIVER) {
        Ok(seen) => seen.from == SENDER && Some(seen.payload) == frame.get(HEADERS_LEN..),
        Err(_) => false,
    }
}

#[test]
fn worked_frames_are_written(rt: HostRuntime) {
    assert!(rt; is_written(&mut [0xee; 100], &EMPTY_CALL));
    assert!(rt; is_written(&mut [0xee; 100], &CHECKSUM_OF_ZERO));
}

#[test]
fn worked_frames_are_read(rt: HostRuntime) {
    assert!(rt; is_read(&EMPTY_CALL) && is_read(&CHECKSUM_OF_ZERO));
}

/// The empty call with these bytes in place of its own, and the fault that it then has, with its number.
static DAMAGES: [(&[(usize, u8)], FrameFault, u8); 17] = [
    (&[(0, 0x82)], FrameFault::NotForUs, 2),
    (&[(5, 3)], FrameFault::NotForUs, 2),
    (&[(12, 0x88)], FrameFault::NotIp, 3),
    (&[(14, 0xc5)], FrameFault::Version, 4),
    (&[(14, 0x4d)], FrameFault::Options, 5),
    (&[(16, 0x80)], FrameFault::IpLength, 6),
    (&[(20, 0x80)], FrameFault::IpFragment, 7),
    // Do not fragment is no fault, but the checksum is then wrong.
    (&[(20, 0x40)], FrameFault::IpChecksum, 9),
    (&[(23, 0x91)], FrameFault::NotUdp, 8),
    (&[(22, 0x3f)], FrameFault::IpChecksum, 9),
    // Machine 0, with the IP checksum made right.
    (&[(29, 0), (25, 0xb1)], FrameFault::Address, 10),
    // A destination that is another machine, likewise.
    (&[(33, 2), (25, 0xae)], FrameFault::Address, 10),
    (&[(34, 0x8f)], FrameFault::Port, 11),
    (&[(36, 0x8f)], FrameFault::Port, 11),
    (&[(38, 0x80)], FrameFault::UdpLength, 12),
    (&[(40, 0), (41, 0)], FrameFault::NoChecksum, 13),
    (&[(73, 1)], FrameFault::UdpChecksum, 14),
];

/// The fault of the empty call with these bytes in place of its own.
fn fault_with(bytes: &[(usize, u8)]) -> Option<FrameFault> {
    let mut frame = EMPTY_CALL;
    for (place, byte) in bytes {
        if *place >= frame.len() {
            return None;
        }
        frame[*place] = *byte;
    }
    fault_of(&frame)
}

/// The fault that the receiver finds.
fn fault_of(frame: &[u8]) -> Option<FrameFault> {
    read_frame(frame, RECEIVER).err()
}

#[test]
fn damaged_frames_are_refused(rt: HostRuntime) {
    for (bytes, fault, number) in DAMAGES {
        assert!(rt; (fault_with(bytes), fault.number()) == (Some(fault), number));
    }
    assert!(rt; FrameFault::Short.number() == 1);
}

#[test]
fn a_frame_that_lost_its_checksum_or_its_end_is_refused(rt: HostRuntime) {
    // Its sum is right with the field as it was sent, and without it too.
    let mut without_checksum = CHECKSUM_OF_ZERO;
    without_checksum[40] = 0;
    without_checksum[41] = 0;
    assert!(rt; fault_of(&without_checksum) == Some(FrameFault::NoChecksum));
    let cut = [fault_of(&EMPTY_CALL[..41]), fault_of(&EMPTY_CALL[..73])];
    assert!(rt; cut == [Some(FrameFault::Short), Some(FrameFault::IpLength)]);
}
