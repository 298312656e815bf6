//! Headers of whole packets, each fault, and each kind there and back.
use rpc_header::{
    Activity, CallId, Export, Header, HeaderFault, Kind, fits, longest, number, read_header,
    write_header,
};

/// The header of a first call of procedure 0, without data, from machine 2.
const EMPTY_CALL: [u8; 32] = [
    0x01, 0x01, 0x02, 0x00, 0x00, 0x00, 0x00, 0x02, 0x00, 0x01, 0x00, 0x00, 0x00, 0x00, 0x00, 0x01,
    0x00, 0x00, 0x00, 0x00, 0x00, 0x00, 0x00, 0x01, 0x00, 0x00, 0x00, 0x00, 0x00, 0x00, 0x00, 0x00,
];

/// The header and the data of a first call of procedure 1, with the numbers 51510 and 0.
const ADD_CALL: [u8; 40] = [
    0x01, 0x01, 0x02, 0x00, 0x00, 0x00, 0x00, 0x02, 0x00, 0x01, 0x00, 0x00, 0x00, 0x00, 0x00, 0x01,
    0x00, 0x00, 0x00, 0x00, 0x00, 0x00, 0x00, 0x01, 0x00, 0x00, 0x00, 0x01, 0x00, 0x08, 0x00, 0x00,
    0x00, 0x00, 0xc9, 0x36, 0x00, 0x00, 0x00, 0x00,
];

/// The last piece, and the only one, of the first call of machine 2.
fn call_of(procedure: u16) -> Option<Header> {
    let number = number(65536)?;
    Some(Header {
        kind: Kind::Call,
        please_ack: false,
        last: true,
        reason: 0,
        call: CallId {
            activity: Activity {
                machine: 2,
                process: 1,
            },
            number,
        },
        hint: 0,
        fragment: 0,
        export: Export {
            identifier: 1,
            index: 0,
        },
        procedure,
    })
}

/// Writes a header before so many bytes of data, if it has a spelling there.
fn is_written(header: &Header, len: usize, into: &mut [u8; 32]) -> bool {
    let has_spelling = fits(header, len);
    if has_spelling {
        write_header(header, len, into);
    }
    has_spelling
}

/// Whether bytes are read as this header with such data behind it.
fn is_read(bytes: &[u8], header: &Header, data: &[u8]) -> bool {
    match read_header(bytes) {
        Ok((read, behind)) => read == *header && behind == data,
        Err(_) => false,
    }
}

/// Whether the call of a procedure is written as the front of a packet, and the packet read as that call with the data
/// behind the front.
fn is_spelled(procedure: u16, packet: &[u8]) -> Option<bool> {
    let header = call_of(procedure)?;
    let data = packet.get(32..)?;
    let mut bytes = [0xff; 32];
    let is_so = is_written(&header, data.len(), &mut bytes)
        && packet.starts_with(&bytes)
        && is_read(packet, &header, data);
    Some(is_so)
}

#[test]
fn the_empty_call_is_written_and_read(rt: HostRuntime) {
    assert!(rt; is_spelled(0, &EMPTY_CALL) == Some(true));
}

#[test]
fn a_call_with_data_is_written_and_read(rt: HostRuntime) {
    assert!(rt; is_spelled(1, &ADD_CALL) == Some(true));
}

/// A byte of the call with data that is another, and the fault that the header then has, with its number.
static FAULTS: [(usize, u8, HeaderFault, u8); 9] = [
    (0, 0x00, HeaderFault::Version, 2),
    (1, 0x00, HeaderFault::Kind, 3),
    (1, 0x09, HeaderFault::Kind, 3),
    (2, 0x04, HeaderFault::Flags, 4),
    (3, 0x01, HeaderFault::Reason, 5),
    (29, 0x09, HeaderFault::Length, 6),
    (31, 0x01, HeaderFault::Reserved, 7),
    (2, 0x01, HeaderFault::ShortFragment, 8),
    (18, 0xff, HeaderFault::FragmentNumber, 9),
];

/// The fault of the call with data when the byte at that place is another.
fn fault_with(place: usize, byte: u8) -> Option<HeaderFault> {
    let mut bytes = ADD_CALL;
    if place >= bytes.len() {
        return None;
    }
    bytes[place] = byte;
    read_header(&bytes).err()
}

#[test]
fn each_fault_is_named_and_numbered(rt: HostRuntime) {
    let short = read_header(&ADD_CALL[..31]).err();
    assert!(rt; (short, HeaderFault::Short.number()) == (Some(HeaderFault::Short), 1));
    for (place, byte, fault, number) in FAULTS {
        assert!(rt; (fault_with(place, byte), fault.number()) == (Some(fault), number));
    }
}

/// Whether a full piece of this number before the last one fits.
fn full_piece_fits(mut header: Header, fragment: u16) -> bool {
    header.last = false;
    header.fragment = fragment;
    fits(&header, 1440)
}

#[test]
fn the_longest_call_has_sixty_four_full_pieces(rt: HostRuntime) {
    let Some(header) = call_of(3) else {
        panic!(rt; "a call number")
    };
    assert!(rt; longest(&header) == 92_160);
    assert!(rt; full_piece_fits(header, 63));
    assert!(rt; !full_piece_fits(header, 64));
}

/// Each kind, with a reason that it may give.
static KINDS: [(Kind, u8); 8] = [
    (Kind::Call, 0),
    (Kind::Result, 0),
    (Kind::Ack, 0),
    (Kind::Probe, 0),
    (Kind::Reject, 2),
    (Kind::Signal, 0),
    (Kind::Bind, 0),
    (Kind::Bound, 1),
];

/// Whether the last piece that can be of such a packet without data is written and read back.
fn is_read_back(kind: Kind, reason: u8) -> Option<bool> {
    let mut header = call_of(3)?;
    header.kind = kind;
    header.reason = reason;
    header.please_ack = true;
    header.fragment = 63;
    let mut bytes = [0xff; 32];
    Some(is_written(&header, 0, &mut bytes) && is_read(&bytes, &header, &[]))
}

#[test]
fn each_kind_is_read_back(rt: HostRuntime) {
    for (kind, reason) in KINDS {
        assert!(rt; is_read_back(kind, reason) == Some(true));
    }
}

#[test]
fn a_call_number_has_forty_eight_bits(rt: HostRuntime) {
    assert!(rt; number(0xffff_ffff_ffff).map(|number| number.value) == Some(0xffff_ffff_ffff));
    assert!(rt; number(0x1_0000_0000_0000).is_none());
}
