//! Worked frames, byte by byte, and each reason to drop one.

use ff_io::Station;
use replay_packets::{Discard, Outgoing, Packet, SERVER, arrive};
use rpc_header::{Activity, CallId, Export, Header, HeaderFault, Kind, fits, number};
use std::alloc::Global;
use std::test::Fail;
use udp_frames::{FrameFault, HEADERS_LEN, write_headers};

/// An empty call from machine 2 to machine 1.
const EMPTY_CALL: [u8; 74] = [
    0x02, 0x00, 0x0a, 0x00, 0x00, 0x01, 0x02, 0x00, 0x0a, 0x00, 0x00, 0x02, 0x08, 0x00, 0x45, 0x00,
    0x00, 0x3c, 0x00, 0x00, 0x00, 0x00, 0x40, 0x11, 0x66, 0xaf, 0x0a, 0x00, 0x00, 0x02, 0x0a, 0x00,
    0x00, 0x01, 0x0f, 0xa3, 0x0f, 0xa3, 0x00, 0x28, 0xc9, 0x4f, 0x01, 0x01, 0x02, 0x00, 0x00, 0x00,
    0x00, 0x02, 0x00, 0x01, 0x00, 0x00, 0x00, 0x00, 0x00, 0x01, 0x00, 0x00, 0x00, 0x00, 0x00, 0x00,
    0x00, 0x01, 0x00, 0x00, 0x00, 0x00, 0x00, 0x00, 0x00, 0x00,
];

/// A call of procedure 1 whose data makes its UDP checksum come out as 0, which is sent as ffff.
const CHECKSUM_OF_ZERO: [u8; 82] = [
    0x02, 0x00, 0x0a, 0x00, 0x00, 0x01, 0x02, 0x00, 0x0a, 0x00, 0x00, 0x02, 0x08, 0x00, 0x45, 0x00,
    0x00, 0x44, 0x00, 0x00, 0x00, 0x00, 0x40, 0x11, 0x66, 0xa7, 0x0a, 0x00, 0x00, 0x02, 0x0a, 0x00,
    0x00, 0x01, 0x0f, 0xa3, 0x0f, 0xa3, 0x00, 0x30, 0xff, 0xff, 0x01, 0x01, 0x02, 0x00, 0x00, 0x00,
    0x00, 0x02, 0x00, 0x01, 0x00, 0x00, 0x00, 0x00, 0x00, 0x01, 0x00, 0x00, 0x00, 0x00, 0x00, 0x00,
    0x00, 0x01, 0x00, 0x00, 0x00, 0x01, 0x00, 0x08, 0x00, 0x00, 0x00, 0x00, 0xc9, 0x36, 0x00, 0x00,
    0x00, 0x00,
];

const CLIENT: Station = Station { machine: 2 };

const OTHER_CLIENT: Station = Station { machine: 3 };

/// A packet of this kind in one piece, of the first call of process 1 of a machine.
fn packet(
    alloc: Global,
    way: (Station, Station),
    kind: Kind,
    caller: Station,
    procedure: u16,
    payload: &[u8],
) -> Result<Outgoing, Fail> {
    let number = number(65536).ok_or("a call number")?;
    let activity = Activity {
        machine: u32::from(caller.machine),
        process: 1,
    };
    let header = Header {
        kind,
        please_ack: false,
        last: true,
        reason: 0,
        call: CallId { activity, number },
        hint: 0,
        fragment: 0,
        export: Export {
            identifier: 1,
            index: 0,
        },
        procedure,
    };
    if !fits(&header, payload.len()) {
        return Err("a header that fits".into());
    }
    Ok(Outgoing::new(alloc, way.0, way.1, header, payload)?)
}

#[test]
fn calls_are_framed_as_worked_by_hand(rt: HostRuntime) -> Result<(), Fail> {
    let alloc = rt.alloc();
    let way = (CLIENT, SERVER);
    let empty = packet(alloc, way, Kind::Call, CLIENT, 0, &[])?;
    assert!(rt; (empty.from(), empty.to(), empty.payload_len()) == (CLIENT, SERVER, 0));
    let sent = empty.sent();
    assert!(rt; sent.to() == SERVER);
    assert!(rt; sent.frame() == EMPTY_CALL.as_slice());
    let data = [0x00, 0x00, 0xc9, 0x36, 0x00, 0x00, 0x00, 0x00];
    let add = packet(alloc, way, Kind::Call, CLIENT, 1, &data)?;
    assert!(rt; add.payload_len() == 8);
    let sent = add.sent();
    assert!(rt; sent.frame() == CHECKSUM_OF_ZERO.as_slice());
    Ok(())
}

#[test]
fn an_empty_call_arrives_at_the_server(rt: HostRuntime) -> Result<(), Fail> {
    let Ok(arrived) = arrive(SERVER, &EMPTY_CALL) else {
        return Err("a packet".into());
    };
    let Header { kind, call, .. } = arrived.header;
    assert!(rt; (arrived.from, arrived.to, kind) == (CLIENT, SERVER, Kind::Call));
    assert!(rt;
        (
            call.activity.machine,
            call.number.value,
            arrived.payload.len()
        ) == (2, 65536, 0)
    );
    Ok(())
}

/// The way of a packet, its kind, the machine whose call it names, and what its receiver makes of it.
const ARRIVALS: [(Station, Station, Kind, Station, Option<Discard>); 8] = [
    (CLIENT, SERVER, Kind::Call, CLIENT, None),
    (CLIENT, SERVER, Kind::Result, CLIENT, Some(Discard::Kind)),
    (
        OTHER_CLIENT,
        SERVER,
        Kind::Call,
        CLIENT,
        Some(Discard::Foreign),
    ),
    (
        OTHER_CLIENT,
        SERVER,
        Kind::Result,
        CLIENT,
        Some(Discard::Kind),
    ),
    (SERVER, CLIENT, Kind::Result, CLIENT, None),
    (SERVER, CLIENT, Kind::Call, CLIENT, Some(Discard::Kind)),
    (
        SERVER,
        OTHER_CLIENT,
        Kind::Result,
        CLIENT,
        Some(Discard::Foreign),
    ),
    (
        SERVER,
        OTHER_CLIENT,
        Kind::Call,
        CLIENT,
        Some(Discard::Kind),
    ),
];

#[test]
fn a_packet_of_another_kind_or_call_is_dropped(rt: HostRuntime) -> Result<(), Fail> {
    let alloc = rt.alloc();
    for (from, to, kind, caller, dropped) in ARRIVALS {
        let sent = packet(alloc, (from, to), kind, caller, 0, &[])?.sent();
        let seen = arrive(to, sent.frame()).err();
        assert!(rt; seen == dropped, "{} to {}", from.machine, to.machine);
    }
    Ok(())
}

/// Why a machine drops a frame, if it does.
fn dropped(me: Station, frame: &[u8]) -> Option<Discard> {
    arrive(me, frame).err()
}

#[test]
fn a_frame_or_a_header_with_a_fault_is_dropped(rt: HostRuntime) {
    assert!(rt; dropped(CLIENT, &EMPTY_CALL) == Some(Discard::Frame(FrameFault::NotForUs)));
    // A header that lacks its last byte.
    let mut short = [0; 73];
    short[HEADERS_LEN..].copy_from_slice(&EMPTY_CALL[HEADERS_LEN..73]);
    write_headers(&mut short, CLIENT, SERVER, 31);
    assert!(rt; dropped(SERVER, &short) == Some(Discard::Header(HeaderFault::Short)));
}

/// The frame of the empty call with one bit flipped, or `None` where it has no such bit.
fn flipped(alloc: Global, bit: u16) -> Result<Option<Vec<u8>>, Fail> {
    let sent = packet(alloc, (CLIENT, SERVER), Kind::Call, CLIENT, 0, &[])?.sent();
    Ok(sent.damaged(alloc, bit)?)
}

/// Whether the flip of a bit makes this frame of it.
fn flips_to(alloc: Global, bit: u16, frame: &[u8]) -> Result<bool, Fail> {
    match flipped(alloc, bit)? {
        Some(flipped) => Ok(flipped.as_slice() == frame),
        None => Ok(false),
    }
}

fn has_bit(alloc: Global, bit: u16) -> Result<bool, Fail> {
    Ok(flipped(alloc, bit)?.is_some())
}

#[test]
fn one_bit_of_a_frame_is_flipped(rt: HostRuntime) -> Result<(), Fail> {
    let alloc = rt.alloc();
    let mut first = EMPTY_CALL;
    first[0] = 0x82;
    assert!(rt; flips_to(alloc, 0, &first)?);
    let mut last = EMPTY_CALL;
    last[73] = 0x01;
    assert!(rt; flips_to(alloc, 591, &last)?);
    assert!(rt; dropped(SERVER, &last) == Some(Discard::Frame(FrameFault::UdpChecksum)));
    assert!(rt; !has_bit(alloc, 592)? && !has_bit(alloc, u16::MAX)?);
    Ok(())
}

/// The empty call, taken out of its frame.
fn kept_call(alloc: Global) -> Result<Packet, Fail> {
    let Ok(arrived) = arrive(SERVER, &EMPTY_CALL) else {
        return Err("a packet".into());
    };
    Ok(Packet::kept(alloc, &arrived)?)
}

#[test]
fn an_answer_goes_back(rt: HostRuntime) -> Result<(), Fail> {
    let alloc = rt.alloc();
    let call = kept_call(alloc)?;
    assert!(rt; (call.header().kind, call.payload().len()) == (Kind::Call, 0));
    let header = Header {
        kind: Kind::Signal,
        ..*call.header()
    };
    if !fits(&header, 2) {
        return Err("a header that fits".into());
    }
    let answer = call.answer(alloc, header, &[0, 1])?;
    assert!(rt; (answer.from(), answer.to(), answer.payload_len()) == (SERVER, CLIENT, 2));
    assert!(rt; answer.header().kind == Kind::Signal);
    assert!(rt; answer.sent().frame().get(74..) == Some([0, 1].as_slice()));
    Ok(())
}
