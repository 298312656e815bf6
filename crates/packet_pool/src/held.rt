//! Packets and the buffers that they hold. No byte is copied.
ghost use Rattle.std.specs.Prelude.{◌≡◌};
ghost use Rattle.packet_pool.specs.Buffers.{IsSmallBuffer, IsLongBuffer};
ghost use Rattle.packet_pool.specs.Packets.{number_of, content, long_number, long_content};

use crate::packet::{LongPacket, Packet};
use item_list::Items;
use packet_board::Buffer;

impl Packet {
    /// The packet of a small buffer.
    pub(crate) fn of(number: u16, buffer: Buffer) -> Packet
        requires { IsSmallBuffer buffer }
        ensures number { number_of result ≡ number }
        ensures content { content result ≡ buffer }
    {
        let Buffer {
            bytes,
            header,
            from,
            len,
            gathered,
            signal,
        } = buffer;
        Packet {
            number,
            bytes: bytes.into_vec(),
            header,
            from,
            len,
            gathered,
            signal,
        }
    }

    /// Its number and its buffer.
    pub(crate) fn into_buffer(self) -> (u16, Buffer)
        ensures number { result.0 ≡ number_of self }
        ensures content { result.1 ≡ content self }
        ensures within { IsSmallBuffer result.1 }
    {
        let Packet {
            number,
            bytes,
            header,
            from,
            len,
            gathered,
            signal,
        } = self;
        let bytes = Items::new(bytes);
        (
            number,
            Buffer {
                bytes,
                header,
                from,
                len,
                gathered,
                signal,
            },
        )
    }
}

impl LongPacket {
    /// The packet of a long buffer.
    pub(crate) fn of(number: u16, buffer: Buffer) -> LongPacket
        requires { IsLongBuffer buffer }
        ensures number { long_number result ≡ number }
        ensures content { long_content result ≡ buffer }
    {
        let Buffer {
            bytes,
            header,
            from,
            len,
            gathered,
            signal,
        } = buffer;
        LongPacket {
            number,
            bytes: bytes.into_vec(),
            header,
            from,
            len,
            gathered,
            signal,
        }
    }

    /// Its number and its buffer.
    pub(crate) fn into_buffer(self) -> (u16, Buffer)
        ensures number { result.0 ≡ long_number self }
        ensures content { result.1 ≡ long_content self }
        ensures within { IsLongBuffer result.1 }
    {
        let LongPacket {
            number,
            bytes,
            header,
            from,
            len,
            gathered,
            signal,
        } = self;
        let bytes = Items::new(bytes);
        (
            number,
            Buffer {
                bytes,
                header,
                from,
                len,
                gathered,
                signal,
            },
        )
    }
}
