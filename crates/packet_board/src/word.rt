//! A cell's word.
ghost use Rattle.std.specs.Prelude.{◌≡◌, ◌<◌, ◌^◌};
ghost use Rattle.packet_board.specs.Words.{Fits, packed, unpacked};

/// The buffers that one number of a word can name, and one place for none.
const PLACES: u64 = 4096;

/// What a cell holds: a tag below 2^52, whose meaning the law of the board says, and the number of a buffer, at most
/// 4094, or none.
#[derive(Clone, Copy, PartialEq, Eq, Debug)]
pub struct Word {
    pub tag: u64,
    pub buffer: Option<u16>,
}

impl Word {
    /// The tag in the upper 52 bits, and the number of the buffer and 1, or 0 for none, in the lower 12.
    pub(crate) fn pack(self) -> u64
        requires { Fits self }
        ensures { result ≡ packed self }
    {
        let place = match self.buffer {
            None => 0,
            Some(number) => number as u64 + 1,
        };
        self.tag * PLACES + place
    }

    pub(crate) fn unpack(packed: u64) -> Word
        ensures value { result ≡ unpacked packed }
        ensures fits { Fits result }
    {
        let place = packed % PLACES;
        let buffer = if place == 0 {
            None
        } else {
            Some((place - 1) as u16)
        };
        Word {
            tag: packed / PLACES,
            buffer,
        }
    }
}
