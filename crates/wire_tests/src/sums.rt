//! Sums of texts and their joining, and digests.
use lane_checksum::{Digest, add, digest_of, finish, sum};
use std::alloc::{AllocError, Global};

#[test]
fn the_worked_example_of_rfc_1071(rt: HostRuntime) {
    let bytes = [0x00, 0x01, 0xf2, 0x03, 0xf4, 0xf5, 0xf6, 0xf7];
    assert!(rt; sum(&bytes) == 0xddf2);
    assert!(rt; add(sum(&bytes[..4]), sum(&bytes[4..])) == 0xddf2);
    assert!(rt; finish(0xddf2) == 0x220d);
    assert!(rt; finish(0xffff) == 0xffff);
}

// A text of n bytes that repeats one word W has n / 2 times W, and at an odd n the high byte of W once more. Each
// row has n and that total modulo 65535 for the words 0x0101 and 0xabcd.
static REPEATED: [(usize, u16, u16); 11] = [
    (0, 0x0000, 0x0000),
    (1, 0x0100, 0xab00),
    (2, 0x0101, 0xabcd),
    (15, 0x0807, 0x5da0),
    (16, 0x0808, 0x5e6d),
    (17, 0x0908, 0x096e),
    (63, 0x201f, 0x78e8),
    (64, 0x2020, 0x79b5),
    (65, 0x2120, 0x24b6),
    (1513, 0xf7f6, 0x0660),
    (1514, 0xf7f7, 0x072d),
];

/// A text of this length that repeats the two bytes.
fn repeated(alloc: Global, len: usize, high: u8, low: u8) -> Result<Vec<u8>, AllocError> {
    let mut text = Vec::new(alloc);
    for i in 0..len {
        text.push(if i % 2 == 0 { high } else { low })?;
    }
    Ok(text)
}

fn sum_of_repeated(alloc: Global, len: usize, high: u8, low: u8) -> Result<u16, AllocError> {
    Ok(sum(&repeated(alloc, len, high, low)?))
}

#[test]
fn repeated_words_add_up(rt: HostRuntime) {
    let alloc = rt.alloc();
    for (len, ones, mixed) in REPEATED {
        assert!(rt;
            sum_of_repeated(alloc, len, 1, 1) == Ok(ones),
            "{len} bytes of 0x01"
        );
        assert!(rt;
            sum_of_repeated(alloc, len, 0xab, 0xcd) == Ok(mixed),
            "{len} bytes of 0xabcd"
        );
    }
}

/// The digest of marshalled bytes: their count in four bytes, high byte first, and then byte i is i modulo 251;
/// or `None` for 2000 bytes and more.
fn digest_of_counted(alloc: Global, count: u16) -> Result<Option<Digest>, AllocError> {
    let mut text = Vec::from_slice(alloc, &u32::from(count).to_be_bytes())?;
    for i in 0..count {
        text.push((i % 251) as u8)?;
    }
    if text.len() < 2000 {
        Ok(Some(digest_of(&text)))
    } else {
        Ok(None)
    }
}

#[test]
fn the_digest_of_a_full_packet(rt: HostRuntime) {
    for (count, low, sum) in [(1436u16, 0x9c, 0xa114), (1437, 0x9d, 0x5616)] {
        let digest = Digest {
            len: 4 + u32::from(count),
            head: [0, 0, 5, low, 0, 1, 2, 3, 4, 5, 6, 7, 8, 9, 10, 11],
            sum,
        };
        assert!(rt; digest_of_counted(rt.alloc(), count) == Ok(Some(digest)));
    }
}

#[test]
fn the_digest_of_a_short_text(rt: HostRuntime) {
    let head = [7, 8, 9, 0, 0, 0, 0, 0, 0, 0, 0, 0, 0, 0, 0, 0];
    let digest = Digest {
        len: 3,
        head,
        sum: 0x1008,
    };
    assert!(rt; digest_of(&[7, 8, 9]) == digest);
}
