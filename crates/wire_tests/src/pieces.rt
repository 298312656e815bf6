//! Gathered pieces, and texts cut and joined whose lengths lie around a piece and around the longest text.
use fragments::{Gathered, LONG, PIECE, PIECES, Pushed, count, piece};
use std::alloc::{AllocError, Global};
use std::test::Fail;

/// A text of this many bytes, none of which is zero.
pub(crate) fn text_of(alloc: Global, len: usize) -> Result<Vec<u8>, AllocError> {
    let mut text = Vec::new(alloc);
    for i in 0..len {
        text.push((i % 251) as u8 + 1)?;
    }
    Ok(text)
}

/// Adds a piece, or gives `None` where it may not be handed over.
fn add(
    gathered: &mut Gathered,
    into: &mut [u8],
    i: u16,
    last: bool,
    piece: &[u8],
) -> Option<Pushed> {
    let is_whole = gathered.len == PIECE * usize::from(gathered.next);
    let is_full = last || piece.len() == PIECE;
    if into.len() == LONG && i < PIECES && piece.len() <= PIECE && is_full && is_whole {
        Some(gathered.push(into, i, last, piece))
    } else {
        None
    }
}

#[test]
fn pieces_are_gathered_in_their_order(rt: HostRuntime) -> Result<(), Fail> {
    let mut buffer = vec![in rt.alloc(); 0u8; LONG]?;
    let mut gathered = Gathered { len: 0, next: 0 };
    let first = [7; PIECE];
    let steps = [
        (1, true, b"x".as_slice(), Pushed::Skipped, 0, 0),
        (0, false, first.as_slice(), Pushed::More, 1440, 1),
        (0, false, first.as_slice(), Pushed::Again, 1440, 1),
        (1, true, b"x".as_slice(), Pushed::Whole(1441), 1441, 2),
    ];
    for (i, last, part, pushed, len, next) in steps {
        assert!(rt; add(&mut gathered, &mut buffer, i, last, part) == Some(pushed));
        assert!(rt; gathered == (Gathered { len, next }));
    }
    assert!(rt; buffer.starts_with(&first));
    assert!(rt; buffer.get(1440..1442) == Some(b"x\0".as_slice()));
    Ok(())
}

/// Whether a text of this length is cut into so many pieces, of which the last has that length and each other one is
/// full, and is joined from them again.
fn is_cut_and_joined(
    alloc: Global,
    len: usize,
    pieces: u16,
    last_len: usize,
) -> Result<bool, AllocError> {
    let text = text_of(alloc, len)?;
    if text.len() > LONG || count(text.len()) != pieces {
        return Ok(false);
    }
    let mut buffer = vec![in alloc; 0u8; LONG]?;
    let mut gathered = Gathered::default();
    for i in 0..count(text.len()) {
        let part = piece(&text, i);
        let last = i + 1 == pieces;
        let (part_len, pushed) = if last {
            (last_len, Pushed::Whole(len))
        } else {
            (1440, Pushed::More)
        };
        if part.len() != part_len
            || add(&mut gathered, &mut buffer, i, last, part) != Some(pushed)
        {
            return Ok(false);
        }
    }
    Ok(buffer.starts_with(&text))
}

/// Lengths of texts, their pieces, and the lengths of the last ones.
static CUTS: [(usize, u16, usize); 7] = [
    (0, 1, 0),
    (1, 1, 1),
    (1439, 1, 1439),
    (1440, 1, 1440),
    (1441, 2, 1),
    (92159, 64, 1439),
    (92160, 64, 1440),
];

#[test]
fn what_is_cut_is_joined_again(rt: HostRuntime) {
    for (len, pieces, last_len) in CUTS {
        let is_so = is_cut_and_joined(rt.alloc(), len, pieces, last_len);
        assert!(rt; is_so == Ok(true), "{len} bytes");
    }
}
