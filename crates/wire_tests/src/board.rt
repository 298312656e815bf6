//! A board under the law that asks nothing of its words.
ghost use Rattle.std.specs.Prelude.{◌≡◌, ◌<◌, ◌≤◌, ◌^◌, Bool, IsTrue, IfOk, IfErr};
ghost use Rattle.packet_board.specs.Words.{cell_count};
ghost use Rattle.packet_board.specs.Hands.{HoldsNothing, HoldsOne};
ghost use Rattle.packet_board.specs.Seats.{view, held, layout_of, IsSeatOf};

use packet_board::{Board, Buffer, Closed, FreeWords, Layout, Seat, StillOut, Word};
use std::alloc::{AllocError, Global};
use std::marker::Brand;
use std::test::Fail;

/// One small and one long buffer, and two cells that start empty.
const LAYOUT: Layout = Layout {
    small: 1,
    long: 1,
    rows: [1, 0, 0, 0, 1],
};

/// A new board and its first seat.
fn board_of_one(alloc: Global) -> Result<(Board<FreeWords>, Seat<FreeWords>), AllocError>
    ensures cells { IfOk result (λ made. cell_count (layout_of made.0) ≡ 4) }
    ensures seat { IfOk result (λ made. IsSeatOf made.0 made.1) }
    ensures empty { IfOk result (λ made. HoldsNothing (held made.1)) }
{
    Board::make(alloc, LAYOUT)
}

/// A new board and its first two seats.
fn board_of_two(
    alloc: Global,
) -> Result<(Board<FreeWords>, Seat<FreeWords>, Seat<FreeWords>), AllocError>
    ensures cells { IfOk result (λ made. cell_count (layout_of made.0) ≡ 4) }
    ensures seats { IfOk result (λ made. IsSeatOf made.0 made.1 × IsSeatOf made.0 made.2) }
    ensures empty { IfOk result (λ made. HoldsNothing (held made.1) × HoldsNothing (held made.2)) }
    ensures splits { IfOk result (λ made. IsTrue (view made.1).notes) }
{
    let (board, mut one) = Board::<FreeWords>::make(alloc, LAYOUT)?;
    let two = board.split(&mut one);
    Ok((board, one, two))
}

pub(crate) const EMPTY: Word = Word {
    tag: 0,
    buffer: None,
};

pub(crate) const fn word(tag: u64, buffer: u16) -> Word
    ensures { result ≡ record { tag = tag; buffer = Some buffer } }
{
    Word {
        tag,
        buffer: Some(buffer),
    }
}

fn read(board: &Board<FreeWords>, seat: &mut Seat<FreeWords>, cell: usize) -> Word
    requires seat { IsSeatOf board.now seat.old }
    requires cell { (cell < 4) × (cell_count (layout_of board.now) ≡ 4) }
    ensures seat { IsSeatOf board.now seat.new }
    ensures held { held seat.new ≡ held seat.old }
{
    board.load::<Brand>(seat, cell)
}

// Takes the buffer of a cell that is thought to hold it under that tag.
fn take(
    board: &Board<FreeWords>,
    seat: &mut Seat<FreeWords>,
    cell: usize,
    tag: u64,
    number: u16,
) -> Result<(), Word>
    requires seat { IsSeatOf board.now seat.old }
    requires cell { (cell < 4) × (cell_count (layout_of board.now) ≡ 4) }
    requires word { (tag < 2 ^ 52) × (number < 4095) }
    requires empty { HoldsNothing (held seat.old) }
    ensures seat { IsSeatOf board.now seat.new }
    ensures done { IfOk result (λ _. HoldsOne number (held seat.new)) }
    ensures met { IfErr result (λ word. HoldsNothing (held seat.new)) }
{
    let full = Word {
        tag,
        buffer: Some(number),
    };
    let empty = Word {
        tag: 0,
        buffer: None,
    };
    match board.exchange::<Brand>(seat, cell, full, empty) {
        Ok(()) => Ok(()),
        Err(word) => Err(word),
    }
}

// Puts the buffer in the hands into a cell that is thought to be empty.
fn put(
    board: &Board<FreeWords>,
    seat: &mut Seat<FreeWords>,
    cell: usize,
    tag: u64,
    number: u16,
) -> Result<(), Word>
    requires seat { IsSeatOf board.now seat.old }
    requires cell { (cell < 4) × (cell_count (layout_of board.now) ≡ 4) }
    requires word { (tag < 2 ^ 52) × (number < 4095) }
    requires one { HoldsOne number (held seat.old) }
    ensures seat { IsSeatOf board.now seat.new }
    ensures done { IfOk result (λ _. HoldsNothing (held seat.new)) }
    ensures met { IfErr result (λ word. HoldsOne number (held seat.new)) }
{
    let full = Word {
        tag,
        buffer: Some(number),
    };
    let empty = Word {
        tag: 0,
        buffer: None,
    };
    match board.exchange::<Brand>(seat, cell, empty, full) {
        Ok(()) => Ok(()),
        Err(word) => Err(word),
    }
}

// Takes the buffer in the hands out of its slot, writes into it, and puts it back.
fn sign(board: &Board<FreeWords>, seat: &mut Seat<FreeWords>, number: u16, from: u8)
    requires seat { IsSeatOf board.now seat.old }
    requires from { (1 ≤ from) × (from ≤ 254) }
    requires one { HoldsOne number (held seat.old) }
    ensures seat { IsSeatOf board.now seat.new }
    ensures one { HoldsOne number (held seat.new) }
{
    let mut buffer = board.unstow(seat, number);
    buffer.from = from;
    buffer.signal = true;
    board.stow(seat, number, buffer);
}

/// Carries a buffer from its free cell into a cell that is thought to be empty.
fn carry(
    board: &Board<FreeWords>,
    seat: &mut Seat<FreeWords>,
    number: u16,
    cell: usize,
    tag: u64,
) -> Result<(), Word>
    requires seat { IsSeatOf board.now seat.old }
    requires cell { (cell < 4) × (cell_count (layout_of board.now) ≡ 4) }
    requires word { (tag < 2 ^ 52) × (number < 2) }
    requires empty { HoldsNothing (held seat.old) }
{
    match take(board, seat, usize::from(number), 0, number) {
        Ok(()) => put(board, seat, cell, tag, number),
        Err(word) => Err(word),
    }
}

/// Signs a buffer that is in its free cell, and says whether it is there again.
fn sign_at_home(board: &Board<FreeWords>, seat: &mut Seat<FreeWords>, number: u16, from: u8) -> bool
    requires seat { IsSeatOf board.now seat.old }
    requires cell { (number < 2) × (cell_count (layout_of board.now) ≡ 4) }
    requires from { (1 ≤ from) × (from ≤ 254) }
    requires empty { HoldsNothing (held seat.old) }
    ensures seat { IsSeatOf board.now seat.new }
    ensures empty { IsTrue result → HoldsNothing (held seat.new) }
{
    let cell = usize::from(number);
    match take(board, seat, cell, 0, number) {
        Ok(()) => {
            sign(board, seat, number, from);
            put(board, seat, cell, 0, number).is_ok()
        }
        Err(_) => false,
    }
}

/// What the board leaves once the other seat is joined.
fn left_after_join(
    board: Board<FreeWords>,
    mut seat: Seat<FreeWords>,
    other: Seat<FreeWords>,
) -> Option<Closed>
    requires seats { IsSeatOf board seat × IsSeatOf board other }
    requires empty { HoldsNothing (held seat) × HoldsNothing (held other) }
    requires splits { IsTrue (view seat).notes }
{
    board.join(&mut seat, other);
    board.close(seat).ok()
}

/// The room of a buffer, the length of its data, and its sender.
fn measures(buffer: &Buffer) -> (usize, usize, u8) {
    (buffer.bytes.len(), buffer.len, buffer.from)
}

/// Whether each buffer is a signal's, and its sender.
fn signs(closed: &Closed) -> Option<[(bool, u8); 2]> {
    let [small, long] = closed.buffers.as_slice() else {
        return None;
    };
    Some([(small.signal, small.from), (long.signal, long.from)])
}

/// The measures of two buffers.
fn measures_of_two(closed: &Closed) -> Option<[(usize, usize, u8); 2]> {
    let [small, long] = closed.buffers.as_slice() else {
        return None;
    };
    Some([measures(small), measures(long)])
}

/// How many seats are out beside the first one of two, as the board says it, and as it says it when it doesn't close; and
/// what it leaves once that seat is joined.
fn closed_after_join(alloc: Global) -> Option<(Result<(), u64>, u64, Closed)> {
    let (board, mut seat, other) = board_of_two(alloc).ok()?;
    let told = board.alone(&mut seat);
    let StillOut { board, seat, out } = match board.close(seat) {
        Ok(_) => return None,
        Err(still) => still,
    };
    Some((told, out, left_after_join(board, seat, other)?))
}

#[test]
fn a_board_with_a_seat_out_does_not_close(rt: HostRuntime) {
    let Some((told, out, closed)) = closed_after_join(rt.alloc()) else {
        panic!(rt; "a seat is out, and then none")
    };
    assert!(rt; told == Err(1) && out == 1);
    assert!(rt; closed.words.as_slice() == [word(0, 0), word(0, 1), EMPTY, EMPTY].as_slice());
    assert!(rt; measures_of_two(&closed) == Some([(1514, 0, 1), (92_160, 0, 1)]));
}

#[test]
fn of_two_seats_one_takes_a_buffer(rt: HostRuntime) -> Result<(), Fail> {
    let (board, mut one, mut two) = board_of_two(rt.alloc())?;
    assert!(rt; read(&board, &mut two, 0) == word(0, 0));
    let takes = [
        take(&board, &mut one, 0, 0, 0),
        take(&board, &mut two, 0, 0, 0),
    ];
    assert!(rt; takes == [Ok(()), Err(EMPTY)]);
    Ok(())
}

#[test]
fn of_two_seats_one_fills_a_cell(rt: HostRuntime) -> Result<(), Fail> {
    let (board, mut one, mut two) = board_of_two(rt.alloc())?;
    let puts = [
        carry(&board, &mut two, 1, 3, 9),
        carry(&board, &mut one, 0, 3, 7),
    ];
    assert!(rt; puts == [Ok(()), Err(word(9, 1))]);
    Ok(())
}

/// The signs of both buffers after one of them was signed in its free cell.
fn signs_left(alloc: Global, number: u16, from: u8) -> Option<[(bool, u8); 2]>
    requires number { number < 2 }
    requires from { (1 ≤ from) × (from ≤ 254) }
{
    let (board, mut seat) = board_of_one(alloc).ok()?;
    if !sign_at_home(&board, &mut seat, number, from) {
        return None;
    }
    signs(&board.close(seat).ok()?)
}

#[test]
fn a_buffer_comes_back_as_it_was_stowed(rt: HostRuntime) {
    assert!(rt; signs_left(rt.alloc(), 1, 254) == Some([(false, 1), (true, 254)]));
}
