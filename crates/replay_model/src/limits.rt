//! The numbers of things in the world that a script is played on, and the ranges of a script's numbers. Each stands
//! here once: the definitions cite it, and so does the code of the parser and of the player.

pub use binder::EXPORT_ROWS;
use fragments::LONG;
use udp_frames::LARGEST_FRAME;

/// The server's machine.
pub const SERVER_MACHINE: u8 = 1;

/// The first client's machine. The clients' machines follow one another.
pub const FIRST_CLIENT: u8 = 2;

/// The last client's machine.
pub const LAST_CLIENT: u8 = 9;

/// How many clients there are.
pub const CLIENTS: u8 = LAST_CLIENT - FIRST_CLIENT + 1;

/// The last process of a client. Processes are numbered from 1.
pub const LAST_PROCESS: u8 = 8;

/// The last worker of the server. Workers are numbered from 1.
pub const LAST_WORKER: u8 = 4;

/// The most packets that are ready at the server.
pub const READY_CELLS: usize = 64;

/// The server's number of small buffers, where a script gives no other.
pub const SMALL_BUFFERS: usize = 256;

/// The server's number of long buffers, where a script gives no other.
pub const LONG_BUFFERS: usize = 72;

/// The last bit of the largest frame. Bits are numbered from 0.
pub const LAST_BIT: u16 = (8 * LARGEST_FRAME - 1) as u16;

/// The procedures of the test service.
pub const SERVICE_PROCEDURES: u16 = 5;

/// The most bytes that the test service takes or gives: with their count they fill the longest text.
pub const LARGEST_TEXT: u32 = (LONG - 4) as u32;

/// The most ticks of one line.
pub const LARGEST_COUNT: u16 = 1000;

/// The largest number of a script, where a line wants no smaller one.
pub const LARGEST_NUMBER: u32 = u32::MAX;
