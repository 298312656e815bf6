//! The line that tells a fault.

ghost use Rattle.std.specs.Prelude.{◌≡◌, ◌≤◌, ◌<◌, ◌+◌, ◌++◌, length, codes};
ghost use Rattle.std.specs.Fmt.{decimal};
ghost use Rattle.commands.specs.Status.{fault_line, newline};

use crate::status::Status;
use arrayvec::ArrayString;
use itoa::Buffer;

/// More bytes than the longest fault line has.
pub const LINE_BYTES: usize = 64;

/// A line of text that takes no memory.
pub type LineText = ArrayString<LINE_BYTES>;

/// The fault line of a status, without memory being taken.
#[tactic(auto, unfolding(crate::specs::Status::fault_line))]
pub fn fault_line_of(status: Status) -> LineText
    ensures { result.bytes ≡ fault_line status }
{
    let mut line = LineText::new();
    match status {
        Status::Ok | Status::WriteFault => {}
        Status::Usage => line.push_str("fault Usage\n"),
        Status::BadText(at, number) => put_bad_text(&mut line, at, number),
        Status::ReadFault => line.push_str("fault ReadFault\n"),
        Status::LinkFault => line.push_str("fault LinkFault\n"),
        Status::CallsFailed => line.push_str("fault CallsFailed\n"),
        Status::TooLong => line.push_str("fault TooLong\n"),
        Status::ClockFault => line.push_str("fault ClockFault\n"),
        Status::NoMemory => line.push_str("fault NoMemory\n"),
    }
    line
}

fn put_bad_text(line: &mut LineText, at: u32, number: u8)
    requires { length line.old.bytes ≡ 0 }
    ensures { line.new.bytes ≡ line.old.bytes ++ codes "fault BadText " ++ decimal at ++ codes " " ++ decimal number ++ newline }
{
    let mut buffer = Buffer::new();
    line.push_str("fault BadText ");
    line.push_str(buffer.format(at));
    line.push_str(" ");
    line.push_str(buffer.format(number));
    line.push_str("\n");
}
