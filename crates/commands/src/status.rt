//! How the program ends.

ghost use Rattle.std.specs.Prelude.{◌≡◌};

use ff_io::{ReadAll, WriteFailed};
use script_text::ScriptFault;
use std::alloc::AllocError;
use std::io;
use std::process::ExitCode;

/// How a command ends. Each status has its number, and all but two a line that is written last.
#[derive(Clone, Copy, PartialEq, Eq)]
pub enum Status {
    /// All input was read, and all output was written.
    Ok,
    /// The words are no command.
    Usage,
    /// The input has its first fault in this line, of this number.
    BadText(u32, u8),
    /// A read failed.
    ReadFault,
    /// A write failed.
    WriteFault,
    /// The network failed.
    LinkFault,
    /// A call of `call` failed.
    CallsFailed,
    /// The input is longer than the limit.
    TooLong,
    /// The clock failed.
    ClockFault,
    /// Memory ran out.
    NoMemory,
}

impl Status {
    ghost use Rattle.commands.specs.Status.{number_of};

    /// The number that the program ends with.
    pub fn number(self) -> u8
        ensures { result ≡ number_of self }
    {
        match self {
            Status::Ok => 0,
            Status::Usage => 2,
            Status::BadText(_, _) => 3,
            Status::ReadFault => 4,
            Status::WriteFault => 5,
            Status::LinkFault => 6,
            Status::CallsFailed => 7,
            Status::TooLong => 8,
            Status::ClockFault => 9,
            Status::NoMemory => 10,
        }
    }
}

impl From<AllocError> for Status {
    ghost use Rattle.commands.specs.declared.status.Status.TheVariants.{NoMemory};

    ghost from_gives = { λ _ s. s ≡ NoMemory };

    fn from(_: AllocError) -> Self {
        Status::NoMemory
    }
}

impl From<WriteFailed> for Status {
    ghost use Rattle.commands.specs.declared.status.Status.TheVariants.{WriteFault};

    ghost from_gives = { λ _ s. s ≡ WriteFault };

    fn from(_: WriteFailed) -> Self {
        Status::WriteFault
    }
}

impl From<ReadAll> for Status {
    ghost use Rattle.commands.specs.Status.{status_of_reading};

    ghost from_gives = { λ error s. s ≡ status_of_reading error };

    fn from(error: ReadAll) -> Self {
        match error {
            ReadAll::Failed => Status::ReadFault,
            ReadAll::TooLong => Status::TooLong,
            ReadAll::Memory => Status::NoMemory,
        }
    }
}

impl From<ScriptFault> for Status {
    ghost use Rattle.commands.specs.Status.{status_of_text};

    ghost from_gives = { λ fault s. s ≡ status_of_text fault };

    fn from(fault: ScriptFault) -> Self {
        if fault.number == 0 {
            Status::NoMemory
        } else {
            Status::BadText(fault.line, fault.number)
        }
    }
}

/// Why the words of the program can't be had.
impl From<io::Error> for Status {
    ghost use Rattle.std.specs.IoError.{error_kind};
    ghost use Rattle.commands.specs.Status.{status_of_words};

    ghost from_gives = { λ error s. s ≡ status_of_words (error_kind error) };

    fn from(error: io::Error) -> Self {
        match error.kind() {
            io::ErrorKind::OutOfMemory => Status::NoMemory,
            _ => Status::Usage,
        }
    }
}

/// What the program ends with.
impl From<Status> for ExitCode {
    ghost use Rattle.std.specs.Process.{exit_status};
    ghost use Rattle.commands.specs.Status.{number_of};

    ghost from_gives = { λ status code. exit_status code ≡ number_of status };

    fn from(status: Status) -> Self {
        ExitCode::from(status.number())
    }
}
