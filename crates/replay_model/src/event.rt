//! What a line of a script asks for.

use binder::Name;

/// The number of the procedure `null` of the test service.
pub const NULL: u16 = 0;

/// The number of its procedure `add`.
pub const ADD: u16 = 1;

/// The number of its procedure `bump`.
pub const BUMP: u16 = 2;

/// The number of its procedure `maxarg`.
pub const MAX_ARG: u16 = 3;

/// The number of its procedure `maxresult`.
pub const MAX_RESULT: u16 = 4;

/// What a call asks of the test service.
#[derive(Clone, Copy, PartialEq, Eq)]
pub enum CallWord {
    /// Nothing: no arguments and no result.
    Null,
    /// The sum of two numbers.
    Add(u32, u32),
    /// The service's total, to which this number is added.
    Bump(u32),
    /// Nothing, for so many bytes.
    MaxArg(u32),
    /// So many bytes.
    MaxResult(u32),
}

/// One line of a script. Machines, processes, workers and packets are numbered as in the script.
#[derive(Clone, Copy, PartialEq, Eq)]
pub enum Event {
    /// The world's second becomes this one.
    Second(u32),
    /// A process of a client starts a call.
    Call {
        machine: u8,
        process: u8,
        word: CallWord,
    },
    /// A process of a client starts a bind.
    Bind {
        machine: u8,
        process: u8,
        name: Name,
    },
    /// So many ticks of a process pass.
    Tick {
        machine: u8,
        process: u8,
        times: u16,
    },
    /// The packet of this number comes to its receiver.
    Deliver(u32),
    /// The same with one bit of its frame flipped; bit 0 is the highest of the first byte.
    Damage {
        packet: u32,
        bit: u16,
    },
    /// The server exports the test service by this name.
    Export(Name),
    /// It takes the export of this name back.
    Withdraw(Name),
    /// A machine boots anew.
    Restart(u8),
    /// A process passes over so many call numbers.
    Skip {
        machine: u8,
        process: u8,
        by: u32,
    },
    /// The frame of the packet of this number is printed.
    Show(u32),
    /// One step of a worker.
    Work(u8),
    /// The runs so far are printed.
    Journal,
    /// The last line.
    End,
}
