//! A client, machine 2, on trial: what is done to it, and what is seen of that.

use binder::read_name;
use ff_io::Station;
use lane_checksum::Digest;
use replay_client::machine::{Called, ClientMachine, Skipped};
use replay_client::{Cause, Said, Told, Took};
use replay_model::{CallWord, Discard};
use replay_packets::{Arrived, Outgoing, SERVER};
use rpc_header::{Activity, CallId, CallNumber, Export, Header, Kind, MAX_DATA, fits};
use std::alloc::Global;
use std::test::Fail;

const CLIENT: Station = Station { machine: 2 };

/// The first call number of second 1.
pub const NUMBER: CallNumber = CallNumber { value: 65536 };

pub const PROCESS_1: Activity = Activity {
    machine: 2,
    process: 1,
};

/// The empty call of process 1 that is the first in second 1.
pub const CALL: Header = Header {
    kind: Kind::Call,
    please_ack: false,
    last: true,
    reason: 0,
    call: CallId {
        activity: PROCESS_1,
        number: NUMBER,
    },
    hint: 0,
    fragment: 0,
    export: Export {
        identifier: 1,
        index: 0,
    },
    procedure: 0,
};

/// The bind of process 1 that is its first step in second 1.
pub const BIND: Header = Header {
    kind: Kind::Bind,
    export: Export {
        identifier: 0,
        index: 0,
    },
    ..CALL
};

/// The data of a packet that comes.
#[derive(Clone, Copy)]
pub enum Data {
    Empty,
    /// 5 times 5, the data of a short reply and the end of a long one.
    Fives,
    /// The number of the exception that a signal raises.
    Exception,
    /// 1440 times 1, a full piece, and so of 2.
    Ones,
    Twos,
    /// 3, 4 and 5.
    Three,
}

static ONES: [u8; MAX_DATA] = [1; MAX_DATA];

static TWOS: [u8; MAX_DATA] = [2; MAX_DATA];

fn bytes_of(data: Data) -> &'static [u8] {
    match data {
        Data::Empty => &[],
        Data::Fives => &[5; 5],
        Data::Exception => &[0, 1],
        Data::Ones => &ONES,
        Data::Twos => &TWOS,
        Data::Three => &[3, 4, 5],
    }
}

/// What is done.
#[derive(Clone, Copy)]
pub enum Act {
    /// A process starts the empty call in a second.
    Call(u8, u32),
    /// Process 1 starts a call with a text of 2,996 bytes behind its count, which are 3,000 bytes.
    LongCall,
    /// A process binds to the name `echo`.
    Bind(u8),
    /// A packet comes.
    Take(Header, Data),
    /// A process has a tick.
    Tick(u8),
    /// A process passes over so many numbers.
    Skip(u8, u32),
    /// The machine boots anew in a second.
    Restart(u32),
    /// It is asked how many calls are open.
    Open,
    /// It is asked whether a process is idle.
    Idle(u8),
}

/// What is seen. A packet that is sent is seen with the length of its data.
#[derive(Clone, Copy, PartialEq, Eq)]
pub enum Seen {
    Impossible,
    TooFast(u64),
    NoCell,
    Stale,
    Unused,
    Quiet,
    Sends(Header, usize),
    Waits,
    Returned(Digest),
    Signalled(Digest),
    Fails(Cause),
    BindFails,
    Bound(Export),
    NotBound,
    Skips(u8, u64),
    Count(u64),
    Yes,
    No,
}

/// A client that has booted in second 1, and the data of the packet that it has sent last.
#[derive(Drop)]
pub struct Trial {
    client: ClientMachine,
    pub data: Vec<u8>,
}

impl Trial {
    pub fn new(alloc: Global) -> Result<Self, Fail> {
        Ok(Trial {
            client: ClientMachine::boot(alloc, 1, 2)?,
            data: Vec::new(alloc),
        })
    }

    /// Does this, and answers what is seen. `Err` where memory is short, or where the act can't be done.
    pub fn sees(&mut self, alloc: Global, act: Act) -> Result<Seen, Fail> {
        match act {
            Act::Call(process, second) => self.calls(alloc, process, second),
            Act::LongCall => self.calls_long(alloc),
            Act::Bind(process) => self.binds(alloc, process),
            Act::Take(header, data) => self.takes(alloc, header, bytes_of(data)),
            Act::Tick(process) => self.ticks(alloc, process),
            Act::Skip(process, by) => self.skips(process, by),
            Act::Restart(second) => Ok(answer(self.client.restart(alloc, 2, second)?)),
            Act::Open => Ok(Seen::Count(self.client.open_calls())),
            Act::Idle(process) => self.is_idle(process),
        }
    }

    fn calls(&mut self, alloc: Global, process: u8, second: u32) -> Result<Seen, Fail> {
        if process == 0 {
            return Err("a process".into());
        }
        let called = (self.client).call(alloc, CLIENT, process, CallWord::Null, second)?;
        self.starts(alloc, called)
    }

    fn calls_long(&mut self, alloc: Global) -> Result<Seen, Fail> {
        let called = (self.client).call(alloc, CLIENT, 1, CallWord::MaxArg(2996), 1)?;
        self.starts(alloc, called)
    }

    fn binds(&mut self, alloc: Global, process: u8) -> Result<Seen, Fail> {
        if process == 0 {
            return Err("a process".into());
        }
        let name = read_name(b"echo").ok_or("a name")?;
        let called = self.client.bind(alloc, CLIENT, process, &name, 1)?;
        self.starts(alloc, called)
    }

    fn starts(&mut self, alloc: Global, called: Called) -> Result<Seen, Fail> {
        match called {
            Called::Impossible => Ok(Seen::Impossible),
            Called::TooFast(number) => Ok(Seen::TooFast(number)),
            Called::Starts(told) => self.tells(alloc, told),
        }
    }

    /// What it does about a packet. What it tells must be of the packet's call.
    fn takes(&mut self, alloc: Global, header: Header, data: &[u8]) -> Result<Seen, Fail> {
        if !fits(&header, data.len()) {
            return Err("a packet that fits".into());
        }
        let packet = Arrived {
            from: SERVER,
            to: CLIENT,
            header,
            payload: data,
        };
        match self.client.take(alloc, &packet)? {
            Took::Dropped(Discard::NoCell) => Ok(Seen::NoCell),
            Took::Dropped(Discard::Stale) => Ok(Seen::Stale),
            Took::Dropped(Discard::Unused) => Ok(Seen::Unused),
            Took::Dropped(_) => Err("a discard of a process".into()),
            Took::Hears(told) => {
                if told.call != header.call {
                    return Err("the packet's call".into());
                }
                self.tells(alloc, told)
            }
        }
    }

    fn ticks(&mut self, alloc: Global, process: u8) -> Result<Seen, Fail> {
        if process == 0 {
            return Err("a process".into());
        }
        match self.client.tick(alloc, CLIENT, process)? {
            Some(told) => self.tells(alloc, told),
            None => Ok(Seen::Impossible),
        }
    }

    fn skips(&mut self, process: u8, by: u32) -> Result<Seen, Fail> {
        if process == 0 {
            return Err("a process".into());
        }
        let Some(Skipped { activity, next }) = self.client.skip(process, by) else {
            return Ok(Seen::Impossible);
        };
        if (activity.machine, activity.process) != (2, u16::from(process)) {
            return Err("the process".into());
        }
        Ok(Seen::Skips(process, next))
    }

    fn is_idle(&self, process: u8) -> Result<Seen, Fail> {
        if process == 0 {
            return Err("a process".into());
        }
        Ok(answer(self.client.is_idle(process)))
    }

    /// What a process tells.
    fn tells(&mut self, alloc: Global, told: Told) -> Result<Seen, Fail> {
        let Told { call, said } = told;
        match said {
            Said::Nothing => Ok(Seen::Quiet),
            Said::Sends(packet) => self.sends(alloc, call, packet),
            Said::Waits => Ok(Seen::Waits),
            Said::Returned {
                signal: true,
                reply,
            } => Ok(Seen::Signalled(reply)),
            Said::Returned {
                signal: false,
                reply,
            } => Ok(Seen::Returned(reply)),
            Said::Fails(cause) => Ok(Seen::Fails(cause)),
            Said::BindFails => Ok(Seen::BindFails),
            Said::BoundTo(export) => Ok(Seen::Bound(export)),
            Said::NotBound => Ok(Seen::NotBound),
        }
    }

    /// A packet that is sent must be of the call that is told.
    fn sends(&mut self, alloc: Global, call: CallId, packet: Outgoing) -> Result<Seen, Fail> {
        let header = *packet.header();
        if header.call != call {
            return Err("a packet of the call".into());
        }
        let sent = packet.sent();
        let data = sent.frame().get(74..).ok_or("a frame")?;
        self.data = Vec::from_slice(alloc, data)?;
        Ok(Seen::Sends(header, data.len()))
    }
}

fn answer(is_so: bool) -> Seen {
    if is_so { Seen::Yes } else { Seen::No }
}

/// Whether a client sees these, one after the other.
pub fn goes_on<const LINES: usize>(
    trial: &mut Trial,
    alloc: Global,
    lines: [(Act, Seen); LINES],
) -> Result<bool, Fail> {
    for (act, seen) in lines {
        if trial.sees(alloc, act)? != seen {
            return Ok(false);
        }
    }
    Ok(true)
}

/// Whether a client that boots does.
pub fn plays<const LINES: usize>(alloc: Global, lines: [(Act, Seen); LINES]) -> Result<bool, Fail> {
    let mut trial = Trial::new(alloc)?;
    goes_on(&mut trial, alloc, lines)
}
