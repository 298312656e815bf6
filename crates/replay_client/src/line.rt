//! A process of a client.

ghost use Rattle.std.specs.Prelude.{◌≡◌, ◌≤◌, ◌<◌, ◌+◌, ◌^◌, ◌++◌, ℕ, length, Some, IfOk, OnErr, OnOk, IfSome, MatchOption};
ghost use Rattle.lane_checksum.specs.Digests.{digest};
ghost use Rattle.rpc_header.specs.Spelling.{HasSpelling};
ghost use Rattle.fragments.specs.Pieces.{last_piece};
ghost use Rattle.call_rules.specs.Caller as rules;
ghost use Rattle.call_rules.specs.Packet.{call_of, fields_of};
ghost use Rattle.replay_model.specs.World as model;
ghost use Rattle.replay_model.specs.Process as process;
ghost use Rattle.replay_model.specs.Step as step;
ghost use Rattle.replay_model.specs.OpenCalls.{open_in};

use crate::task::Task;
use crate::told::{Cause, Said, Told};
use caller_core::{Action, Caller};
use ff_io::Station;
use fragments::{LONG, PIECE, piece};
use lane_checksum::{Digest, digest_of};
use replay_model::Discard;
use replay_packets::{Arrived, Outgoing, SERVER};
use rpc_header::{Activity, CallNumber, Export, Header, number};
use std::alloc::{AllocError, Global};
use std::marker::Model;

/// The binding that a client boots with.
const FIRST_BINDING: Export = Export {
    identifier: 1,
    index: 0,
};

/// The first call number of each second is the second times this.
const NUMBERS_A_SECOND: u64 = 1 << 16;

/// The largest number that a call can have.
const LAST_NUMBER: u64 = (1 << 48) - 1;

/// A process that makes calls: its caller, the number of its next call, its binding, the arguments of its call
/// (or the data of its bind), and what it has kept of a reply. Contracts see it as the line of `replay_model`.
#[derive(Drop)]
pub(crate) struct ClientLine {
    caller: Caller,
    next: u64,
    binding: Export,
    arguments: Vec<u8>,
    kept: Vec<u8>,
}

impl Model for ClientLine {
    ghost use Rattle.replay_model.specs.Process.{Line};
    ghost use Rattle.replay_client.specs.Sound.{IsSound};

    ghost Value = { Line };

    ghost view = { λ l. record { caller = l.caller; next = l.next; binding = l.binding; arguments = l.arguments.items; kept = l.kept.items } };

    ghost invariant = { λ l. IsSound l.caller l.arguments.items l.kept.items };
}

/// What a process does about a packet.
#[derive(Drop)]
pub enum Took {
    /// It isn't for this process, or changes nothing.
    Dropped(Discard),
    /// It is heard, and this comes of it.
    Hears(Told),
}

impl ClientLine {
    ghost use Rattle.replay_packets.specs.Packet.{packet_of};
    ghost use Rattle.replay_client.specs.Client.{TookAs, KeepsDropped};
    ghost use Rattle.replay_client.specs.Told.{StepsAs};

    /// The process with this number of a machine that has booted in this second.
    pub fn boot(alloc: Global, boot: u32, machine: u8, process: u8) -> Self
        requires { 1 ≤ process }
        ensures { result ≡ model.booted_line boot machine process }
    {
        let activity = Activity {
            machine: u32::from(machine),
            process: u16::from(process),
        };
        ClientLine {
            caller: Caller::idle(activity, u16::from(process) - 1),
            next: u64::from(boot) * NUMBERS_A_SECOND,
            binding: FIRST_BINDING,
            arguments: Vec::new(alloc),
            kept: Vec::new(alloc),
        }
    }

    /// Whether it has no call and no bind open.
    pub fn is_idle(&self) -> bool
        ensures { result ≡ rules.is_idle self.now.caller.state }
    {
        self.caller.is_idle()
    }

    /// How many calls it has open. A bind is no call.
    pub fn open_calls(&self) -> u64
        ensures exact { result ≡ open_in self.now.caller.state }
        ensures few { result ≤ 1 }
    {
        if self.is_idle() {
            return 0;
        }
        match self.task() {
            Task::Call => 1,
            Task::Bind => 0,
        }
    }

    /// Its machine and its number there.
    pub fn activity(&self) -> Activity
        ensures { result ≡ self.now.caller.activity }
    {
        self.caller.call().activity
    }

    /// The number of the call or the bind that it has made last.
    pub fn number(&self) -> CallNumber
        ensures { result.value ≡ self.now.caller.number }
    {
        self.caller.call().number
    }

    /// The number of its next call, which may be too large for one.
    pub fn next(&self) -> u64
        ensures { result ≡ self.now.next }
    {
        self.next
    }

    /// The number of its next call, where the second has one left.
    pub fn next_number(&self, second: u32) -> Option<CallNumber>
        ensures { MatchOption result (model.number_limit second ≤ self.now.next)
            (λ number. (number.value ≡ self.now.next) × (self.now.next < model.number_limit second)) }
    {
        if self.next < (u64::from(second) + 1) * NUMBERS_A_SECOND {
            number(self.next)
        } else {
            None
        }
    }

    /// Starts a call of an idle process. `Err` only where memory is short.
    pub fn call(
        &mut self,
        alloc: Global,
        me: Station,
        number: CallNumber,
        procedure: u16,
        arguments: Vec<u8>,
    ) -> Result<Told, AllocError>
        requires idle { self.old.caller.state ≡ rules.Idle }
        requires next { number.value ≡ self.old.next }
        requires long { length arguments.items ≤ LONG }
        ensures { IfOk result (λ told. StepsAs self.new told (process.started me.machine self.old procedure arguments.items)) }
    {
        let len = arguments.len();
        self.next = number.value + 1;
        self.arguments = arguments;
        self.kept.clear();
        let action = self.caller.start_call(number, self.binding, procedure, len);
        self.act(alloc, me, Task::Call, action, &[])
    }

    /// Starts a bind of an idle process, whose packet carries these bytes. `Err` only where memory is short.
    pub fn bind(
        &mut self,
        alloc: Global,
        me: Station,
        number: CallNumber,
        bytes: Vec<u8>,
    ) -> Result<Told, AllocError>
        requires idle { self.old.caller.state ≡ rules.Idle }
        requires next { number.value ≡ self.old.next }
        requires short { length bytes.items ≤ PIECE }
        ensures { IfOk result (λ told. StepsAs self.new told (process.binds me.machine self.old bytes.items)) }
    {
        let task = self.task();
        self.next = number.value + 1;
        self.arguments = bytes;
        self.kept.clear();
        let action = self.caller.start_bind(number);
        self.act(alloc, me, task, action, &[])
    }

    /// Passes over so many call numbers, and gives the number of its next call; `None` exactly where the numbers would
    /// be used up.
    pub fn skip(&mut self, by: u32) -> Option<u64>
        ensures { MatchOption result ((step.last_number < self.old.next + by) × (self.new ≡ self.old))
            (λ next. (next ≡ self.old.next + by) × (next ≤ step.last_number) × (self.new ≡ record self.old { next = next })) }
    {
        let next = self.next.checked_add(u64::from(by))?;
        if next > LAST_NUMBER {
            return None;
        }
        self.next = next;
        Some(next)
    }

    /// Takes a packet of the number that it waits for. `Err` only where memory is short.
    pub fn take(&mut self, alloc: Global, packet: &Arrived) -> Result<Took, AllocError>
        requires { HasSpelling packet.now.header (length packet.now.payload.now) }
        ensures outcome { IfOk result (λ took. (w : model.World) (k : ℕ) (c : model.Client)
            → TookAs w k (packet_of packet.now) (step.with_line c (packet.now.header.hint + 1) self.new) took
            (step.line_takes w k (packet_of packet.now) c (Some self.old))) }
        ensures dropped { IfOk result (λ took. KeepsDropped took self.old self.new) }
    {
        if self.is_idle() {
            return Ok(Took::Dropped(Discard::Stale));
        }
        if self.number() != packet.header.call.number {
            return Ok(Took::Dropped(Discard::Stale));
        }
        let task = self.task();
        match self.caller.on_packet(&packet.header) {
            Action::Unused => Ok(Took::Dropped(Discard::Unused)),
            action => {
                let told = self.act(alloc, packet.to, task, action, packet.payload)?;
                Ok(Took::Hears(told))
            }
        }
    }

    /// Has a tick. `Err` only where memory is short.
    pub fn tick(&mut self, alloc: Global, me: Station) -> Result<Told, AllocError>
        ensures { IfOk result (λ told. StepsAs self.new told (process.ticked me.machine self.old)) }
    {
        let task = self.task();
        let action = self.caller.on_tick();
        self.act(alloc, me, task, action, &[])
    }
}

/// What a process does about an act of its caller.
impl ClientLine {
    ghost use Rattle.caller_core.specs.Action.{act_of};
    ghost use Rattle.replay_client.specs.Task.{is_bind};
    ghost use Rattle.replay_client.specs.Sound.{CanTell, CameFrom, IsSendable};
    ghost use Rattle.replay_client.specs.Told.{SaysAs, StepsAs};

    fn task(&self) -> Task
        ensures { is_bind result ≡ rules.is_binding self.now.caller.state }
    {
        if self.caller.is_binding() {
            Task::Bind
        } else {
            Task::Call
        }
    }

    /// Does what an act of its caller asks, which has taken the step already. `bytes` are the data of the packet
    /// that came, if one did.
    fn act(
        &mut self,
        alloc: Global,
        me: Station,
        task: Task,
        action: Action,
        bytes: &[u8],
    ) -> Result<Told, AllocError>
        requires { CanTell self.old.caller self.old.arguments self.old.kept (act_of action) bytes.now }
        ensures call { IfOk result (λ told. call_of told.call ≡ rules.current_call self.old.caller) }
        ensures step { (before : rules.Caller) → CameFrom before self.old.caller (act_of action) (is_bind task)
            → IfOk result (λ told. StepsAs self.new told
            (process.on_act me.machine (record self.old { caller = before }) self.old.caller (act_of action) bytes.now)) }
    {
        let call = self.caller.call();
        let said = self.say(alloc, me, task, action, bytes)?;
        Ok(Told { call, said })
    }

    fn say(
        &mut self,
        alloc: Global,
        me: Station,
        task: Task,
        action: Action,
        bytes: &[u8],
    ) -> Result<Said, AllocError>
        requires { CanTell self.old.caller self.old.arguments self.old.kept (act_of action) bytes.now }
        ensures { (before : rules.Caller) → CameFrom before self.old.caller (act_of action) (is_bind task)
            → IfOk result (λ said. SaysAs self.new (rules.current_call self.old.caller) said
            (process.on_act me.machine (record self.old { caller = before }) self.old.caller (act_of action) bytes.now)) }
    {
        match action {
            Action::Send { header, piece } => {
                let packet = self.packet(alloc, me, header, piece)?;
                Ok(Said::Sends(packet))
            }
            Action::Keep { ack } => {
                keep(&mut self.kept, bytes)?;
                let packet = Outgoing::new(alloc, me, SERVER, ack, &[])?;
                Ok(Said::Sends(packet))
            }
            Action::Last { signal } => {
                let reply = self.whole(bytes)?;
                self.end();
                Ok(Said::Returned { signal, reply })
            }
            Action::Waiting => Ok(Said::Waits),
            Action::Bound(export) => {
                self.binding = export;
                self.end();
                Ok(Said::BoundTo(export))
            }
            Action::Unbound => {
                self.end();
                Ok(Said::NotBound)
            }
            Action::Refused(reason) => {
                self.end();
                Ok(Said::Fails(Cause::Refused(reason)))
            }
            Action::Failed => {
                self.end();
                Ok(task.gives_up())
            }
            Action::Quiet | Action::Unused => Ok(Said::Nothing),
        }
    }

    /// The packet with this header and this piece of the arguments, or no data.
    fn packet(
        &self,
        alloc: Global,
        me: Station,
        header: Header,
        piece: Option<u16>,
    ) -> Result<Outgoing, AllocError>
        requires { IsSendable self.now.arguments (fields_of header) piece }
        ensures { IfOk result (λ packet. packet ≡ process.packet_from me.machine (fields_of header) (process.data_of self.now.arguments piece)) }
    {
        let data = self.data(piece);
        Outgoing::new(alloc, me, SERVER, header, data)
    }

    /// A piece of the arguments, or no data.
    fn data(&self, i: Option<u16>) -> &[u8]
        requires { IfSome i (λ i. i ≤ last_piece (length self.now.arguments)) }
        ensures data { result.now ≡ process.data_of self.now.arguments i }
        ensures fits { length result.now ≤ PIECE }
        ensures full { IfSome i (λ i. i < last_piece (length self.now.arguments) → length result.now ≡ PIECE) }
    {
        match i {
            Some(i) => piece(self.arguments.as_slice(), i),
            None => &[],
        }
    }

    /// The digest of the reply, by its last piece.
    fn whole(&mut self, last: &[u8]) -> Result<Digest, AllocError>
        requires idle { self.old.caller.state ≡ rules.Idle }
        requires room { length (self.old.kept ++ last.now) < 2 ^ 32 }
        ensures reply { IfOk result (λ reply. reply ≡ digest (self.old.kept ++ last.now)) }
        ensures line { self.new ≡ record self.old { kept = self.new.kept } }
    {
        if self.kept.is_empty() {
            return Ok(digest_of(last));
        }
        self.kept.extend_from_slice(last)?;
        Ok(digest_of(self.kept.as_slice()))
    }

    /// Comes to the end of its call or its bind.
    fn end(&mut self)
        requires { self.old.caller.state ≡ rules.Idle }
        ensures { self.new ≡ process.ended self.old self.old.caller }
    {
        self.arguments.clear();
        self.kept.clear();
    }
}

/// Keeps a piece of a reply behind those that have come. It makes room for the longest reply first, so that no piece
/// moves later.
fn keep(kept: &mut Vec<u8>, piece: &[u8]) -> Result<(), AllocError>
    ensures added { OnOk result (kept.new.items ≡ kept.old.items ++ piece.now) }
    ensures unchanged { OnErr result (kept.new.items ≡ kept.old.items) }
{
    kept.reserve(LONG.saturating_sub(kept.len()))?;
    kept.extend_from_slice(piece)
}
