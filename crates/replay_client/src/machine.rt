//! A client machine with its processes.

ghost use Rattle.std.specs.Prelude.{◌≡◌, ◌≤◌, ◌+◌, ℕ, length, Some, IfOk, OnOk};
ghost use Rattle.rpc_header.specs.Spelling.{HasSpelling};
ghost use Rattle.replay_model.specs.World as model;
ghost use Rattle.replay_model.specs.World.{numbered};
ghost use Rattle.replay_model.specs.Step as step;
ghost use Rattle.replay_model.specs.Forms.{IsAskable};
ghost use Rattle.replay_model.specs.OpenCalls.{open_of};
ghost use Rattle.replay_model.specs.Rounds.{is_idle_line};

use crate::line::{ClientLine, Took};
use crate::told::Told;
use crate::words::{arguments_of, bind_data_of, procedure_of};
use binder::Name;
use ff_io::Station;
use replay_model::limits::LAST_PROCESS;
use replay_model::{CallWord, Discard};
use replay_packets::Arrived;
use rpc_header::Activity;
use std::alloc::{AllocError, Global};
use std::marker::Model;

/// What a client does about the start of a call, or of a bind.
#[derive(Drop)]
pub enum Called {
    /// There is no such process, or it has a call or a bind open.
    Impossible,
    /// The process has used the numbers of this second up, and its next call has this one.
    TooFast(u64),
    /// It is started, and this comes of it.
    Starts(Told),
}

/// A process that has passed over call numbers.
#[derive(Clone, Copy, PartialEq, Eq)]
pub struct Skipped {
    pub activity: Activity,
    /// The number of its next call.
    pub next: u64,
}

/// A client machine: the second in which it booted, the last second that it has read, and its processes. Contracts
/// see it as the client of `replay_model`.
#[derive(Drop)]
pub struct ClientMachine {
    boot: u32,
    read: u32,
    lines: Vec<ClientLine>,
}

impl Model for ClientMachine {
    ghost use Rattle.std.specs.Prelude.{◌≡◌, length};
    ghost use Rattle.replay_model.specs.World.{Client};
    ghost use Rattle.replay_model.specs.declared.limits.TheConstants.{LAST_PROCESS};

    ghost Value = { Client };

    ghost view = { λ c. record { boot = c.boot; read = c.read; lines = c.lines.items } };

    ghost invariant = { λ c. length c.lines.items ≡ LAST_PROCESS };
}

impl ClientMachine {
    ghost use Rattle.replay_packets.specs.Packet.{packet_of};
    ghost use Rattle.replay_client.specs.Client.{CallsAs, BindsAs, KeepsImpossible, SkipsAs, RestartsAs, TookAs, KeepsDropped, TicksAs};

    /// The machine of this number, which boots in this second. `Err` only where memory is short.
    pub fn boot(alloc: Global, boot: u32, machine: u8) -> Result<Self, AllocError>
        ensures { IfOk result (λ c. c ≡ model.booted_client boot machine) }
    {
        Ok(ClientMachine {
            boot,
            read: boot,
            lines: boot_lines(alloc, boot, machine)?,
        })
    }

    /// How many of its processes have a call open. A bind is no call.
    pub fn open_calls(&self) -> u64
        ensures exact { result ≡ open_of self.now }
        ensures few { result ≤ LAST_PROCESS }
    {
        let mut open = 0;
        for line in &self.lines {
            open += line.open_calls();
        }
        open
    }

    /// Whether there is a process of this number, with no call and no bind open.
    pub fn is_idle(&self, process: u8) -> bool
        requires { 1 ≤ process }
        ensures { result ≡ is_idle_line (numbered 1 self.now.lines process) }
    {
        match self.lines.get(usize::from(process) - 1) {
            Some(line) => line.is_idle(),
            None => false,
        }
    }

    /// A process is asked to start a call. The machine reads the second, but where the start is impossible. `Err`
    /// only where memory is short; then nothing is said of the machine.
    pub fn call(
        &mut self,
        alloc: Global,
        me: Station,
        process: u8,
        word: CallWord,
        second: u32,
    ) -> Result<Called, AllocError>
        requires process { 1 ≤ process }
        requires asked { IsAskable word }
        ensures outcome { IfOk result (λ called. (w : model.World) → CallsAs (record w { second = second }) me.machine self.new called
            (step.call_by (record w { second = second }) me.machine process self.old (numbered 1 self.old.lines process) word)) }
        ensures impossible { IfOk result (λ called. KeepsImpossible called self.old self.new) }
    {
        let place = usize::from(process) - 1;
        if place >= self.lines.len() {
            return Ok(Called::Impossible);
        }
        let line = &mut self.lines[place];
        if !line.is_idle() {
            return Ok(Called::Impossible);
        }
        let Some(number) = line.next_number(second) else {
            self.read = second;
            return Ok(Called::TooFast(line.next()));
        };
        let arguments = arguments_of(alloc, word)?;
        let told = line.call(alloc, me, number, procedure_of(word), arguments)?;
        self.read = second;
        Ok(Called::Starts(told))
    }

    /// A process is asked to start a bind to a name. The machine reads the second, but where the start is impossible.
    /// `Err` only where memory is short; then nothing is said of the machine.
    pub fn bind(
        &mut self,
        alloc: Global,
        me: Station,
        process: u8,
        name: &Name,
        second: u32,
    ) -> Result<Called, AllocError>
        requires { 1 ≤ process }
        ensures outcome { IfOk result (λ called. (w : model.World) → BindsAs (record w { second = second }) me.machine self.new called
            (step.bind_by (record w { second = second }) me.machine process self.old (numbered 1 self.old.lines process) name.now)) }
        ensures impossible { IfOk result (λ called. KeepsImpossible called self.old self.new) }
    {
        let place = usize::from(process) - 1;
        if place >= self.lines.len() {
            return Ok(Called::Impossible);
        }
        let line = &mut self.lines[place];
        if !line.is_idle() {
            return Ok(Called::Impossible);
        }
        let Some(number) = line.next_number(second) else {
            self.read = second;
            return Ok(Called::TooFast(line.next()));
        };
        let told = line.bind(alloc, me, number, bind_data_of(alloc, name)?)?;
        self.read = second;
        Ok(Called::Starts(told))
    }

    /// An idle process passes over so many call numbers. `None` exactly where there is no such process, it isn't idle,
    /// or its numbers would be used up.
    pub fn skip(&mut self, process: u8, by: u32) -> Option<Skipped>
        requires { 1 ≤ process }
        ensures outcome { (w : model.World) (machine : ℕ) → SkipsAs w machine self.new result
            (step.skip_by w machine process self.old (numbered 1 self.old.lines process) by) }
        ensures impossible { result ≡ None → self.new ≡ self.old }
    {
        let place = usize::from(process) - 1;
        if place >= self.lines.len() {
            return None;
        }
        let line = &mut self.lines[place];
        if !line.is_idle() {
            return None;
        }
        let activity = line.activity();
        let next = line.skip(by)?;
        Some(Skipped { activity, next })
    }

    /// Boots anew, as the machine of this number, in a second, and answers whether it did: not where it has read the
    /// second already. `Err` only where memory is short.
    pub fn restart(&mut self, alloc: Global, machine: u8, second: u32) -> Result<bool, AllocError>
        ensures { IfOk result (λ booted. (w : model.World) → RestartsAs (record w { second = second }) machine self.old self.new booted
            (step.boots_client (record w { second = second }) machine (Some self.old))) }
    {
        if second <= self.read {
            return Ok(false);
        }
        *self = ClientMachine::boot(alloc, second, machine)?;
        Ok(true)
    }

    /// Takes a packet that has come to this machine, for the process that the packet's hint names. `Err` only where
    /// memory is short; then nothing is said of the machine.
    pub fn take(&mut self, alloc: Global, packet: &Arrived) -> Result<Took, AllocError>
        requires { HasSpelling packet.now.header (length packet.now.payload.now) }
        ensures outcome { IfOk result (λ took. (w : model.World) (k : ℕ) → TookAs w k (packet_of packet.now) self.new took
            (step.client_takes w k (packet_of packet.now) (Some self.old))) }
        ensures dropped { IfOk result (λ took. KeepsDropped took self.old self.new) }
    {
        let place = usize::from(packet.header.hint);
        if place >= self.lines.len() {
            return Ok(Took::Dropped(Discard::NoCell));
        }
        self.lines[place].take(alloc, packet)
    }

    /// A process has a tick; `None` where there is no such process. `Err` only where memory is short; then nothing is
    /// said of the machine.
    pub fn tick(
        &mut self,
        alloc: Global,
        me: Station,
        process: u8,
    ) -> Result<Option<Told>, AllocError>
        requires { 1 ≤ process }
        ensures outcome { IfOk result (λ told. (w : model.World) → TicksAs w me.machine self.new told
            (step.ticks_line w me.machine process self.old (numbered 1 self.old.lines process))) }
        ensures nobody { result ≡ Ok None → self.new ≡ self.old }
    {
        let place = usize::from(process) - 1;
        if place >= self.lines.len() {
            return Ok(None);
        }
        let told = self.lines[place].tick(alloc, me)?;
        Ok(Some(told))
    }
}

/// The processes of a client that has booted.
fn boot_lines(alloc: Global, boot: u32, machine: u8) -> Result<Vec<ClientLine>, AllocError>
    ensures { IfOk result (λ lines. lines.items ≡ (model.booted_client boot machine).lines) }
{
    let mut lines = Vec::new(alloc);
    for cell in 0..LAST_PROCESS {
        lines.push(ClientLine::boot(alloc, boot, machine, cell + 1))?;
    }
    Ok(lines)
}
