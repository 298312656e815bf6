//! The server machine.

ghost use Rattle.std.specs.Prelude.{◌≡◌, ◌≤◌, ◌+◌, ◌*◌, ◌<◌, List, [], ◌∷◌, ◌++◌, length, Some, None, unwrap_or, replicate, nat_lt, slice_set, slice_get, IfOk, MatchOption, if◌then◌else◌};
ghost use Rattle.std.specs.Option.{option_map};
ghost use Rattle.rpc_header.specs.Spelling.{HasSpelling};
ghost use Rattle.binder.specs.Exports.{booted, exported, look_up, withdrawn};
ghost use Rattle.call_rules.specs.Packet.{Packet};
ghost use Rattle.call_rules.specs.Entry as entry;
ghost use Rattle.call_rules.specs.Worker as rules;
ghost use Rattle.replay_model.specs.World as model;
ghost use Rattle.replay_model.specs.World.{World, numbered};
ghost use Rattle.replay_model.specs.Step as step;
ghost use Rattle.replay_server.specs.Lives.{Exporting};

use crate::entry::{Entry, place_in};
use crate::idle_rules::on_idle;
use crate::step::{Step, Stepped, Worked};
use crate::worker::Worker;
use binder::{ExportFault, Exports, InterfaceName, Name, read_name};
use call_rules::Seen;
use replay_model::limits::{CLIENTS, LAST_PROCESS, LAST_WORKER, READY_CELLS, SERVICE_PROCEDURES};
use replay_packets::{Arrived, Packet, test_name};
use rpc_header::{Activity, Export};
use std::alloc::{AllocError, Global};
use std::collections::VecDeque;
use std::marker::Model;

/// The server machine. Callers see the server of the definitions.
#[derive(Drop)]
pub struct ServerMachine {
    small: usize,
    long: usize,
    boot: u32,
    read: u32,
    exports: Exports,
    entries: Vec<Entry>,
    workers: Vec<Worker>,
    ready: VecDeque<Packet>,
    total: u32,
}

impl Model for ServerMachine {
    ghost use Rattle.replay_model.specs.World.{Server};

    ghost Value = { Server };

    ghost view = { λ s. record {
      small = s.small;
      long = s.long;
      boot = s.boot;
      read = s.read;
      exports = s.exports;
      entries = s.entries.items;
      workers = s.workers.items;
      ready = s.ready.items;
      total = s.total;
    } };
}

impl ServerMachine {
    ghost use Rattle.replay_packets.specs.Packet.{packet_of};
    ghost use Rattle.replay_server.specs.GoesOn.{GoesOnAt};
    ghost use Rattle.replay_server.specs.Lives.{ExportsAs, WithdrawsAs, RestartsAs};
    ghost use Rattle.replay_server.specs.Rules.{Keeps};
    ghost use Rattle.replay_server.specs.Stepped.{WorksAs, KeepsIdle};

    /// A server with these numbers of small and of long buffers that boots in a second. It exports the test
    /// service. `Err` only where memory is short.
    pub fn boot(alloc: Global, small: usize, long: usize, boot: u32) -> Result<Self, AllocError>
        ensures { IfOk result (λ server. server ≡ model.booted_server small long boot) }
    {
        Ok(ServerMachine {
            small,
            long,
            boot,
            read: boot,
            exports: boot_exports(alloc, boot)?,
            entries: boot_entries(alloc)?,
            workers: boot_workers(alloc)?,
            ready: VecDeque::new(alloc),
            total: 0,
        })
    }

    /// Takes a packet to the ready ones, and answers whether there was room for it. `Err` only where memory is
    /// short.
    pub fn take(&mut self, alloc: Global, packet: &Arrived) -> Result<bool, AllocError>
        requires { HasSpelling packet.now.header (length packet.now.payload.now) }
        ensures room { IfOk result (λ has_room. has_room ≡ nat_lt (length self.old.ready) READY_CELLS) }
        ensures ready { IfOk result (λ has_room. self.new
            ≡ (if has_room then record self.old { ready = self.old.ready ++ packet_of packet.now ∷ [] } else self.old)) }
    {
        if self.ready.len() >= READY_CELLS {
            return Ok(false);
        }
        self.ready.push_back(Packet::kept(alloc, packet)?)?;
        Ok(true)
    }

    /// One step of a worker. Workers are numbered from 1. `Err` only where memory is short: then what the worker was to
    /// do next is lost, or the ready packet that it took.
    pub fn work(&mut self, alloc: Global, number: u8) -> Result<Worked, AllocError>
        requires { 1 ≤ number }
        ensures outcome { IfOk result (λ worked. (w : World) → WorksAs (record w { server = self.old }) number self.new worked
            (step.work_event (record w { server = self.old }) number (numbered 1 self.old.workers number))) }
        ensures idle { IfOk result (λ worked. KeepsIdle worked self.old self.new) }
    {
        let place = usize::from(number) - 1;
        if place >= self.worker_count() {
            return Ok(Worked::Impossible);
        }
        let done = self.go_on(alloc, place)?;
        match done {
            Some(stepped) => Ok(Worked::Step(stepped)),
            None => self.claim_next(alloc, place),
        }
    }

    /// Exports the test service by a name, in a second, which the server has read then, also where it refuses. `Err`
    /// of the outer result only where memory is short.
    pub fn export(
        &mut self,
        alloc: Global,
        name: Name,
        second: u32,
    ) -> Result<Result<Export, ExportFault>, AllocError>
        ensures { IfOk result (λ exported. (w : World) → ExportsAs (record w { server = self.old; second = second }) self.new exported
            (step.export_event (record w { server = self.old; second = second }) name)) }
    {
        self.read = second;
        export_name(&mut self.exports, alloc, test_name(&name), second)
    }

    /// Takes the export of a name back, and gives its index, or `None` exactly where the name isn't exported.
    pub fn withdraw(&mut self, name: Name) -> Option<u16>
        ensures { (w : World) → WithdrawsAs (record w { server = self.old }) self.new result
            (step.withdraw_event (record w { server = self.old }) name) }
    {
        withdraw_name(&mut self.exports, test_name(&name))
    }

    /// Boots anew in a second, and answers whether it did: not where it has read the second already. `Err` only where
    /// memory is short.
    pub fn restart(&mut self, alloc: Global, second: u32) -> Result<bool, AllocError>
        ensures { IfOk result (λ booted. (w : World) → RestartsAs (record w { server = self.old; second = second }) self.old self.new booted
            (step.boots_server (record w { server = self.old; second = second }))) }
    {
        if second <= self.read {
            return Ok(false);
        }
        self.boot_anew(alloc, second)?;
        Ok(true)
    }

    /// Forgets all but the numbers of its buffers, and boots in a second. `Err` only where memory is short.
    fn boot_anew(&mut self, alloc: Global, second: u32) -> Result<(), AllocError>
        ensures { IfOk result (λ _. self.new ≡ model.booted_server self.old.small self.old.long second) }
    {
        *self = ServerMachine::boot(alloc, self.small, self.long, second)?;
        Ok(())
    }

    /// An idle worker takes the oldest ready packet.
    fn claim_next(&mut self, alloc: Global, place: usize) -> Result<Worked, AllocError>
        requires { place < length self.old.workers }
        ensures outcome { IfOk result (λ worked. (w : World) → WorksAs (record w { server = self.old }) (place + 1) self.new worked
            (step.claims_next (record w { server = self.old }) (place + 1) self.old.ready)) }
        ensures idle { IfOk result (λ worked. KeepsIdle worked self.old self.new) }
    {
        let Some(packet) = self.next_ready() else {
            return Ok(Worked::Idle);
        };
        let number = packet.header().call.number;
        let step = self.claim(alloc, &packet)?;
        self.put_worker(place, Worker::after(packet, step.next));
        Ok(Worked::Step(Stepped {
            number,
            did: step.did,
            adds: step.adds,
        }))
    }

    /// The step of an idle worker that has taken a packet.
    fn claim(&self, alloc: Global, packet: &Packet) -> Result<Step, AllocError>
        ensures { IfOk result (Keeps packet.now (rules.on_idle (step.asked_of self.now.exports.rows packet.now)
            (model.entry_at self.now.entries packet.now.header.call.activity) packet.now)) }
    {
        let seen = self.seen(packet.header().call.activity);
        on_idle(alloc, &self.exports, seen, packet)
    }

    fn worker_count(&self) -> usize
        ensures { result ≡ length self.now.workers }
    {
        self.workers.len()
    }

    /// A worker with a packet does what is next. An idle one does nothing.
    fn go_on(&mut self, alloc: Global, place: usize) -> Result<Option<Stepped>, AllocError>
        requires { place < length self.old.workers }
        ensures { IfOk result (GoesOnAt place self.old self.new) }
    {
        self.workers[place].go_on(alloc, &mut self.total, &mut self.entries)
    }

    fn put_worker(&mut self, place: usize, worker: Worker)
        requires { place < length self.old.workers }
        ensures { self.new ≡ record self.old { workers = slice_set self.old.workers place worker } }
    {
        self.workers[place] = worker;
    }

    /// Takes the oldest ready packet.
    fn next_ready(&mut self) -> Option<Packet>
        ensures { MatchOption result ((self.old.ready ≡ []) × (self.new ≡ self.old))
            (λ packet. (rest : List Packet) × (self.old.ready ≡ packet ∷ rest) × (self.new ≡ record self.old { ready = rest })) }
    {
        self.ready.pop_front()
    }

    /// What a worker sees of an activity's entry, where there is one.
    fn seen(&self, activity: Activity) -> Option<Seen>
        ensures { option_map entry.word_of (model.entry_at self.now.entries activity) ≡ option_map entry.word_seen result }
    {
        let place = place_in(self.entries.as_slice(), activity)?;
        Some(self.entries[place].seen())
    }
}

/// The exports of a server that boots in a second: the test service.
fn boot_exports(alloc: Global, boot: u32) -> Result<Exports, AllocError>
    ensures { IfOk result (λ exports. exports ≡ exported (booted boot) model.main_name SERVICE_PROCEDURES) }
{
    let mut exports = Exports::boot(boot);
    match exports.export(alloc, main_name(), SERVICE_PROCEDURES, boot) {
        Ok(_) => Ok(exports),
        // Nothing is exported yet, so no other fault can come.
        Err(_) => Err(AllocError),
    }
}

/// Exports the test service by a name, or tells why not. `Err` of the outer result only where memory is short.
fn export_name(
    exports: &mut Exports,
    alloc: Global,
    name: InterfaceName,
    second: u32,
) -> Result<Result<Export, ExportFault>, AllocError>
    ensures { IfOk result (λ exported. Exporting exports.old exports.new name second exported) }
{
    match exports.export(alloc, name, SERVICE_PROCEDURES, second) {
        Err(ExportFault::Memory) => Err(AllocError),
        exported => Ok(exported),
    }
}

/// Takes the export of a name back, if there is one, and gives its index.
fn withdraw_name(exports: &mut Exports, name: InterfaceName) -> Option<u16>
    ensures index { result ≡ option_map (λ (export : Export). export.index) (look_up exports.old.rows name) }
    ensures exports { exports.new ≡ withdrawn exports.old name }
{
    let export = exports.withdraw(&name)?;
    Some(export.index)
}

/// The name that the test service boots with.
fn main_name() -> InterfaceName
    ensures { result ≡ model.main_name }
{
    test_name(&read_name(b"main").unwrap())
}

fn boot_entries(alloc: Global) -> Result<Vec<Entry>, AllocError>
    ensures { IfOk result (λ entries. entries.items ≡ replicate (CLIENTS * LAST_PROCESS) entry.Empty) }
{
    let mut entries = Vec::new(alloc);
    for _entry in 0..CLIENTS * LAST_PROCESS {
        entries.push(Entry::empty())?;
    }
    Ok(entries)
}

fn boot_workers(alloc: Global) -> Result<Vec<Worker>, AllocError>
    ensures { IfOk result (λ workers. workers.items ≡ replicate LAST_WORKER rules.Resting) }
{
    let mut workers = Vec::new(alloc);
    for _worker in 0..LAST_WORKER {
        workers.push(Worker::idle())?;
    }
    Ok(workers)
}
