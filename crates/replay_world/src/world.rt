//! The player's world.

ghost use Rattle.std.specs.Prelude.{◌≡◌, ◌<◌, ◌≤◌, ◌+◌, ◌^◌, ℕ, [], ◌++◌, IfOk, OnOk};
ghost use Rattle.replay_model.specs.Record as act;
ghost use Rattle.replay_model.specs.World as model;
ghost use Rattle.replay_model.specs.Step as step;
ghost use Rattle.replay_model.specs.Transcript.{lines};
ghost use Rattle.replay_model.specs.Forms.{InRange, IsAskable};
ghost use Rattle.replay_model.specs.OpenCalls.{lost_in};
ghost use Rattle.replay_world.specs.Stored.{AllBelow, RoseByAtMost, Keeps};
ghost use Rattle.replay_world.specs.Kept.{HasNamed};
ghost use Rattle.replay_world.specs.Stands.{Stands, AreClients};
ghost use Rattle.replay_world.specs.Played.{Plays, PlaysTick};

mod asking;
mod lives;
mod telling;

use crate::delivery::hand_over;
pub use asking::KEPT_PACKETS;
use ff_io::Station;
use replay_client::Said;
use replay_client::machine::{Called, ClientMachine};
use replay_lines::calls::{put_impossible, put_quiet, put_start, put_too_fast};
use replay_lines::deliveries::put_frame;
use replay_lines::work::put_idle;
use replay_lines::{Counts, Page, put_end, put_runs};
use replay_model::limits::{CLIENTS, FIRST_CLIENT, LARGEST_COUNT, LAST_CLIENT};
use replay_model::{CallWord, Event, RunLine};
use replay_packets::Sent;
use replay_server::{ServerMachine, Worked};
use std::alloc::{AllocError, Global};
use std::marker::Model;
use std::mem;

/// The second in which all machines boot.
const FIRST_SECOND: u32 = 1;

/// The world that events are played on: a server, eight clients, and the packets that were sent. Of these it has the
/// last ones in its bag, and counts all.
#[derive(Drop)]
pub struct World {
    second: u32,
    server: ServerMachine,
    clients: Vec<ClientMachine>,
    bag: Vec<Sent>,
    packets: u64,
    runs: Vec<RunLine>,
    counts: Counts,
    started: u64,
    lost: u64,
}

impl Model for World {
    ghost use Rattle.std.specs.Prelude.{◌-◌, ◌≤◌, length};
    ghost use Rattle.replay_world.specs.Stored.{Stored};

    ghost Value = { Stored };

    ghost view = { λ w. record {
      second = w.second;
      server = w.server;
      clients = w.clients.items;
      forgotten = w.packets - length w.bag.items;
      bag = w.bag.items;
      runs = w.runs.items;
      counts = w.counts;
      started = w.started;
      lost = w.lost;
    } };

    ghost invariant = { λ w. length w.bag.items ≤ w.packets };
}

impl World {
    /// The world at second 1, in which all its machines boot. The server has so many small and long
    /// buffers.
    pub fn make(alloc: Global, small: usize, long: usize) -> Result<Self, AllocError>
        requires small { (2 ≤ small) × (small ≤ 3000) }
        requires long { long ≤ 1000 }
        ensures stands { IfOk result (λ world. Stands world (model.first_world small long)) }
        ensures no_packet { IfOk result (λ world. world.bag ≡ []) }
        ensures none_forgotten { IfOk result (λ world. world.forgotten ≡ 0) }
        ensures no_count { IfOk result (λ world. world.counts ≡ act.counts_of act.no_records) }
        ensures none_started { IfOk result (λ world. world.started ≡ 0) }
        ensures none_lost { IfOk result (λ world. world.lost ≡ 0) }
    {
        Ok(World {
            second: FIRST_SECOND,
            server: ServerMachine::boot(alloc, small, long, FIRST_SECOND)?,
            clients: boot_clients(alloc)?,
            bag: Vec::new(alloc),
            packets: 0,
            runs: Vec::new(alloc),
            counts: Counts::none(),
            started: 0,
            lost: 0,
        })
    }

    /// Steps the world, and appends the event's lines. Nothing is said of the world after an event that names a packet
    /// which is forgotten, nor after an `Err`, where it is only let go.
    pub fn apply(
        &mut self,
        alloc: Global,
        event: &Event,
        out: &mut Vec<u8>,
    ) -> Result<(), AllocError>
        requires in_range { InRange event.now }
        requires few { AllBelow (2 ^ 62) self.old }
        ensures step { (w : model.World) → Stands self.old w → HasNamed self.old event.now
            → OnOk result ((out.new.items ≡ out.old.items ++ lines w event.now) × Stands self.new (step.step w event.now)) }
        ensures lost { (w : model.World) → Stands self.old w → OnOk result (self.new.lost ≡ self.old.lost + lost_in w event.now) }
        ensures keeps { OnOk result (self.new.forgotten ≡ self.old.forgotten) }
        ensures few { OnOk result (RoseByAtMost 1000 self.old self.new) }
    {
        let mut page = Page::of(mem::replace(out, Vec::new(alloc)));
        let played = self.advance(alloc, event, &mut page);
        *out = page.into_text();
        played
    }

    /// Steps the world as `apply` does, and prints nothing.
    pub fn play(&mut self, alloc: Global, event: &Event) -> Result<(), AllocError>
        requires in_range { InRange event.now }
        requires few { AllBelow (2 ^ 62) self.old }
        ensures step { (w : model.World) → Stands self.old w → HasNamed self.old event.now
            → OnOk result (Stands self.new (step.step w event.now)) }
        ensures lost { (w : model.World) → Stands self.old w → OnOk result (self.new.lost ≡ self.old.lost + lost_in w event.now) }
        ensures keeps { OnOk result (self.new.forgotten ≡ self.old.forgotten) }
        ensures few { OnOk result (RoseByAtMost 1000 self.old self.new) }
    {
        let mut page = Page::blank(alloc);
        self.advance(alloc, event, &mut page)
    }

    /// Plays an event, and appends its lines.
    fn advance(&mut self, alloc: Global, event: &Event, out: &mut Page) -> Result<(), AllocError>
        requires in_range { InRange event.now }
        requires few { AllBelow (2 ^ 62) self.old }
        ensures played { (w : model.World) → Stands self.old w → HasNamed self.old event.now
            → OnOk result (Plays out.old out.new self.new w.records (step.outcome w event.now)) }
        ensures lost { (w : model.World) → Stands self.old w → OnOk result (self.new.lost ≡ self.old.lost + lost_in w event.now) }
        ensures keeps { OnOk result (self.new.forgotten ≡ self.old.forgotten) }
        ensures few { OnOk result (RoseByAtMost 1000 self.old self.new) }
    {
        match event {
            Event::Second(second) => self.pass(*second, out),
            Event::Call {
                machine,
                process,
                word,
            } => self.call(alloc, *machine, *process, *word, out),
            Event::Bind {
                machine,
                process,
                name,
            } => self.bind(alloc, *machine, *process, name, out),
            Event::Tick {
                machine,
                process,
                times,
            } => self.ticks(alloc, *machine, *process, *times, out),
            Event::Deliver(packet) => self.deliver(alloc, *packet, out),
            Event::Damage { packet, bit } => self.damage(alloc, *packet, *bit, out),
            Event::Export(name) => self.export(alloc, name, out),
            Event::Withdraw(name) => self.withdraw(name, out),
            Event::Restart(machine) => self.restart(alloc, *machine, out),
            Event::Skip {
                machine,
                process,
                by,
            } => self.skip(*machine, *process, *by, out),
            Event::Show(packet) => self.show(*packet, out),
            Event::Work(worker) => self.work(alloc, *worker, out),
            Event::Journal => put_runs(out, self.runs.as_slice()),
            Event::End => put_end(out, &self.counts),
        }
    }

    /// A process is asked to start a call.
    fn call(
        &mut self,
        alloc: Global,
        machine: u8,
        process: u8,
        word: CallWord,
        out: &mut Page,
    ) -> Result<(), AllocError>
        requires machine { (FIRST_CLIENT ≤ machine) × (machine ≤ LAST_CLIENT) }
        requires process { 1 ≤ process }
        requires asked { IsAskable word }
        requires few { AllBelow (2 ^ 62) self.old }
        ensures played { (w : model.World) → Stands self.old w → OnOk result (Plays out.old out.new self.new w.records
            (step.call_event w machine process (model.numbered FIRST_CLIENT w.clients machine) word)) }
        ensures keeps { OnOk result (Keeps self.old self.new) }
        ensures few { OnOk result (RoseByAtMost 2 self.old self.new) }
    {
        let place = usize::from(machine - FIRST_CLIENT);
        if place >= self.clients.len() {
            return put_impossible(out);
        }
        let client = &mut self.clients[place];
        let me = Station { machine };
        match client.call(alloc, me, process, word, self.second)? {
            Called::Impossible => put_impossible(out),
            Called::TooFast(number) => put_too_fast(out, number, self.second),
            Called::Starts(told) => {
                put_start(out, told.call)?;
                self.started += 1;
                self.tell(told, out)
            }
        }
    }

    /// So many ticks of a process pass.
    fn ticks(
        &mut self,
        alloc: Global,
        machine: u8,
        process: u8,
        count: u16,
        out: &mut Page,
    ) -> Result<(), AllocError>
        requires machine { (FIRST_CLIENT ≤ machine) × (machine ≤ LAST_CLIENT) }
        requires process { 1 ≤ process }
        requires count { count ≤ LARGEST_COUNT }
        requires few { AllBelow (2 ^ 62) self.old }
        ensures played { (w : model.World) → Stands self.old w → OnOk result (Plays out.old out.new self.new w.records
            (step.tick_event w machine process count)) }
        ensures keeps { OnOk result (Keeps self.old self.new) }
        ensures few { OnOk result (RoseByAtMost count self.old self.new) }
    {
        let mut is_quiet = true;
        for _passed in 0..count {
            let passed_quietly = self.tick(alloc, machine, process, out)?;
            is_quiet = is_quiet && passed_quietly;
        }
        if is_quiet {
            put_quiet(out)?;
        }
        Ok(())
    }

    /// A tick of a process passes. Answers whether it was quiet.
    fn tick(
        &mut self,
        alloc: Global,
        machine: u8,
        process: u8,
        out: &mut Page,
    ) -> Result<bool, AllocError>
        requires machine { (FIRST_CLIENT ≤ machine) × (machine ≤ LAST_CLIENT) }
        requires process { 1 ≤ process }
        requires few { AllBelow (2 ^ 63) self.old }
        ensures played { (w : model.World) → Stands self.old w
            → IfOk result (λ is_quiet. PlaysTick is_quiet out.old out.new self.new w.records (step.tick w machine process)) }
        ensures keeps { OnOk result (Keeps self.old self.new) }
        ensures few { OnOk result (RoseByAtMost 1 self.old self.new) }
    {
        let place = usize::from(machine - FIRST_CLIENT);
        if place >= self.clients.len() {
            return Ok(true);
        }
        let client = &mut self.clients[place];
        let me = Station { machine };
        let Some(told) = client.tick(alloc, me, process)? else {
            return Ok(true);
        };
        let is_quiet = matches!(told.said, Said::Nothing);
        self.tell(told, out)?;
        Ok(is_quiet)
    }

    /// A packet comes to its receiver.
    fn deliver(&mut self, alloc: Global, number: u32, out: &mut Page) -> Result<(), AllocError>
        requires { AllBelow (2 ^ 63) self.old }
        ensures played { (w : model.World) → Stands self.old w → self.old.forgotten < number
            → OnOk result (Plays out.old out.new self.new w.records (step.deliver_event w number (model.packet_at w.bag number))) }
        ensures keeps { OnOk result (Keeps self.old self.new) }
        ensures few { OnOk result (RoseByAtMost 1 self.old self.new) }
    {
        let Some(place) = self.place_of(u64::from(number)) else {
            return put_impossible(out);
        };
        let sent = &self.bag[place];
        let taken = hand_over(
            alloc,
            &mut self.server,
            &mut self.clients,
            sent.to(),
            sent.frame(),
        )?;
        self.tell_delivery(number, taken, out)
    }

    /// A packet comes to its receiver with one bit of its frame flipped.
    fn damage(
        &mut self,
        alloc: Global,
        number: u32,
        bit: u16,
        out: &mut Page,
    ) -> Result<(), AllocError>
        requires { AllBelow (2 ^ 63) self.old }
        ensures played { (w : model.World) → Stands self.old w → self.old.forgotten < number
            → OnOk result (Plays out.old out.new self.new w.records (step.damage_event w number bit (model.packet_at w.bag number))) }
        ensures keeps { OnOk result (Keeps self.old self.new) }
        ensures few { OnOk result (RoseByAtMost 1 self.old self.new) }
    {
        let Some(place) = self.place_of(u64::from(number)) else {
            return put_impossible(out);
        };
        let sent = &self.bag[place];
        let Some(frame) = sent.damaged(alloc, bit)? else {
            return put_impossible(out);
        };
        let taken = hand_over(
            alloc,
            &mut self.server,
            &mut self.clients,
            sent.to(),
            frame.as_slice(),
        )?;
        self.tell_delivery(number, taken, out)
    }

    /// The frame of a packet is printed.
    fn show(&self, number: u32, out: &mut Page) -> Result<(), AllocError>
        ensures { (w : model.World) → Stands self.now w → self.now.forgotten < number
            → OnOk result (Plays out.old out.new self.now w.records (step.show_event w number (model.packet_at w.bag number))) }
    {
        let Some(place) = self.place_of(u64::from(number)) else {
            return put_impossible(out);
        };
        put_frame(out, number, self.bag[place].frame())
    }

    /// One step of a worker.
    fn work(&mut self, alloc: Global, worker: u8, out: &mut Page) -> Result<(), AllocError>
        requires worker { 1 ≤ worker }
        requires few { AllBelow (2 ^ 63) self.old }
        ensures played { (w : model.World) → Stands self.old w → OnOk result (Plays out.old out.new self.new w.records
            (step.work_event w worker (model.numbered 1 w.server.workers worker))) }
        ensures keeps { OnOk result (Keeps self.old self.new) }
        ensures few { OnOk result (RoseByAtMost 1 self.old self.new) }
    {
        match self.server.work(alloc, worker)? {
            Worked::Impossible => put_impossible(out),
            Worked::Idle => put_idle(out, worker),
            Worked::Step(stepped) => self.tell_step(worker, stepped, out),
        }
    }
}

/// The clients of a new world.
fn boot_clients(alloc: Global) -> Result<Vec<ClientMachine>, AllocError>
    ensures { IfOk result (λ clients. (small long : ℕ) → AreClients clients.items (model.first_world small long).clients) }
{
    let mut clients = Vec::new(alloc);
    for place in 0..CLIENTS {
        clients.push(ClientMachine::boot(alloc, FIRST_SECOND, FIRST_CLIENT + place)?)?;
    }
    Ok(clients)
}
