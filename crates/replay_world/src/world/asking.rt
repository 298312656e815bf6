//! What a world is asked for, and that it forgets packets.

ghost use Rattle.std.specs.Prelude.{◌≡◌, ◌+◌, ◌≤◌, ◌<◌, length, IfSome};
ghost use Rattle.std.specs.Option.{option_map};
ghost use Rattle.call_rules.specs.Packet.{Packet};
ghost use Rattle.replay_model.specs.Arrival.{frame_of};
ghost use Rattle.replay_model.specs.Record.{counts_of};
ghost use Rattle.replay_model.specs.World as model;
ghost use Rattle.replay_model.specs.Rounds.{is_idle_at};
ghost use Rattle.replay_world.specs.Kept.{kept_at, forgets};
ghost use Rattle.replay_world.specs.Stands.{Stands};
ghost use Rattle.replay_world.specs.Stored.{packets_of};

use super::World;
use crate::counts::Counts;
use replay_model::limits::{FIRST_CLIENT, LAST_CLIENT, LAST_PROCESS};

/// The most packets that a world has once it has forgotten others.
pub const KEPT_PACKETS: usize = 64;

impl World {
    /// The world's second.
    pub fn second(&self) -> u32
        ensures { result ≡ self.now.second }
    {
        self.second
    }

    /// How many packets were sent.
    pub fn packets(&self) -> u64
        ensures { (w : model.World) → Stands self.now w → result ≡ length w.bag }
    {
        self.packets
    }

    /// The bytes of the frame of a packet by its number; the first has number 1. `None` exactly where there is no such
    /// packet, or it is forgotten.
    pub fn length(&self, packet: u64) -> Option<usize>
        ensures { (w : model.World) → Stands self.now w
            → result ≡ option_map (λ (p : Packet). length (frame_of p)) (kept_at self.now.forgotten w.bag packet) }
    {
        let place = self.place_of(packet)?;
        Some(self.bag[place].frame().len())
    }

    /// Whether a process of a client has no call and no bind open.
    pub fn is_idle(&self, machine: u8, process: u8) -> bool
        requires machine { (FIRST_CLIENT ≤ machine) × (machine ≤ LAST_CLIENT) }
        requires process { (1 ≤ process) × (process ≤ LAST_PROCESS) }
        ensures { (w : model.World) → Stands self.now w → result ≡ is_idle_at w machine process }
    {
        let place = usize::from(machine - FIRST_CLIENT);
        if place >= self.clients.len() {
            return false;
        }
        self.clients[place].is_idle(process)
    }

    /// What was counted so far.
    pub fn counts(&self) -> Counts
        ensures started { (w : model.World) → Stands self.now w → result.started ≡ length w.records.started }
        ensures runs { (w : model.World) → Stands self.now w → result.runs ≡ (counts_of w.records).runs }
        ensures returned { (w : model.World) → Stands self.now w → result.returned ≡ (counts_of w.records).returned }
        ensures signalled { (w : model.World) → Stands self.now w → result.signalled ≡ (counts_of w.records).signalled }
        ensures failed { (w : model.World) → Stands self.now w → result.failed ≡ (counts_of w.records).failed }
        ensures refused { (w : model.World) → Stands self.now w → result.refused ≡ (counts_of w.records).refused }
        ensures lost { result.lost ≡ self.now.lost }
    {
        Counts {
            started: self.started,
            runs: self.counts.runs,
            returned: self.counts.returned,
            signalled: self.counts.signalled,
            failed: self.counts.failed,
            refused: self.counts.refused,
            lost: self.lost,
        }
    }

    /// Forgets all packets but the last `KEPT_PACKETS`. The world stands for what it stood for.
    pub fn forget(&mut self)
        ensures stands { (w : model.World) → Stands self.old w → Stands self.new w }
        ensures forgets { self.new ≡ forgets self.old }
    {
        let len = self.bag.len();
        if len <= KEPT_PACKETS {
            return;
        }
        self.bag.drain(..len - KEPT_PACKETS);
    }

    /// The place in the bag of the packet of this number, where it is there.
    pub(super) fn place_of(&self, number: u64) -> Option<usize>
        ensures there { IfSome result (λ place. (self.now.forgotten + place + 1 ≡ number) × (place < length self.now.bag)) }
        ensures nowhere { result ≡ None → self.now.forgotten < number → packets_of self.now < number }
    {
        let forgotten = self.packets - self.bag.len() as u64;
        if number <= forgotten || number > self.packets {
            return None;
        }
        Some((number - forgotten - 1) as usize)
    }
}
