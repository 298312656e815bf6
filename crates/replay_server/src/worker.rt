//! The workers of the server.

ghost use Rattle.std.specs.Prelude.{◌≡◌, Some, IfOk, OnOk};
ghost use Rattle.call_rules.specs.Packet.{Packet};
ghost use Rattle.call_rules.specs.Worker as rules;
ghost use Rattle.replay_server.specs.GoesOn.{ExchangesIn, row_over};
ghost use Rattle.replay_server.specs.Rules.{total_at};
ghost use Rattle.replay_server.specs.Worker.{worker_after, worker_at, worker_of, CanAdd};

use crate::entry::{Entry, place_in};
use crate::stage::Stage;
use crate::step::{Step, Stepped};
use crate::task_rules::on_task;
use replay_packets::Packet;
use std::alloc::{AllocError, Global};
use std::marker::Model;
use std::mem;

/// One worker. It is idle, or it holds the packet that it claimed, its carrier, which stays where it is until it is
/// given back. Where it has gathered pieces in hand, the carrier's piece may be added to them; a stage that stands in
/// for another is `Fetched`, which asks nothing of the carrier.
#[derive(Drop)]
pub struct Worker {
    carrier: Option<Packet>,
    /// What is next with the carrier, where there is one.
    stage: Stage,
}

impl Model for Worker {
    ghost use Rattle.call_rules.specs.Worker.{Worker};
    ghost use Rattle.replay_server.specs.Worker.{worker_of, CanAdd};

    ghost Value = { Worker };

    ghost view = { λ w. worker_of w.carrier w.stage };

    ghost invariant = { λ w. CanAdd (worker_of w.carrier w.stage) };
}

impl Worker {
    ghost use Rattle.replay_server.specs.GoesOn.{Goes};

    /// A worker without a packet.
    pub fn idle() -> Self
        ensures { result ≡ rules.Resting }
    {
        Worker {
            carrier: None,
            stage: Stage::Fetched,
        }
    }

    /// The worker that has taken a packet, and is to do this next with it, or gives it back.
    pub fn after(packet: Packet, next: Option<Stage>) -> Self
        requires { CanAdd (worker_after packet next) }
        ensures { result ≡ worker_after packet next }
    {
        match next {
            Some(stage) => Worker {
                carrier: Some(packet),
                stage,
            },
            None => Worker::idle(),
        }
    }

    /// A worker with a packet does what is next, with the entries that the server keeps; the service may have a new
    /// total. An idle worker does nothing. `Err` only where memory is short: then what was next is lost.
    pub fn go_on(
        &mut self,
        alloc: Global,
        total: &mut u32,
        entries: &mut Vec<Entry>,
    ) -> Result<Option<Stepped>, AllocError>
        ensures { IfOk result (Goes self.old self.new total.old total.new entries.old.items entries.new.items) }
    {
        let Some(carrier) = &self.carrier else {
            return Ok(None);
        };
        let number = carrier.header().call.number;
        let stage = mem::replace(&mut self.stage, Stage::Fetched);
        let Step { next, did, adds } = on_entries(alloc, total, carrier, stage, entries)?;
        settle(&mut self.carrier, &mut self.stage, next);
        Ok(Some(Stepped { number, did, adds }))
    }
}

/// What a worker keeps after a step: its carrier with what is next, or nothing.
fn settle(carrier: &mut Option<Packet>, stage: &mut Stage, next: Option<Stage>)
    ensures { (p : Packet) → carrier.old ≡ Some p → worker_of carrier.new stage.new ≡ worker_after p next }
{
    match next {
        Some(after) => *stage = after,
        None => *carrier = None,
    }
}

/// What is next is done with the entry of the carrier's activity; where there is none, with an empty one that is let go.
fn on_entries(
    alloc: Global,
    total: &mut u32,
    carrier: &Packet,
    stage: Stage,
    entries: &mut Vec<Entry>,
) -> Result<Step, AllocError>
    requires { CanAdd (worker_at carrier.now stage) }
    ensures step { IfOk result (ExchangesIn carrier.now (row_over carrier.now stage total.old entries.old.items) entries.old.items entries.new.items) }
    ensures total { OnOk result (total.new ≡ total_at carrier.now stage total.old) }
{
    match place_in(entries.as_slice(), carrier.header().call.activity) {
        Some(place) => on_task(alloc, total, carrier, stage, &mut entries[place]),
        None => on_task(alloc, total, carrier, stage, &mut Entry::empty()),
    }
}
