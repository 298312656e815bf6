//! What a worker's step was: one value, from where it is made to where it is told.

ghost use Rattle.std.specs.Prelude.{◌≡◌};
ghost use Rattle.call_rules.specs.Packet.{Packet};
ghost use Rattle.call_rules.specs.Worker as rules;
ghost use Rattle.replay_server.specs.Worker.{worker_after};

use crate::stage::Stage;
use call_rules::{Did, Unfit};
use replay_model::RunLine;
use replay_packets::Outgoing;
use rpc_header::CallNumber;

/// What a step adds to the world, beside what changes in the server.
#[derive(Drop)]
pub enum Adds {
    Nothing,
    /// A body has run.
    Run(RunLine),
    /// A packet is sent.
    Packet(Outgoing),
    /// A packet is sent, which refuses a call.
    Rejection(Outgoing),
}

/// A step of a worker, as the rules have it: what the worker is to do next with its carrier, or `None` where it gives
/// its packet back; what it did, and what that adds.
#[derive(Drop)]
pub struct Step {
    pub next: Option<Stage>,
    pub did: Did,
    pub adds: Adds,
}

/// A worker's step for a packet.
#[derive(Drop)]
pub struct Stepped {
    /// The number of the packet's call.
    pub number: CallNumber,
    pub did: Did,
    pub adds: Adds,
}

/// What becomes of a worker that is told to work.
#[derive(Drop)]
pub enum Worked {
    /// There is no such worker.
    Impossible,
    /// Nothing is ready.
    Idle,
    Step(Stepped),
}

/// The worker gives its packet back, and is idle.
pub fn rests(did: Did, adds: Adds) -> Step
    ensures worker { (p : Packet) → worker_after p result.next ≡ rules.Resting }
    ensures did { result.did ≡ did }
    ensures adds { result.adds ≡ adds }
{
    Step {
        next: None,
        did,
        adds,
    }
}

/// The worker gives its packet back, and nothing else changes.
pub fn drops(why: Unfit) -> Step
    ensures worker { (p : Packet) → worker_after p result.next ≡ rules.Resting }
    ensures did { result.did ≡ Did.Drops why }
    ensures adds { result.adds ≡ Adds.Nothing }
{
    rests(Did::Drops(why), Adds::Nothing)
}
