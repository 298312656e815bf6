//! What workers are at.

ghost use Rattle.std.specs.Prelude.{◌≡◌, ◌≤◌, length};
ghost use Rattle.fragments.specs.declared.limits.TheConstants.{LONG};

use crate::texts::{Answer, Whole};
use call_rules::Seen;
use replay_packets::Packet;

/// Where the arguments of an admitted call are.
#[derive(Drop)]
pub enum Arguments {
    /// In its only packet, the carrier.
    Carried,
    /// Gathered from its pieces.
    Gathered(Whole),
}

/// What a worker is to do next with its carrier.
#[derive(Drop)]
pub enum Stage {
    /// It has seen this of the entry when it claimed the packet.
    Claimed(Seen),
    /// It has what is gathered of the call in hand, and its packet's piece is full or the last.
    Took,
    /// The entry runs the call, whose body is to run.
    Admitted(Arguments),
    /// The body has answered.
    Ran(Answer),
    /// It has the entry's reply in hand.
    Fetched,
}

impl Arguments {
    ghost use Rattle.replay_server.specs.Worker.{arguments_in};

    /// The arguments themselves.
    pub fn bytes<'a>(&'a self, carrier: &'a Packet) -> &'a [u8]
        ensures bytes { result.now ≡ arguments_in self.now carrier.now.payload }
        ensures long { length result.now ≤ LONG }
    {
        match self {
            Arguments::Carried => carrier.payload(),
            Arguments::Gathered(whole) => whole.bytes(),
        }
    }
}
