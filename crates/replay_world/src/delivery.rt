//! The delivery of frames to the machines.

ghost use Rattle.std.specs.Prelude.{◌≡◌, ◌<◌, ◌^◌, ℕ, IfOk, length};
ghost use Rattle.rpc_header.specs.Spelling.{HasSpelling};
ghost use Rattle.replay_model.specs.World as model;
ghost use Rattle.replay_model.specs.Step as step;
ghost use Rattle.replay_packets.specs.Packet.{packet_of};
ghost use Rattle.replay_world.specs.Stands.{IsServer, AreClients};
ghost use Rattle.replay_world.specs.Delivery.{HandsOver, HandsToServer, HandsToClient};

use ff_io::Station;
use replay_client::machine::ClientMachine;
use replay_client::{Told, Took};
use replay_model::Discard;
use replay_model::limits::FIRST_CLIENT;
use replay_packets::{Arrived, SERVER, arrive};
use replay_server::ServerMachine;
use std::alloc::{AllocError, Global};

/// What becomes of a frame that comes to a machine.
#[derive(Drop)]
pub enum Taken {
    /// Its packet is ready at the server.
    Readied,
    /// It ends here.
    Dropped(Discard),
    /// A process hears its packet, and this comes of it.
    Hears(Told),
}

/// The bytes of a frame come to machine `me`.
pub fn hand_over(
    alloc: Global,
    server: &mut ServerMachine,
    clients: &mut Vec<ClientMachine>,
    me: Station,
    frame: &[u8],
) -> Result<Taken, AllocError>
    ensures { IfOk result (λ taken. (w : model.World) (k : ℕ) → IsServer server.old w.server → AreClients clients.old.items w.clients
        → HandsOver server.new clients.new.items taken w k (step.receives w k me.machine frame.now)) }
{
    let packet = match arrive(me, frame) {
        Ok(packet) => packet,
        Err(why) => return Ok(Taken::Dropped(why)),
    };
    if me == SERVER {
        hand_to_server(alloc, server, &packet)
    } else {
        hand_to_client(alloc, clients, &packet)
    }
}

/// A packet comes to the server.
fn hand_to_server(
    alloc: Global,
    server: &mut ServerMachine,
    packet: &Arrived,
) -> Result<Taken, AllocError>
    requires { HasSpelling packet.now.header (length packet.now.payload.now) }
    ensures { IfOk result (λ taken. (w : model.World) (k : ℕ) → IsServer server.old w.server
        → HandsToServer server.new taken w k (step.server_takes w k (packet_of packet.now))) }
{
    if server.take(alloc, packet)? {
        Ok(Taken::Readied)
    } else {
        Ok(Taken::Dropped(Discard::NoRoom))
    }
}

/// A packet comes to a client.
fn hand_to_client(
    alloc: Global,
    clients: &mut Vec<ClientMachine>,
    packet: &Arrived,
) -> Result<Taken, AllocError>
    requires { HasSpelling packet.now.header (length packet.now.payload.now) }
    ensures { IfOk result (λ taken. (w : model.World) (k : ℕ) → AreClients clients.old.items w.clients
        → HandsToClient clients.new.items taken w k
        (step.client_takes w k (packet_of packet.now) (model.numbered FIRST_CLIENT w.clients packet.now.to.machine))) }
{
    let machine = packet.to.machine;
    if machine < FIRST_CLIENT {
        return Ok(Taken::Dropped(Discard::NoCell));
    }
    let place = usize::from(machine - FIRST_CLIENT);
    if place >= clients.len() {
        return Ok(Taken::Dropped(Discard::NoCell));
    }
    let client = &mut clients[place];
    match client.take(alloc, packet)? {
        Took::Dropped(why) => Ok(Taken::Dropped(why)),
        Took::Hears(told) => Ok(Taken::Hears(told)),
    }
}
