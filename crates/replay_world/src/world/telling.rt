//! What happens, told: it is printed, packets are sent, runs are kept, and the ends of calls are counted.

ghost use Rattle.std.specs.Prelude.{◌≡◌, ◌+◌, ◌<◌, ◌^◌, ℕ, [], ◌∷◌, ◌++◌, length, OnOk};
ghost use Rattle.call_rules.specs.Packet.{call_of};
ghost use Rattle.replay_model.specs.Record.{Records};
ghost use Rattle.replay_model.specs.Lines.{packet_line};
ghost use Rattle.replay_model.specs.World as model;
ghost use Rattle.replay_model.specs.Step.{Outcome};
ghost use Rattle.replay_lines.specs.Page.{written};
ghost use Rattle.replay_packets.specs.Sent.{sent_of};
ghost use Rattle.replay_client.specs.Told.{TellsAs, cause_of};
ghost use Rattle.replay_server.specs.Stepped.{StepsAs};
ghost use Rattle.replay_world.specs.Stored.{AllBelow, RoseByAtMost, Keeps, packets_of};
ghost use Rattle.replay_world.specs.Stands.{Stands};
ghost use Rattle.replay_world.specs.Delivery.{TakenAs};
ghost use Rattle.replay_world.specs.Played.{Plays, fails};

use super::World;
use crate::delivery::Taken;
use replay_client::{Cause, Said, Told};
use replay_lines::calls::{
    put_bind_failure, put_bound, put_failure, put_refusal, put_return, put_unbound, put_waiting,
};
use replay_lines::deliveries::{put_discard, put_ready};
use replay_lines::work::put_work;
use replay_lines::{Page, put_packet};
use replay_packets::Outgoing;
use replay_server::{Adds, Stepped};
use rpc_header::CallId;
use std::alloc::AllocError;

impl World {
    /// Tells what a process says of its call or its bind.
    pub fn tell(&mut self, told: Told, out: &mut Page) -> Result<(), AllocError>
        requires { AllBelow (2 ^ 63) self.old }
        ensures played { (w : model.World) (r : Records) (o : Outcome) → TellsAs w told o → Stands self.old (record w { records = r })
            → OnOk result (Plays out.old out.new self.new r o) }
        ensures keeps { OnOk result (Keeps self.old self.new) }
        ensures few { OnOk result (RoseByAtMost 1 self.old self.new) }
    {
        let Told { call, said } = told;
        match said {
            Said::Nothing => Ok(()),
            Said::Sends(packet) => self.send(packet, out),
            Said::Waits => put_waiting(out, call),
            Said::Returned { signal, reply } => {
                self.counts.count_return(signal);
                put_return(out, call, signal, reply)
            }
            Said::Fails(cause) => self.tell_failure(call, cause, out),
            Said::BindFails => put_bind_failure(out, call),
            Said::BoundTo(export) => put_bound(out, call, export),
            Said::NotBound => put_unbound(out, call),
        }
    }

    /// Tells why a call failed.
    fn tell_failure(&mut self, call: CallId, cause: Cause, out: &mut Page) -> Result<(), AllocError>
        requires { AllBelow (2 ^ 63) self.old }
        ensures played { (w : model.World) → Stands self.old w
            → OnOk result (Plays out.old out.new self.new w.records (fails w (call_of call) (cause_of cause))) }
        ensures keeps { OnOk result (Keeps self.old self.new) }
        ensures few { OnOk result (RoseByAtMost 1 self.old self.new) }
    {
        match cause {
            Cause::Unanswered => {
                self.counts.count_failure();
                put_failure(out, call)
            }
            Cause::Refused(reason) => {
                self.counts.count_refusal();
                put_refusal(out, call, reason)
            }
        }
    }

    /// Tells what a worker did.
    pub fn tell_step(
        &mut self,
        worker: u8,
        stepped: Stepped,
        out: &mut Page,
    ) -> Result<(), AllocError>
        requires { AllBelow (2 ^ 63) self.old }
        ensures played { (w : model.World) (s : model.Server) (r : Records) (o : Outcome) → StepsAs w worker s stepped o
            → Stands self.old (record w { server = s; records = r })
            → OnOk result (Plays out.old out.new self.new r o) }
        ensures keeps { OnOk result (Keeps self.old self.new) }
        ensures few { OnOk result (RoseByAtMost 1 self.old self.new) }
    {
        let Stepped { number, did, adds } = stepped;
        put_work(out, worker, number.value, did)?;
        match adds {
            Adds::Nothing => Ok(()),
            Adds::Run(line) => {
                self.counts.count_run();
                self.runs.push(line)?;
                Ok(())
            }
            Adds::Packet(packet) | Adds::Rejection(packet) => self.send(packet, out),
        }
    }

    /// Tells what became of a packet that was delivered.
    pub fn tell_delivery(
        &mut self,
        number: u32,
        taken: Taken,
        out: &mut Page,
    ) -> Result<(), AllocError>
        requires { AllBelow (2 ^ 63) self.old }
        ensures played { (w : model.World) (o : Outcome) → TakenAs w number taken o → Stands self.old w
            → OnOk result (Plays out.old out.new self.new w.records o) }
        ensures keeps { OnOk result (Keeps self.old self.new) }
        ensures few { OnOk result (RoseByAtMost 1 self.old self.new) }
    {
        match taken {
            Taken::Readied => put_ready(out, number),
            Taken::Dropped(why) => put_discard(out, why),
            Taken::Hears(told) => self.tell(told, out),
        }
    }

    /// Sends a packet.
    fn send(&mut self, packet: Outgoing, out: &mut Page) -> Result<(), AllocError>
        requires { packets_of self.old < 2 ^ 63 }
        ensures bag { OnOk result (self.new ≡ record self.old { bag = self.old.bag ++ sent_of packet ∷ [] }) }
        ensures printed { OnOk result (out.new
            ≡ written out.old (packet_line (packets_of self.old + 1) packet.from packet.to packet.header (length packet.payload))) }
    {
        self.packets += 1;
        put_packet(
            out,
            self.packets as usize,
            packet.from().machine,
            packet.to().machine,
            packet.header(),
            packet.payload_len(),
        )?;
        self.bag.push(packet.sent())?;
        Ok(())
    }
}
