//! The second, names that are bound to and exported, machines that boot anew, and numbers that are passed over.

ghost use Rattle.std.specs.Prelude.{◌≡◌, ◌≤◌, ◌+◌, ◌^◌, ℕ, OnOk};
ghost use Rattle.replay_model.specs.World as model;
ghost use Rattle.replay_model.specs.Step as step;
ghost use Rattle.replay_model.specs.OpenCalls.{lost_of};
ghost use Rattle.replay_world.specs.Stored.{AllBelow, RoseByAtMost, Keeps};
ghost use Rattle.replay_world.specs.Stands.{Stands};
ghost use Rattle.replay_world.specs.Played.{Plays};

use super::World;
use binder::Name;
use ff_io::Station;
use replay_client::machine::Called;
use replay_lines::Page;
use replay_lines::calls::{put_bind, put_impossible, put_too_fast};
use replay_lines::lives::{
    put_export, put_no_export, put_restarted, put_second, put_skipped, put_withdrawn,
};
use replay_model::limits::{FIRST_CLIENT, LAST_CLIENT, LAST_PROCESS, SERVER_MACHINE};
use std::alloc::{AllocError, Global};

impl World {
    /// The world's second becomes another, which is later.
    pub fn pass(&mut self, second: u32, out: &mut Page) -> Result<(), AllocError>
        ensures played { (w : model.World) → Stands self.old w → OnOk result (Plays out.old out.new self.new w.records
            (step.second_event w second)) }
        ensures keeps { OnOk result (Keeps self.old self.new) }
        ensures few { OnOk result (RoseByAtMost 1 self.old self.new) }
    {
        if second <= self.second {
            return put_impossible(out);
        }
        self.second = second;
        put_second(out, second)
    }

    /// A process is asked to start a bind to a name.
    pub fn bind(
        &mut self,
        alloc: Global,
        machine: u8,
        process: u8,
        name: &Name,
        out: &mut Page,
    ) -> Result<(), AllocError>
        requires machine { (FIRST_CLIENT ≤ machine) × (machine ≤ LAST_CLIENT) }
        requires process { 1 ≤ process }
        requires few { AllBelow (2 ^ 63) self.old }
        ensures played { (w : model.World) → Stands self.old w → OnOk result (Plays out.old out.new self.new w.records
            (step.bind_event w machine process (model.numbered FIRST_CLIENT w.clients machine) name.now)) }
        ensures keeps { OnOk result (Keeps self.old self.new) }
        ensures few { OnOk result (RoseByAtMost 1 self.old self.new) }
    {
        let place = usize::from(machine - FIRST_CLIENT);
        if place >= self.clients.len() {
            return put_impossible(out);
        }
        let client = &mut self.clients[place];
        let me = Station { machine };
        match client.bind(alloc, me, process, name, self.second)? {
            Called::Impossible => put_impossible(out),
            Called::TooFast(number) => put_too_fast(out, number, self.second),
            Called::Starts(told) => {
                put_bind(out, told.call)?;
                self.tell(told, out)
            }
        }
    }

    /// A process passes over so many call numbers.
    pub fn skip(
        &mut self,
        machine: u8,
        process: u8,
        by: u32,
        out: &mut Page,
    ) -> Result<(), AllocError>
        requires machine { (FIRST_CLIENT ≤ machine) × (machine ≤ LAST_CLIENT) }
        requires process { 1 ≤ process }
        ensures played { (w : model.World) → Stands self.old w → OnOk result (Plays out.old out.new self.new w.records
            (step.skip_event w machine process (model.numbered FIRST_CLIENT w.clients machine) by)) }
        ensures keeps { OnOk result (Keeps self.old self.new) }
        ensures few { OnOk result (RoseByAtMost 1 self.old self.new) }
    {
        let place = usize::from(machine - FIRST_CLIENT);
        if place >= self.clients.len() {
            return put_impossible(out);
        }
        let Some(skipped) = self.clients[place].skip(process, by) else {
            return put_impossible(out);
        };
        put_skipped(out, skipped.activity, skipped.next)
    }

    /// The server exports the test service by a name.
    pub fn export(&mut self, alloc: Global, name: &Name, out: &mut Page) -> Result<(), AllocError>
        ensures played { (w : model.World) → Stands self.old w → OnOk result (Plays out.old out.new self.new w.records
            (step.export_event w name.now)) }
        ensures keeps { OnOk result (Keeps self.old self.new) }
        ensures few { OnOk result (RoseByAtMost 1 self.old self.new) }
    {
        let export = match self.server.export(alloc, *name, self.second)? {
            Ok(export) => export,
            Err(why) => return put_no_export(out, why),
        };
        put_export(out, export)
    }

    /// The server takes the export of a name back.
    pub fn withdraw(&mut self, name: &Name, out: &mut Page) -> Result<(), AllocError>
        ensures played { (w : model.World) → Stands self.old w → OnOk result (Plays out.old out.new self.new w.records
            (step.withdraw_event w name.now)) }
        ensures keeps { OnOk result (Keeps self.old self.new) }
        ensures few { OnOk result (RoseByAtMost 1 self.old self.new) }
    {
        let Some(index) = self.server.withdraw(*name) else {
            return put_impossible(out);
        };
        put_withdrawn(out, index)
    }

    /// A machine boots anew.
    pub fn restart(&mut self, alloc: Global, machine: u8, out: &mut Page) -> Result<(), AllocError>
        requires machine { (SERVER_MACHINE ≤ machine) × (machine ≤ LAST_CLIENT) }
        requires few { AllBelow (2 ^ 63) self.old }
        ensures played { (w : model.World) → Stands self.old w → OnOk result (Plays out.old out.new self.new w.records
            (step.restart_event w machine)) }
        ensures lost { (w : model.World) → Stands self.old w
            → OnOk result (self.new.lost ≡ self.old.lost + lost_of w (model.numbered FIRST_CLIENT w.clients machine)) }
        ensures keeps { OnOk result (self.new.forgotten ≡ self.old.forgotten) }
        ensures few { OnOk result (RoseByAtMost LAST_PROCESS self.old self.new) }
    {
        if machine == SERVER_MACHINE {
            return self.restart_server(alloc, out);
        }
        self.restart_client(alloc, machine, out)
    }

    fn restart_server(&mut self, alloc: Global, out: &mut Page) -> Result<(), AllocError>
        ensures played { (w : model.World) → Stands self.old w → OnOk result (Plays out.old out.new self.new w.records
            (step.boots_server w)) }
        ensures keeps { OnOk result (Keeps self.old self.new) }
        ensures few { OnOk result (RoseByAtMost 1 self.old self.new) }
    {
        let booted = self.server.restart(alloc, self.second)?;
        if !booted {
            return put_impossible(out);
        }
        put_restarted(out, SERVER_MACHINE, self.second)
    }

    fn restart_client(
        &mut self,
        alloc: Global,
        machine: u8,
        out: &mut Page,
    ) -> Result<(), AllocError>
        requires machine { (FIRST_CLIENT ≤ machine) × (machine ≤ LAST_CLIENT) }
        requires few { AllBelow (2 ^ 63) self.old }
        ensures played { (w : model.World) → Stands self.old w → OnOk result (Plays out.old out.new self.new w.records
            (step.boots_client w machine (model.numbered FIRST_CLIENT w.clients machine))) }
        ensures lost { (w : model.World) → Stands self.old w
            → OnOk result (self.new.lost ≡ self.old.lost + lost_of w (model.numbered FIRST_CLIENT w.clients machine)) }
        ensures keeps { OnOk result (self.new.forgotten ≡ self.old.forgotten) }
        ensures few { OnOk result (RoseByAtMost LAST_PROCESS self.old self.new) }
    {
        let place = usize::from(machine - FIRST_CLIENT);
        if place >= self.clients.len() {
            return put_impossible(out);
        }
        let client = &mut self.clients[place];
        let interrupted = client.open_calls();
        let booted = client.restart(alloc, machine, self.second)?;
        if !booted {
            return put_impossible(out);
        }
        self.lost += interrupted;
        put_restarted(out, machine, self.second)
    }
}
