//! What a storm asks of its world.

ghost use Rattle.std.specs.Prelude.{◌≤◌, IfOk, OnOk};
ghost use Rattle.replay_model.specs.Forms.{InRange};
ghost use Rattle.replay_world.specs.Stored.{AllBelow, RoseByAtMost};

use binder::read_name;
use replay_model::limits::{FIRST_CLIENT, LAST_CLIENT, LAST_PROCESS};
use replay_model::{CallWord, Event};
use replay_world::{KEPT_PACKETS, World};
use std::alloc::{AllocError, Global};
use std::test::Fail;

/// A world of few packets steps by an event, and nothing is told.
fn played(alloc: Global, world: &mut World, event: &Event) -> Result<(), AllocError>
    requires in_range { InRange event.now }
    requires few { AllBelow 100000 world.old }
    ensures { OnOk result (RoseByAtMost 1000 world.old world.new) }
{
    world.play(alloc, event)
}

/// A call without arguments of a process.
fn null_call(machine: u8, process: u8) -> Event
    requires machine { (FIRST_CLIENT ≤ machine) × (machine ≤ LAST_CLIENT) }
    requires process { (1 ≤ process) × (process ≤ LAST_PROCESS) }
    ensures { InRange result }
{
    Event::Call {
        machine,
        process,
        word: CallWord::Null,
    }
}

/// A process of machine 2 calls in vain: it sends its call eight times, and gives up.
fn call_in_vain(alloc: Global, world: &mut World, process: u8) -> Result<(), AllocError>
    requires process { (1 ≤ process) × (process ≤ LAST_PROCESS) }
    requires few { AllBelow 50000 world.old }
    ensures { OnOk result (RoseByAtMost 2000 world.old world.new) }
{
    played(alloc, world, &null_call(2, process))?;
    let ticks = Event::Tick {
        machine: 2,
        process,
        times: 100,
    };
    played(alloc, world, &ticks)
}

/// A world in which eight processes have called in vain, and one has called, that has forgotten all packets but the last.
fn after_65_packets(alloc: Global) -> Result<World, AllocError>
    ensures { IfOk result (λ world. AllBelow 100000 world) }
{
    let mut world = World::make(alloc, 256, 72)?;
    for process in 1..9 {
        call_in_vain(alloc, &mut world, process)?;
    }
    played(alloc, &mut world, &null_call(3, 1))?;
    world.forget();
    Ok(world)
}

/// The length of each of these packets.
fn lengths(world: &World) -> [Option<usize>; 5] {
    [0, 1, 2, 65, 66].map(|number| world.length(number))
}

#[test]
fn the_first_packet_is_forgotten(rt: HostRuntime) -> Result<(), Fail> {
    let mut world = after_65_packets(rt.alloc())?;
    assert!(rt; (world.packets(), world.counts().failed, KEPT_PACKETS) == (65, 8, 64));
    assert!(rt; lengths(&world) == [None, None, Some(74), Some(74), None]);
    let mut out = Vec::new(rt.alloc());
    world.apply(rt.alloc(), &Event::Deliver(2), &mut out)?;
    assert!(rt; out.as_slice() == b"ready 2\n".as_slice());
    Ok(())
}

/// A world in which process 8 of machine 9 has called, and process 1 has asked to be bound.
fn open_at_9(alloc: Global) -> Result<World, Fail>
    ensures { IfOk result (λ world. AllBelow 10000 world) }
{
    let mut world = World::make(alloc, 256, 72)?;
    played(alloc, &mut world, &null_call(9, 8))?;
    let name = read_name(b"main").ok_or("a name")?;
    let bind = Event::Bind {
        machine: 9,
        process: 1,
        name,
    };
    played(alloc, &mut world, &bind)?;
    Ok(world)
}

/// Second 2 begins, and machine 9 restarts.
fn restart_9(alloc: Global, world: &mut World) -> Result<(), AllocError>
    requires { AllBelow 20000 world.old }
{
    played(alloc, world, &Event::Second(2))?;
    played(alloc, world, &Event::Restart(9))
}

/// Whether processes 8, 1 and 2 of machine 9 are idle.
fn idle_at_9(world: &World) -> [bool; 3] {
    [
        world.is_idle(9, 8),
        world.is_idle(9, 1),
        world.is_idle(9, 2),
    ]
}

/// A call that is open at the restart of its client is lost, and a bind isn't. There is no restart in second 1, in which
/// the client booted.
#[test]
fn a_restart_loses_the_open_call(rt: HostRuntime) -> Result<(), Fail> {
    let mut world = open_at_9(rt.alloc())?;
    let before = idle_at_9(&world);
    played(rt.alloc(), &mut world, &Event::Restart(9))?;
    let none_lost = world.counts().lost;
    restart_9(rt.alloc(), &mut world)?;
    let counts = world.counts();
    assert!(rt; [before, idle_at_9(&world)] == [[false, false, true], [true; 3]]);
    assert!(rt; [none_lost, counts.started, counts.lost] == [0, 1, 1]);
    assert!(rt; world.second() == 2);
    Ok(())
}
