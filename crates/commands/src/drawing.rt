//! What a round of a storm draws: a process, what is asked of it, one of the last packets.

ghost use Rattle.std.specs.Prelude.{◌≡◌, ◌≤◌, ◌<◌, ◌+◌, ◌-◌, ◌^◌, ℕ, min, IfSome};
ghost use Rattle.replay_model.specs.Forms.{IsAskable, IsProcess};
ghost use Rattle.replay_model.specs.World as model;
ghost use Rattle.replay_model.specs.Draws.{draw};
ghost use Rattle.replay_model.specs.Rounds.{asks, machine_of, process_of};
ghost use Rattle.commands.specs.Rounds.{asked_events};

use replay_model::limits::{FIRST_CLIENT, LAST_PROCESS};
use replay_model::{CallWord, Draws};

/// From how many of the last packets one is drawn.
pub const RECENT: u64 = 64;

/// The numbers below this one that `add` is asked for.
const ADDENDS: u64 = 1 << 31;

/// The bytes below this number that `maxarg` is asked for.
const ARGUMENTS: u64 = 3000;

/// A process of a client.
#[derive(Clone, Copy)]
pub struct Place {
    pub machine: u8,
    pub process: u8,
}

/// Draws a process of a client.
pub fn draw_place(draws: &mut Draws) -> Place
    ensures machine { result.machine ≡ machine_of (draw draws.old 64).value }
    ensures process { result.process ≡ process_of (draw draws.old 64).value }
    ensures draws { draws.new ≡ (draw draws.old 64).x }
    ensures is_process { IsProcess result.machine result.process }
{
    let place = draws.draw(64) as u8;
    Place {
        machine: FIRST_CLIENT + place / LAST_PROCESS,
        process: 1 + place % LAST_PROCESS,
    }
}

/// Draws what is asked of a process: a call, or none for a bind.
pub fn draw_word(draws: &mut Draws) -> Option<CallWord>
    ensures asked { (calls : ℕ) (w : model.World) (machine process : ℕ) → asks calls w machine process (draw draws.old 5)
        ≡ record { events = asked_events calls w machine process result; x = draws.new } }
    ensures askable { IfSome result (λ word. IsAskable word) }
{
    match draws.draw(5) {
        0 => Some(CallWord::Null),
        1 => {
            let first = draws.draw(ADDENDS) as u32;
            let second = draws.draw(ADDENDS) as u32;
            Some(CallWord::Add(first, second))
        }
        2 => Some(CallWord::Bump(1)),
        3 => Some(CallWord::MaxArg(draws.draw(ARGUMENTS) as u32)),
        _ => None,
    }
}

/// Draws one of the last packets, of which so many were sent.
pub fn draw_recent(draws: &mut Draws, sent: u64) -> u32
    requires some { 1 ≤ sent }
    requires few { sent < 2 ^ 32 }
    ensures packet { result ≡ sent - (draw draws.old (min 64 sent)).value }
    ensures draws { draws.new ≡ (draw draws.old (min 64 sent)).x }
    ensures last { sent < result + min 64 sent }
    ensures is_sent { (1 ≤ result) × (result ≤ sent) }
{
    (sent - draws.draw(sent.min(RECENT))) as u32
}
