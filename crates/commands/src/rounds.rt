//! The rounds of a storm: what each draws is played on the world that the rounds before have reached.

ghost use Rattle.std.specs.Prelude.{◌≡◌, ◌≤◌, ◌<◌, ◌+◌, ◌*◌, ℕ, IfOk, IfSome, OnOk};
ghost use Rattle.std.specs.Option.{option_map};
ghost use Rattle.replay_model.specs.declared.limits.TheConstants.{LAST_BIT};
ghost use Rattle.replay_model.specs.World.{packet_at};
ghost use Rattle.replay_model.specs.Forms.{IsAskable, IsProcess};
ghost use Rattle.replay_model.specs.declared.options.TheConstants.{MOST_CALLS};
ghost use Rattle.replay_model.specs.Rounds.{calm, damage_round, deliver_round, restart_round, round_of, rounds_of, starts_round, tick_round, work_round};
ghost use Rattle.replay_model.specs.Summary.{summary_of, summary_over};
ghost use Rattle.commands.specs.Rounds.{Plays, Reached, asked_events, frame_length, storm_at, world_at};

use crate::drawing::{Place, draw_place, draw_recent, draw_word};
use crate::summary::Summary;
use binder::read_name;
use once_law::packets_survive_any_events;
use replay_model::limits::{LAST_CLIENT, LAST_WORKER, LONG_BUFFERS, SERVER_MACHINE, SMALL_BUFFERS};
use replay_model::{CallWord, Draws, Event, ROUNDS_A_CALL, StormOptions};
use replay_world::World;
use rpc_header::a_spelling_is_32_bytes;
use std::alloc::{AllocError, Global};
use storm_law::each_call_has_one_end;

/// The ticks of a round.
const TICKS: u16 = 4;

/// After how many packets some are forgotten.
const FORGET_EVERY: u64 = 64;

/// Plays the storm of these options, and tells what became of its calls. `Err` only where memory is short.
pub fn play_storm(alloc: Global, options: &StormOptions) -> Result<Summary, AllocError>
    requires calls { (1 ≤ options.now.calls) × (options.now.calls ≤ MOST_CALLS) }
    ensures { IfOk result (λ s. s ≡ summary_of options.now.seed options.now.calls) }
{
    let mut draws = Draws::from_seed(options.seed);
    let mut player = Player::begin(alloc, options)?;
    let rounds = options.calls * ROUNDS_A_CALL;
    while player.rounds < rounds {
        player.round(alloc, &mut draws)?;
    }
    Ok(player.summary())
}

/// A storm as far as it has come: its options, how many rounds were played, the world that they have reached, and the
/// number of packets at which it next forgets some.
#[derive(Drop)]
struct Player {
    options: StormOptions,
    rounds: u32,
    world: World,
    forget_at: u64,
}

impl Player {
    /// The storm before its first round. `Err` only where memory is short.
    fn begin(alloc: Global, options: &StormOptions) -> Result<Self, AllocError>
        requires calls { (1 ≤ options.now.calls) × (options.now.calls ≤ MOST_CALLS) }
        ensures reached { IfOk result (λ p. Reached p) }
        ensures first { IfOk result (λ p. (p.options ≡ options.now) × (p.rounds ≡ 0)) }
    {
        Ok(Player {
            options: *options,
            rounds: 0,
            world: World::make(alloc, SMALL_BUFFERS, LONG_BUFFERS)?,
            forget_at: FORGET_EVERY,
        })
    }

    /// What became of the calls so far.
    fn summary(&self) -> Summary
        requires { Reached self.now }
        ensures { result ≡ summary_over calm (storm_at self.now).played }
    {
        each_call_has_one_end();
        let counts = self.world.counts();
        let ended = counts.returned
            + counts.signalled
            + counts.failed
            + counts.refused
            + counts.lost;
        Summary {
            started: counts.started,
            runs: counts.runs,
            returned: counts.returned,
            signalled: counts.signalled,
            failed: counts.failed,
            refused: counts.refused,
            lost: counts.lost,
            still_open: counts.started - ended,
            packets: self.world.packets(),
        }
    }

    /// Draws a round and plays it. `Err` only where memory is short; then nothing is said of the world.
    fn round(&mut self, alloc: Global, draws: &mut Draws) -> Result<(), AllocError>
        requires reached { Reached self.old }
        requires draws { draws.old ≡ (storm_at self.old).x }
        requires more { self.old.rounds < rounds_of self.old.options.calls }
        ensures reached { OnOk result (Reached self.new) }
        ensures draws { OnOk result (draws.new ≡ (storm_at self.new).x) }
        ensures one { OnOk result ((self.new.rounds ≡ self.old.rounds + 1) × (self.new.options ≡ self.old.options)) }
    {
        let kind = draws.draw(16);
        self.play(alloc, draws, kind)?;
        self.rounds += 1;
        self.forget_some();
        Ok(())
    }

    /// Forgets packets, where many were sent since it did last.
    fn forget_some(&mut self)
        requires { Reached self.old }
        ensures reached { Reached self.new }
        ensures same { (self.new.options ≡ self.old.options) × (self.new.rounds ≡ self.old.rounds) }
    {
        let sent = self.world.packets();
        if sent < self.forget_at {
            return;
        }
        self.world.forget();
        self.forget_at = sent + FORGET_EVERY;
    }

    /// Plays a round of this kind, which is below 16.
    fn play(&mut self, alloc: Global, draws: &mut Draws, kind: u64) -> Result<(), AllocError>
        requires reached { Reached self.old }
        ensures { OnOk result (Plays self.old self.new draws.new
            (round_of self.old.options.calls (world_at self.old) (record { value = kind; x = draws.old }))) }
    {
        match kind {
            0..=2 => self.start(alloc, draws),
            3..=7 => self.deliver(alloc, draws),
            8..=11 => self.work(alloc, draws),
            12 | 13 => self.tick(alloc, draws),
            14 => self.damage(alloc, draws),
            _ => self.restart(alloc, draws),
        }
    }

    /// A process is asked for a call or a bind.
    fn start(&mut self, alloc: Global, draws: &mut Draws) -> Result<(), AllocError>
        requires reached { Reached self.old }
        ensures { OnOk result (Plays self.old self.new draws.new (starts_round self.old.options.calls (world_at self.old) draws.old)) }
    {
        let place = draw_place(draws);
        match draw_word(draws) {
            Some(word) => self.call(alloc, place, word),
            None => self.bind(alloc, place),
        }
    }

    /// An idle process starts a call, unless as many were started as may be.
    fn call(&mut self, alloc: Global, place: Place, word: CallWord) -> Result<(), AllocError>
        requires reached { Reached self.old }
        requires process { IsProcess place.machine place.process }
        requires askable { IsAskable word }
        ensures { (x : ℕ) → OnOk result (Plays self.old self.new x (record {
          x = x;
          events = asked_events self.old.options.calls (world_at self.old) place.machine place.process (Some word);
        })) }
    {
        let Place { machine, process } = place;
        if !self.world.is_idle(machine, process) {
            return Ok(());
        }
        if self.world.counts().started >= u64::from(self.options.calls) {
            return Ok(());
        }
        self.world.play(
            alloc,
            &Event::Call {
                machine,
                process,
                word,
            },
        )
    }

    /// An idle process starts a bind to the name that the server exports.
    fn bind(&mut self, alloc: Global, place: Place) -> Result<(), AllocError>
        requires reached { Reached self.old }
        requires process { IsProcess place.machine place.process }
        ensures { (x : ℕ) → OnOk result (Plays self.old self.new x (record {
          x = x;
          events = asked_events self.old.options.calls (world_at self.old) place.machine place.process None;
        })) }
    {
        let Place { machine, process } = place;
        if !self.world.is_idle(machine, process) {
            return Ok(());
        }
        let Some(name) = read_name(b"main") else {
            return Ok(());
        };
        self.world.play(
            alloc,
            &Event::Bind {
                machine,
                process,
                name,
            },
        )
    }

    /// One of the last packets comes to its receiver.
    fn deliver(&mut self, alloc: Global, draws: &mut Draws) -> Result<(), AllocError>
        requires reached { Reached self.old }
        ensures { OnOk result (Plays self.old self.new draws.new (deliver_round (world_at self.old) draws.old)) }
    {
        let sent = self.world.packets();
        if sent == 0 {
            return Ok(());
        }
        let packet = draw_recent(draws, sent);
        self.world.play(alloc, &Event::Deliver(packet))
    }

    /// One of the last packets comes with one of its bits flipped.
    fn damage(&mut self, alloc: Global, draws: &mut Draws) -> Result<(), AllocError>
        requires reached { Reached self.old }
        ensures { OnOk result (Plays self.old self.new draws.new (damage_round (world_at self.old) draws.old)) }
    {
        let sent = self.world.packets();
        if sent == 0 {
            return Ok(());
        }
        let packet = draw_recent(draws, sent);
        let Some(len) = self.length(packet) else {
            return Ok(());
        };
        let bit = draws.draw(8 * len as u64) as u16;
        self.world.play(alloc, &Event::Damage { packet, bit })
    }

    /// The bytes of the frame of a packet that isn't forgotten.
    fn length(&self, packet: u32) -> Option<usize>
        requires reached { Reached self.now }
        requires kept { self.now.world.forgotten < packet }
        ensures exact { result ≡ option_map frame_length (packet_at (world_at self.now).bag packet) }
        ensures fits { IfSome result (λ len. (1 ≤ len) × (8 * len ≤ LAST_BIT + 1)) }
    {
        packets_survive_any_events();
        a_spelling_is_32_bytes();
        self.world.length(u64::from(packet))
    }

    /// A worker does a step.
    fn work(&mut self, alloc: Global, draws: &mut Draws) -> Result<(), AllocError>
        requires reached { Reached self.old }
        ensures { OnOk result (Plays self.old self.new draws.new (work_round draws.old)) }
    {
        let worker = 1 + draws.draw(u64::from(LAST_WORKER)) as u8;
        self.world.play(alloc, &Event::Work(worker))
    }

    /// A process has some ticks.
    fn tick(&mut self, alloc: Global, draws: &mut Draws) -> Result<(), AllocError>
        requires reached { Reached self.old }
        ensures { OnOk result (Plays self.old self.new draws.new (tick_round draws.old)) }
    {
        let Place { machine, process } = draw_place(draws);
        self.world.play(
            alloc,
            &Event::Tick {
                machine,
                process,
                times: TICKS,
            },
        )
    }

    /// Once in a thousand times the second passes and a machine boots anew; else a worker does a step.
    fn restart(&mut self, alloc: Global, draws: &mut Draws) -> Result<(), AllocError>
        requires reached { Reached self.old }
        ensures { OnOk result (Plays self.old self.new draws.new (restart_round (world_at self.old) draws.old)) }
    {
        if draws.draw(1000) != 0 {
            return self.work(alloc, draws);
        }
        let machine = SERVER_MACHINE + draws.draw(u64::from(LAST_CLIENT)) as u8;
        let second = self.world.second() + 1;
        self.world.play(alloc, &Event::Second(second))?;
        self.world.play(alloc, &Event::Restart(machine))
    }
}
