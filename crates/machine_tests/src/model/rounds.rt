//! What a seed draws, and rounds of each kind, worked out over whole numbers from the recurrence and the table of
//! rounds alone.

ghost use Rattle.std.specs.Prelude.{◌≡◌, [], ◌∷◌, codes};
ghost use Rattle.replay_model.specs.declared.event.CallWord.TheVariants as word;
ghost use Rattle.replay_model.specs.declared.event.Event.TheVariants as event;
ghost use Rattle.replay_model.specs.Step.{run};
ghost use Rattle.replay_model.specs.Rounds.{machine_of, process_of, calm, round};

use replay_model::Draws;

/// The first activity is the first process of the first client, and the last one the last process of the last client.
fn activities_have_two_ends()
    ensures first_machine { machine_of 0 ≡ 2 }
    ensures first_process { process_of 0 ≡ 1 }
    ensures last_machine { machine_of 63 ≡ 9 }
    ensures last_process { process_of 63 ≡ 8 }
{}

/// A round of each kind over the first world, which has no packet.
fn rounds_of_each_kind()
    ensures null { round 20 calm 17 ≡ record { events = event.Call 7 2 word.Null ∷ []; x = 6215382037137340766 } }
    ensures add { round 20 calm 46 ≡ record { events = event.Call 4 7 (word.Add 1196120038 703162634) ∷ []; x = 6040121041760133481 } }
    ensures bump { round 20 calm 22 ≡ record { events = event.Call 9 7 (word.Bump 1) ∷ []; x = 10184759006705485351 } }
    ensures max_arg { round 20 calm 10 ≡ record { events = event.Call 8 3 (word.MaxArg 574) ∷ []; x = 4015636148853147230 } }
    ensures bind { round 20 calm 5 ≡ record { events = event.Bind 5 6 (codes "main") ∷ []; x = 15135621383883345378 } }
    ensures no_delivery { round 20 calm 1 ≡ record { events = []; x = 7806831264735756412 } }
    ensures work { round 20 calm 4 ≡ record { events = event.Work 1 ∷ []; x = 13512857827340264662 } }
    ensures ticks { round 20 calm 2 ≡ record { events = event.Tick 7 3 4 ∷ []; x = 16917806452429146372 } }
    ensures no_damage { round 20 calm 7 ≡ record { events = []; x = 9098160460397411210 } }
    ensures restart { round 20 calm 31966 ≡ record { events = event.Second 2 ∷ event.Restart 7 ∷ []; x = 5467240833034137999 } }
    ensures no_restart { round 20 calm 0 ≡ record { events = event.Work 2 ∷ []; x = 11166244414315200793 } }
{}

/// A call that may not start has its numbers drawn: one too many, or one of a process that isn't idle. A bind counts as
/// no call.
fn rounds_without_a_call()
    ensures too_many { round 0 calm 46 ≡ record { events = []; x = 6040121041760133481 } }
    ensures busy { round 20 (run calm (event.Call 4 7 word.Null ∷ [])) 46 ≡ record { events = []; x = 6040121041760133481 } }
    ensures bind { round 0 calm 5 ≡ record { events = event.Bind 5 6 (codes "main") ∷ []; x = 15135621383883345378 } }
{}

/// Rounds over a world with one packet, whose frame has 74 bytes.
fn rounds_with_a_packet()
    ensures delivery { round 20 (run calm (event.Call 2 1 word.Null ∷ [])) 1 ≡ record { events = event.Deliver 1 ∷ []; x = 9396908728118811419 } }
    ensures damage { round 20 (run calm (event.Call 2 1 word.Null ∷ [])) 7 ≡ record { events = event.Damage 1 225 ∷ []; x = 16723372171710603212 } }
{}

#[test]
fn rounds_are_computed() {
    activities_have_two_ends();
    rounds_of_each_kind();
    rounds_without_a_call();
    rounds_with_a_packet();
}

#[test]
fn a_seed_draws_these_numbers(rt: HostRuntime) {
    let mut draws = Draws::from_seed(7);
    assert!(rt; draws.draw(16) == 14);
    assert!(rt; draws.draw(64) == 63);
    assert!(rt; draws.draw(5) == 3);
    assert!(rt; draws.draw(2_147_483_648) == 585_718_673);
    assert!(rt; draws.draw(2_147_483_648) == 572_045_545);
    assert!(rt; draws.draw(3000) == 2219);
    assert!(rt; draws.draw(1000) == 864);
    assert!(rt; draws.draw(9) == 0);
}

#[test]
fn the_largest_seed_draws_these_numbers(rt: HostRuntime) {
    let mut draws = Draws::from_seed(18_446_744_073_709_551_615);
    assert!(rt; draws.draw(16) == 8);
    assert!(rt; draws.draw(64) == 55);
    assert!(rt; draws.draw(5) == 2);
    assert!(rt; draws.draw(2_147_483_648) == 901_017_602);
}
