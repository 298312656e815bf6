//! The worker's rules, row by row, computed over the definitions. What each function ensures are rows; its test calls
//! it. The packets are of call 65537 of process 1 of machine 2, at the server.

ghost use Rattle.std.specs.Prelude.{ℕ, ◌≡◌, List, [], ◌∷◌, ◌++◌, replicate, Some, None, true, false};
ghost use Rattle.rpc_header.specs.declared.Kind.TheVariants as kind;
ghost use Rattle.call_rules.specs.Entry.{Empty, Gather, Filling, Running, Done, Sending, word_of};
ghost use Rattle.call_rules.specs.Worker.{Resting, Claimed, Took, Admitted, Ran, Fetched, Nothing, ARun, APacket, ARejection, on_idle, on_claimed, on_took, on_admitted, on_ran, on_fetched};
ghost use Rattle.call_rules.specs.Examples.{second_call, second_call_piece, to_second_call, accepted};
ghost use Rattle.call_rules.specs.declared.worker.Did.TheVariants as did;
ghost use Rattle.call_rules.specs.declared.worker.Unfit.TheVariants as unfit;

/// A Bind is answered before anything else is looked at: reason 0 tells the export, reason 1 that there is none.
#[tactic(auto, unfolding(call_rules::specs::Worker::on_idle))]
fn rows_of_a_bind()
    ensures no_name { on_idle (record { named = None; refused = Some 1 }) None (second_call kind.Bind 0)
        ≡ record { worker = Resting; entry = None; did = did.Drops unfit.BadName; adds = Nothing } }
    ensures found { on_idle (record { named = Some (Some (record { identifier = 7; index = 3 })); refused = Some 1 }) None (second_call kind.Bind 0)
        ≡ record { worker = Resting; entry = None; did = did.Answers; adds = APacket (to_second_call kind.Bound false true 0 0 (record { identifier = 7; index = 3 }) []) } }
    ensures unknown { on_idle (record { named = Some None; refused = None }) (Some Empty) (second_call kind.Bind 0)
        ≡ record { worker = Resting; entry = None; did = did.Answers; adds = APacket (to_second_call kind.Bound false true 1 0 (record { identifier = 0; index = 0 }) []) } }
{}

/// A refused call is rejected with its reason, also where there is no entry; then comes the entry, then the judgement.
#[tactic(auto, unfolding(call_rules::specs::Worker::on_idle))]
fn rows_of_an_idle_worker()
    ensures wrong_binding { on_idle (record { named = None; refused = Some 1 }) None (second_call kind.Call 0)
        ≡ record { worker = Resting; entry = None; did = did.Rejects 1; adds = ARejection (to_second_call kind.Reject false true 1 0 (record { identifier = 1; index = 0 }) []) } }
    ensures no_procedure { on_idle (record { named = None; refused = Some 2 }) (Some (Done 65537 false [])) (second_call kind.Probe 0)
        ≡ record { worker = Resting; entry = None; did = did.Rejects 2; adds = ARejection (to_second_call kind.Reject false true 2 0 (record { identifier = 1; index = 0 }) []) } }
    ensures full { on_idle accepted None (second_call kind.Call 0)
        ≡ record { worker = Resting; entry = None; did = did.Drops unfit.Full; adds = Nothing } }
    ensures older { on_idle accepted (Some (Running 65538)) (second_call kind.Call 0)
        ≡ record { worker = Resting; entry = None; did = did.Drops unfit.Older; adds = Nothing } }
    ensures same { on_idle accepted (Some (Running 65537)) (second_call kind.Call 0)
        ≡ record { worker = Resting; entry = None; did = did.Drops unfit.Same; adds = Nothing } }
    ensures busy { on_idle accepted (Some (Running 65536)) (second_call kind.Call 0)
        ≡ record { worker = Resting; entry = None; did = did.Drops unfit.Busy; adds = Nothing } }
    ensures unknown { on_idle accepted (Some Empty) (second_call kind.Probe 0)
        ≡ record { worker = Resting; entry = None; did = did.Drops unfit.Unknown; adds = Nothing } }
    ensures skipped { on_idle accepted (Some Empty) (second_call kind.Call 1)
        ≡ record { worker = Resting; entry = None; did = did.Drops unfit.Skipped; adds = Nothing } }
    ensures acknowledged { on_idle accepted (Some (Running 65537)) (second_call kind.Probe 5)
        ≡ record { worker = Resting; entry = None; did = did.Acks; adds = APacket (to_second_call kind.Ack false true 0 5 (record { identifier = 1; index = 0 }) []) } }
    ensures admitted { on_idle accepted (Some (Done 65536 false [])) (second_call kind.Call 0)
        ≡ record { worker = Claimed (second_call kind.Call 0) (word_of (Done 65536 false [])); entry = None; did = did.Claims; adds = Nothing } }
    ensures begun { on_idle accepted (Some Empty) (second_call_piece 0 (7 ∷ []))
        ≡ record { worker = Claimed (second_call_piece 0 (7 ∷ [])) (word_of Empty); entry = None; did = did.Claims; adds = Nothing } }
    ensures more { on_idle accepted (Some (Gather 65537 (7 ∷ []) 1)) (second_call kind.Call 1)
        ≡ record { worker = Claimed (second_call kind.Call 1) (word_of (Gather 65537 [] 0)); entry = None; did = did.Claims; adds = Nothing } }
    ensures fetched { on_idle accepted (Some (Done 65537 true (0 ∷ 1 ∷ []))) (second_call kind.Ack 0)
        ≡ record { worker = Claimed (second_call kind.Ack 0) (word_of (Done 65537 false [])); entry = None; did = did.Claims; adds = Nothing } }
{}

/// A claim is lost where the word has changed, whatever the pool has; a Gather that has grown has the word seen.
#[tactic(auto, unfolding(call_rules::specs::Worker::on_claimed))]
fn rows_of_a_claim()
    ensures lost { on_claimed false (second_call_piece 0 (7 ∷ [])) (word_of Empty) (Running 65537)
        ≡ record { worker = Resting; entry = None; did = did.Drops unfit.Lost; adds = Nothing } }
    ensures admits { on_claimed false (second_call kind.Call 0) (word_of (Done 65536 false [])) (Done 65536 true (0 ∷ 9 ∷ []))
        ≡ record { worker = Admitted (second_call kind.Call 0) []; entry = Some (Running 65537); did = did.Admits; adds = Nothing } }
    ensures begins { on_claimed true (second_call_piece 0 (7 ∷ [])) (word_of Empty) Empty
        ≡ record { worker = Resting; entry = Some (Gather 65537 (7 ∷ []) 1); did = did.Begins; adds = APacket (to_second_call kind.Ack false true 0 0 (record { identifier = 1; index = 0 }) []) } }
    ensures no_buffer { on_claimed false (second_call_piece 0 (7 ∷ [])) (word_of Empty) Empty
        ≡ record { worker = Resting; entry = None; did = did.Drops unfit.NoBuffer; adds = Nothing } }
    ensures takes { on_claimed false (second_call kind.Call 2) (word_of (Gather 65537 (7 ∷ []) 1)) (Gather 65537 (7 ∷ 8 ∷ []) 2)
        ≡ record { worker = Took (second_call kind.Call 2); entry = Some (Filling 65537 (7 ∷ 8 ∷ []) 2); did = did.Takes; adds = Nothing } }
    ensures fetches { on_claimed false (second_call kind.Probe 0) (word_of (Done 65537 true (0 ∷ 1 ∷ []))) (Done 65537 true (0 ∷ 1 ∷ []))
        ≡ record { worker = Fetched (second_call kind.Probe 0); entry = Some (Sending 65537 true (0 ∷ 1 ∷ [])); did = did.Fetches; adds = Nothing } }
{}

/// The piece that is due is joined: the last has the call run, another is acknowledged. So is one that came before;
/// one behind the next is dropped.
#[tactic(auto, unfolding(call_rules::specs::Worker::on_took))]
fn rows_of_a_gathered_call()
    ensures last { on_took (second_call kind.Call 2) (Filling 65537 (7 ∷ 8 ∷ []) 2)
        ≡ record { worker = Admitted (second_call kind.Call 2) (7 ∷ 8 ∷ []); entry = Some (Running 65537); did = did.Admits; adds = Nothing } }
    ensures next { on_took (second_call_piece 1 (8 ∷ [])) (Filling 65537 (7 ∷ []) 1)
        ≡ record { worker = Resting; entry = Some (Gather 65537 (7 ∷ 8 ∷ []) 2); did = did.Rests; adds = APacket (to_second_call kind.Ack false true 0 1 (record { identifier = 1; index = 0 }) []) } }
    ensures before { on_took (second_call_piece 0 (7 ∷ [])) (Filling 65537 (7 ∷ 8 ∷ []) 2)
        ≡ record { worker = Resting; entry = Some (Gather 65537 (7 ∷ 8 ∷ []) 2); did = did.Rests; adds = APacket (to_second_call kind.Ack false true 0 0 (record { identifier = 1; index = 0 }) []) } }
    ensures behind { on_took (second_call kind.Call 3) (Filling 65537 (7 ∷ []) 1)
        ≡ record { worker = Resting; entry = Some (Gather 65537 (7 ∷ []) 1); did = did.Drops unfit.Skipped; adds = Nothing } }
{}

/// A body runs where the pool has a buffer for its reply, and its worker waits where it hasn't. The first piece of the
/// reply is sent, and the entry keeps the reply.
#[tactic(auto, unfolding(call_rules::specs::Worker::on_admitted, call_rules::specs::Worker::on_ran, fragments::specs::Pieces::piece))]
fn rows_of_a_run()
    ensures waits { on_admitted false (second_call kind.Call 0) (5 ∷ []) (record { signal = false; reply = 6 ∷ [] })
        ≡ record { worker = Admitted (second_call kind.Call 0) (5 ∷ []); entry = None; did = did.Waits; adds = Nothing } }
    ensures runs { on_admitted true (second_call kind.Call 0) (5 ∷ []) (record { signal = false; reply = 6 ∷ [] })
        ≡ record {
          worker = Ran (second_call kind.Call 0) (record { signal = false; reply = 6 ∷ [] });
          entry = None;
          did = did.Runs;
          adds = ARun (record { call = record { activity = record { machine = 2; process = 1 }; number = 65537 }; procedure = 0; arguments = 5 ∷ []; signal = false; reply = 6 ∷ [] });
        } }
    ensures replies { on_ran (second_call kind.Call 0) (record { signal = false; reply = 6 ∷ [] })
        ≡ record {
          worker = Resting;
          entry = Some (Done 65537 false (6 ∷ []));
          did = did.Replies;
          adds = APacket (to_second_call kind.Result false true 0 0 (record { identifier = 1; index = 0 }) (6 ∷ []));
        } }
    ensures signals { on_ran (second_call kind.Call 0) (record { signal = true; reply = 0 ∷ 1 ∷ [] })
        ≡ record {
          worker = Resting;
          entry = Some (Done 65537 true (0 ∷ 1 ∷ []));
          did = did.Replies;
          adds = APacket (to_second_call kind.Signal false true 0 0 (record { identifier = 1; index = 0 }) (0 ∷ 1 ∷ []));
        } }
{}

/// A Probe and a last Call fetch the first piece, an Ack the piece behind its own; a piece that isn't there is dropped.
#[tactic(auto, unfolding(call_rules::specs::Worker::on_fetched, fragments::specs::Pieces::piece))]
fn rows_of_a_fetched_reply()
    ensures first { on_fetched (second_call kind.Probe 4) (Sending 65537 false (6 ∷ []))
        ≡ record {
          worker = Resting;
          entry = Some (Done 65537 false (6 ∷ []));
          did = did.Resends;
          adds = APacket (to_second_call kind.Result false true 0 0 (record { identifier = 1; index = 0 }) (6 ∷ []));
        } }
    ensures by_call { on_fetched (second_call kind.Call 1) (Sending 65537 true (0 ∷ 1 ∷ []))
        ≡ record {
          worker = Resting;
          entry = Some (Done 65537 true (0 ∷ 1 ∷ []));
          did = did.Resends;
          adds = APacket (to_second_call kind.Signal false true 0 0 (record { identifier = 1; index = 0 }) (0 ∷ 1 ∷ []));
        } }
    ensures none { on_fetched (second_call kind.Ack 0) (Sending 65537 false (6 ∷ []))
        ≡ record { worker = Resting; entry = Some (Done 65537 false (6 ∷ [])); did = did.Drops unfit.Same; adds = Nothing } }
{}

#[test]
fn rows_are_computed() {
    rows_of_a_bind();
    rows_of_an_idle_worker();
    rows_of_a_claim();
    rows_of_a_gathered_call();
    rows_of_a_run();
    rows_of_a_fetched_reply();
}
