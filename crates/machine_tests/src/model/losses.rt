//! Worked rows with losses and repeats, computed over the definitions. What each function ensures is a row; its test
//! calls it.

ghost use Rattle.std.specs.Prelude.{◌≡◌, ◌++◌, [], ◌∷◌, codes};
ghost use Rattle.replay_model.specs.declared.event.CallWord.TheVariants as word;
ghost use Rattle.replay_model.specs.declared.event.Event.TheVariants as event;
ghost use Rattle.replay_model.specs.Lines.{newline};
ghost use Rattle.replay_model.specs.Transcript.{transcript};

/// A call packet that comes twice, to two workers: the second finds the entry changed.
fn lines_of_repeated_call_packet()
    ensures { transcript (record {
      small = 256;
      long = 72;
      events =
          event.Call 2 1 (word.Bump 1) ∷ event.Deliver 1 ∷ event.Deliver 1 ∷ event.Work 1 ∷ event.Work 2 ∷ event.Work 1 ∷ event.Work 2 ∷ event.Work 1 ∷ event.Work 1 ∷ event.Deliver 2 ∷ event.Journal ∷ event.End ∷ [];
    })
        ≡ codes "start 2.1 65536" ++ newline
        ++ codes "packet 1 2>1 call 65536/0 -l 4" ++ newline
        ++ codes "ready 1" ++ newline
        ++ codes "ready 1" ++ newline
        ++ codes "worker 1 claims 65536" ++ newline
        ++ codes "worker 2 claims 65536" ++ newline
        ++ codes "worker 1 admits 65536" ++ newline
        ++ codes "worker 2 drops Lost" ++ newline
        ++ codes "worker 1 runs 65536" ++ newline
        ++ codes "worker 1 replies 65536" ++ newline
        ++ codes "packet 2 1>2 result 65536/0 -l 4" ++ newline
        ++ codes "returned 2.1 65536 4:00000001" ++ newline
        ++ codes "run 1 2.1 65536 bump 4:00000001 -> 4:00000001" ++ newline
        ++ codes "end runs 1 returned 1 signalled 0 failed 0 refused 0" ++ newline }
{}

/// A result that is lost: the caller asks again, is acknowledged, and fetches the result by a probe.
fn lines_of_lost_result_and_probe()
    ensures { transcript (record {
      small = 256;
      long = 72;
      events =
          event.Call 2 1 (word.Bump 1) ∷ event.Deliver 1 ∷ event.Work 1 ∷ event.Work 1 ∷ event.Tick 2 1 4 ∷ event.Deliver 2 ∷ event.Work 2 ∷ event.Deliver 3 ∷ event.Work 1 ∷ event.Work 1 ∷ event.Tick 2 1 4 ∷ event.Deliver 5 ∷ event.Work 1 ∷ event.Work 1 ∷ event.Work 1 ∷ event.Deliver 6 ∷ event.End ∷ [];
    })
        ≡ codes "start 2.1 65536" ++ newline
        ++ codes "packet 1 2>1 call 65536/0 -l 4" ++ newline
        ++ codes "ready 1" ++ newline
        ++ codes "worker 1 claims 65536" ++ newline
        ++ codes "worker 1 admits 65536" ++ newline
        ++ codes "packet 2 2>1 call 65536/0 al 4" ++ newline
        ++ codes "ready 2" ++ newline
        ++ codes "worker 2 acks 65536" ++ newline
        ++ codes "packet 3 1>2 ack 65536/0 -l 0" ++ newline
        ++ codes "waiting 2.1 65536" ++ newline
        ++ codes "worker 1 runs 65536" ++ newline
        ++ codes "worker 1 replies 65536" ++ newline
        ++ codes "packet 4 1>2 result 65536/0 -l 4" ++ newline
        ++ codes "packet 5 2>1 probe 65536/0 al 0" ++ newline
        ++ codes "ready 5" ++ newline
        ++ codes "worker 1 claims 65536" ++ newline
        ++ codes "worker 1 fetches 65536" ++ newline
        ++ codes "worker 1 resends 65536" ++ newline
        ++ codes "packet 6 1>2 result 65536/0 -l 4" ++ newline
        ++ codes "returned 2.1 65536 4:00000001" ++ newline
        ++ codes "end runs 1 returned 1 signalled 0 failed 0 refused 0" ++ newline }
{}

/// Eight transmissions of which none arrives.
fn lines_of_nothing_arrives()
    ensures { transcript (record {
      small = 256;
      long = 72;
      events =
          event.Call 2 1 word.Null ∷ event.Tick 2 1 32 ∷ event.Journal ∷ event.End ∷ [];
    })
        ≡ codes "start 2.1 65536" ++ newline
        ++ codes "packet 1 2>1 call 65536/0 -l 0" ++ newline
        ++ codes "packet 2 2>1 call 65536/0 al 0" ++ newline
        ++ codes "packet 3 2>1 call 65536/0 al 0" ++ newline
        ++ codes "packet 4 2>1 call 65536/0 al 0" ++ newline
        ++ codes "packet 5 2>1 call 65536/0 al 0" ++ newline
        ++ codes "packet 6 2>1 call 65536/0 al 0" ++ newline
        ++ codes "packet 7 2>1 call 65536/0 al 0" ++ newline
        ++ codes "packet 8 2>1 call 65536/0 al 0" ++ newline
        ++ codes "failed 2.1 65536 8" ++ newline
        ++ codes "journal empty" ++ newline
        ++ codes "end runs 0 returned 0 signalled 0 failed 1 refused 0" ++ newline }
{}

/// The same, one tick before the failure.
fn lines_of_nothing_arrives_yet()
    ensures { transcript (record {
      small = 256;
      long = 72;
      events =
          event.Call 2 1 word.Null ∷ event.Tick 2 1 31 ∷ event.Journal ∷ event.End ∷ [];
    })
        ≡ codes "start 2.1 65536" ++ newline
        ++ codes "packet 1 2>1 call 65536/0 -l 0" ++ newline
        ++ codes "packet 2 2>1 call 65536/0 al 0" ++ newline
        ++ codes "packet 3 2>1 call 65536/0 al 0" ++ newline
        ++ codes "packet 4 2>1 call 65536/0 al 0" ++ newline
        ++ codes "packet 5 2>1 call 65536/0 al 0" ++ newline
        ++ codes "packet 6 2>1 call 65536/0 al 0" ++ newline
        ++ codes "packet 7 2>1 call 65536/0 al 0" ++ newline
        ++ codes "packet 8 2>1 call 65536/0 al 0" ++ newline
        ++ codes "journal empty" ++ newline
        ++ codes "end runs 0 returned 0 signalled 0 failed 0 refused 0" ++ newline }
{}

/// The body has run, and no result arrives.
fn lines_of_run_and_yet_failed()
    ensures { transcript (record {
      small = 256;
      long = 72;
      events =
          event.Call 2 1 (word.Bump 1) ∷ event.Deliver 1 ∷ event.Work 1 ∷ event.Work 1 ∷ event.Work 1 ∷ event.Work 1 ∷ event.Tick 2 1 32 ∷ event.Journal ∷ event.End ∷ [];
    })
        ≡ codes "start 2.1 65536" ++ newline
        ++ codes "packet 1 2>1 call 65536/0 -l 4" ++ newline
        ++ codes "ready 1" ++ newline
        ++ codes "worker 1 claims 65536" ++ newline
        ++ codes "worker 1 admits 65536" ++ newline
        ++ codes "worker 1 runs 65536" ++ newline
        ++ codes "worker 1 replies 65536" ++ newline
        ++ codes "packet 2 1>2 result 65536/0 -l 4" ++ newline
        ++ codes "packet 3 2>1 call 65536/0 al 4" ++ newline
        ++ codes "packet 4 2>1 call 65536/0 al 4" ++ newline
        ++ codes "packet 5 2>1 call 65536/0 al 4" ++ newline
        ++ codes "packet 6 2>1 call 65536/0 al 4" ++ newline
        ++ codes "packet 7 2>1 call 65536/0 al 4" ++ newline
        ++ codes "packet 8 2>1 call 65536/0 al 4" ++ newline
        ++ codes "packet 9 2>1 call 65536/0 al 4" ++ newline
        ++ codes "failed 2.1 65536 8" ++ newline
        ++ codes "run 1 2.1 65536 bump 4:00000001 -> 4:00000001" ++ newline
        ++ codes "end runs 1 returned 0 signalled 0 failed 1 refused 0" ++ newline }
{}

#[test]
fn rows_of_losses_are_computed() {
    lines_of_repeated_call_packet();
    lines_of_lost_result_and_probe();
    lines_of_nothing_arrives();
    lines_of_nothing_arrives_yet();
    lines_of_run_and_yet_failed();
}
