//! Worked rows with binds, exports and restarts, computed over the definitions. What each function ensures is a row; its
//! test calls it.

ghost use Rattle.std.specs.Prelude.{◌≡◌, ◌++◌, [], ◌∷◌, codes};
ghost use Rattle.replay_model.specs.declared.event.CallWord.TheVariants as word;
ghost use Rattle.replay_model.specs.declared.event.Event.TheVariants as event;
ghost use Rattle.replay_model.specs.Lines.{newline};
ghost use Rattle.replay_model.specs.Transcript.{transcript};

/// The server restarts after a run: the call that comes again is refused, and runs no more.
fn lines_of_server_restart()
    ensures { transcript (record {
      small = 256;
      long = 72;
      events =
          event.Call 2 1 (word.Bump 1) ∷ event.Deliver 1 ∷ event.Work 1 ∷ event.Work 1 ∷ event.Work 1 ∷ event.Restart 1 ∷ event.Second 2 ∷ event.Restart 1 ∷ event.Tick 2 1 4 ∷ event.Deliver 2 ∷ event.Work 1 ∷ event.Deliver 3 ∷ event.Journal ∷ event.End ∷ [];
    })
        ≡ codes "start 2.1 65536" ++ newline
        ++ codes "packet 1 2>1 call 65536/0 -l 4" ++ newline
        ++ codes "ready 1" ++ newline
        ++ codes "worker 1 claims 65536" ++ newline
        ++ codes "worker 1 admits 65536" ++ newline
        ++ codes "worker 1 runs 65536" ++ newline
        ++ codes "impossible" ++ newline
        ++ codes "second 2" ++ newline
        ++ codes "restarted 1 2" ++ newline
        ++ codes "packet 2 2>1 call 65536/0 al 4" ++ newline
        ++ codes "ready 2" ++ newline
        ++ codes "worker 1 rejects 65536 1" ++ newline
        ++ codes "packet 3 1>2 reject 65536/0 -l 0" ++ newline
        ++ codes "refused 2.1 65536 1" ++ newline
        ++ codes "run 1 2.1 65536 bump 4:00000001 -> 4:00000001" ++ newline
        ++ codes "end runs 1 returned 0 signalled 0 failed 0 refused 1" ++ newline }
{}

/// A name that is not exported, not yet, and then is; a bind to it.
fn lines_of_binding()
    ensures { transcript (record {
      small = 256;
      long = 72;
      events =
          event.Bind 2 1 (codes "aux") ∷ event.Deliver 1 ∷ event.Work 1 ∷ event.Deliver 2 ∷ event.Export (codes "aux") ∷ event.Second 2 ∷ event.Export (codes "aux") ∷ event.Export (codes "aux") ∷ event.Bind 2 1 (codes "aux") ∷ event.Deliver 3 ∷ event.Work 1 ∷ event.Deliver 4 ∷ event.Call 2 1 word.Null ∷ event.End ∷ [];
    })
        ≡ codes "bind 2.1 65536" ++ newline
        ++ codes "packet 1 2>1 bind 65536/0 -l 9" ++ newline
        ++ codes "ready 1" ++ newline
        ++ codes "worker 1 answers 65536" ++ newline
        ++ codes "packet 2 1>2 bound 65536/0 -l 0" ++ newline
        ++ codes "unbound 2.1 65536" ++ newline
        ++ codes "noexport TooFast 2 1" ++ newline
        ++ codes "second 2" ++ newline
        ++ codes "export 1 2" ++ newline
        ++ codes "noexport Exists" ++ newline
        ++ codes "bind 2.1 65537" ++ newline
        ++ codes "packet 3 2>1 bind 65537/0 -l 9" ++ newline
        ++ codes "ready 3" ++ newline
        ++ codes "worker 1 answers 65537" ++ newline
        ++ codes "packet 4 1>2 bound 65537/0 -l 0" ++ newline
        ++ codes "bound 2.1 65537 1 2" ++ newline
        ++ codes "start 2.1 65538" ++ newline
        ++ codes "packet 5 2>1 call 65538/0 -l 0" ++ newline
        ++ codes "end runs 0 returned 0 signalled 0 failed 0 refused 0" ++ newline }
{}

/// An activity that has used the numbers of a second up.
fn lines_of_numbers_run_out()
    ensures { transcript (record {
      small = 256;
      long = 72;
      events =
          event.Skip 2 1 65536 ∷ event.Call 2 1 word.Null ∷ event.Second 2 ∷ event.Call 2 1 word.Null ∷ event.End ∷ [];
    })
        ≡ codes "skipped 2.1 131072" ++ newline
        ++ codes "nostart TooFast 131072 1" ++ newline
        ++ codes "second 2" ++ newline
        ++ codes "start 2.1 131072" ++ newline
        ++ codes "packet 1 2>1 call 131072/0 -l 0" ++ newline
        ++ codes "end runs 0 returned 0 signalled 0 failed 0 refused 0" ++ newline }
{}

/// A result that would be too long is an exception.
fn lines_of_too_large_result()
    ensures { transcript (record {
      small = 256;
      long = 72;
      events =
          event.Call 2 1 (word.MaxResult 92157) ∷ event.Deliver 1 ∷ event.Work 1 ∷ event.Work 1 ∷ event.Work 1 ∷ event.Work 1 ∷ event.Deliver 2 ∷ event.Journal ∷ event.End ∷ [];
    })
        ≡ codes "start 2.1 65536" ++ newline
        ++ codes "packet 1 2>1 call 65536/0 -l 4" ++ newline
        ++ codes "ready 1" ++ newline
        ++ codes "worker 1 claims 65536" ++ newline
        ++ codes "worker 1 admits 65536" ++ newline
        ++ codes "worker 1 runs 65536" ++ newline
        ++ codes "worker 1 replies 65536" ++ newline
        ++ codes "packet 2 1>2 signal 65536/0 -l 2" ++ newline
        ++ codes "signalled 2.1 65536 1" ++ newline
        ++ codes "run 1 2.1 65536 maxresult 4:000167fd -> !1" ++ newline
        ++ codes "end runs 1 returned 0 signalled 1 failed 0 refused 0" ++ newline }
{}

#[test]
fn rows_of_lives_are_computed() {
    lines_of_server_restart();
    lines_of_binding();
    lines_of_numbers_run_out();
    lines_of_too_large_result();
}
