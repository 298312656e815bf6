//! Worked rows, computed over the definitions. What each function ensures is a row; its test calls it.

ghost use Rattle.std.specs.Prelude.{◌≡◌, ◌++◌, [], ◌∷◌, codes, true, false};
ghost use Rattle.rpc_header.specs.declared.Kind.TheVariants as kind;
ghost use Rattle.replay_model.specs.declared.event.CallWord.TheVariants as word;
ghost use Rattle.replay_model.specs.declared.event.Event.TheVariants as event;
ghost use Rattle.replay_model.specs.Arrival.{Comes, Dropped, arrival_of};
ghost use Rattle.replay_model.specs.Lines.{newline};
ghost use Rattle.replay_model.specs.declared.discard.Discard.TheVariants as why;
ghost use Rattle.replay_model.specs.Service.{served};
ghost use Rattle.call_rules.specs.declared.worker.Did.TheVariants as did;
ghost use Rattle.call_rules.specs.declared.worker.Unfit.TheVariants as unfit;
ghost use Rattle.replay_model.specs.Record.{Discards, Readies, Works};
ghost use Rattle.replay_model.specs.Step.{machine_takes, claims_next};
ghost use Rattle.replay_model.specs.Examples.{packet_from, with_hint, with_fragment, waiting_world, ready_world};
ghost use Rattle.replay_model.specs.Transcript.{transcript};

fn lines_of_the_empty_call()
    ensures { transcript (record {
      small = 256;
      long = 72;
      events =
          event.Call 2 1 word.Null ∷ event.Deliver 1 ∷ event.Work 1 ∷ event.Work 1 ∷ event.Work 1 ∷ event.Work 1 ∷ event.Deliver 2 ∷ event.Journal ∷ event.End ∷ [];
    })
        ≡ codes "start 2.1 65536" ++ newline ++ codes "packet 1 2>1 call 65536/0 -l 0" ++ newline ++ codes "ready 1" ++ newline
        ++ codes "worker 1 claims 65536" ++ newline ++ codes "worker 1 admits 65536" ++ newline ++ codes "worker 1 runs 65536" ++ newline
        ++ codes "worker 1 replies 65536" ++ newline ++ codes "packet 2 1>2 result 65536/0 -l 0" ++ newline ++ codes "returned 2.1 65536 0:" ++ newline
        ++ codes "run 1 2.1 65536 null 0: -> 0:" ++ newline ++ codes "end runs 1 returned 1 signalled 0 failed 0 refused 0" ++ newline }
{}

/// Two calls, whose packets come in the other order, on two workers.
fn lines_of_two_calls()
    ensures { transcript (record {
      small = 256;
      long = 72;
      events =
          event.Call 2 1 word.Null ∷ event.Call 9 8 word.Null ∷ event.Deliver 2 ∷ event.Deliver 1 ∷ event.Work 1 ∷ event.Work 2 ∷ event.Work 1 ∷ event.Work 2
          ∷ event.Work 1 ∷ event.Work 2 ∷ event.Work 2 ∷ event.Work 1 ∷ event.Deliver 4 ∷ event.Journal ∷ event.End ∷ [];
    })
        ≡ codes "start 2.1 65536" ++ newline ++ codes "packet 1 2>1 call 65536/0 -l 0" ++ newline
        ++ codes "start 9.8 65536" ++ newline ++ codes "packet 2 9>1 call 65536/0 -l 0" ++ newline ++ codes "ready 2" ++ newline ++ codes "ready 1" ++ newline
        ++ codes "worker 1 claims 65536" ++ newline ++ codes "worker 2 claims 65536" ++ newline ++ codes "worker 1 admits 65536" ++ newline
        ++ codes "worker 2 admits 65536" ++ newline ++ codes "worker 1 runs 65536" ++ newline ++ codes "worker 2 runs 65536" ++ newline
        ++ codes "worker 2 replies 65536" ++ newline ++ codes "packet 3 1>2 result 65536/0 -l 0" ++ newline
        ++ codes "worker 1 replies 65536" ++ newline ++ codes "packet 4 1>9 result 65536/0 -l 0" ++ newline ++ codes "returned 9.8 65536 0:" ++ newline
        ++ codes "run 1 9.8 65536 null 0: -> 0:" ++ newline ++ codes "run 2 2.1 65536 null 0: -> 0:" ++ newline
        ++ codes "end runs 2 returned 1 signalled 0 failed 0 refused 0" ++ newline }
{}

/// A call packet that comes twice, to two workers: the second finds the entry changed.
fn lines_of_a_lost_claim()
    ensures { transcript (record {
      small = 256;
      long = 72;
      events =
          event.Call 2 1 word.Null ∷ event.Deliver 1 ∷ event.Deliver 1 ∷ event.Work 1 ∷ event.Work 2 ∷ event.Work 1 ∷ event.Work 2 ∷ [];
    })
        ≡ codes "start 2.1 65536" ++ newline ++ codes "packet 1 2>1 call 65536/0 -l 0" ++ newline ++ codes "ready 1" ++ newline ++ codes "ready 1" ++ newline
        ++ codes "worker 1 claims 65536" ++ newline ++ codes "worker 2 claims 65536" ++ newline
        ++ codes "worker 1 admits 65536" ++ newline ++ codes "worker 2 drops Lost" ++ newline }
{}

/// The same, where the second worker comes to a call that runs.
fn lines_of_a_repeated_call()
    ensures { transcript (record {
      small = 256;
      long = 72;
      events =
          event.Call 2 1 word.Null ∷ event.Deliver 1 ∷ event.Deliver 1 ∷ event.Work 1 ∷ event.Work 1 ∷ event.Work 2 ∷ [];
    })
        ≡ codes "start 2.1 65536" ++ newline ++ codes "packet 1 2>1 call 65536/0 -l 0" ++ newline ++ codes "ready 1" ++ newline ++ codes "ready 1" ++ newline
        ++ codes "worker 1 claims 65536" ++ newline ++ codes "worker 1 admits 65536" ++ newline ++ codes "worker 2 drops Same" ++ newline }
{}

/// A result that comes again while the next call is open.
fn lines_of_a_stale_result()
    ensures { transcript (record {
      small = 256;
      long = 72;
      events =
          event.Call 2 1 word.Null ∷ event.Deliver 1 ∷ event.Work 1 ∷ event.Work 1 ∷ event.Work 1 ∷ event.Work 1 ∷ event.Deliver 2
          ∷ event.Call 2 1 word.Null ∷ event.Deliver 2 ∷ [];
    })
        ≡ codes "start 2.1 65536" ++ newline ++ codes "packet 1 2>1 call 65536/0 -l 0" ++ newline ++ codes "ready 1" ++ newline
        ++ codes "worker 1 claims 65536" ++ newline ++ codes "worker 1 admits 65536" ++ newline ++ codes "worker 1 runs 65536" ++ newline
        ++ codes "worker 1 replies 65536" ++ newline ++ codes "packet 2 1>2 result 65536/0 -l 0" ++ newline ++ codes "returned 2.1 65536 0:" ++ newline
        ++ codes "start 2.1 65537" ++ newline ++ codes "packet 3 2>1 call 65537/0 -l 0" ++ newline ++ codes "drop Stale" ++ newline }
{}

/// Nothing to work on, a packet that isn't there, a second call of one process, and no runs.
fn lines_of_nothing()
    ensures { transcript (record {
      small = 256;
      long = 72;
      events =
          event.Work 1 ∷ event.Deliver 1 ∷ event.Call 2 1 word.Null ∷ event.Call 2 1 word.Null ∷ event.Journal ∷ event.End ∷ [];
    })
        ≡ codes "worker 1 idle" ++ newline ++ codes "impossible" ++ newline ++ codes "start 2.1 65536" ++ newline
        ++ codes "packet 1 2>1 call 65536/0 -l 0" ++ newline ++ codes "impossible" ++ newline ++ codes "journal empty" ++ newline
        ++ codes "end runs 0 returned 0 signalled 0 failed 0 refused 0" ++ newline }
{}

/// An exception: a sum that is too large.
fn lines_of_an_exception()
    ensures { transcript (record {
      small = 256;
      long = 72;
      events =
          event.Call 2 1 (word.Add 4294967295 1) ∷ event.Deliver 1 ∷ event.Work 1 ∷ event.Work 1 ∷ event.Work 1 ∷ event.Work 1 ∷ event.Deliver 2 ∷ event.Journal ∷ event.End ∷ [];
    })
        ≡ codes "start 2.1 65536" ++ newline ++ codes "packet 1 2>1 call 65536/0 -l 8" ++ newline ++ codes "ready 1" ++ newline
        ++ codes "worker 1 claims 65536" ++ newline ++ codes "worker 1 admits 65536" ++ newline ++ codes "worker 1 runs 65536" ++ newline
        ++ codes "worker 1 replies 65536" ++ newline ++ codes "packet 2 1>2 signal 65536/0 -l 2" ++ newline ++ codes "signalled 2.1 65536 1" ++ newline
        ++ codes "run 1 2.1 65536 add 8:ffffffff00000001 -> !1" ++ newline ++ codes "end runs 1 returned 0 signalled 1 failed 0 refused 0" ++ newline }
{}

/// A frame that is shown, and whose checksum comes out as 0.
fn lines_of_a_checksum_of_zero()
    ensures { transcript (record {
      small = 256;
      long = 72;
      events =
          event.Call 2 1 (word.Add 51510 0) ∷ event.Show 1 ∷ event.Deliver 1 ∷ event.Work 1 ∷ event.Work 1 ∷ event.Work 1 ∷ event.Work 1 ∷ event.Deliver 2 ∷ event.Journal ∷ [];
    })
        ≡ codes "start 2.1 65536" ++ newline ++ codes "packet 1 2>1 call 65536/0 -l 8" ++ newline
        ++ codes "frame 1 82 02000a00000102000a00000208004500004400000000401166a70a0000020a0000010fa30fa30030ffff01010200000000020001000000000001000000000000000100000001000800000000c93600000000" ++ newline
        ++ codes "ready 1" ++ newline
        ++ codes "worker 1 claims 65536" ++ newline ++ codes "worker 1 admits 65536" ++ newline ++ codes "worker 1 runs 65536" ++ newline
        ++ codes "worker 1 replies 65536" ++ newline ++ codes "packet 2 1>2 result 65536/0 -l 4" ++ newline ++ codes "returned 2.1 65536 4:0000c936" ++ newline
        ++ codes "run 1 2.1 65536 add 8:0000c93600000000 -> 4:0000c936" ++ newline }
{}

/// One flipped bit of the empty call's frame: most are refused, those of the Ethernet source change nothing.
fn lines_of_damages()
    ensures { transcript (record {
      small = 256;
      long = 72;
      events =
          event.Call 2 1 word.Null ∷ event.Damage 1 0 ∷ event.Damage 1 48 ∷ event.Damage 1 95 ∷ event.Damage 1 96 ∷ event.Damage 1 112 ∷ event.Damage 1 116
          ∷ event.Damage 1 128 ∷ event.Damage 1 160 ∷ event.Damage 1 161 ∷ event.Damage 1 184 ∷ event.Damage 1 272 ∷ event.Damage 1 304 ∷ event.Damage 1 320
          ∷ event.Damage 1 591 ∷ event.Damage 1 592 ∷ event.Damage 2 0 ∷ event.Show 2 ∷ [];
    })
        ≡ codes "start 2.1 65536" ++ newline ++ codes "packet 1 2>1 call 65536/0 -l 0" ++ newline
        ++ codes "drop frame NotForUs" ++ newline ++ codes "ready 1" ++ newline ++ codes "ready 1" ++ newline ++ codes "drop frame NotIp" ++ newline
        ++ codes "drop frame Version" ++ newline ++ codes "drop frame Options" ++ newline ++ codes "drop frame IpLength" ++ newline
        ++ codes "drop frame IpFragment" ++ newline ++ codes "drop frame IpChecksum" ++ newline ++ codes "drop frame NotUdp" ++ newline
        ++ codes "drop frame Port" ++ newline ++ codes "drop frame UdpLength" ++ newline ++ codes "drop frame UdpChecksum" ++ newline
        ++ codes "drop frame UdpChecksum" ++ newline ++ codes "impossible" ++ newline ++ codes "impossible" ++ newline ++ codes "impossible" ++ newline }
{}

/// What the procedures answer to bytes: a sum, the largest one, one that is too large, and bytes that can't be read.
fn answers_of_the_service()
    ensures sum { served 7 1 (0 ∷ 0 ∷ 0 ∷ 1 ∷ 0 ∷ 0 ∷ 1 ∷ 2 ∷ []) ≡ record { answer = record { signal = false; reply = 0 ∷ 0 ∷ 1 ∷ 3 ∷ [] }; total = 7 } }
    ensures largest { served 7 1 (255 ∷ 255 ∷ 255 ∷ 254 ∷ 0 ∷ 0 ∷ 0 ∷ 1 ∷ []) ≡ record { answer = record { signal = false; reply = 255 ∷ 255 ∷ 255 ∷ 255 ∷ [] }; total = 7 } }
    ensures too_large { served 7 1 (255 ∷ 255 ∷ 255 ∷ 255 ∷ 0 ∷ 0 ∷ 0 ∷ 1 ∷ []) ≡ record { answer = record { signal = true; reply = 0 ∷ 1 ∷ [] }; total = 7 } }
    ensures seven_bytes { served 7 1 (0 ∷ 0 ∷ 0 ∷ 1 ∷ 0 ∷ 0 ∷ 0 ∷ []) ≡ record { answer = record { signal = true; reply = 0 ∷ 0 ∷ [] }; total = 7 } }
    ensures nine_bytes { served 7 1 (0 ∷ 0 ∷ 0 ∷ 1 ∷ 0 ∷ 0 ∷ 0 ∷ 2 ∷ 0 ∷ []) ≡ record { answer = record { signal = true; reply = 0 ∷ 0 ∷ [] }; total = 7 } }
    ensures nothing { served 7 0 [] ≡ record { answer = record { signal = false; reply = [] }; total = 7 } }
    ensures one_byte { served 7 0 (0 ∷ []) ≡ record { answer = record { signal = true; reply = 0 ∷ 0 ∷ [] }; total = 7 } }
{}

/// Which packets a machine takes, and whose: a Kind counts before the machine that the header names.
fn arrivals_by_kind_and_machine()
    ensures result_at_server { arrival_of 1 (packet_from 2 1 kind.Result 2) ≡ Dropped why.Kind }
    ensures call_at_client { arrival_of 2 (packet_from 1 2 kind.Call 2) ≡ Dropped why.Kind }
    ensures foreign_call { arrival_of 1 (packet_from 3 1 kind.Call 2) ≡ Dropped why.Foreign }
    ensures foreign_result { arrival_of 3 (packet_from 1 3 kind.Result 2) ≡ Dropped why.Foreign }
    ensures kind_first { arrival_of 1 (packet_from 3 1 kind.Result 2) ≡ Dropped why.Kind }
    ensures call { arrival_of 1 (packet_from 2 1 kind.Call 2) ≡ Comes (packet_from 2 1 kind.Call 2) }
    ensures ack { arrival_of 2 (packet_from 1 2 kind.Ack 2) ≡ Comes (packet_from 1 2 kind.Ack 2) }
    ensures signal { arrival_of 2 (packet_from 1 2 kind.Signal 2) ≡ Comes (packet_from 1 2 kind.Signal 2) }
{}

/// A packet ends at a client where its hint names no process, where the process waits for none of its number, and
/// where the process has no use for it.
fn drops_at_a_client()
    ensures no_cell { (machine_takes waiting_world 2 (with_hint 8 (packet_from 1 2 kind.Result 2))).acts ≡ Discards why.NoCell ∷ [] }
    ensures stale { (machine_takes waiting_world 2 (with_hint 1 (packet_from 1 2 kind.Result 2))).acts ≡ Discards why.Stale ∷ [] }
    ensures unused { (machine_takes waiting_world 2 (with_fragment 1 (packet_from 1 2 kind.Result 2))).acts ≡ Discards why.Unused ∷ [] }
{}

/// The server has room for 64 ready packets. A worker that takes a packet of an activity without an entry drops it.
fn drops_at_the_server()
    ensures last_cell { (machine_takes (ready_world 63) 1 (packet_from 2 1 kind.Call 2)).acts ≡ Readies 1 ∷ [] }
    ensures no_room { (machine_takes (ready_world 64) 1 (packet_from 2 1 kind.Call 2)).acts ≡ Discards why.NoRoom ∷ [] }
    ensures full { (claims_next waiting_world 3 (packet_from 10 1 kind.Call 10 ∷ [])).acts ≡ Works 3 65536 (did.Drops unfit.Full) ∷ [] }
{}

#[test]
fn rows_are_computed() {
    lines_of_the_empty_call();
    lines_of_two_calls();
    lines_of_a_lost_claim();
    lines_of_a_repeated_call();
    lines_of_a_stale_result();
    lines_of_nothing();
    lines_of_an_exception();
    lines_of_a_checksum_of_zero();
    lines_of_damages();
    answers_of_the_service();
    arrivals_by_kind_and_machine();
    drops_at_a_client();
    drops_at_the_server();
}
