//! The rules are lawful: each row of the worker's and of the caller's table is a step of which the world knows enough
//! to keep what holds of it.
//!
//! There is no program here. What is known, what holds by it and what a lawful step is stand in `specs/`; the contract
//! of the one function is the law.
#![tactic(auto)]

ghost use Rattle.std.specs.Prelude.{ℕ, ◌≡◌, ◌≢◌, ◌<◌, ◌≤◌, ◌^◌, List, [], Option, Some, Bool, true, false, length};
ghost use Rattle.rpc_header.specs.declared.Kind.TheVariants as kind;
ghost use Rattle.binder.specs.declared.row.ExportRow.{ExportRow};
ghost use Rattle.call_rules.specs.Packet.{Packet, piece_size};
ghost use Rattle.call_rules.specs.Entry.{Entry, Word};
ghost use Rattle.call_rules.specs.Worker.{Resting, Claimed, Took, Admitted, Ran, Fetched, Answer, on_idle, on_claimed, on_took, on_admitted, on_ran, on_fetched};
ghost use Rattle.call_rules.specs.Caller.{is_idle, is_unused, on_packet, current_call};
ghost use Rattle.replay_model.specs.Process.{Line, started, binds, heard, ticked};
ghost use Rattle.replay_model.specs.Step.{asked_of, next_call};
ghost use Rattle.replay_model.specs.World.{number_limit, packet_at};
ghost use Rattle.lawful_rules.specs.Known.{Known};
ghost use Rattle.lawful_rules.specs.Facts.{Life, HasLength, HasReply, IsRequest, IsAnswer, IsWorkerAt, IsLine, IsMarked};
ghost use Rattle.lawful_rules.specs.Lawful.{AreRows, Grounds, LawfulStep, ReplyGrounds, ByStart, ByBind, ByPacket, ByTick, LawfulAct};

use fragments::{fronts_grow_by_a_piece, pieces_before_the_last_are_full};

/// Each row of the rules is a lawful step: of a worker in each of its states, whatever the pool answers, and of a
/// caller that starts a call or a bind, has a packet, or ticks.
pub fn rules_are_lawful()
    ensures idle { (k : Known) (f : Life) (rows : List (Option ExportRow)) (p : Packet) (e : Entry) →
        IsRequest k p → AreRows f rows → Grounds k f p.header.call.activity e →
        LawfulStep k f rows p Resting e (on_idle (asked_of rows p) (Some e) p) }
    ensures claimed { (k : Known) (f : Life) (rows : List (Option ExportRow)) (long : Bool) (p : Packet) (seen : Word) (e : Entry) →
        IsWorkerAt k f (Claimed p seen) e → Grounds k f p.header.call.activity e →
        LawfulStep k f rows p (Claimed p seen) e (on_claimed long p seen e) }
    ensures took { (k : Known) (f : Life) (rows : List (Option ExportRow)) (p : Packet) (e : Entry) →
        IsWorkerAt k f (Took p) e → Grounds k f p.header.call.activity e →
        LawfulStep k f rows p (Took p) e (on_took p e) }
    ensures admitted { (k : Known) (f : Life) (rows : List (Option ExportRow)) (buffer : Bool) (p : Packet) (arguments : List ℕ) (answer : Answer) (e : Entry) →
        HasReply answer.signal answer.reply →
        IsWorkerAt k f (Admitted p arguments) e → Grounds k f p.header.call.activity e →
        LawfulStep k f rows p (Admitted p arguments) e (on_admitted buffer p arguments answer) }
    ensures ran { (k : Known) (f : Life) (rows : List (Option ExportRow)) (p : Packet) (answer : Answer) (e : Entry) →
        IsWorkerAt k f (Ran p answer) e → Grounds k f p.header.call.activity e →
        LawfulStep k f rows p (Ran p answer) e (on_ran p answer) }
    ensures fetched { (k : Known) (f : Life) (rows : List (Option ExportRow)) (p : Packet) (e : Entry) →
        IsWorkerAt k f (Fetched p) e → Grounds k f p.header.call.activity e →
        LawfulStep k f rows p (Fetched p) e (on_fetched p e) }
    ensures start { (k : Known) (machine process second : ℕ) (l : Line) (procedure : ℕ) (arguments before : List ℕ) →
        IsLine k machine process l → is_idle l.caller.state ≡ true → l.next < number_limit second → second < 2 ^ 32 →
        procedure < 256 ^ 2 → HasLength arguments →
        LawfulAct k l (ByStart (record { call = next_call l; export = l.binding; procedure = procedure; arguments = arguments })) before
        (started machine l procedure arguments) }
    ensures bind { (k : Known) (machine process second : ℕ) (l : Line) (bytes before : List ℕ) →
        IsLine k machine process l → is_idle l.caller.state ≡ true → l.next < number_limit second → second < 2 ^ 32 →
        HasLength bytes → length bytes ≤ piece_size →
        LawfulAct k l (ByBind (next_call l)) before (binds machine l bytes) }
    ensures packet { (k : Known) (machine process : ℕ) (l : Line) (n : ℕ) (p : Packet) (before : List ℕ) →
        ReplyGrounds k → IsLine k machine process l → IsAnswer k n p → packet_at k.bag n ≡ Some p →
        is_unused (on_packet l.caller p.header).act ≡ false →
        LawfulAct k l (ByPacket n p) before (heard machine l p) }
    ensures tick { (k : Known) (machine process : ℕ) (l : Line) (before : List ℕ) →
        ReplyGrounds k → IsLine k machine process l → IsMarked k.bag l.caller before →
        LawfulAct k l ByTick before (ticked machine l) }
{
    fronts_grow_by_a_piece();
    pieces_before_the_last_are_full();
}
