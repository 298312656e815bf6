//! What holds of the world after any events: each call's body runs at most once, for a call that was
//! started, each return tells what that run answered, and each failure has its cause; and each packet that was
//! sent is read as it was sent, or after damage as it was sent or not at all.
//!
//! There is no program here. The contracts of the functions are the laws, and their bodies only call the laws
//! that these rest on: of frames, of headers, and of the rules.
#![tactic(auto)]

ghost use Rattle.std.specs.Prelude.{ℕ, ◌≡◌, ◌<◌, ◌^◌, List, All, Contains, length};
ghost use Rattle.udp_frames.specs.Damage.{flipped};
ghost use Rattle.rpc_header.specs.Spelling.{HasSpelling, FitsFields};
ghost use Rattle.call_rules.specs.Packet.{Packet};
ghost use Rattle.replay_model.specs.declared.event.Event.{Event};
ghost use Rattle.replay_model.specs.Arrival.{Comes, header_of, frame_of, arrives};
ghost use Rattle.replay_model.specs.Once.{Once};
ghost use Rattle.replay_model.specs.Forms.{InRange};
ghost use Rattle.replay_model.specs.Step.{run};
ghost use Rattle.replay_model.specs.World.{first_world};

use binder::{
    a_name_is_found_in_its_row, accepted_bindings_are_live, an_export_is_found,
    bind_data_is_read_in_one_way, exports_stay_sound,
};
use lawful_rules::rules_are_lawful;
use replay_model::fields_are_a_header;
use rpc_header::{a_spelling_is_32_bytes, what_is_written_is_read};
use udp_frames::laws::{flipped_bit_never_forges, written_is_read};

/// Whatever events come whose numbers and names a line of a script can have, in whatever order and as often as they
/// like, `Once` holds after them. Each packet may be lost, repeated, late or damaged, and any machine may restart.
pub fn once_after_any_events()
    ensures { (small long : ℕ) (events : List Event) → All InRange events → Once (run (first_world small long) events) }
{
    written_is_read();
    flipped_bit_never_forges();
    what_is_written_is_read();
    a_spelling_is_32_bytes();
    fields_are_a_header();
    rules_are_lawful();
    accepted_bindings_are_live();
    a_name_is_found_in_its_row();
    an_export_is_found();
    exports_stay_sound();
    bind_data_is_read_in_one_way();
}

/// Whatever such events come, each packet in the bag is read by its receiver from its frame as it was sent, and
/// from a frame with one bit flipped as it was sent or not at all. Its frame tells it whole: its header has
/// a spelling, and each of its numbers has room in its field.
pub fn packets_survive_any_events()
    ensures whole { (small long : ℕ) (events : List Event) (p : Packet) → All InRange events → Contains (run (first_world small long) events).bag p →
        arrives p.to (frame_of p) ≡ Comes p }
    ensures damaged { (small long : ℕ) (events : List Event) (p : Packet) → All InRange events → Contains (run (first_world small long) events).bag p →
        (bit : ℕ) (q : Packet) → arrives p.to (flipped (frame_of p) bit) ≡ Comes q → q ≡ p }
    ensures spelled { (small long : ℕ) (events : List Event) (p : Packet) → All InRange events → Contains (run (first_world small long) events).bag p →
        HasSpelling (header_of p.header) (length p.payload) }
    ensures fields_fit { (small long : ℕ) (events : List Event) (p : Packet) → All InRange events → Contains (run (first_world small long) events).bag p →
        FitsFields (header_of p.header) }
    ensures call_number_fits { (small long : ℕ) (events : List Event) (p : Packet) → All InRange events → Contains (run (first_world small long) events).bag p →
        p.header.call.number < 2 ^ 48 }
{
    written_is_read();
    flipped_bit_never_forges();
    what_is_written_is_read();
    a_spelling_is_32_bytes();
    fields_are_a_header();
    rules_are_lawful();
    accepted_bindings_are_live();
    a_name_is_found_in_its_row();
    an_export_is_found();
    exports_stay_sound();
    bind_data_is_read_in_one_way();
}
