//! Laws of the encoding, for all types and values.
ghost use Rattle.std.specs.Prelude.{◌≡◌, ◌<◌, ◌≤◌, ℕ, List, length, Some, Ok, slice_index};
ghost use Rattle.marshal_plans.specs.Data.{Data};
ghost use Rattle.marshal_plans.specs.Encoding.{enc_all};
ghost use Rattle.marshal_plans.specs.Lengths.{least_all, largest_all};
ghost use Rattle.marshal_plans.specs.Reading.{decoded};
ghost use Rattle.marshal_plans.specs.Forms.{Forms};

/// What is put is got, and nothing is left.
#[tactic(auto, using(crate::proofs::RoundTrip::put_get))]
pub fn what_is_put_is_got()
    ensures { (fs : Forms) (ds : Data) (bytes : List ℕ) → enc_all fs ds ≡ Some bytes → decoded fs bytes ≡ Ok ds }
{}

/// Bytes are the encoding of one list of values at most.
#[tactic(auto, using(crate::proofs::RoundTrip::one_meaning))]
pub fn bytes_have_one_meaning()
    ensures { (fs : Forms) (ds es : Data) (bytes : List ℕ) → enc_all fs ds ≡ Some bytes → enc_all fs es ≡ Some bytes → ds ≡ es }
{}

/// What is got was put: the bytes, all of them, are the encoding of the values.
#[tactic(auto, using(crate::proofs::ReadAgain::get_put))]
pub fn what_is_got_was_put()
    ensures { (fs : Forms) (bytes : List ℕ) (ds : Data) → ((i : ℕ) → slice_index bytes i < 256) → decoded fs bytes ≡ Ok ds
        → enc_all fs ds ≡ Some bytes }
{}

/// An encoding is at least as long as the least length of its types, and at most as long as their greatest.
pub fn lengths_are_between_least_and_largest()
    ensures { (fs : Forms) (ds : Data) (bytes : List ℕ) → enc_all fs ds ≡ Some bytes → (least_all fs ≤ length bytes) × (length bytes ≤ largest_all fs) }
{}
