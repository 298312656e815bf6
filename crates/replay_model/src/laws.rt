//! What holds of the definitions. Each function here does nothing: its contract is the law.

ghost use Rattle.std.specs.Prelude.{◌≡◌, ◌<◌, ◌^◌};
ghost use Rattle.rpc_header.specs.declared.Header.{Header};
ghost use Rattle.call_rules.specs.Packet.{Fields, fields_of};
ghost use Rattle.replay_model.specs.Arrival.{header_of};

use rpc_header::a_call_number_is_its_value;

/// A header and its fields are one thing, where the call number has at most 48 bits.
pub fn fields_are_a_header()
    ensures of_header { (h : Header) → header_of (fields_of h) ≡ h }
    ensures of_fields { (f : Fields) → f.call.number < 2 ^ 48 → fields_of (header_of f) ≡ f }
{
    a_call_number_is_its_value();
}
