//! Packets in their frames: what is sent, what arrives, and why a delivery ends.
#![tactic(auto)]

mod names;
mod packet;
mod sent;
mod texts;

pub use names::test_name;
pub use packet::{Arrived, Packet, SERVER, arrive};
pub use replay_model::Discard;
pub use sent::{Outgoing, Sent};
pub use texts::counted_text;
