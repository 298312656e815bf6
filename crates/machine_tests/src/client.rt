//! Tests of the client machine and what it stands on.

pub mod caller;
pub mod calls;
pub mod packets;
pub mod states;
pub mod trial;
