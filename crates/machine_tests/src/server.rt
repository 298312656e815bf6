//! Tests of the server machine.

pub mod beside;
pub mod lives;
pub mod rows;
pub mod trial;
