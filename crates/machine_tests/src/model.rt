//! Tests of the rules and of the abstract machine.

pub mod judgements;
pub mod lives;
pub mod losses;
pub mod rounds;
pub mod transcripts;
pub mod worker_rules;
