//! Tests of the abstract machine and of the two machines of the player, in a crate of their own so that the crates that
//! they test aren't proved a second time with them. `model`: rows of the rules of `call_rules` and transcripts of
//! `replay_model`, computed over the definitions. `client`: `caller_core`, `replay_packets` and `replay_client` by their
//! public calls. `server`: `replay_server` by its public calls.
#![tactic(auto)]

#[cfg(test)]
mod client;
#[cfg(test)]
mod model;
#[cfg(test)]
mod server;
