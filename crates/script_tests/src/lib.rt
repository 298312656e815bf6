//! Tests of `script_text`, `replay_lines` and `replay_world` through their public calls, in a crate of their own so that
//! those crates aren't proved a second time with them.
#![tactic(auto)]

#[cfg(test)]
mod asking;
#[cfg(test)]
mod script_faults;
#[cfg(test)]
mod scripts;
#[cfg(test)]
mod telling;
#[cfg(test)]
mod transcript_lines;
