//! Tests of `interface_tokens`, `interface_text` and `marshal_plans` through their public calls, in a crate of their
//! own so that those crates aren't proved a second time with them.
#![tactic(auto)]

#[cfg(test)]
mod names;
#[cfg(test)]
mod plans;
#[cfg(test)]
mod texts;
