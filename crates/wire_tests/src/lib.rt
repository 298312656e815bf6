//! Tests of `item_list`, `lane_checksum`, `ff_io`, `rpc_header`, `fragments`, `udp_frames`, `packet_board`, `packet_pool`
//! and `binder` through their public calls, in a crate of their own so that those crates aren't proved a second time with
//! them.
#![tactic(auto)]

#[cfg(test)]
mod adapters;
#[cfg(test)]
mod board;
#[cfg(test)]
mod exports;
#[cfg(test)]
mod frames;
#[cfg(test)]
mod headers;
#[cfg(test)]
mod lists;
#[cfg(test)]
mod moves;
#[cfg(test)]
mod pieces;
#[cfg(test)]
mod pools;
#[cfg(test)]
mod races;
#[cfg(test)]
mod streams;
#[cfg(test)]
mod sums;
