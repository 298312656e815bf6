//! UDP datagrams in Ethernet frames between the machines of one network: the 42 bytes of headers written
//! around data in place, and frames read and checked.
#![tactic(auto)]

mod address;
mod fault;
pub mod laws;
mod layout;
mod read;
mod write;

pub use fault::FrameFault;
pub use layout::{HEADERS_LEN, LARGEST_FRAME, LARGEST_PAYLOAD};
pub use read::{Seen, read_frame};
pub use write::write_headers;
