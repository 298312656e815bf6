//! A pool of packets on a board: free cells keep the buffers that nobody uses, ready cells the packets that wait for a
//! worker.
#![tactic(auto)]

mod claiming;
mod frames;
mod held;
mod item;
mod law;
mod long;
mod making;
mod packet;
mod plain;
mod pool;
mod posting;
mod taking;

pub use item::Item;
pub use law::PoolLaw;
pub use packet::{DATA_AT, Empty, LongPacket, NoPacket, Packet, Unread};
pub use plain::{PlainLaw, PlainNotes};
pub use pool::Pool;
