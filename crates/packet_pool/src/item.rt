//! What was posted or claimed. No value of it is ever made: contracts speak of it.
use packet_board::Buffer;

/// A packet, the order under which it was posted, and the number of the ready cell.
pub struct Item {
    pub order: u64,
    pub cell: u64,
    pub packet: Buffer,
}
