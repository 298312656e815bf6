//! What a seat knows. No value of these types is ever made: contracts speak of them.
use crate::layout::Layout;
use crate::word::Word;
use std::collections::LinkedList;

/// A cell, the word that a seat met or left there, and at which of its steps.
pub struct Met {
    pub cell: u64,
    pub word: Word,
    pub step: u64,
}

/// The view of a seat.
pub struct View<N> {
    /// Whether the seat is out: a join has not taken it in.
    pub live: bool,
    pub layout: Layout,
    /// The numbers of the buffers that are the seat's alone.
    pub hands: LinkedList<u16>,
    /// How many steps the seat made.
    pub steps: u64,
    /// The words that it met or left, the last one first. A new seat has none, and a join empties it.
    pub met: LinkedList<Met>,
    /// All words that it, and each seat that it took in, ever met or left.
    pub past: LinkedList<Met>,
    /// What the law chooses.
    pub notes: N,
    /// 1 between the two steps of a split or a join, and else 0.
    pub pending: u64,
    /// How many splits it began, and those that it took in.
    pub begun: u64,
    /// How many joins it ended, and those that it took in.
    pub ended: u64,
    /// Whether it saw that no seat is out but itself, and has made none since.
    pub alone: bool,
}
