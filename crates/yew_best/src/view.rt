//! What the rule knows of one seat.
use std::collections::LinkedList;

/// What one seat has done, which proofs alone see: no value of it is made.
pub struct View {
    /// The whole share, the same for all seats.
    pub seats: u64,
    pub share: u64,
    pub read: LinkedList<u64>,
    pub offered: LinkedList<u64>,
    /// The values that were read and had not been offered by this seat before.
    pub heard: LinkedList<u64>,
}
