//! What the rule of the claims knows of one seat.
use std::collections::LinkedList;

/// What one seat has done, which proofs alone see: no value of it is made.
pub struct ClaimView {
    /// The whole share, the same for all seats.
    pub seats: u64,
    pub share: u64,
    /// The numbers that the seat has claimed, the oldest first.
    pub claimed: LinkedList<u64>,
}
