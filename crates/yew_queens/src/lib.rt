//! The n queens, as a problem of four functions.
//!
//! [`ways`] counts in how many ways n queens stand on a board of n by n so that none attacks another. It is a search of a
//! tree that four functions answer; `docs/FROM_FOUR_FUNCTIONS.md` builds this crate step by step.
#![tactic(auto)]

mod board;
mod counting;
pub mod laws;
mod placement;
#[cfg(test)]
mod tests;

pub use board::{Board, Size, is_whole, no_queen, one_queen_more};
pub use counting::ways;
pub use placement::Placement;
