//! The kinds of search: to count the nodes of a tree, to find a best node, or to find a node that meets a target.
//!
//! A count is a fold of all nodes by a [`Tally`], in the tree of [`Counted`]; a decision is a best node of [`Clipped`],
//! whose worths say only whether the target is met.
#![tactic(auto)]

mod clipped;
mod counted;
mod depths;
mod kind;
pub mod laws;
mod tally;

pub use clipped::Clipped;
pub use counted::Counted;
pub use depths::{ByDepth, Depths};
pub use kind::{Answer, Kind};
pub use tally::{NoTally, Tally};

#[cfg(test)]
mod tests;
