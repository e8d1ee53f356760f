//! Stacks of node generators: the nodes of a depth first search that are still to come.
//!
//! Each visited node is a level of a [`GenStack`]: its path, and the generator of its children. The stack gives the
//! children of the top level one at a time, and hands the path of a level back when that level has ended. The lowest
//! nodes, nearest to the root, can be split off as tasks for others. What the levels have still to come, in preorder,
//! and how a search that uses them ends, is defined in `specs/ToCome.antt`.
//!
//! A [`Descent`] is such a stack whose levels stand on one path, as those of one search do. It keeps that path once,
//! where a [`GenStack`] keeps one for each level, and gives the nodes without paths of their own.
#![tactic(auto)]

mod descent;
mod levels;
mod stacks;

pub use descent::{Descent, Step};
pub use stacks::{Chunk, GenStack, Turn};

#[cfg(test)]
mod tests;
