//! How the work of a crew is shared out.

use yew_stack::Chunk;

/// When tasks are split off a walk, and where they go.
#[derive(Clone, Copy, Debug, PartialEq, Eq)]
pub enum Coord {
    /// All children of each visited node above this depth go to the pool. The depth of the root is 0.
    Depth(u32),
    /// After so many backtracks of a task, and again after as many, all children that are left of the lowest level go to
    /// the pool. The number is at least 1.
    Budget(u64),
    /// A worker that is asked by another gives it this chunk of its lowest level.
    Steal(Chunk),
}
