//! What a search is for, and what it answers.

use yew_laws::Path;

/// What a search is for.
#[derive(Clone, Copy, Debug, PartialEq, Eq)]
pub enum Kind {
    /// The fold of all nodes, by a tally.
    Count,
    /// A node of greatest worth.
    Best,
    /// A node whose worth is at least this target, from 1 to 2^40 - 1.
    Reach(u64),
    /// A node whose worth is at most this gap, from 0 to 2^40 - 2, below the greatest.
    Near(u64),
}

/// What a search has found.
#[derive(Drop)]
pub enum Answer<S> {
    /// The fold of all nodes.
    Count(S),
    /// The greatest worth, or one within the gap of it where a gap is permitted, and the path of a node that has it. There
    /// is no path exactly where the worth is 0, and then the greatest worth is 0.
    Best { worth: u64, path: Option<Path> },
    /// The path of a node that meets the target, where there is one.
    Reach(Option<Path>),
}
