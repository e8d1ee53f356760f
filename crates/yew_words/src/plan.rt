//! What a command line asks for, or what is wrong with it.

use thiserror::Error;

/// What is made by the job `make`.
#[derive(Clone, Copy, Debug, PartialEq, Eq)]
pub enum Made {
    /// A knapsack instance.
    Knapsack,
    /// A matrix of city distances in TSPLIB 95's form.
    Tsp,
    /// A graph in the LAD form.
    Lad,
}

/// What is done.
#[derive(Clone, Copy, Debug, PartialEq, Eq)]
pub enum Job {
    /// The knapsack problem, with copies of items.
    Knapsack,
    /// The travelling salesperson problem.
    Tsp,
    /// The search of a pattern graph in a target graph.
    Subgraph,
    /// The count of numerical semigroups by genus.
    Semigroups,
    /// The permutation flow shop.
    Flow,
    /// A workload is made, and no file is read.
    Make(Made),
}

/// How a tree is searched, after the skeletons of YewPar (Archibald et al., "YewPar: skeletons for exact combinatorial
/// search", PPoPP 2020), and `Ordered` besides.
#[derive(Clone, Copy, Debug, PartialEq, Eq)]
pub enum Skeleton {
    /// One worker, in preorder.
    Sequential,
    /// Depth-Bounded: each node down to this depth, 1 to 255, becomes a task.
    Depth(u32),
    /// Budget: a task gives work away after this many backtracks, 1 to 2^32-1.
    Budget(u64),
    /// Stack-Stealing: an idle worker asks another for work.
    Steal {
        /// Whether it is given all children of a level, and not one.
        all: bool,
    },
    /// Tasks are numbered down to this depth, 1 to 255, and the answer is that of `Sequential`.
    Ordered(u32),
}

/// What the words ask for. A field that the words do not concern is empty, `None`, 0 or false; `workers` is then 1
/// and `skeleton` is `Sequential`.
#[derive(Clone, Copy, Debug)]
pub struct Plan<'a> {
    /// What is done.
    pub job: Job,
    /// How the tree is searched.
    pub skeleton: Skeleton,
    /// The files' names: a part of the words that were read.
    pub files: &'a [String],
    /// The number of workers: 1 to 64.
    pub workers: u32,
    /// The least profit that a knapsack is to reach, at most 2^40-2; `None` asks for the greatest profit.
    pub target: Option<u64>,
    /// By how much the best may be better than what is answered, at most 2^40-2; `None` asks for the best itself.
    pub gap: Option<u64>,
    /// The greatest genus that is counted: at most 40.
    pub genus: u32,
    /// Whether the steps of a tour are tried by rising weight.
    pub near: bool,
    /// Whether the bound of a tour takes a least spanning tree into account.
    pub span: bool,
    /// Whether the audit is written.
    pub audit: bool,
    /// Whether the report is written.
    pub report: bool,
    /// The seed of what is made.
    pub seed: u64,
    /// The number of items, cities or vertices that are made.
    pub size: u32,
    /// Whether what is made is solved too.
    pub solve: bool,
}

/// What is wrong with a word.
#[derive(Clone, Copy, Debug, PartialEq, Eq)]
pub enum UsageKind {
    /// A word must stand at this place, and the words have ended.
    Missing,
    /// The word is none of those that may stand at its place.
    Unknown,
    /// A file name must stand here, and the word is empty or begins with `-`.
    NotFile,
    /// The option is for this job and skeleton, and was given before.
    Repeated,
    /// A number must stand here, and the word is not spelled as one.
    NotNumber,
    /// The number is outside its range.
    OutOfRange,
    /// The option is not for this job and skeleton.
    NotHere,
}

/// The first offending word of a faulty command line.
#[derive(Clone, Copy, Debug, PartialEq, Eq, Error)]
#[error("Usage")]
pub struct Usage {
    /// The place of the word, counted from 1. Where a word is missing it is the number of words plus 1.
    pub place: u32,
    /// What is wrong with it.
    pub kind: UsageKind,
}
