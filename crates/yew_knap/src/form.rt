//! The two forms of a knapsack file.

/// What stands for each item of a file.
#[derive(Clone, Copy, Debug, PartialEq, Eq)]
pub enum Form {
    /// A profit and a weight. There is one copy of each item.
    Pairs,
    /// A profit, a weight and the number of copies.
    Triples,
}
