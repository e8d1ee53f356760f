//! The spanning-tree bound for tours.
//!
//! A path from the last city of a list through all cities that are not in it back to city 1 joins all of them, so it weighs no
//! less than the least list of pairs that joins them: a least spanning tree (Held and Karp, Operations Research 18, 1970, bound
//! tours by it). [`least_span`] answers that weight. [`Spanned`] is a problem of tours with the same tree and the same worths,
//! whose bounds take it into account where both directions of each pair of cities weigh the same.
#![tactic(auto)]

mod growing;
pub mod laws;
mod spanned;
#[cfg(test)]
mod tests;

pub use growing::least_span;
pub use spanned::Spanned;
