//! Numerical semigroups, counted by their genus.
//!
//! A numerical semigroup is a set of whole numbers from 0 up that holds 0, is closed under sums and lacks finitely many
//! numbers, its gaps. Its genus is the number of its gaps, and its Frobenius number is the greatest of them. In the
//! semigroup tree the root is all whole numbers, and the children of a semigroup take out one minimal generator that is
//! greater than the Frobenius number (Bras-Amorós, Bounds on the number of numerical semigroups of a given genus,
//! 2009; Fromentin and Hivert, Exploring the tree of numerical semigroups, 2016).
#![tactic(auto)]

pub mod laws;
mod semigroup;
mod semigroups;
mod text;

pub use semigroup::{Generators, Semigroup};
pub use semigroups::Semigroups;
pub use text::count_text;

#[cfg(test)]
mod tests;
