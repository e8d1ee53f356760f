//! Problems of stored functions, and children in another order.
//!
//! A caller says by a [`Shape`] what a tree is, and hands over four functions that answer its root, its children, its
//! worths and its bounds: [`ByCalls`] is the problem of these functions, so each search applies.
//!
//! [`Reordered`] is a problem with the children of each node by rising key, where a [`KeyShape`] says what the keys are
//! and a function answers them. Its tree has the nodes of the inner one, each at its depth, so that what a search counts,
//! the greatest worth and the targets that are met are the inner ones; which of several best nodes comes first may differ.
#![tactic(auto)]

mod by_calls;
mod keyed;
pub mod laws;
mod reordered;
mod shape;
#[cfg(test)]
mod tests;

pub use by_calls::ByCalls;
pub use reordered::{KeyShape, Reordered};
pub use shape::Shape;
