//! The bounded knapsack problem as a problem of tree search: there are so many copies of each item.
//!
//! [`read`] makes the problem of a file. A node of its tree is a choice of copies that can be carried, its worth is the total
//! profit and 1, and its bound is Dantzig's. The lists of the nodes' numbers of copies are all lists that can be carried,
//! each once, so the greatest worth of the tree tells the best profit. [`Knapsack::best_text`], [`Knapsack::near_text`] and
//! [`Knapsack::reach_text`] spell answers.
#![tactic(auto)]

mod bounds;
mod copies;
mod form;
mod item_sets;
mod knapsack;
pub mod laws;
mod nodes;
mod order;
mod places;
mod problem;
mod quotients;
mod reading;
#[cfg(test)]
mod tests;
mod texts;

pub use knapsack::Knapsack;
pub use nodes::{KnapKids, KnapNode};
pub use reading::read;
