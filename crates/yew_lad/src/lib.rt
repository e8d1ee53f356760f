//! Subgraph isomorphism on pairs of directed graphs, as a problem of tree search.
//!
//! [`read`] makes a graph of a file in the LAD format, and [`pair`] the problem of a pattern and a target. A map sends the
//! pattern's vertices to different vertices of the target and each arc to an arc; further arcs of the target do not matter.
//! A node of the tree maps the first vertices of an order, those of the greatest degree first. The whole nodes are the
//! maps, each once, so a worth of 1 is reached exactly where there is a map. [`Subgraph::reach_text`] spells the answer.
#![tactic(auto)]

mod bits;
mod graph;
pub mod laws;
mod nodes;
mod order;
mod problem;
mod profiles;
mod reading;
mod subgraph;
mod tables;
#[cfg(test)]
mod tests;
mod texts;

pub use graph::Graph;
pub use nodes::{MapKids, MapNode};
pub use reading::read;
pub use subgraph::{Subgraph, pair};
