//! Problems of exact tree search, and the laws that every search rests on.
//!
//! A [`Problem`] gives the nodes of a tree one at a time, each with a worth and a bound. A [`Path`] says where in the
//! tree a node stands, and [`rebuild`] gives the node at a path. The definitions that all contracts cite (the tree in
//! preorder, what lies below a path, the greatest worth, the first best path, the fold, covers and bags) stand in
//! `specs/`, and their laws in `proofs/`.
#![tactic(auto)]

pub mod laws;
mod memory;
mod nodes;
mod orders;
mod paths;
mod problem;
#[cfg(test)]
mod tests;

pub use memory::Memory;
pub use nodes::rebuild;
pub use paths::Path;
pub use problem::{Problem, Task};
