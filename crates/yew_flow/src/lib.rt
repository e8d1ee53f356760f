//! The permutation flow shop as a problem of tree search: the least makespan, where each job goes through all machines in
//! their order, and every machine takes the jobs in one and the same order.
//!
//! [`read`] makes the problem of a file. A node of its tree is a list of different jobs, and its children append each job
//! that is not in the list. A list of all jobs is an order, and its worth is 2^37 less its makespan; other lists have no
//! worth. The bound is the one of single machines (Ignall and Schrage 1965): when the list is done on a machine, what the
//! absent jobs take there, and the least that one of them takes on the machines after it. The whole lists of the tree are
//! all orders, each once, so its greatest worth tells the least makespan. [`Flow::best_text`] and [`Flow::near_text`] spell
//! answers.
#![tactic(auto)]

mod flow;
pub mod laws;
mod nodes;
mod order;
mod problem;
mod reading;
#[cfg(test)]
mod tests;
mod texts;

pub use flow::Flow;
pub use nodes::{FlowKids, FlowNode};
pub use reading::read;
