//! The top call: from the words of the command line, a shelf of files and two sinks to the status.
//!
//! [`run_plain`] reads the words, reads and judges the files, searches with one worker or makes a workload, and writes the
//! whole text or the line of a refusal. Its contract is the program's: what is written with status 0 is a right answer to
//! the problem, with the report and the audit of its one log where they are asked for, and every other status has its
//! cause. [`run`] does the same with as many workers as the words say, by every skeleton.
#![tactic(auto)]

mod asked;
mod crew;
mod flow;
mod job;
mod knapsack;
pub mod laws;
mod made;
mod plan;
mod reading;
mod refusal;
mod search;
mod searcher;
mod semigroups;
mod solution;
mod solve;
mod subgraph;
mod tail;
#[cfg(test)]
mod tests;
mod top;
mod tours;
mod tours_searched;
mod tours_text;

pub use top::{run, run_plain};
