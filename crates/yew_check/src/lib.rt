//! A judge of audits: it reads the text that a search wrote with its audit, and judges the logs without trust in their
//! maker.
//!
//! [`read_audit`] reads a text: its head, which is what was written before the audit, and the logs of the workers. [`judge`]
//! judges the logs for a problem: whether the visits and the cuts cover its tree, each path once, with the worths and the
//! bounds of the nodes, and whether each cut is permitted by a worth that was visited.
#![tactic(auto)]

mod causes;
mod covering;
mod entries;
mod file;
mod judging;
pub mod laws;
mod marks;
mod numbers;
mod pieces;
mod reading;
#[cfg(test)]
mod tests;

pub use file::AuditFile;
pub use judging::{Judged, judge};
pub use reading::read_audit;
