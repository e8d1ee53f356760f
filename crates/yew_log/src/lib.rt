//! Records of a search, one log per worker, and what makes them lawful.
//!
//! A [`Recorder`] is told of each task that a worker takes, each node that it visits or cuts, each task that it spawns
//! or hands over, and each node that it is done with. [`Counts`] keeps the totals alone, and [`Full`] keeps every entry
//! up to a limit. The definitions in `specs/` say which logs are lawful for a tree, a skeleton and a number of workers;
//! `laws` has what follows from them.
#![tactic(auto)]

mod counts;
mod entry;
mod full;
pub mod laws;
mod recorder;
#[cfg(test)]
mod tests;
mod text;

pub use counts::Counts;
pub use entry::{Entry, LogEnd, Totals, What};
pub use full::Full;
pub use recorder::Recorder;
pub use text::audit_text;
