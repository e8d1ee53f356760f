//! The incumbent: one word that all workers share and that only rises. Each worker reads it and offers to it with a
//! seat of its own, without a lock and without memory, and the seats tell in the end what was read and offered.
#![tactic(auto)]

mod incumbent;
mod steps;
#[cfg(test)]
mod tests;
mod view;

pub use incumbent::{Best, BestSeat};
