//! The crew: workers that search one tree together.
#![tactic(auto)]

mod any_worker;
mod coord;
mod ending;
mod hand_walk;
mod handing;
mod hands;
mod idling;
mod joining;
pub mod laws;
mod open_steps;
mod open_tasks;
mod open_view;
mod search;
mod spawn;
mod spawn_worker;
mod spawning;
mod starting;
mod station;
mod steal_worker;
#[cfg(test)]
mod tests;

pub use any_worker::worker;
pub use coord::Coord;
pub use hands::gather;
pub use open_tasks::{Open, OpenSeat};
pub use search::search_crew;
pub use station::{End, Report, Shared, Station};
