//! The travelling salesman problem as a problem of tree search: the shortest tour of a TSPLIB 95 file with explicit
//! weights.
//!
//! [`read`] makes the problem of a file. A node of its tree is a list of different cities that begins with city 1, and its
//! children append each city that is not in the list. A list of all cities is a tour, and its worth is 2^37 less its
//! length; other lists have no worth. The bound takes for each city from which no step was taken the least weight from it
//! to another city. The whole lists of the tree are all tours, each once, so its greatest worth tells the least length.
//! [`Tours::best_text`] and [`Tours::near_text`] spell answers.
#![tactic(auto)]

mod header;
pub mod laws;
mod matrix;
mod nodes;
mod problem;
mod reading;
#[cfg(test)]
mod tests;
mod texts;
mod tours;

pub use nodes::{TourKids, TourList, TourNode};
pub use reading::read;
pub use tours::Tours;
