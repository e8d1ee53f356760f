//! The tests, by what they test.

mod counting;
mod gathering;
mod working;
