//! The world outside of a search: a shelf of files to read, a sink for what is written, and a gate that workers pass.
//!
//! Each is a trait with a written meaning, so that code above it can say which bytes it read and wrote, and that it
//! answered a fault only where there was one. `MemoryShelf`, `MemorySink` and `OpenGate` stand in for the outside in
//! tests. `read_all` reads a file whole, within a limit, and `write_whole` writes a text whole.
#![tactic(auto)]

mod calls;
mod gate;
mod memory_shelf;
mod memory_sink;
mod reading;
mod shelf;
mod sink;
mod writing;

pub use gate::{Gate, OpenGate};
pub use memory_shelf::MemoryShelf;
pub use memory_sink::MemorySink;
pub use reading::{ReadEnd, read_all};
pub use shelf::{Failed, Shelf};
pub use sink::Sink;
pub use writing::write_whole;

#[cfg(test)]
mod tests;
