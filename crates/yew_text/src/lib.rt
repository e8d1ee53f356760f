//! The texts of input files: their words, numbers and fields, each with its line, read by a [`Cursor`].
//!
//! No call takes memory. A fault says what is wrong and in which line, and leaves the cursor where it stood.
#![tactic(auto)]

mod cursor;
pub mod laws;
mod number;
mod scan;
mod text;

pub use cursor::Cursor;
pub use text::{Field, FileEnd, TextFault, TextKind, Word};

#[cfg(test)]
mod tests;
