//! The pieces of a text and what may be wrong with it. Lines are numbered from 1.

use thiserror::Error;

/// A word of a text: the bytes between two pieces of white space, without either.
#[derive(Clone, Copy, Debug)]
pub struct Word<'a> {
    /// The bytes of the word: at least one, and none is white space.
    pub text: &'a [u8],
    /// The number of its line, from 1.
    pub line: u64,
}

/// A line of a text as a key and a value, as `KEY : VALUE`.
#[derive(Clone, Copy, Debug)]
pub struct Field<'a> {
    /// The bytes from the first that is no white space up to white space or a colon.
    /// It is empty where the line begins with a colon.
    pub key: &'a [u8],
    /// The rest of the line behind the key and its colon, without white space at both ends.
    pub value: &'a [u8],
    /// Whether a colon follows the key.
    pub colon: bool,
    /// The number of the line, from 1.
    pub line: u64,
}

/// What is wrong with a text.
#[derive(Clone, Copy, Debug, PartialEq, Eq)]
pub enum TextKind {
    /// A number is due, and the word has a byte that is no digit.
    NotNumber,
    /// A number is due, and the word is digits whose value is too big.
    TooBig,
    /// Something is due, and the text ends.
    EndsEarly,
    /// Nothing more is due, and a word follows.
    Surplus,
    /// The line breaks a rule of its kind of file.
    BadLine,
}

/// A fault of a text, with the line where it is.
#[derive(Clone, Copy, Debug, PartialEq, Eq)]
pub struct TextFault {
    /// What is wrong.
    pub kind: TextKind,
    /// The number of the line of the word or the line at fault, or of the end, from 1.
    pub line: u64,
}

/// Why a reader of a file answers no instance.
#[derive(Debug, Drop, Error)]
#[error("FileEnd")]
pub enum FileEnd {
    /// The file is not in its grammar: its first fault.
    Refused(TextFault),
    /// The file is in its grammar, and a number is past its limit: the first such number.
    TooLarge {
        /// The number in the file.
        number: u64,
        /// The greatest number that is allowed in its place.
        limit: u64,
    },
    /// Memory was refused.
    Memory,
}
