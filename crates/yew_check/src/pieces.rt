//! Pieces of a text, cut at a byte.

ghost use Rattle.std.specs.Prelude.{◌≡◌, ◌≢◌, ◌==◌, ℕ, List, ◌∷◌, ◌++◌, map, MatchOption, MatchBool, IfOk};
ghost use Rattle.std.specs.List.{AllByRecursion, slice_split};
ghost use Rattle.yew_check.specs.Lines.{without_end};

use std::alloc::{AllocError, Global};

/// The parts of a text between such bytes.
pub fn pieces<'a>(alloc: Global, text: &'a [u8], byte: u8) -> Result<Vec<&'a [u8]>, AllocError>
    ensures { IfOk result (λ parts. map (λ part. part.now) parts.items ≡ slice_split (λ b. b == byte) text.now) }
{
    text.split(|b| *b == byte).collect(alloc)
}

/// What stands before the first such byte, and what stands behind it.
pub fn cut(text: &[u8], byte: u8) -> Option<(&[u8], &[u8])>
    ensures { MatchOption result (AllByRecursion (λ b. b ≢ byte) text.now)
        (λ p. (text.now ≡ p.0.now ++ byte ∷ p.1.now) × AllByRecursion (λ b. b ≢ byte) p.0.now) }
{
    for (place, b) in text.iter().enumerate() {
        if *b == byte {
            return Some((&text[..place], &text[place + 1..]));
        }
    }
    None
}

/// A text without the line feed at its end.
pub fn without_end(bytes: &[u8]) -> &[u8]
    ensures { result.now ≡ without_end bytes.now }
{
    if bytes.is_empty() || bytes[bytes.len() - 1] != b'\n' {
        return bytes;
    }
    &bytes[..bytes.len() - 1]
}

/// Whether two texts are the same.
pub fn is_same(text: &[u8], other: &[u8]) -> bool
    ensures { MatchBool result (text.now ≡ other.now) (text.now ≢ other.now) }
{
    text == other
}
