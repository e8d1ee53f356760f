//! Words as decimal numbers.

ghost use Rattle.std.specs.Prelude.{◌≡◌, ◌≤◌, ◌<◌, true, MatchOption};
ghost use Rattle.yew_text.specs.Numbers.{number_in as number_of_word, is_digits, value_of};
ghost use Rattle.yew_text.specs.Reading.{Gives};

use crate::text::{TextFault, TextKind};

/// The greatest number that a file may have, 2^63 - 1.
const GREATEST: u64 = 9_223_372_036_854_775_807;

/// Whether each byte is a digit.
fn all_digits(text: &[u8]) -> bool
    ensures { result ≡ is_digits text.now }
{
    text.iter().all(|b| b.is_ascii_digit())
}

/// The value of digits, or none where it is past the greatest number.
fn value_within(text: &[u8]) -> Option<u64>
    requires { is_digits text.now ≡ true }
    ensures { MatchOption result (GREATEST < value_of text.now)
        (λ value. (value ≡ value_of text.now) × (value ≤ GREATEST)) }
{
    let mut value = 0u64;
    for b in text {
        if value > GREATEST / 10 {
            return None;
        }
        let next = value * 10 + (*b - b'0') as u64;
        if next > GREATEST {
            return None;
        }
        value = next;
    }
    Some(value)
}

/// The number that a word is, or why it is none, with the line of the word.
pub fn number_in(text: &[u8], line: u64) -> Result<u64, TextFault>
    ensures { Gives result (number_of_word (record { text = text.now; line = line })) }
{
    if !all_digits(text) {
        let kind = TextKind::NotNumber;
        return Err(TextFault { kind, line });
    }
    match value_within(text) {
        Some(value) => Ok(value),
        None => {
            let kind = TextKind::TooBig;
            Err(TextFault { kind, line })
        }
    }
}
