//! Numbers of an audit: `0`, or a digit other than `0` and then any digits.

ghost use Rattle.std.specs.Prelude.{◌≡◌, ◌≢◌, ℕ, ◌≤◌, ◌<◌, true, decimal, MatchOption};
ghost use Rattle.std.specs.List.{list_all};
ghost use Rattle.std.specs.Char.{is_ascii_digit};
ghost use Rattle.yew_text.specs.Numbers.{is_digits, value_of};
ghost use Rattle.yew_check.specs.Numbers.{is_spelled};

/// The greatest number of a text, 2^63 - 1.
pub const GREATEST_VALUE: u64 = 9_223_372_036_854_775_807;

/// Whether each byte is a digit.
fn are_digits(text: &[u8]) -> bool
    ensures { result ≡ is_digits text.now }
{
    text.iter().all(|b| b.is_ascii_digit())
}

/// Whether the text is `0`, or a digit other than `0` and then any digits.
fn is_spelled(text: &[u8]) -> bool
    ensures { result ≡ is_spelled text.now }
{
    match text {
        [] => false,
        [only] => only.is_ascii_digit(),
        [first, _, ..] => *first != b'0' && are_digits(text),
    }
}

/// The value of digits, or none where it is past the greatest number.
fn value_within(text: &[u8]) -> Option<u64>
    requires { is_digits text.now ≡ true }
    ensures { MatchOption result (GREATEST_VALUE < value_of text.now)
        (λ value. (value ≡ value_of text.now) × (value ≤ GREATEST_VALUE)) }
{
    let mut value = 0u64;
    for b in text {
        if value > GREATEST_VALUE / 10 {
            return None;
        }
        let next = value * 10 + (*b - b'0') as u64;
        if next > GREATEST_VALUE {
            return None;
        }
        value = next;
    }
    Some(value)
}

/// The number that the text is, if it is one that is at most `high`.
pub fn number_in(text: &[u8], high: u64) -> Option<u64>
    requires { high ≤ GREATEST_VALUE }
    ensures { MatchOption result ((n : ℕ) → n ≤ high → text.now ≢ decimal n)
        (λ n. (text.now ≡ decimal n) × (n ≤ high)) }
{
    if !is_spelled(text) {
        return None;
    }
    let Some(value) = value_within(text) else {
        return None;
    };
    if value > high {
        return None;
    }
    Some(value)
}
