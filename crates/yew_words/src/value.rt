//! What a single word can be: a file's name, or the value of an option.

ghost use Rattle.std.specs.Prelude.{◌≡◌, IfOk, IfErr, Some, None};
ghost use Rattle.std.specs.List.{list_all};
ghost use Rattle.std.specs.Char.{is_ascii_digit};
ghost use Rattle.yew_words.specs.Word.{texts, is_file_name, is_number, number_of};
ghost use Rattle.yew_words.specs.declared.table.Takes.TheVariants as takings;
ghost use Rattle.yew_words.specs.Kept.{value_fault, TakesValue, RefusesValue};
ghost use Rattle.yew_words.specs.Plans.{value_said};

use crate::plan::UsageKind;
use crate::table::Takes;

/// The value of an option that was given.
#[derive(Clone, Copy)]
pub enum Value {
    /// The option has none.
    Nothing,
    /// The word `all`, or the word `one`.
    OneOrAll { all: bool },
    /// A number.
    Number(u64),
}

/// Whether the word is not empty and does not begin with `-`.
pub fn is_file_name(word: &str) -> bool
    ensures { result ≡ is_file_name word.now }
{
    match word.as_bytes() {
        [first, ..] => *first != b'-',
        [] => false,
    }
}

/// Whether the word is `0`, or a digit other than `0` and then any number of digits.
fn is_number(word: &str) -> bool
    ensures { result ≡ is_number word.now }
{
    match word.as_bytes() {
        [] => false,
        [only] => only.is_ascii_digit(),
        [first, _, ..] => *first != b'0' && are_digits(word.as_bytes()),
    }
}

fn are_digits(bytes: &[u8]) -> bool
    ensures { result ≡ list_all is_ascii_digit bytes.now }
{
    bytes.iter().all(|byte| byte.is_ascii_digit())
}

/// The number that the word spells.
///
/// # Errors
///
/// `NotNumber` where it spells none, and `OutOfRange` where the number is below `low` or above `high`.
fn number(word: &str, low: u64, high: u64) -> Result<u64, UsageKind>
    ensures number { IfOk result (λ number.
        (value_fault (takings.Number low high) word.now ≡ None) × (number ≡ number_of word.now)) }
    ensures fault { IfErr result (λ kind. value_fault (takings.Number low high) word.now ≡ Some kind) }
{
    if !is_number(word) {
        return Err(UsageKind::NotNumber);
    }
    // A number past the type's end is past every range too.
    let Ok(number) = word.parse::<u64>() else {
        return Err(UsageKind::OutOfRange);
    };
    if number < low || high < number {
        return Err(UsageKind::OutOfRange);
    }
    Ok(number)
}

/// The value that the word says where this is due.
///
/// # Errors
///
/// The kind of fault where it says none.
fn value_of(takes: Takes, word: &str) -> Result<Value, UsageKind>
    ensures value { IfOk result (λ value.
        (value_fault takes word.now ≡ None) × (value ≡ value_said takes (Some word.now))) }
    ensures fault { IfErr result (λ kind. value_fault takes word.now ≡ Some kind) }
{
    match takes {
        Takes::Nothing => Ok(Value::Nothing),
        Takes::OneOrAll => match word {
            "one" => Ok(Value::OneOrAll { all: false }),
            "all" => Ok(Value::OneOrAll { all: true }),
            _ => Err(UsageKind::Unknown),
        },
        Takes::Number(low, high) => Ok(Value::Number(number(word, low, high)?)),
    }
}

/// Reads the value with which the words begin, where one is due, and gives the words behind it.
///
/// # Errors
///
/// `Missing` where the words have ended, and else the kind of fault of the first word.
pub fn read_value<'a>(takes: Takes, words: &'a [String]) -> Result<(Value, &'a [String]), UsageKind>
    ensures value { IfOk result (λ read. TakesValue takes (texts words.now) read.0 (texts read.1.now)) }
    ensures fault { IfErr result (RefusesValue takes (texts words.now)) }
{
    if matches!(takes, Takes::Nothing) {
        return Ok((Value::Nothing, words));
    }
    let Some((word, rest)) = words.split_first() else {
        return Err(UsageKind::Missing);
    };
    Ok((value_of(takes, word)?, rest))
}
