//! What stands in front of a text: white space, a word, a line, a field.

ghost use Rattle.std.specs.Prelude.{◌≡◌, ◌≤◌, length, not};
ghost use Rattle.std.specs.List.{prefix_len, suffix_len};
ghost use Rattle.yew_text.specs.Words.{is_white as is_white_byte};
ghost use Rattle.yew_text.specs.Fields.{ends_key as ends_key_byte, trim_start as without_front, trim_end as without_end, begins_with_colon, behind_colon as rest_behind_colon, field_at};
ghost use Rattle.yew_text.specs.Position.{IsPosition, position_in};
ghost use Rattle.yew_text.specs.Reading.{in_word, in_line, text_field, SkipsWhite};

use crate::text::Field;

/// Whether a byte is a space, a tab, a line feed or a carriage return.
fn is_white(b: u8) -> bool
    ensures { result ≡ is_white_byte b }
{
    b == b' ' || b == b'\t' || b == b'\n' || b == b'\r'
}

/// Whether a byte ends a key: white space or a colon.
fn ends_key(b: u8) -> bool
    ensures { result ≡ ends_key_byte b }
{
    is_white(b) || b == b':'
}

/// The first place from `place` on that has no white space, or the end, with its line.
pub fn skip_white(bytes: &[u8], mut place: usize, mut line: u64) -> (usize, u64)
    requires { IsPosition (position_in bytes.now place line) }
    ensures { SkipsWhite (position_in bytes.now place line) (position_in bytes.now result.0 result.1) }
{
    while place < bytes.len() && is_white(bytes[place]) {
        line += (bytes[place] == b'\n') as u64;
        place += 1;
    }
    (place, line)
}

/// How many bytes of white space stand in front.
fn white_len(bytes: &[u8]) -> usize
    ensures count { result ≡ prefix_len is_white_byte bytes.now }
    ensures within { result ≤ length bytes.now }
{
    bytes.iter().take_while(|b| is_white(**b)).count()
}

/// How many bytes of white space stand at the end.
fn white_len_at_end(bytes: &[u8]) -> usize
    ensures count { result ≡ suffix_len is_white_byte bytes.now }
    ensures within { result ≤ length bytes.now }
{
    bytes.iter().rev().take_while(|b| is_white(**b)).count()
}

/// How many bytes of a word stand in front.
pub fn word_len(bytes: &[u8]) -> usize
    ensures count { result ≡ prefix_len in_word bytes.now }
    ensures within { result ≤ length bytes.now }
{
    bytes.iter().take_while(|b| !is_white(**b)).count()
}

/// How many bytes stand in front of the first line feed, or of the end.
pub fn line_len(bytes: &[u8]) -> usize
    ensures count { result ≡ prefix_len in_line bytes.now }
    ensures within { result ≤ length bytes.now }
{
    bytes.iter().take_while(|b| **b != b'\n').count()
}

/// How many bytes of a key stand in front.
fn key_len(bytes: &[u8]) -> usize
    ensures count { result ≡ prefix_len (λ b. not (ends_key_byte b)) bytes.now }
    ensures within { result ≤ length bytes.now }
{
    bytes.iter().take_while(|b| !ends_key(**b)).count()
}

/// A text without the white space in front.
fn trim_start(text: &[u8]) -> &[u8]
    ensures { result.now ≡ without_front text.now }
{
    &text[white_len(text)..]
}

/// A text without the white space at its end.
fn trim_end(text: &[u8]) -> &[u8]
    ensures { result.now ≡ without_end text.now }
{
    &text[..text.len() - white_len_at_end(text)]
}

/// Whether a text begins with a colon, with what stands behind that colon, or else the text itself.
fn behind_colon(text: &[u8]) -> (bool, &[u8])
    ensures colon { result.0 ≡ begins_with_colon text.now }
    ensures rest { result.1.now ≡ rest_behind_colon text.now }
{
    if text.is_empty() {
        return (false, text);
    }
    if text[0] != b':' {
        return (false, text);
    }
    (true, &text[1..])
}

/// The field that a line is, from its first byte that is no white space on.
pub fn field_in(text: &[u8], line: u64) -> Field<'_>
    ensures { text_field result ≡ field_at line text.now }
{
    let (key, rest) = text.split_at(key_len(text));
    let (colon, rest) = behind_colon(trim_start(rest));
    Field {
        key,
        value: trim_end(trim_start(rest)),
        colon,
        line,
    }
}
