//! A cursor over the bytes of a text, which reads its words, numbers and fields from the front on.
//!
//! White space is space, tab, line feed and carriage return. The line of a place is 1 plus the number of
//! line feeds before it. Each call looks at each byte that it passes a few times at most and takes no memory.

ghost use Rattle.std.specs.Prelude.{◌≡◌, [], option_map, MatchOption, MatchResult};
ghost use Rattle.yew_text.specs.Position.{IsPosition, SameText, position_in, start_of, moved, words_left, fields_left};
ghost use Rattle.yew_text.specs.Reading.{text_word, text_field, FindsWord, FindsEnd, FindsField, TakesWord, TakesField, TakesNumber, Ends};

use crate::number::number_in;
use crate::scan::{field_in, line_len, skip_white, word_len};
use crate::text::{Field, TextFault, TextKind, Word};
use std::marker::Model;

/// The next word from a place on with the place behind it, or the line of the end where no word is left.
fn word_at<'a>(bytes: &'a [u8], place: usize, line: u64) -> Result<(Word<'a>, usize), u64>
    requires { IsPosition (position_in bytes.now place line) }
    ensures { let at = position_in bytes.now place line in
        MatchResult result (λ p. FindsWord at (text_word p.0) p.1) (λ end. FindsEnd at end) }
{
    let (start, line) = skip_white(bytes, place, line);
    if start == bytes.len() {
        return Err(line);
    }
    let rest = &bytes[start..];
    let len = word_len(rest);
    let text = &rest[..len];
    Ok((Word { text, line }, start + len))
}

/// A field, with the place and the line behind its line.
#[derive(Drop)]
struct FoundField<'a> {
    field: Field<'a>,
    place: usize,
    line: u64,
}

/// The next line from a place on that is not blank.
fn field_at<'a>(bytes: &'a [u8], place: usize, line: u64) -> Option<FoundField<'a>>
    requires { IsPosition (position_in bytes.now place line) }
    ensures { let at = position_in bytes.now place line in
        MatchOption result (fields_left at ≡ [])
        (λ f. FindsField at (text_field f.field) (moved at f.place f.line)) }
{
    let (start, line) = skip_white(bytes, place, line);
    if start == bytes.len() {
        return None;
    }
    let rest = &bytes[start..];
    let len = line_len(rest);
    let field = field_in(&rest[..len], line);
    let end = start + len;
    if end == bytes.len() {
        return Some(FoundField {
            field,
            place: end,
            line,
        });
    }
    Some(FoundField {
        field,
        place: end + 1,
        line: line + 1,
    })
}

/// A place in a text, from which its words, numbers and fields are read.
///
/// Contracts see it as the bytes, the place reached and the line of that place.
#[derive(Drop)]
pub struct Cursor<'a> {
    bytes: &'a [u8],
    place: usize,
    line: u64,
}

impl<'a> Model for Cursor<'a> {
    ghost use Rattle.yew_text.specs.Position.{Position, IsPosition, position_in};

    ghost Value = { Position };

    ghost view = { λ c. position_in c.bytes.now c.place c.line };

    ghost invariant = { λ c. IsPosition (position_in c.bytes.now c.place c.line) };
}

impl<'a> Cursor<'a> {
    /// A cursor before the first byte, in line 1.
    pub fn new(bytes: &'a [u8]) -> Cursor<'a>
        ensures { result ≡ start_of bytes.now }
    {
        Cursor {
            bytes,
            place: 0,
            line: 1,
        }
    }

    /// The line of the place reached, from 1: after a word or a number was read, the line of that word.
    pub fn line(&self) -> u64
        ensures value { result ≡ self.now.line }
        ensures reached { IsPosition self.now }
    {
        self.line
    }

    /// Reads the next word: the bytes up to white space or the end. The cursor then stands right behind it.
    ///
    /// It answers none, and stays, where only white space is left.
    pub fn word(&mut self) -> Option<Word<'a>>
        ensures taken { TakesWord self.old (option_map text_word result) self.new }
        ensures same { SameText self.old self.new }
    {
        match word_at(self.bytes, self.place, self.line) {
            Err(_) => None,
            Ok((word, place)) => {
                self.place = place;
                self.line = word.line;
                Some(word)
            }
        }
    }

    /// Reads the next word as a decimal number of at most 2^63 - 1. Zeros may lead it.
    ///
    /// # Errors
    ///
    /// A fault leaves the cursor where it stands: `EndsEarly` with the line of the end where no word is left;
    /// with the line of the word, `NotNumber` where it has a byte that is no digit, and `TooBig` where it is
    /// digits whose value is past 2^63 - 1.
    pub fn number(&mut self) -> Result<u64, TextFault>
        ensures taken { TakesNumber self.old result self.new }
        ensures same { SameText self.old self.new }
    {
        match word_at(self.bytes, self.place, self.line) {
            Err(line) => {
                let kind = TextKind::EndsEarly;
                Err(TextFault { kind, line })
            }
            Ok((word, place)) => {
                let number = number_in(word.text, word.line)?;
                self.place = place;
                self.line = word.line;
                Ok(number)
            }
        }
    }

    /// Reads the next line that is not blank as a key and a value. The cursor then stands behind that line.
    ///
    /// The key is the bytes from the first that is no white space up to white space or a colon. Where a colon
    /// follows the key, with white space allowed between, the value is the rest of the line behind the colon,
    /// and otherwise the rest of the line behind the key, in both cases without white space at its ends.
    /// It answers none, and stays, where only blank lines are left.
    pub fn field(&mut self) -> Option<Field<'a>>
        ensures taken { TakesField self.old (option_map text_field result) self.new }
        ensures same { SameText self.old self.new }
    {
        match field_at(self.bytes, self.place, self.line) {
            None => None,
            Some(found) => {
                self.place = found.place;
                self.line = found.line;
                Some(found.field)
            }
        }
    }

    /// Asks that only white space is left, and leaves the cursor where it stands.
    ///
    /// # Errors
    ///
    /// `Surplus` with the line of the next word exactly where a word is left.
    pub fn end(&mut self) -> Result<(), TextFault>
        ensures ends { Ends self.old result }
        ensures stays { self.new ≡ self.old }
    {
        if let Ok((word, _)) = word_at(self.bytes, self.place, self.line) {
            let kind = TextKind::Surplus;
            let line = word.line;
            return Err(TextFault { kind, line });
        }
        Ok(())
    }
}
