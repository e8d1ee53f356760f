//! The specification part of a TSPLIB 95 file: its keys and their values, line by line.

ghost use Rattle.std.specs.Prelude.{◌≡◌, ◌≤◌, ◌||◌, List, [], length, true, false, slice_index_or, slice_set, bytes_eq, codes};
ghost use Rattle.std.specs.List.{position_or_len};
ghost use Rattle.yew_text.specs.Fields.{TextField};
ghost use Rattle.yew_text.specs.Numbers.{is_digits};
ghost use Rattle.yew_text.specs.Position.{SameText, words_left};
ghost use Rattle.yew_text.specs.Reading.{text_field, text_fault};
ghost use Rattle.yew_text.specs.Words.{is_white as is_white_byte, end_line};
ghost use Rattle.yew_tsp.specs.Keys.{key_word, format_word, first_word as first_word_of, is_repeated, named as named_by, every_key, every_format};
ghost use Rattle.yew_tsp.specs.Reading.{index_of, GivesDimension, AreGiven, Accepts, JudgesEntry, JudgesSection, Judges, ReadsHeader};

use yew_text::{Cursor, Field, TextFault, TextKind};

/// The key of the line behind which the matrix stands.
const SECTION: &[u8] = b"EDGE_WEIGHT_SECTION";

/// The key of the line that ends a file.
const END: &[u8] = b"EOF";

/// The type of a file of symmetric weights.
const SYMMETRIC: &[u8] = b"TSP";

/// The type of a file of weights that may differ by direction.
const ASYMMETRIC: &[u8] = b"ATSP";

/// The type of weights that stand in the file.
const EXPLICIT: &[u8] = b"EXPLICIT";

/// A key of the specification part.
#[derive(Clone, Copy, Debug, PartialEq, Eq)]
pub enum Key {
    Name,
    Comment,
    DataType,
    Dimension,
    WeightType,
    WeightFormat,
    DisplayType,
    CoordType,
}

/// Which numbers of the matrix a file has, row by row.
#[derive(Clone, Copy, Debug, PartialEq, Eq)]
pub enum Format {
    FullMatrix,
    UpperRow,
    LowerRow,
    UpperDiagRow,
    LowerDiagRow,
}

const KEYS: [Key; 8] = [
    Key::Name,
    Key::Comment,
    Key::DataType,
    Key::Dimension,
    Key::WeightType,
    Key::WeightFormat,
    Key::DisplayType,
    Key::CoordType,
];

const FORMATS: [Format; 5] = [
    Format::FullMatrix,
    Format::UpperRow,
    Format::LowerRow,
    Format::UpperDiagRow,
    Format::LowerDiagRow,
];

impl Key {
    fn word(self) -> &'static [u8]
        ensures { result.now ≡ key_word self }
    {
        match self {
            Key::Name => b"NAME",
            Key::Comment => b"COMMENT",
            Key::DataType => b"TYPE",
            Key::Dimension => b"DIMENSION",
            Key::WeightType => b"EDGE_WEIGHT_TYPE",
            Key::WeightFormat => b"EDGE_WEIGHT_FORMAT",
            Key::DisplayType => b"DISPLAY_DATA_TYPE",
            Key::CoordType => b"NODE_COORD_TYPE",
        }
    }

    /// The key that a word names.
    fn named(word: &[u8]) -> Option<Key>
        ensures { result ≡ named_by key_word every_key word.now }
    {
        KEYS.iter().copied().find(|key| key.word() == word)
    }

    /// The place of the key in a row of all keys.
    fn index(self) -> usize
        ensures { result ≡ index_of self }
    {
        match self {
            Key::Name => 0,
            Key::Comment => 1,
            Key::DataType => 2,
            Key::Dimension => 3,
            Key::WeightType => 4,
            Key::WeightFormat => 5,
            Key::DisplayType => 6,
            Key::CoordType => 7,
        }
    }
}

impl Format {
    fn word(self) -> &'static [u8]
        ensures { result.now ≡ format_word self }
    {
        match self {
            Format::FullMatrix => b"FULL_MATRIX",
            Format::UpperRow => b"UPPER_ROW",
            Format::LowerRow => b"LOWER_ROW",
            Format::UpperDiagRow => b"UPPER_DIAG_ROW",
            Format::LowerDiagRow => b"LOWER_DIAG_ROW",
        }
    }

    /// The format that a value names.
    fn named(value: &[u8]) -> Option<Format>
        ensures { result ≡ named_by format_word every_format value.now }
    {
        FORMATS
            .iter()
            .copied()
            .find(|format| format.word() == value)
    }
}

/// Whether a byte is a space, a tab, a line feed or a carriage return.
fn is_white(b: u8) -> bool
    ensures { result ≡ is_white_byte b }
{
    b == b' ' || b == b'\t' || b == b'\n' || b == b'\r'
}

/// How many bytes stand before the first white space, or the end.
fn first_word_len(value: &[u8]) -> usize
    ensures count { result ≡ position_or_len is_white_byte value.now }
    ensures within { result ≤ length value.now }
{
    value.iter().take_while(|b| !is_white(**b)).count()
}

/// The value up to the first white space.
fn first_word(value: &[u8]) -> &[u8]
    ensures { result.now ≡ first_word_of value.now }
{
    &value[..first_word_len(value)]
}

/// Whether a value's first word is a type of file that is read.
fn is_read_type(value: &[u8]) -> bool
    ensures { result ≡ (bytes_eq (codes "TSP") (first_word_of value.now) || bytes_eq (codes "ATSP") (first_word_of value.now)) }
{
    let word = first_word(value);
    SYMMETRIC == word || ASYMMETRIC == word
}

/// Whether each byte is a digit.
fn all_digits(value: &[u8]) -> bool
    ensures { result ≡ is_digits value.now }
{
    value.iter().all(|b| b.is_ascii_digit())
}

/// The number of cities that a value is.
fn dimension(value: &[u8]) -> Result<u64, TextKind>
    ensures { GivesDimension result value.now }
{
    if value.is_empty() || !all_digits(value) {
        return Err(TextKind::NotNumber);
    }
    match Cursor::new(value).number() {
        Ok(cities) if cities < 2 => Err(TextKind::BadLine),
        Ok(cities) => Ok(cities),
        Err(_) => Err(TextKind::TooBig),
    }
}

/// What the specification part says of the matrix.
#[derive(Clone, Copy, Debug)]
pub struct Specification {
    /// The number of cities, at least 2.
    pub cities: u64,
    pub format: Format,
}

/// What a line of the specification part is.
enum LineIs {
    Entry,
    Section(Specification),
}

/// What the lines so far have given.
#[derive(Clone, Copy)]
struct Given {
    keys: [bool; 8],
    cities: Option<u64>,
    format: Option<Format>,
}

impl Given {
    /// No line.
    fn nothing() -> Given
        ensures { AreGiven [] result }
    {
        Given {
            keys: [false; 8],
            cities: None,
            format: None,
        }
    }

    /// Whether a key was given.
    fn has(&self, key: Key) -> bool
        requires { length self.now.keys ≡ 8 }
        ensures { result ≡ slice_index_or self.now.keys (index_of key) false }
    {
        self.keys[key.index()]
    }

    /// Whether a key may not stand again. Comments may.
    fn repeats(&self, key: Key) -> bool
        requires { length self.now.keys ≡ 8 }
        ensures { (given : List TextField) → AreGiven given self.now → result ≡ is_repeated given key }
    {
        key != Key::Comment && self.has(key)
    }

    /// Judges the value of a key, and keeps what is needed of it.
    fn accept(&mut self, key: Key, value: &[u8]) -> Result<(), TextKind>
        ensures { Accepts self.old key value.now result self.new }
    {
        match key {
            Key::DataType if !is_read_type(value) => Err(TextKind::BadLine),
            Key::WeightType if EXPLICIT != value => Err(TextKind::BadLine),
            Key::Dimension => match dimension(value) {
                Ok(cities) => {
                    self.cities = Some(cities);
                    Ok(())
                }
                Err(kind) => Err(kind),
            },
            Key::WeightFormat => match Format::named(value) {
                Some(format) => {
                    self.format = Some(format);
                    Ok(())
                }
                None => Err(TextKind::BadLine),
            },
            _ => Ok(()),
        }
    }

    /// Judges a line that is to be a key with a value, and keeps what it gives.
    fn entry(&mut self, field: &Field<'_>) -> Result<(), TextKind>
        requires { length self.old.keys ≡ 8 }
        ensures { (given : List TextField) → AreGiven given self.old → JudgesEntry given (text_field field.now) result self.new }
    {
        let Some(key) = Key::named(field.key) else {
            return Err(TextKind::BadLine);
        };
        if !field.colon || self.repeats(key) {
            return Err(TextKind::BadLine);
        }
        match self.accept(key, field.value) {
            Ok(()) => {}
            Err(kind) => return Err(kind),
        }
        self.keys[key.index()] = true;
        Ok(())
    }

    /// Judges the line of the section, which has no value and stands behind all keys that may not be absent.
    fn section(&self, field: &Field<'_>) -> Result<Specification, TextKind>
        requires { length self.now.keys ≡ 8 }
        ensures { (given : List TextField) → AreGiven given self.now → JudgesSection given (text_field field.now) result }
    {
        if !field.value.is_empty() || !self.has(Key::DataType) || !self.has(Key::WeightType) {
            return Err(TextKind::BadLine);
        }
        match (self.cities, self.format) {
            (Some(cities), Some(format)) => Ok(Specification { cities, format }),
            _ => Err(TextKind::BadLine),
        }
    }

    /// Judges the next line, and keeps what it gives.
    fn judge(&mut self, field: &Field<'_>) -> Result<LineIs, TextKind>
        requires { length self.old.keys ≡ 8 }
        ensures { (given : List TextField) → AreGiven given self.old → Judges given (text_field field.now) result self.new }
    {
        if END == field.key {
            return Err(TextKind::EndsEarly);
        }
        if SECTION == field.key {
            return match self.section(field) {
                Ok(said) => Ok(LineIs::Section(said)),
                Err(kind) => Err(kind),
            };
        }
        match self.entry(field) {
            Ok(()) => Ok(LineIs::Entry),
            Err(kind) => Err(kind),
        }
    }
}

/// The fault at the end of a file that ends too early.
fn ends_early(cursor: &mut Cursor<'_>) -> TextFault
    requires { words_left cursor.old ≡ [] }
    ensures fault { text_fault result ≡ record { kind = TextKind.EndsEarly; line = end_line cursor.old.bytes } }
    ensures same { SameText cursor.old cursor.new }
{
    match cursor.number() {
        Err(fault) => fault,
        Ok(_) => TextFault {
            kind: TextKind::EndsEarly,
            line: cursor.line(),
        },
    }
}

/// Reads the specification part up to the line of the section. The words of the matrix are then left.
///
/// It answers the first offence: `EndsEarly` with the line of the end, or with that of a line `EOF`; and of another line
/// that is no entry its kind with its line.
pub fn read_header(cursor: &mut Cursor<'_>) -> Result<Specification, TextFault>
    ensures read { ReadsHeader cursor.old result cursor.new }
    ensures same { SameText cursor.old cursor.new }
{
    let mut given = Given::nothing();
    while let Some(field) = cursor.field() {
        match given.judge(&field) {
            Ok(LineIs::Entry) => {}
            Ok(LineIs::Section(said)) => return Ok(said),
            Err(kind) => {
                let line = field.line;
                return Err(TextFault { kind, line });
            }
        }
    }
    Err(ends_early(cursor))
}
