//! The reader of TSPLIB 95 files with explicit weights (G. Reinelt, TSPLIB 95, 1995).
//!
//! The specification part is read line by line. The numbers of the matrix follow the line of the section; line breaks
//! among them have no meaning. The words `EOF` and `DISPLAY_DATA_SECTION`, with or without a colon, end the matrix, and
//! what follows them is not read.

ghost use Rattle.std.specs.Prelude.{◌≡◌, ◌≤◌, ◌∷◌, [], IfOk, IfErr, MatchResult};
ghost use Rattle.std.specs.Option.{option_map};
ghost use Rattle.yew_text.specs.Position.{SameText};
ghost use Rattle.yew_tsp.specs.Files.{IsTourFile, HasNonePast, EndsReading};
ghost use Rattle.yew_tsp.specs.Instance.{IsWithinLimits};
ghost use Rattle.yew_tsp.specs.Matrices.{ends_matrix};
ghost use Rattle.yew_tsp.specs.Nodes.{root_of, IsNode};
ghost use Rattle.yew_text.specs.Grammar.{first_past};
ghost use Rattle.yew_tsp.specs.Reading.{limited, TakesMatrixNumber, EndsMatrix, KeepsNumber, NumbersRead, EndsNumbers};

use crate::header::{Specification, read_header};
use crate::matrix::weights;
use crate::tours::{MOST_WEIGHT, Tours};
use std::alloc::Global;
use yew_laws::Memory;
use yew_text::{Cursor, FileEnd, TextFault, TextKind};

/// The greatest number of cities.
const MOST_CITIES: u64 = 60;

/// The words that end the matrix.
const END: &[u8] = b"EOF";

const END_WITH_COLON: &[u8] = b"EOF:";

const DISPLAY: &[u8] = b"DISPLAY_DATA_SECTION";

const DISPLAY_WITH_COLON: &[u8] = b"DISPLAY_DATA_SECTION:";

/// A number past its limit.
#[derive(Clone, Copy, Debug)]
struct Past {
    number: u64,
    limit: u64,
}

/// Whether a word ends the matrix.
fn is_ending(word: &[u8]) -> bool
    ensures { result ≡ ends_matrix word.now }
{
    END == word || END_WITH_COLON == word || DISPLAY == word || DISPLAY_WITH_COLON == word
}

/// Reads the next number of the matrix. Where a word that ends the matrix stands in its place, the file ends too early.
fn matrix_number(cursor: &mut Cursor<'_>) -> Result<u64, TextFault>
    ensures taken { TakesMatrixNumber cursor.old result cursor.new }
    ensures same { SameText cursor.old cursor.new }
{
    let fault = match cursor.number() {
        Ok(number) => return Ok(number),
        Err(fault) => fault,
    };
    match cursor.word() {
        Some(word) if is_ending(word.text) => Err(TextFault {
            kind: TextKind::EndsEarly,
            line: word.line,
        }),
        _ => Err(fault),
    }
}

/// Asks that the matrix ends: no word is left, or one that ends the matrix.
fn matrix_end(cursor: &mut Cursor<'_>) -> Result<(), TextFault>
    ensures { EndsMatrix cursor.old result }
{
    match cursor.word() {
        Some(word) if !is_ending(word.text) => Err(TextFault {
            kind: TextKind::Surplus,
            line: word.line,
        }),
        _ => Ok(()),
    }
}

/// Keeps a number of the matrix, while no number of the file is past its limit, and gives the first number that is.
fn keep_number(
    numbers: &mut Vec<u32>,
    past: Option<Past>,
    number: u64,
) -> Result<Option<Past>, Memory>
    ensures { IfOk result (λ after. KeepsNumber numbers.old.items past number numbers.new.items after) }
{
    if past.is_some() {
        return Ok(past);
    }
    if number > MOST_WEIGHT as u64 {
        return Ok(Some(Past {
            number,
            limit: MOST_WEIGHT as u64,
        }));
    }
    numbers.push(number as u32)?;
    Ok(None)
}

/// The numbers of a matrix, kept while no number is past its limit, and the first number that is.
#[derive(Drop)]
struct ReadNumbers {
    numbers: Vec<u32>,
    past: Option<Past>,
}

/// The number of cities, where it is past its limit.
fn past_cities(cities: u64) -> Option<Past>
    ensures { option_map limited result ≡ first_past (record { number = cities; limit = 60 } ∷ []) }
{
    if cities > MOST_CITIES {
        return Some(Past {
            number: cities,
            limit: MOST_CITIES,
        });
    }
    None
}

/// Reads the numbers of the matrix.
fn read_numbers(
    alloc: Global,
    cursor: &mut Cursor<'_>,
    said: Specification,
) -> Result<ReadNumbers, FileEnd>
    requires { 1 ≤ said.cities }
    ensures read { MatchResult result (λ r. NumbersRead cursor.old said r.numbers.items r.past cursor.new) (λ end. EndsNumbers cursor.old said end) }
    ensures same { SameText cursor.old cursor.new }
{
    let mut numbers = Vec::new(alloc);
    let mut past = past_cities(said.cities);
    for _k in 0..said.format.count(said.cities) {
        let number = match matrix_number(cursor) {
            Ok(number) => number,
            Err(fault) => return Err(FileEnd::Refused(fault)),
        };
        past = match keep_number(&mut numbers, past, number) {
            Ok(past) => past,
            Err(_) => return Err(FileEnd::Memory),
        };
    }
    Ok(ReadNumbers { numbers, past })
}

/// The problem of a TSPLIB 95 file.
///
/// # Errors
///
/// `Refused` with the first offence of a file that is not in its grammar, and of one that is, `TooLarge` with
/// the first number past its limit: 60 cities, and 2^31 - 1 for each number of the matrix, those of the diagonal
/// included, which have no other meaning. `Memory` where memory ran out.
pub fn read(alloc: Global, bytes: &[u8]) -> Result<Tours, FileEnd>
    ensures file { IfOk result (λ problem. IsTourFile bytes.now problem) }
    ensures none_past { IfOk result (λ problem. HasNonePast bytes.now) }
    ensures limits { IfOk result (λ problem. IsWithinLimits problem) }
    ensures root { IfOk result (λ problem. IsNode problem (root_of problem)) }
    ensures end { IfErr result (λ end. EndsReading bytes.now end) }
{
    let mut cursor = Cursor::new(bytes);
    let said = match read_header(&mut cursor) {
        Ok(said) => said,
        Err(fault) => return Err(FileEnd::Refused(fault)),
    };
    let ReadNumbers { numbers, past } = match read_numbers(alloc, &mut cursor, said) {
        Ok(read) => read,
        Err(end) => return Err(end),
    };
    match matrix_end(&mut cursor) {
        Ok(()) => {}
        Err(fault) => return Err(FileEnd::Refused(fault)),
    }
    if let Some(past) = past {
        return Err(FileEnd::TooLarge {
            number: past.number,
            limit: past.limit,
        });
    }
    let cities = said.cities as usize;
    let weights = match weights(alloc, said.format, cities, &numbers) {
        Ok(weights) => weights,
        Err(_) => return Err(FileEnd::Memory),
    };
    match Tours::new(cities, weights) {
        Ok(problem) => Ok(problem),
        Err(_) => Err(FileEnd::Memory),
    }
}
