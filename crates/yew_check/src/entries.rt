//! The line of an entry.

ghost use Rattle.std.specs.Prelude.{◌≡◌, ◌≢◌, ℕ, ◌≤◌, Bool, List, map, decimal, IfOk, MatchOption};
ghost use Rattle.std.specs.List.{slice_split};
ghost use Rattle.yew_log.specs.declared.entry.What.{What};
ghost use Rattle.yew_log.specs.AuditText.{path_text};
ghost use Rattle.yew_log.specs.Entries.{entry_note};
ghost use Rattle.yew_log.specs.Notes.{Note};
ghost use Rattle.yew_log.specs.Recording.{note_of};
ghost use Rattle.yew_check.specs.Entries.{is_slash, IsPathWithin, IsPlaceWithin, IsWithin, greatest_value, kind_word, has_values, values_text, place_text, entry_text, note_text};

use crate::numbers::{GREATEST_VALUE, number_in};
use crate::pieces::{cut, pieces};
use std::alloc::Global;
use yew_laws::{Memory, Path};
use yew_log::{Entry, What};

/// The greatest number of a path, 2^32 - 2.
const GREATEST_STEP: u64 = 4_294_967_294;

/// The kind of entry that a word is, if it is one.
fn what_in(word: &[u8]) -> Option<What>
    ensures { MatchOption result ((what : What) → word.now ≢ kind_word what) (λ what. word.now ≡ kind_word what) }
{
    if word == b"take".as_slice() {
        return Some(What::Taken);
    }
    if word == b"visit".as_slice() {
        return Some(What::Visited);
    }
    if word == b"cut".as_slice() {
        return Some(What::Cut);
    }
    if word == b"spawn".as_slice() {
        return Some(What::Spawned);
    }
    if word == b"hand".as_slice() {
        return Some(What::Handed);
    }
    if word == b"end".as_slice() {
        return Some(What::Ended);
    }
    None
}

/// Whether an entry of this kind has two numbers.
fn has_values(what: What) -> bool
    ensures { result ≡ has_values what }
{
    match what {
        What::Visited | What::Cut => true,
        What::Taken | What::Spawned | What::Handed | What::Ended => false,
    }
}

/// The path of these numbers, which have a slash between them, if each part is a number that a path may have.
fn steps_in(alloc: Global, steps: &[u8]) -> Result<Option<Path>, Memory>
    ensures { IfOk result (λ found. MatchOption found
        ((path : List ℕ) → IsPathWithin path → slice_split is_slash steps.now ≢ map decimal path)
        (λ path. (slice_split is_slash steps.now ≡ map decimal path.numbers) × IsPathWithin path.numbers)) }
{
    let parts = pieces(alloc, steps, b'/')?;
    let mut path = Path::empty(alloc, 0)?;
    for step in &parts {
        match number_in(step, GREATEST_STEP) {
            Some(number) => {
                path.make_room()?;
                path.push(number as u32);
            }
            None => return Ok(None),
        }
    }
    Ok(Some(path))
}

/// The path that a text is, if it is one: `/`, or a slash before each number.
fn path_in(alloc: Global, text: &[u8]) -> Result<Option<Path>, Memory>
    ensures { IfOk result (λ found. MatchOption found
        ((path : List ℕ) → IsPathWithin path → text.now ≢ path_text path)
        (λ path. (text.now ≡ path_text path.numbers) × IsPathWithin path.numbers)) }
{
    let Some((first, steps)) = text.split_first() else {
        return Ok(None);
    };
    if *first != b'/' {
        return Ok(None);
    }
    if steps.is_empty() {
        return Ok(Some(Path::empty(alloc, 0)?));
    }
    match steps_in(alloc, steps)? {
        Some(path) => Ok(Some(path)),
        None => Ok(None),
    }
}

/// What a line has behind the word of its kind: a path, and two numbers, which are 0 where none are due.
#[derive(Drop)]
struct Place {
    path: Path,
    first: u64,
    second: u64,
}

/// The two numbers that a text is, with a space between them, if it is that.
fn values_in(text: &[u8]) -> Option<(u64, u64)>
    ensures { MatchOption result
        ((first second : ℕ) → first ≤ greatest_value → second ≤ greatest_value → text.now ≢ values_text first second)
        (λ p. (text.now ≡ values_text p.0 p.1) × (p.0 ≤ greatest_value) × (p.1 ≤ greatest_value)) }
{
    let Some((first, second)) = cut(text, b' ') else {
        return None;
    };
    let Some(first) = number_in(first, GREATEST_VALUE) else {
        return None;
    };
    let Some(second) = number_in(second, GREATEST_VALUE) else {
        return None;
    };
    Some((first, second))
}

/// What a line has behind the word of its kind, if the text is that.
fn place_in(alloc: Global, values: bool, text: &[u8]) -> Result<Option<Place>, Memory>
    ensures { IfOk result (λ found. MatchOption found
        ((path : List ℕ) (first second : ℕ) → IsPlaceWithin values path first second → text.now ≢ place_text values path first second)
        (λ p. (text.now ≡ place_text values p.path.numbers p.first p.second) × IsPlaceWithin values p.path.numbers p.first p.second)) }
{
    if !values {
        return match path_in(alloc, text)? {
            Some(path) => Ok(Some(Place {
                path,
                first: 0,
                second: 0,
            })),
            None => Ok(None),
        };
    }
    let Some((path, rest)) = cut(text, b' ') else {
        return Ok(None);
    };
    let Some((first, second)) = values_in(rest) else {
        return Ok(None);
    };
    match path_in(alloc, path)? {
        Some(path) => Ok(Some(Place {
            path,
            first,
            second,
        })),
        None => Ok(None),
    }
}

/// The entry of this kind. Only a visit and a cut keep the two numbers.
fn entry_of(what: What, place: Place) -> Entry
    ensures { entry_note result ≡ note_of what place.path.numbers place.first place.second }
{
    match what {
        What::Taken => Entry::Taken(place.path),
        What::Visited => Entry::Visited(place.path, place.first, place.second),
        What::Cut => Entry::Cut(place.path, place.first, place.second),
        What::Spawned => Entry::Spawned(place.path),
        What::Handed => Entry::Handed(place.path),
        What::Ended => Entry::Ended(place.path),
    }
}

/// The entry whose line this is, if it is one.
pub fn entry_in(alloc: Global, text: &[u8]) -> Result<Option<Entry>, Memory>
    ensures { IfOk result (λ found. MatchOption found
        ((note : Note) → IsWithin note → text.now ≢ note_text note)
        (λ entry. (text.now ≡ note_text (entry_note entry)) × IsWithin (entry_note entry))) }
{
    let Some((word, rest)) = cut(text, b' ') else {
        return Ok(None);
    };
    let Some(what) = what_in(word) else {
        return Ok(None);
    };
    match place_in(alloc, has_values(what), rest)? {
        Some(place) => Ok(Some(entry_of(what, place))),
        None => Ok(None),
    }
}
