//! The text of an audit: the logs of all workers, one line an entry.

ghost use Rattle.std.specs.Prelude.{◌≡◌, ◌++◌, map, IfOk, OnOk, decimal};
ghost use Rattle.yew_lines.specs.Spelling.{line, spaced};
ghost use Rattle.yew_log.specs.AuditText.{step_text, path_text, note_line, worker_text, audit_text as text_of_logs};
ghost use Rattle.yew_log.specs.Entries.{entry_note};

use crate::entry::Entry;
use crate::full::Full;
use std::alloc::Global;
use yew_laws::{Memory, Path};
use yew_lines::{push_line_end, push_number, push_spaced, push_text};

/// The audit of the logs of workers 1, 2, 3 and so on: a line `audit 1`; for each worker a line `worker K` and a line
/// for each of its entries, in order; a line `done`. A path is written with `/` before each number, and that of the
/// root as `/`.
///
/// # Errors
///
/// `Memory` where memory ran out.
pub fn audit_text(alloc: Global, logs: &[Full]) -> Result<Vec<u8>, Memory>
    ensures { IfOk result (λ text. text.items ≡ text_of_logs (map (λ log. log.notes) logs.now)) }
{
    let mut out = Vec::new(alloc);
    push_text(&mut out, b"audit 1\n")?;
    for (place, log) in logs.iter().enumerate() {
        push_log(&mut out, place as u64 + 1, log)?;
    }
    push_text(&mut out, b"done\n")?;
    Ok(out)
}

/// Appends the lines of one worker's log.
fn push_log(out: &mut Vec<u8>, worker: u64, log: &Full) -> Result<(), Memory>
    ensures { OnOk result (out.new.items ≡ out.old.items ++ worker_text worker log.now.notes) }
{
    push_text(out, b"worker ")?;
    push_number(out, worker)?;
    push_line_end(out)?;
    for entry in log.entries() {
        push_entry(out, entry)?;
    }
    Ok(())
}

/// Appends the line of an entry.
fn push_entry(out: &mut Vec<u8>, entry: &Entry) -> Result<(), Memory>
    ensures { OnOk result (out.new.items ≡ out.old.items ++ note_line (entry_note entry.now)) }
{
    match entry {
        Entry::Taken(path) => push_path_line(out, b"take ", path),
        Entry::Visited(path, worth, held) => {
            push_values_line(out, b"visit ", path, *worth, *held)
        }
        Entry::Cut(path, bound, held) => push_values_line(out, b"cut ", path, *bound, *held),
        Entry::Spawned(path) => push_path_line(out, b"spawn ", path),
        Entry::Handed(path) => push_path_line(out, b"hand ", path),
        Entry::Ended(path) => push_path_line(out, b"end ", path),
    }
}

/// Appends a line of a word and a path.
fn push_path_line(out: &mut Vec<u8>, word: &[u8], path: &Path) -> Result<(), Memory>
    ensures { OnOk result (out.new.items ≡ out.old.items ++ line (word.now ++ path_text path.now.numbers)) }
{
    push_text(out, word)?;
    push_path(out, path)?;
    push_line_end(out)
}

/// Appends a line of a word, a path and two numbers.
fn push_values_line(
    out: &mut Vec<u8>,
    word: &[u8],
    path: &Path,
    first: u64,
    second: u64,
) -> Result<(), Memory>
    ensures { OnOk result (out.new.items ≡ out.old.items
        ++ line (word.now ++ path_text path.now.numbers ++ spaced first ++ spaced second)) }
{
    push_text(out, word)?;
    push_path(out, path)?;
    push_spaced(out, first)?;
    push_spaced(out, second)?;
    push_line_end(out)
}

/// Appends a path.
fn push_path(out: &mut Vec<u8>, path: &Path) -> Result<(), Memory>
    ensures { OnOk result (out.new.items ≡ out.old.items ++ path_text path.now.numbers) }
{
    let numbers = path.numbers();
    if numbers.is_empty() {
        return push_text(out, b"/");
    }
    for number in numbers {
        push_step(out, *number)?;
    }
    Ok(())
}

/// Appends a slash and a number.
fn push_step(out: &mut Vec<u8>, number: u32) -> Result<(), Memory>
    ensures { OnOk result (out.new.items ≡ out.old.items ++ step_text number) }
{
    push_text(out, b"/")?;
    push_number(out, u64::from(number))
}
