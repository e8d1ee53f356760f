//! The reader of audited texts.

ghost use Rattle.std.specs.Prelude.{◌≡◌, ◌≢◌, ℕ, ◌+◌, ◌≤◌, List, [], ◌∷◌, length, drop, map, IfOk, IfErr, MatchOption, MatchBool};
ghost use Rattle.yew_text.specs.declared.text.TextKind.{TextKind};
ghost use Rattle.yew_text.specs.Words.{end_line};
ghost use Rattle.yew_log.specs.Entries.{entry_notes};
ghost use Rattle.yew_log.specs.Notes.{Note};
ghost use Rattle.yew_check.specs.Audits.{worker_line, last_line, most_workers, HasNoAudit, IsAudit, HasOffence};
ghost use Rattle.yew_check.specs.Files.{EndsReading, AnswersAudit, AnswersOffence};
ghost use Rattle.yew_check.specs.Lines.{text_lines};
ghost use Rattle.yew_check.specs.Reading.{texts, IsHead, IsLog, AreLogs, IsFaultAt};

use crate::entries::entry_in;
use crate::file::AuditFile;
use crate::numbers::number_in;
use crate::pieces::{cut, is_same, pieces, without_end};
use std::alloc::Global;
use yew_laws::Memory;
use yew_log::Entry;
use yew_text::{FileEnd, TextFault, TextKind};

/// The most workers that an audit may have.
const MOST_WORKERS: u64 = 64;

/// The bytes before an audit, and how many lines they are.
#[derive(Drop)]
struct Head {
    bytes: Vec<u8>,
    lines: usize,
}

/// The head of a text of these lines: what stands before the first line `audit 1`, if there is such a line.
fn read_head(alloc: Global, lines: &[&[u8]]) -> Result<Option<Head>, Memory>
    ensures { IfOk result (λ found. MatchOption found (HasNoAudit (texts lines.now))
        (λ head. IsHead (texts lines.now) head.bytes.items head.lines)) }
{
    let mut bytes = Vec::new(alloc);
    for (place, text) in lines.iter().enumerate() {
        if is_same(text, b"audit 1") {
            return Ok(Some(Head {
                bytes,
                lines: place,
            }));
        }
        bytes.extend_from_slice(text)?;
        bytes.push(b'\n')?;
    }
    Ok(None)
}

/// The entries at the front of these lines, up to the first line that is no entry.
fn read_log(alloc: Global, lines: &[&[u8]]) -> Result<Vec<Entry>, Memory>
    ensures { IfOk result (λ log. IsLog (texts lines.now) (entry_notes log.items) (length log.items)) }
{
    let mut log = Vec::new(alloc);
    for text in lines {
        match entry_in(alloc, text)? {
            Some(entry) => log.push(entry)?,
            None => return Ok(log),
        }
    }
    Ok(log)
}

/// Whether this is the line of the worker of this number.
fn is_worker_line(text: &[u8], number: u64) -> bool
    requires { number ≤ most_workers }
    ensures { MatchBool result (text.now ≡ worker_line number) (text.now ≢ worker_line number) }
{
    let Some((word, digits)) = cut(text, b' ') else {
        return false;
    };
    if !is_same(word, b"worker") {
        return false;
    }
    match number_in(digits, MOST_WORKERS) {
        Some(found) => found == number,
        None => false,
    }
}

/// Logs, and how many lines they have.
#[derive(Drop)]
struct Logs {
    logs: Vec<Vec<Entry>>,
    lines: usize,
}

/// The logs of the workers from 1 on at the front of these lines.
fn read_logs(alloc: Global, lines: &[&[u8]]) -> Result<Logs, Memory>
    ensures { IfOk result (λ read. AreLogs (texts lines.now) (map (λ log. entry_notes log.items) read.logs.items) read.lines) }
{
    let mut logs = Vec::new(alloc);
    let mut read = 0;
    for number in 0..MOST_WORKERS {
        if read == lines.len() {
            return Ok(Logs { logs, lines: read });
        }
        if !is_worker_line(lines[read], number + 1) {
            return Ok(Logs { logs, lines: read });
        }
        let log = read_log(alloc, &lines[read + 1..])?;
        read += 1 + log.len();
        logs.push(log)?;
    }
    Ok(Logs { logs, lines: read })
}

/// The line of the end of a text: 1 and the line feeds of the text.
fn line_of_end(bytes: &[u8]) -> u64
    ensures { result ≡ end_line bytes.now }
{
    1 + bytes.iter().filter(|b| **b == b'\n').count() as u64
}

/// What is wrong with the lines of a text behind the first `read` ones, which should be the last line alone.
fn fault_at(lines: &[&[u8]], read: usize, end: u64) -> Option<TextFault>
    requires { read ≤ length lines.now }
    ensures { MatchOption result (drop read (texts lines.now) ≡ last_line ∷ [])
        (λ fault. IsFaultAt (drop read (texts lines.now)) read end fault) }
{
    if read == lines.len() {
        let kind = TextKind::EndsEarly;
        return Some(TextFault { kind, line: end });
    }
    if !is_same(lines[read], b"done") {
        let kind = TextKind::BadLine;
        let line = read as u64 + 1;
        return Some(TextFault { kind, line });
    }
    if read + 1 < lines.len() {
        let kind = TextKind::Surplus;
        let line = read as u64 + 2;
        return Some(TextFault { kind, line });
    }
    None
}

/// The head and the logs of a text of these lines, whose end is in line `end`.
fn read_lines(alloc: Global, lines: &[&[u8]], end: u64) -> Result<AuditFile, FileEnd>
    ensures audit { IfOk result (λ file. (bytes : List ℕ) → texts lines.now ≡ text_lines bytes → IsAudit bytes file.head file.logs) }
    ensures fault { IfErr result (λ fault. (bytes : List ℕ) → texts lines.now ≡ text_lines bytes → end ≡ end_line bytes → EndsReading bytes fault) }
{
    let head = match read_head(alloc, lines) {
        Ok(head) => head,
        Err(_) => return Err(FileEnd::Memory),
    };
    let Some(head) = head else {
        let kind = TextKind::EndsEarly;
        return Err(FileEnd::Refused(TextFault { kind, line: end }));
    };
    let first = head.lines + 1;
    let read = match read_logs(alloc, &lines[first..]) {
        Ok(read) => read,
        Err(_) => return Err(FileEnd::Memory),
    };
    if let Some(fault) = fault_at(lines, first + read.lines, end) {
        return Err(FileEnd::Refused(fault));
    }
    Ok(AuditFile::new(head.bytes, read.logs))
}

/// Reads an audited text: its head, the bytes before the first line `audit 1`, and the logs of its workers. Lines end with
/// a line feed, which may be missing at the end of the text.
///
/// # Errors
///
/// `Refused` with the first offence: `EndsEarly` with the line of the end, where there is no line `audit 1` or the text ends
/// before the line `done`; `Surplus` with the line behind the line `done`, where anything stands there; `BadLine` with
/// the first line that does not fit in its place. `Memory` where memory ran out. `TooLarge` is never answered.
pub fn read_audit(alloc: Global, bytes: &[u8]) -> Result<AuditFile, FileEnd>
    ensures audit { IfOk result (λ file. IsAudit bytes.now file.head file.logs) }
    ensures end { IfErr result (λ end. EndsReading bytes.now end) }

    // Both are answered wherever they hold, unless memory runs out.
    ensures each_audit { (head : List ℕ) (logs : List (List Note)) → IsAudit bytes.now head logs → AnswersAudit head logs result }
    ensures each_offence { (kind : TextKind) (line : ℕ) → HasOffence bytes.now kind line → AnswersOffence kind line result }
{
    let lines = match pieces(alloc, without_end(bytes), b'\n') {
        Ok(lines) => lines,
        Err(_) => return Err(FileEnd::Memory),
    };
    read_lines(alloc, &lines, line_of_end(bytes))
}
