//! What stands behind an answer: the report and the audit of the search, each where it is asked for.

ghost use Rattle.std.specs.Prelude.{◌≡◌, ◌++◌, [], map, IfOk, OnOk, if◌then◌else◌};
ghost use Rattle.yew_lines.specs.Spelling.{line, count_text};
ghost use Rattle.yew_log.specs.AuditText.{report_text, audit_text as text_of_logs};
ghost use Rattle.yew_log.specs.Totals.{totals_sum};
ghost use Rattle.yew_app.specs.Searches.{joint_totals};

use crate::asked::Asked;
use std::alloc::Global;
use yew_laws::Memory;
use yew_lines::{push_count, push_line_end, push_spaced, push_text};
use yew_log::{Counts, Full, Recorder, Totals, audit_text};

/// The lines of an answer, and the logs of the search that found it.
#[derive(Drop)]
pub(crate) struct Answered<R> {
    pub lines: Vec<u8>,
    pub logs: Vec<R>,
}

/// Appends a line of a word and a count.
pub(crate) fn push_count_line(out: &mut Vec<u8>, word: &[u8], count: u64) -> Result<(), Memory>
    ensures { OnOk result (out.new.items ≡ out.old.items ++ line (word.now ++ count_text count)) }
{
    push_text(out, word)?;
    push_count(out, count)?;
    push_line_end(out)
}

/// Appends the report of this number of workers, whose logs have these totals together.
pub(crate) fn push_report(out: &mut Vec<u8>, workers: u32, totals: &Totals) -> Result<(), Memory>
    ensures { OnOk result (out.new.items ≡ out.old.items ++ report_text workers totals.now) }
{
    push_text(out, b"workers")?;
    push_spaced(out, workers as u64)?;
    push_line_end(out)?;
    push_count_line(out, b"taken ", totals.taken)?;
    push_count_line(out, b"spawned ", totals.spawned)?;
    push_count_line(out, b"handed ", totals.handed)?;
    push_count_line(out, b"visited ", totals.visited)?;
    push_count_line(out, b"cut ", totals.cut)
}

/// The totals of both, each of which stays at 2^64 - 1.
fn sum_of(first: &Totals, second: &Totals) -> Totals
    ensures { result ≡ totals_sum first.now second.now }
{
    Totals {
        taken: first.taken.saturating_add(second.taken),
        spawned: first.spawned.saturating_add(second.spawned),
        handed: first.handed.saturating_add(second.handed),
        visited: first.visited.saturating_add(second.visited),
        cut: first.cut.saturating_add(second.cut),
    }
}

/// The totals of all logs together.
fn totals_together<R: Recorder>(logs: &[R]) -> Totals
    ensures { result ≡ joint_totals (map (λ log. R.totals log) logs.now) }
{
    let mut together = Totals {
        taken: 0,
        spawned: 0,
        handed: 0,
        visited: 0,
        cut: 0,
    };
    for log in logs {
        together = sum_of(&together, &log.totals());
    }
    together
}

/// Appends the report of these logs, one of each worker, where it is asked for.
fn push_asked_report<R: Recorder>(out: &mut Vec<u8>, asked: Asked, logs: &[R]) -> Result<(), Memory>
    ensures { OnOk result (out.new.items ≡ out.old.items
        ++ (if asked.report then report_text asked.workers (joint_totals (map (λ log. R.totals log) logs.now)) else [])) }
{
    if asked.report {
        push_report(out, asked.workers, &totals_together(logs))?;
    }
    Ok(())
}

/// The whole text of an answer without an audit: its lines, and the report of its logs where it is asked for.
pub(crate) fn text_with_counts(answered: Answered<Counts>, asked: Asked) -> Result<Vec<u8>, Memory>
    ensures { IfOk result (λ text. text.items ≡ answered.lines.items
        ++ (if asked.report then report_text asked.workers (joint_totals (map (λ log. log.totals) answered.logs.items)) else [])) }
{
    let Answered { lines, logs } = answered;
    let mut text = lines;
    push_asked_report(&mut text, asked, &logs)?;
    Ok(text)
}

/// The whole text of an answer with an audit: its lines, the report of its logs where it is asked for, and their audit.
pub(crate) fn text_with_audit(
    alloc: Global,
    answered: Answered<Full>,
    asked: Asked,
) -> Result<Vec<u8>, Memory>
    ensures { IfOk result (λ text. text.items ≡ answered.lines.items
        ++ ((if asked.report then report_text asked.workers (joint_totals (map (λ log. log.totals) answered.logs.items)) else [])
        ++ text_of_logs (map (λ log. log.notes) answered.logs.items))) }
{
    let Answered { lines, logs } = answered;
    let mut text = lines;
    push_asked_report(&mut text, asked, &logs)?;
    let audit = audit_text(alloc, &logs)?;
    push_text(&mut text, &audit)?;
    Ok(text)
}
