//! From a job that searches to its whole text: its files are read, their tree is searched, and the text is made.

ghost use Rattle.std.specs.Prelude.{◌≡◌, ◌≤◌, true, List, ℕ, IfSome, IfOk, IfErr, IsErrAnd, IsTrue, IsFalse, Some, None};
ghost use Rattle.yew_io.specs.Faults.{Rose};
ghost use Rattle.yew_kinds.specs.Kinds.{IsExact, gap_of};
ghost use Rattle.yew_laws.specs.Fold.{Fold};
ghost use Rattle.yew_laws.specs.SearchTree.{search_tree};
ghost use Rattle.yew_walk.specs.LogViews.{log_view};
ghost use Rattle.yew_app.specs.Asks.{IsSequential, IsOrdered, IsAskable};
ghost use Rattle.yew_app.specs.Meanings.{known_files, searched, IsJobText, AnswersFiles, StopsFiles};
ghost use Rattle.yew_app.specs.Reasons.{reason_of};
ghost use Rattle.yew_app.specs.Refusals.{CannotRead};
ghost use Rattle.yew_app.specs.Searches.{IsFound, IsAnswered};
ghost use Rattle.yew_app.specs.Stops.{search_reason};
ghost use Rattle.yew_app.specs.Texts.{StopsSearch};

use crate::asked::Asked;
use crate::crew::{Crew, search_together};
use crate::job::{ReadJob, SearchJob};
use crate::refusal::Refusal;
use crate::searcher::search_alone;
use crate::solution::solution_of;
use crate::tail::{Answered, text_with_audit, text_with_counts};
use std::alloc::Global;
use std::sync::Wait;
use std::thread::Threads;
use yew_io::{Gate, Shelf};
use yew_kinds::Tally;
use yew_laws::{Memory, Problem};
use yew_log::{Counts, Full, Recorder};
use yew_walk::{Found, SearchFault};

/// The whole text of a job that is searched in preorder, or why there is none.
pub(crate) fn solve_alone<'a, J: ReadJob<'a, S>, S: Shelf<'a>>(
    alloc: Global,
    shelf: &mut S,
    job: &J,
    asked: Asked,
) -> Result<Vec<u8>, Refusal<'a>>
    requires askable { IsAskable asked }
    requires done { IsSequential asked.skeleton }
    ensures answers { let m = J.meaning job.now in
        IfOk result (λ text. IfSome (known_files m.names (S.files shelf.old)) (λ told. AnswersFiles m asked told text.items)) }
    ensures cause { let m = J.meaning job.now in
        IfErr result (λ refusal. StopsFiles m asked (known_files m.names (S.files shelf.old)) (reason_of refusal)) }
    ensures read_fault { (name : List ℕ) → IsErrAnd result (λ refusal. reason_of refusal ≡ CannotRead name) →
        Rose (S.faults shelf.old) (S.faults shelf.new) × (S.failed shelf.new ≡ true) × (S.name shelf.new ≡ Some name) }
    ensures files { S.files shelf.new ≡ S.files shelf.old }
    ensures counted { S.faults shelf.old ≤ S.faults shelf.new }
{
    let problem = match job.read(alloc, shelf) {
        Ok(problem) => problem,
        Err(refusal) => return Err(refusal),
    };
    match text_alone(alloc, job, &problem, asked) {
        Ok(text) => Ok(text),
        Err(fault) => Err(stopped(fault)),
    }
}

/// The whole text of a job that is searched by a crew, or why there is none.
pub(crate) fn solve_together<
    'a,
    J: ReadJob<'a, S>,
    S: Shelf<'a>,
    G: Gate,
    H: Threads + Wait + Sync,
>(
    crew: &Crew<H, G>,
    alloc: Global,
    shelf: &mut S,
    job: &J,
    asked: Asked,
) -> Result<Vec<u8>, Refusal<'a>>
    requires askable { IsAskable asked }
    requires exact { IsOrdered asked.skeleton → IsExact (J.meaning job.now).kind }
    ensures answers { let m = J.meaning job.now in
        IfOk result (λ text. IfSome (known_files m.names (S.files shelf.old)) (λ told. AnswersFiles m asked told text.items)) }
    ensures cause { let m = J.meaning job.now in
        IfErr result (λ refusal. StopsFiles m asked (known_files m.names (S.files shelf.old)) (reason_of refusal)) }
    ensures read_fault { (name : List ℕ) → IsErrAnd result (λ refusal. reason_of refusal ≡ CannotRead name) →
        Rose (S.faults shelf.old) (S.faults shelf.new) × (S.failed shelf.new ≡ true) × (S.name shelf.new ≡ Some name) }
    ensures files { S.files shelf.new ≡ S.files shelf.old }
    ensures counted { S.faults shelf.old ≤ S.faults shelf.new }
{
    let problem = match job.read(alloc, shelf) {
        Ok(problem) => problem,
        Err(refusal) => return Err(refusal),
    };
    match text_together(crew, alloc, job, &problem, asked) {
        Ok(text) => Ok(text),
        Err(fault) => Err(stopped(fault)),
    }
}

/// Why a search gave nothing.
pub(crate) fn stopped<'a>(fault: SearchFault) -> Refusal<'a>
    ensures { reason_of result ≡ search_reason fault }
{
    match fault {
        SearchFault::AuditFull {
            worker,
            entries,
            numbers,
        } => Refusal::AuditFull {
            worker,
            entries,
            numbers,
        },
        SearchFault::TooManyTasks { number } => Refusal::TaskPastLimit { number },
        SearchFault::Memory => Refusal::Memory,
    }
}

/// The text of an instance that is searched in preorder, with what is asked for beside the answer.
///
/// There is none where memory runs out, or where the audit that is asked for has no room for its next entry.
pub(crate) fn text_alone<J: SearchJob>(
    alloc: Global,
    job: &J,
    problem: &J::Instance,
    asked: Asked,
) -> Result<Vec<u8>, SearchFault>
    requires root { J.Instance.sound problem.now (J.Instance.root problem.now) }
    requires fit { J.fit job.now problem.now }
    requires askable { IsAskable asked }
    requires done { IsSequential asked.skeleton }
    ensures text { IfOk result (λ text. IsJobText (J.meaning job.now) asked problem.now text.items) }
    ensures fault { IfErr result (StopsSearch (searched (J.meaning job.now) problem.now) (gap_of (J.meaning job.now).kind) asked) }
{
    let tally = job.tally();
    if asked.audit {
        match search_alone::<_, _, Full>(alloc, problem, job.kind(), &tally, asked) {
            Ok(found) => Ok(audited_text(alloc, job, problem, found, asked)?),
            Err(fault) => Err(fault),
        }
    } else {
        match search_alone::<_, _, Counts>(alloc, problem, job.kind(), &tally, asked) {
            Ok(found) => Ok(unaudited_text(alloc, job, problem, found, asked)?),
            Err(fault) => Err(fault),
        }
    }
}

/// The text of an instance that is searched by a crew, with what is asked for beside the answer.
///
/// There is none where memory runs out, where the audit that is asked for has no room for its next entry, or where tasks are
/// claimed in order and there are too many of them.
pub(crate) fn text_together<J: SearchJob, G: Gate, H: Threads + Wait + Sync>(
    crew: &Crew<H, G>,
    alloc: Global,
    job: &J,
    problem: &J::Instance,
    asked: Asked,
) -> Result<Vec<u8>, SearchFault>
    requires root { J.Instance.sound problem.now (J.Instance.root problem.now) }
    requires fit { J.fit job.now problem.now }
    requires askable { IsAskable asked }
    requires exact { IsOrdered asked.skeleton → IsExact (J.meaning job.now).kind }
    ensures text { IfOk result (λ text. IsJobText (J.meaning job.now) asked problem.now text.items) }
    ensures fault { IfErr result (StopsSearch (searched (J.meaning job.now) problem.now) (gap_of (J.meaning job.now).kind) asked) }
{
    let tally = job.tally();
    if asked.audit {
        match search_together::<_, _, Full, _, _>(crew, alloc, problem, job.kind(), &tally, asked) {
            Ok(found) => Ok(audited_text(alloc, job, problem, found, asked)?),
            Err(fault) => Err(fault),
        }
    } else {
        match search_together::<_, _, Counts, _, _>(
            crew,
            alloc,
            problem,
            job.kind(),
            &tally,
            asked,
        ) {
            Ok(found) => Ok(unaudited_text(alloc, job, problem, found, asked)?),
            Err(fault) => Err(fault),
        }
    }
}

/// The text with an audit, and with the report where it is asked for.
fn audited_text<J: SearchJob>(
    alloc: Global,
    job: &J,
    problem: &J::Instance,
    found: Found<<J::Tally as Tally<<J::Instance as Problem>::Node>>::Sum, Full>,
    asked: Asked,
) -> Result<Vec<u8>, Memory>
    requires root { J.Instance.sound problem.now (J.Instance.root problem.now) }
    requires fit { J.fit job.now problem.now }
    requires askable { IsAskable asked }
    requires audit { IsTrue asked.audit }
    requires found { let t = search_tree J.Instance.Problem problem.now in
        IsFound t (Fold t (J.Tally.join (J.counts job.now)) (J.Tally.none (J.counts job.now)) (J.Tally.of (J.counts job.now))) (J.meaning job.now).kind asked
        (λ log. log_view (Some log.notes) log.totals log.number) found }
    ensures { IfOk result (λ text. IsJobText (J.meaning job.now) asked problem.now text.items) }
{
    let answered = answer_of(alloc, job, problem, found, asked)?;
    text_with_audit(alloc, answered, asked)
}

/// The text without an audit, and with the report where it is asked for.
fn unaudited_text<J: SearchJob>(
    alloc: Global,
    job: &J,
    problem: &J::Instance,
    found: Found<<J::Tally as Tally<<J::Instance as Problem>::Node>>::Sum, Counts>,
    asked: Asked,
) -> Result<Vec<u8>, Memory>
    requires root { J.Instance.sound problem.now (J.Instance.root problem.now) }
    requires fit { J.fit job.now problem.now }
    requires askable { IsAskable asked }
    requires audit { IsFalse asked.audit }
    requires found { let t = search_tree J.Instance.Problem problem.now in
        IsFound t (Fold t (J.Tally.join (J.counts job.now)) (J.Tally.none (J.counts job.now)) (J.Tally.of (J.counts job.now))) (J.meaning job.now).kind asked
        (λ log. log_view None log.totals log.number) found }
    ensures { IfOk result (λ text. IsJobText (J.meaning job.now) asked problem.now text.items) }
{
    let answered = answer_of(alloc, job, problem, found, asked)?;
    text_with_counts(answered, asked)
}

/// The lines of what was found, with the logs of the search that found it. `Memory` comes only where memory runs out.
fn answer_of<J: SearchJob, R: Recorder>(
    alloc: Global,
    job: &J,
    problem: &J::Instance,
    found: Found<<J::Tally as Tally<<J::Instance as Problem>::Node>>::Sum, R>,
    asked: Asked,
) -> Result<Answered<R>, Memory>
    requires root { J.Instance.sound problem.now (J.Instance.root problem.now) }
    requires fit { J.fit job.now problem.now }
    requires found { let t = search_tree J.Instance.Problem problem.now in
        IsFound t (Fold t (J.Tally.join (J.counts job.now)) (J.Tally.none (J.counts job.now)) (J.Tally.of (J.counts job.now))) (J.meaning job.now).kind asked
        (λ log. log_view (R.told log) (R.totals log) (R.number log)) found }
    ensures { IfOk result (λ answered.
        IsAnswered (J.meaning job.now) asked problem.now (λ log. log_view (R.told log) (R.totals log) (R.number log)) answered.lines.items answered.logs.items) }
{
    let _ = asked;
    let Found { answer, logs } = found;
    let solution = solution_of(alloc, problem, answer)?;
    let lines = job.lines(alloc, problem, &solution)?;
    Ok(Answered { lines, logs })
}
