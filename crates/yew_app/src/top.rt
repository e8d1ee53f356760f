//! The top call: from the words, the files and the sinks to the status.

ghost use Rattle.std.specs.Prelude.{◌≡◌, ◌≢◌, ◌≤◌, ◌⊎◌, true, List, ℕ, IfOk, IfErr, IsErrAnd, IsOk, IsTrue, Some};
ghost use Rattle.yew_io.specs.Faults.{Rose};
ghost use Rattle.yew_io.specs.Sink.{Appends, AppendsPrefix};
ghost use Rattle.yew_words.specs.Word.{texts};
ghost use Rattle.yew_app.specs.Asks.{IsSequential, IsAnySkeleton};
ghost use Rattle.yew_app.specs.Outcomes.{outside, WritesAnswer, IsRefused, SaysWords, SaysFiles, SaysAudit, SaysTasks, IsComplete};
ghost use Rattle.yew_app.specs.Reasons.{reason_of};
ghost use Rattle.yew_app.specs.Refusals.{Reason, CannotRead, NoMemory, IsFullOrMemory, IsPastOrFull, fault_line, status_of};
ghost use Rattle.yew_app.specs.Runs.{Answers, RefusesWords, RefusesFiles, FillsAudit, HasTooManyTasks, IsFine, IsCause};

use crate::crew::Crew;
use crate::laws::files_have_one_way;
use crate::plan::read_plan;
use crate::refusal::{Refusal, write_fault_line};
use crate::searcher::OneWorker;
use crate::solve::{solve_by_crew, solve_plain};
use std::alloc::Global;
use std::sync::Wait;
use std::thread::Threads;
use yew_io::{Failed, Gate, Shelf, Sink, write_whole};

/// The whole text that the words ask for of one worker, or why there is none.
fn plain_text<'a, S: Shelf<'a>>(
    alloc: Global,
    words: &'a [String],
    shelf: &mut S,
) -> Result<Vec<u8>, Refusal<'a>>
    ensures answers { IfOk result (λ text. Answers IsSequential (texts words.now) (S.files shelf.old) text.items) }
    ensures cause { IfErr result (λ refusal. IsCause IsSequential (texts words.now) (S.files shelf.old) (reason_of refusal)) }
    ensures read_fault { (name : List ℕ) → IsErrAnd result (λ refusal. reason_of refusal ≡ CannotRead name) →
        Rose (S.faults shelf.old) (S.faults shelf.new) × (S.failed shelf.new ≡ true) × (S.name shelf.new ≡ Some name) }
    ensures words_refused { (reason : Reason) → RefusesWords IsSequential (texts words.now) reason → IsErrAnd result (λ refusal. reason_of refusal ≡ reason) }
    ensures files_refused { ¬ Rose (S.faults shelf.old) (S.faults shelf.new) → (reason : Reason) → RefusesFiles IsSequential (texts words.now) (S.files shelf.old) reason →
        IsErrAnd result (λ refusal. (reason_of refusal ≡ reason) ⊎ (reason_of refusal ≡ NoMemory)) }
    ensures audit_full { ¬ Rose (S.faults shelf.old) (S.faults shelf.new) → FillsAudit IsSequential (texts words.now) (S.files shelf.old) →
        IsErrAnd result (λ refusal. IsFullOrMemory (reason_of refusal)) }
    ensures fine { ¬ Rose (S.faults shelf.old) (S.faults shelf.new) → IsFine IsSequential (texts words.now) (S.files shelf.old) →
        IsOk result ⊎ IsErrAnd result (λ refusal. reason_of refusal ≡ NoMemory) }
    ensures files { S.files shelf.new ≡ S.files shelf.old }
    ensures counted { S.faults shelf.old ≤ S.faults shelf.new }
{
    files_have_one_way();
    let plan = match read_plan(&OneWorker, words) {
        Ok(plan) => plan,
        Err(refusal) => return Err(refusal),
    };
    match solve_plain(alloc, shelf, &plan) {
        Ok(text) => Ok(text),
        Err(refusal) => Err(refusal),
    }
}

/// The whole text that the words ask for of a crew, or why there is none.
fn crew_text<'a, S: Shelf<'a>, G: Gate, H: Threads + Wait + Sync>(
    crew: &Crew<H, G>,
    alloc: Global,
    words: &'a [String],
    shelf: &mut S,
) -> Result<Vec<u8>, Refusal<'a>>
    ensures answers { IfOk result (λ text. Answers IsAnySkeleton (texts words.now) (S.files shelf.old) text.items) }
    ensures cause { IfErr result (λ refusal. IsCause IsAnySkeleton (texts words.now) (S.files shelf.old) (reason_of refusal)) }
    ensures read_fault { (name : List ℕ) → IsErrAnd result (λ refusal. reason_of refusal ≡ CannotRead name) →
        Rose (S.faults shelf.old) (S.faults shelf.new) × (S.failed shelf.new ≡ true) × (S.name shelf.new ≡ Some name) }
    ensures words_refused { (reason : Reason) → RefusesWords IsAnySkeleton (texts words.now) reason → IsErrAnd result (λ refusal. reason_of refusal ≡ reason) }
    ensures files_refused { ¬ Rose (S.faults shelf.old) (S.faults shelf.new) → (reason : Reason) → RefusesFiles IsAnySkeleton (texts words.now) (S.files shelf.old) reason →
        IsErrAnd result (λ refusal. (reason_of refusal ≡ reason) ⊎ (reason_of refusal ≡ NoMemory)) }
    ensures audit_full { ¬ Rose (S.faults shelf.old) (S.faults shelf.new) → FillsAudit IsAnySkeleton (texts words.now) (S.files shelf.old) →
        IsErrAnd result (λ refusal. IsFullOrMemory (reason_of refusal)) }
    ensures tasks { ¬ Rose (S.faults shelf.old) (S.faults shelf.new) → (many : HasTooManyTasks IsAnySkeleton (texts words.now) (S.files shelf.old)) →
        IsErrAnd result (λ refusal. IsPastOrFull (IsTrue many.plan.audit) (reason_of refusal)) }
    ensures fine { ¬ Rose (S.faults shelf.old) (S.faults shelf.new) → IsFine IsAnySkeleton (texts words.now) (S.files shelf.old) →
        IsOk result ⊎ IsErrAnd result (λ refusal. reason_of refusal ≡ NoMemory) }
    ensures files { S.files shelf.new ≡ S.files shelf.old }
    ensures counted { S.faults shelf.old ≤ S.faults shelf.new }
{
    files_have_one_way();
    let plan = match read_plan(crew, words) {
        Ok(plan) => plan,
        Err(refusal) => return Err(refusal),
    };
    match solve_by_crew(crew, alloc, shelf, &plan) {
        Ok(text) => Ok(text),
        Err(refusal) => Err(refusal),
    }
}

/// Ends a run that has no answer: writes the line of the refusal, as far as the sink takes it, and gives the status.
fn refuse<E: Sink>(sink: &mut E, refusal: Refusal) -> u8
    ensures status { result ≡ status_of (reason_of refusal.entry) }
    ensures prefix { AppendsPrefix (E.written sink.old) (fault_line (reason_of refusal.entry)) (E.written sink.new) }
    ensures whole { ¬ Rose (E.faults sink.old) (E.faults sink.new) → Appends (E.written sink.old) (fault_line (reason_of refusal.entry)) (E.written sink.new) }
{
    match write_fault_line(sink, refusal) {
        Ok(()) => refusal.status(),
        Err(Failed) => refusal.status(),
    }
}

/// Does what the words ask for, by as many workers as they say.
///
/// The status is 0 where the whole text was written to `out`: a right answer to what the words ask of the files, with the
/// report and the audit that they ask for, of the logs of all workers, or what they ask to be made, and nothing went to
/// `err`. Otherwise one line on `err` says why: 1, a word offends; 2, the shelf failed at a file of the plan; 3, a file is
/// not in its grammar; 4, a file or a number of it is past a limit, the audit of a worker has no room for its next entry, or
/// under `ordered` there are more than 2^20 tasks and nodes above them; 5, `out` failed, and has a prefix of the text; 6,
/// memory ran out, which may come at any point. `out` receives nothing under the statuses 1, 2, 3, 4 and 6, and a fault of
/// `err` changes nothing else.
///
/// Under `sequential` and `ordered` the solution is the first best node in preorder. So a plan for `ordered` that asks for
/// neither report nor audit writes the text of the plan that has `sequential` in its place, for every depth, every number of
/// workers and every schedule. With a gap, which is not for `ordered`, the value that is written is within the gap of the best
/// one; under `sequential` the solution is then the first node of the greatest worth that the one worker visits.
///
/// Each worker passes the gate at each task that it takes. No answer depends on it.
pub fn run<'a, H: Threads + Wait + Sync, S: Shelf<'a>, K: Sink, E: Sink, G: Gate>(
    rt: &H,
    alloc: Global,
    words: &'a [String],
    shelf: &mut S,
    out: &mut K,
    err: &mut E,
    gate: &G,
) -> u8
    ensures answered { result ≡ 0 → WritesAnswer IsAnySkeleton (texts words.now) (outside S.Shelf K.Sink E.Sink shelf.old out.old err.old) (outside S.Shelf K.Sink E.Sink shelf.new out.new err.new) }
    ensures refused { result ≢ 0 → IsRefused IsAnySkeleton (texts words.now) (outside S.Shelf K.Sink E.Sink shelf.old out.old err.old) (outside S.Shelf K.Sink E.Sink shelf.new out.new err.new) result }
    ensures words_refused { SaysWords IsAnySkeleton (texts words.now) (outside S.Shelf K.Sink E.Sink shelf.old out.old err.old) (outside S.Shelf K.Sink E.Sink shelf.new out.new err.new) result }
    ensures files_refused { SaysFiles IsAnySkeleton (texts words.now) (outside S.Shelf K.Sink E.Sink shelf.old out.old err.old) (outside S.Shelf K.Sink E.Sink shelf.new out.new err.new) result }
    ensures audit_full { SaysAudit IsAnySkeleton (texts words.now) (outside S.Shelf K.Sink E.Sink shelf.old out.old err.old) (outside S.Shelf K.Sink E.Sink shelf.new out.new err.new) result }
    ensures tasks { SaysTasks IsAnySkeleton (texts words.now) (outside S.Shelf K.Sink E.Sink shelf.old out.old err.old) (outside S.Shelf K.Sink E.Sink shelf.new out.new err.new) result }
    ensures complete { IsComplete IsAnySkeleton (texts words.now) (outside S.Shelf K.Sink E.Sink shelf.old out.old err.old) (outside S.Shelf K.Sink E.Sink shelf.new out.new err.new) result }
    ensures files { S.files shelf.new ≡ S.files shelf.old }
{
    match crew_text(&Crew { rt, gate }, alloc, words, shelf) {
        Ok(text) => match write_whole(out, &text) {
            Ok(()) => 0,
            Err(Failed) => refuse(err, Refusal::WriteFault),
        },
        Err(refusal) => refuse(err, refusal),
    }
}

/// Does what the words ask for, by one worker, and always returns.
///
/// The status is 0 where the whole text was written to `out`: a right answer to what the words ask of the files, with the
/// report and the audit that they ask for, or what they ask to be made, and nothing went to `err`. Otherwise one line on
/// `err` says why: 1, a word offends, or the plan has another skeleton than `sequential`; 2, the shelf failed at a file of
/// the plan; 3, a file is not in its grammar; 4, a file or a number of it is past a limit, or the audit has no room for
/// the search; 5, `out` failed, and has a prefix of the text; 6, memory ran out, which may come at any point. `out`
/// receives nothing under the statuses 1, 2, 3, 4 and 6, and a fault of `err` changes nothing else.
pub fn run_plain<'a, S: Shelf<'a>, K: Sink, E: Sink>(
    alloc: Global,
    words: &'a [String],
    shelf: &mut S,
    out: &mut K,
    err: &mut E,
) -> u8
    ensures answered { result ≡ 0 → WritesAnswer IsSequential (texts words.now) (outside S.Shelf K.Sink E.Sink shelf.old out.old err.old) (outside S.Shelf K.Sink E.Sink shelf.new out.new err.new) }
    ensures refused { result ≢ 0 → IsRefused IsSequential (texts words.now) (outside S.Shelf K.Sink E.Sink shelf.old out.old err.old) (outside S.Shelf K.Sink E.Sink shelf.new out.new err.new) result }
    ensures words_refused { SaysWords IsSequential (texts words.now) (outside S.Shelf K.Sink E.Sink shelf.old out.old err.old) (outside S.Shelf K.Sink E.Sink shelf.new out.new err.new) result }
    ensures files_refused { SaysFiles IsSequential (texts words.now) (outside S.Shelf K.Sink E.Sink shelf.old out.old err.old) (outside S.Shelf K.Sink E.Sink shelf.new out.new err.new) result }
    ensures audit_full { SaysAudit IsSequential (texts words.now) (outside S.Shelf K.Sink E.Sink shelf.old out.old err.old) (outside S.Shelf K.Sink E.Sink shelf.new out.new err.new) result }
    ensures complete { IsComplete IsSequential (texts words.now) (outside S.Shelf K.Sink E.Sink shelf.old out.old err.old) (outside S.Shelf K.Sink E.Sink shelf.new out.new err.new) result }
    ensures files { S.files shelf.new ≡ S.files shelf.old }
{
    match plain_text(alloc, words, shelf) {
        Ok(text) => match write_whole(out, &text) {
            Ok(()) => 0,
            Err(Failed) => refuse(err, Refusal::WriteFault),
        },
        Err(refusal) => refuse(err, refusal),
    }
}
