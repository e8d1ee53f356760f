//! The sequential search, of each kind.

ghost use Rattle.std.specs.Prelude.{◌≡◌, ◌≤◌, [], ◌∷◌, false, IsSome, IfOk, IfErr};
ghost use Rattle.yew_kinds.specs.Kinds.{IsKindInRange, gap_of};
ghost use Rattle.yew_kinds.specs.Wrappers.{counted_tree, clipped_tree};
ghost use Rattle.yew_laws.specs.Fold.{Fold};
ghost use Rattle.yew_laws.specs.SearchTree.{search_tree};
ghost use Rattle.yew_log.specs.HeldValues.{plain};
ghost use Rattle.yew_walk.specs.Answers.{IsCountAnswer, IsBestAnswer, IsNearAnswer, IsReachAnswer};
ghost use Rattle.yew_walk.specs.FirstFound.{found_worth, found_path};
ghost use Rattle.yew_walk.specs.Hands.{incumbent_of};
ghost use Rattle.yew_walk.specs.Keys.{IsKeying, kind_of, gap_in};
ghost use Rattle.yew_walk.specs.Kinds.{IsAnswer};
ghost use Rattle.yew_walk.specs.LogViews.{log_view};
ghost use Rattle.yew_walk.specs.PlainSearch.{searched_tree, NeverCuts, IsPlainLog, HasPlainLog, IsPlainFault};

use crate::fault::SearchFault;
use crate::hand::{Hand, empty_hand};
use crate::keying::Keying;
use crate::outlet::Outbox;
use crate::policy::Plain;
use crate::walking::walk;
use std::alloc::Global;
use yew_best::Best;
use yew_kinds::{Answer, Clipped, Counted, Kind, NoTally, Tally};
use yew_laws::{Memory, Path, Problem, Task};
use yew_log::Recorder;

/// The answer of a search, and the logs of its workers, the first one's first.
#[derive(Drop)]
pub struct Found<S, R> {
    pub answer: Answer<S>,
    pub logs: Vec<R>,
}

/// What one worker has found on its own, and its log.
#[derive(Drop)]
struct Alone<S, R> {
    hand: Hand<S>,
    log: R,
}

/// Searches the whole tree of a problem as one task, by plain keys with a gap or none.
fn search_alone<Q: Problem, T: Tally<Q::Node>, R: Recorder>(
    alloc: Global,
    problem: &Q,
    tally: &T,
    keying: Keying,
) -> Result<Alone<T::Sum, R>, SearchFault>
    requires root { Q.sound problem.now (Q.root problem.now) }
    requires keying { IsKeying keying × (kind_of keying ≡ plain) }
    ensures best { IfOk result (λ alone. let t = search_tree Q.Problem problem.now in
        incumbent_of alone.hand ≡ record { worth = found_worth t (gap_in keying); path = found_path t (gap_in keying) }) }
    ensures sum { IfOk result (λ alone. let t = search_tree Q.Problem problem.now in NeverCuts t → alone.hand.sum ≡ Fold t (T.join tally.now) (T.none tally.now) (T.of tally.now)) }
    ensures log { IfOk result (λ alone. IsPlainLog (search_tree Q.Problem problem.now) (gap_in keying) (log_view (R.told alone.log) (R.totals alone.log) (R.number alone.log))) }
    ensures fault { IfErr result (IsPlainFault (search_tree Q.Problem problem.now) (gap_in keying) ((log : R) × IsSome (R.told log))) }
{
    let (best, mut seat) = Best::new(alloc, 1)?;
    let mut hand = empty_hand(alloc, tally)?;
    let mut log = R::fresh(alloc, 1)?;
    let mut policy = Plain::new();
    let mut outlet = Outbox::new(alloc, problem);
    let root = Task {
        path: Path::empty(alloc, 0)?,
        node: problem.root(alloc)?,
    };
    match walk(
        alloc,
        problem,
        root,
        &best,
        &mut seat,
        keying,
        &mut policy,
        &mut outlet,
        tally,
        &mut hand,
        &mut log,
    ) {
        Ok(()) => Ok(Alone { hand, log }),
        Err(fault) => Err(fault),
    }
}

/// The one log of a search of one worker.
fn only_log<R: Recorder>(alloc: Global, log: R) -> Result<Vec<R>, Memory>
    ensures { IfOk result (λ logs. logs.items ≡ log ∷ []) }
{
    let mut logs = Vec::with_capacity(alloc, 1)?;
    logs.push(log)?;
    Ok(logs)
}

/// The fold of all nodes.
fn count<P: Problem, T: Tally<P::Node>, R: Recorder>(
    alloc: Global,
    problem: &P,
    tally: &T,
) -> Result<Found<T::Sum, R>, SearchFault>
    requires { P.sound problem.now (P.root problem.now) }
    ensures answer { IfOk result (λ found. IsCountAnswer (Fold (search_tree P.Problem problem.now) (T.join tally.now) (T.none tally.now) (T.of tally.now)) found.answer) }
    ensures logs { IfOk result (λ found. HasPlainLog (counted_tree (search_tree P.Problem problem.now)) 0 (λ log. log_view (R.told log) (R.totals log) (R.number log)) found.logs.items) }
    ensures fault { IfErr result (IsPlainFault (counted_tree (search_tree P.Problem problem.now)) 0 ((log : R) × IsSome (R.told log))) }
{
    let counted = Counted { inner: problem };
    match search_alone::<_, _, R>(alloc, &counted, tally, Keying::Plain) {
        Ok(Alone { hand, log }) => Ok(Found {
            answer: Answer::Count(hand.sum),
            logs: only_log(alloc, log)?,
        }),
        Err(fault) => Err(fault),
    }
}

/// The first best node.
fn best<P: Problem, S: Drop, R: Recorder>(
    alloc: Global,
    problem: &P,
) -> Result<Found<S, R>, SearchFault>
    requires { P.sound problem.now (P.root problem.now) }
    ensures answer { IfOk result (λ found. IsBestAnswer (search_tree P.Problem problem.now) found.answer) }
    ensures logs { IfOk result (λ found. HasPlainLog (search_tree P.Problem problem.now) 0 (λ log. log_view (R.told log) (R.totals log) (R.number log)) found.logs.items) }
    ensures fault { IfErr result (IsPlainFault (search_tree P.Problem problem.now) 0 ((log : R) × IsSome (R.told log))) }
{
    match search_alone::<_, _, R>(alloc, problem, &NoTally, Keying::Plain) {
        Ok(Alone { hand, log }) => {
            let worth = hand.best_key();
            let path = hand.into_path();
            Ok(Found {
                answer: Answer::Best { worth, path },
                logs: only_log(alloc, log)?,
            })
        }
        Err(fault) => Err(fault),
    }
}

/// The first of the best nodes that are visited, where a gap is permitted.
fn near<P: Problem, S: Drop, R: Recorder>(
    alloc: Global,
    problem: &P,
    gap: u64,
) -> Result<Found<S, R>, SearchFault>
    requires root { P.sound problem.now (P.root problem.now) }
    requires gap { gap ≤ 1099511627774 }
    ensures answer { IfOk result (λ found. IsNearAnswer (search_tree P.Problem problem.now) gap found.answer) }
    ensures logs { IfOk result (λ found. HasPlainLog (search_tree P.Problem problem.now) gap (λ log. log_view (R.told log) (R.totals log) (R.number log)) found.logs.items) }
    ensures fault { IfErr result (IsPlainFault (search_tree P.Problem problem.now) gap ((log : R) × IsSome (R.told log))) }
{
    match search_alone::<_, _, R>(alloc, problem, &NoTally, Keying::Gap(gap)) {
        Ok(Alone { hand, log }) => {
            let worth = hand.best_key();
            let path = hand.into_path();
            Ok(Found {
                answer: Answer::Best { worth, path },
                logs: only_log(alloc, log)?,
            })
        }
        Err(fault) => Err(fault),
    }
}

/// The first node that meets a target.
fn reach<P: Problem, S: Drop, R: Recorder>(
    alloc: Global,
    problem: &P,
    target: u64,
) -> Result<Found<S, R>, SearchFault>
    requires root { P.sound problem.now (P.root problem.now) }
    requires target { 1 ≤ target }
    ensures answer { IfOk result (λ found. IsReachAnswer (search_tree P.Problem problem.now) target found.answer) }
    ensures logs { IfOk result (λ found. HasPlainLog (clipped_tree (search_tree P.Problem problem.now) target) 0 (λ log. log_view (R.told log) (R.totals log) (R.number log)) found.logs.items) }
    ensures fault { IfErr result (IsPlainFault (clipped_tree (search_tree P.Problem problem.now) target) 0 ((log : R) × IsSome (R.told log))) }
{
    let clipped = Clipped {
        inner: problem,
        target,
    };
    match search_alone::<_, _, R>(alloc, &clipped, &NoTally, Keying::Plain) {
        Ok(Alone { hand, log }) => Ok(Found {
            answer: Answer::Reach(hand.into_path()),
            logs: only_log(alloc, log)?,
        }),
        Err(fault) => Err(fault),
    }
}

/// Searches the tree of a problem, one node after another (branch and bound in depth first order, the sequential skeleton
/// of Archibald, Maier, Stewart and Trinder, PPoPP 2020). It always returns.
///
/// A count answers the fold of all nodes by the tally, each at its depth. A search for a best node answers the greatest
/// worth, and the first path in preorder that has it; there is none exactly where that worth is 0. A decision answers the
/// first path in preorder whose node has at least the target as its worth; there is none exactly where no node has. A
/// target is from 1 to 2^40 - 1. A search that permits a gap cuts off each node whose bound is greater than the worth that
/// is held by no more than the gap, and answers the greatest worth that it visits, with the first path that has it: the
/// greatest worth of all nodes is at most that worth and the gap together, and is 0 where it is 0. A gap is from 0 to 2^40 - 2.
///
/// Its one log is that of worker 1, and its entries and totals are those of the one sequential log.
///
/// # Errors
///
/// `Memory` where memory ran out, and `AuditFull` exactly where that log meets the limits of a log that tells its entries.
/// `TooManyTasks` never comes.
pub fn search_plain<P: Problem, T: Tally<P::Node>, R: Recorder>(
    alloc: Global,
    problem: &P,
    kind: Kind,
    tally: &T,
) -> Result<Found<T::Sum, R>, SearchFault>
    requires root { P.sound problem.now (P.root problem.now) }
    requires range { IsKindInRange kind }
    ensures answer { IfOk result (λ found. let t = search_tree P.Problem problem.now in
        IsAnswer t (Fold t (T.join tally.now) (T.none tally.now) (T.of tally.now)) kind found.answer) }
    ensures logs { IfOk result (λ found. HasPlainLog (searched_tree (search_tree P.Problem problem.now) kind) (gap_of kind) (λ log. log_view (R.told log) (R.totals log) (R.number log)) found.logs.items) }
    ensures fault { IfErr result (IsPlainFault (searched_tree (search_tree P.Problem problem.now) kind) (gap_of kind) ((log : R) × IsSome (R.told log))) }
{
    match kind {
        Kind::Count => count(alloc, problem, tally),
        Kind::Best => best(alloc, problem),
        Kind::Reach(target) => reach(alloc, problem, target),
        Kind::Near(gap) => near(alloc, problem, gap),
    }
}
