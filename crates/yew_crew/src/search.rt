//! The search of a tree by a crew, of each kind.
ghost use Rattle.std.specs.Prelude.{◌≡◌, ◌≤◌, map, IsSome, IfOk, IfErr};
ghost use Rattle.yew_crew.specs.CrewSearch.{solution_of, IsCrewAnswer, HasCrewLogs, IsCrewFault};
ghost use Rattle.yew_crew.specs.Ending.{IsFound};
ghost use Rattle.yew_crew.specs.Stations.{searched, skeleton_of, IsCoord};
ghost use Rattle.yew_kinds.specs.Kinds.{IsKindInRange, gap_of};
ghost use Rattle.yew_kinds.specs.Wrappers.{counted_tree, clipped_tree};
ghost use Rattle.yew_kinds.specs.declared.kind.Kind.TheVariants as kind;
ghost use Rattle.yew_laws.specs.Fold.{Fold};
ghost use Rattle.yew_laws.specs.SearchTree.{search_tree};
ghost use Rattle.yew_walk.specs.LogViews.{log_view};
ghost use Rattle.yew_walk.specs.PlainSearch.{searched_tree};

use crate::coord::Coord;
use crate::ending::{Ended, end_crew};
use crate::starting::run_crew;
use std::alloc::Global;
use std::sync::Wait;
use std::thread::Threads;
use yew_io::Gate;
use yew_kinds::laws::clipped_members;
use yew_kinds::{Answer, Clipped, Counted, Kind, NoTally, Tally};
use yew_laws::Problem;
use yew_log::Recorder;
use yew_walk::{Found, SearchFault};

/// Searches the whole tree of a problem with a crew, which permits this gap.
fn search_together<Q: Problem, T: Tally<Q::Node>, R: Recorder, G: Gate, H: Threads + Wait + Sync>(
    rt: &H,
    alloc: Global,
    problem: &Q,
    tally: &T,
    gap: u64,
    coord: Coord,
    workers: u32,
    gate: &G,
) -> Result<Ended<T::Sum, R>, SearchFault>
    requires root { Q.sound problem.now (Q.root problem.now) }
    requires workers { (1 ≤ workers) × (workers ≤ 64) }
    requires coord { IsCoord coord }
    requires gap { gap ≤ 1099511627774 }
    ensures found { IfOk result (λ ended. IsFound (searched (search_tree Q.Problem problem.now) (T.join tally.now) (T.none tally.now) (T.of tally.now)
        (λ log. log_view (R.told log) (R.totals log) (R.number log)) coord gap) workers ended.hand ended.logs.items) }
    ensures fault { IfErr result (IsCrewFault (search_tree Q.Problem problem.now) gap (skeleton_of coord) workers ((log : R) × IsSome (R.told log))) }
{
    let worked = run_crew(rt, alloc, problem, tally, gap, coord, workers, gate)?;
    end_crew(alloc, problem, tally, coord, workers, worked)
}

/// The fold of all nodes.
fn count<P: Problem, T: Tally<P::Node>, R: Recorder, G: Gate, H: Threads + Wait + Sync>(
    rt: &H,
    alloc: Global,
    problem: &P,
    tally: &T,
    coord: Coord,
    workers: u32,
    gate: &G,
) -> Result<Found<T::Sum, R>, SearchFault>
    requires root { P.sound problem.now (P.root problem.now) }
    requires workers { (1 ≤ workers) × (workers ≤ 64) }
    requires coord { IsCoord coord }
    ensures answer { IfOk result (λ found. let t = search_tree P.Problem problem.now in
        IsCrewAnswer t (Fold t (T.join tally.now) (T.none tally.now) (T.of tally.now)) kind.Count found.answer) }
    ensures logs { IfOk result (λ found. let t = search_tree P.Problem problem.now in
        HasCrewLogs (counted_tree t) 0 (skeleton_of coord) workers (map (λ log. log_view (R.told log) (R.totals log) (R.number log)) found.logs.items) (solution_of t found.answer)) }
    ensures fault { IfErr result (IsCrewFault (counted_tree (search_tree P.Problem problem.now)) 0 (skeleton_of coord) workers ((log : R) × IsSome (R.told log))) }
{
    let counted = Counted { inner: problem };
    match search_together::<_, _, R, _, _>(rt, alloc, &counted, tally, 0, coord, workers, gate) {
        Ok(Ended { hand, logs }) => Ok(Found {
            answer: Answer::Count(hand.sum),
            logs,
        }),
        Err(fault) => Err(fault),
    }
}

/// A best node.
fn best<P: Problem, S: Drop, R: Recorder, G: Gate, H: Threads + Wait + Sync>(
    rt: &H,
    alloc: Global,
    problem: &P,
    coord: Coord,
    workers: u32,
    gate: &G,
) -> Result<Found<S, R>, SearchFault>
    requires root { P.sound problem.now (P.root problem.now) }
    requires workers { (1 ≤ workers) × (workers ≤ 64) }
    requires coord { IsCoord coord }
    ensures answer { (fold : S) → IfOk result (λ found. IsCrewAnswer (search_tree P.Problem problem.now) fold kind.Best found.answer) }
    ensures logs { IfOk result (λ found. let t = search_tree P.Problem problem.now in
        HasCrewLogs t 0 (skeleton_of coord) workers (map (λ log. log_view (R.told log) (R.totals log) (R.number log)) found.logs.items) (solution_of t found.answer)) }
    ensures fault { IfErr result (IsCrewFault (search_tree P.Problem problem.now) 0 (skeleton_of coord) workers ((log : R) × IsSome (R.told log))) }
{
    match search_together::<_, _, R, _, _>(rt, alloc, problem, &NoTally, 0, coord, workers, gate) {
        Ok(Ended { hand, logs }) => {
            let worth = hand.best_key();
            let path = hand.into_path();
            Ok(Found {
                answer: Answer::Best { worth, path },
                logs,
            })
        }
        Err(fault) => Err(fault),
    }
}

/// A node whose worth is within a gap of the best.
fn near<P: Problem, S: Drop, R: Recorder, G: Gate, H: Threads + Wait + Sync>(
    rt: &H,
    alloc: Global,
    problem: &P,
    gap: u64,
    coord: Coord,
    workers: u32,
    gate: &G,
) -> Result<Found<S, R>, SearchFault>
    requires root { P.sound problem.now (P.root problem.now) }
    requires gap { gap ≤ 1099511627774 }
    requires workers { (1 ≤ workers) × (workers ≤ 64) }
    requires coord { IsCoord coord }
    ensures answer { (fold : S) → IfOk result (λ found. IsCrewAnswer (search_tree P.Problem problem.now) fold (kind.Near gap) found.answer) }
    ensures logs { IfOk result (λ found. let t = search_tree P.Problem problem.now in
        HasCrewLogs t gap (skeleton_of coord) workers (map (λ log. log_view (R.told log) (R.totals log) (R.number log)) found.logs.items) (solution_of t found.answer)) }
    ensures fault { IfErr result (IsCrewFault (search_tree P.Problem problem.now) gap (skeleton_of coord) workers ((log : R) × IsSome (R.told log))) }
{
    match search_together::<_, _, R, _, _>(
        rt, alloc, problem, &NoTally, gap, coord, workers, gate,
    ) {
        Ok(Ended { hand, logs }) => {
            let worth = hand.best_key();
            let path = hand.into_path();
            Ok(Found {
                answer: Answer::Best { worth, path },
                logs,
            })
        }
        Err(fault) => Err(fault),
    }
}

/// A node that meets a target.
fn reach<P: Problem, S: Drop, R: Recorder, G: Gate, H: Threads + Wait + Sync>(
    rt: &H,
    alloc: Global,
    problem: &P,
    target: u64,
    coord: Coord,
    workers: u32,
    gate: &G,
) -> Result<Found<S, R>, SearchFault>
    requires root { P.sound problem.now (P.root problem.now) }
    requires target { 1 ≤ target }
    requires workers { (1 ≤ workers) × (workers ≤ 64) }
    requires coord { IsCoord coord }
    ensures answer { (fold : S) → IfOk result (λ found. IsCrewAnswer (search_tree P.Problem problem.now) fold (kind.Reach target) found.answer) }
    ensures logs { IfOk result (λ found. let t = search_tree P.Problem problem.now in
        HasCrewLogs (clipped_tree t target) 0 (skeleton_of coord) workers (map (λ log. log_view (R.told log) (R.totals log) (R.number log)) found.logs.items) (solution_of t found.answer)) }
    ensures fault { IfErr result (IsCrewFault (clipped_tree (search_tree P.Problem problem.now) target) 0 (skeleton_of coord) workers ((log : R) × IsSome (R.told log))) }
{
    let clipped = Clipped {
        inner: problem,
        target,
    };
    clipped_members(&clipped);
    match search_together::<_, _, R, _, _>(rt, alloc, &clipped, &NoTally, 0, coord, workers, gate) {
        Ok(Ended { hand, logs }) => Ok(Found {
            answer: Answer::Reach(hand.into_path()),
            logs,
        }),
        Err(fault) => Err(fault),
    }
}

/// Searches the tree of a problem with 1 to 64 workers, each in a thread of its own as far as they can be had, which share
/// their work out as the coordination says (the depth-bounded, budget and stack-stealing skeletons of Archibald, Maier,
/// Stewart and Trinder, PPoPP 2020).
///
/// In every schedule a count answers the fold of all nodes by the tally, each at its depth; a search for a best node
/// answers the greatest worth, and a path whose node has it, which there is exactly where that worth is not 0; and a decision
/// answers a path whose node has at least the target as its worth, exactly where some node has. Which of several such
/// paths is answered depends on the schedule. A target is from 1 to 2^40 - 1.
///
/// A search that permits a gap may cut off a node whose bound is greater than the worth that is held by no more than the
/// gap, and answers a worth that some node has, with a path whose node has it: in every schedule the greatest worth is at
/// most that worth and the gap together, and is 0 where it is 0. Which such worth is answered depends on the schedule. A
/// gap is from 0 to 2^40 - 2.
///
/// There is a log of each worker, in order, and together they are those of a whole search. What is left of the tasks
/// after all workers have ended is walked in the first worker's place.
///
/// # Errors
///
/// `Memory` where memory ran out. `AuditFull` where the log of a worker that tells its entries had no room for the next
/// one. `TooManyTasks` never comes.
pub fn search_crew<P: Problem, T: Tally<P::Node>, R: Recorder, G: Gate, H: Threads + Wait + Sync>(
    rt: &H,
    alloc: Global,
    problem: &P,
    kind: Kind,
    tally: &T,
    coord: Coord,
    workers: u32,
    gate: &G,
) -> Result<Found<T::Sum, R>, SearchFault>
    requires root { P.sound problem.now (P.root problem.now) }
    requires range { IsKindInRange kind }
    requires workers { (1 ≤ workers) × (workers ≤ 64) }
    requires coord { IsCoord coord }
    ensures answer { IfOk result (λ found. let t = search_tree P.Problem problem.now in
        IsCrewAnswer t (Fold t (T.join tally.now) (T.none tally.now) (T.of tally.now)) kind found.answer) }
    ensures logs { IfOk result (λ found. let t = search_tree P.Problem problem.now in
        HasCrewLogs (searched_tree t kind) (gap_of kind) (skeleton_of coord) workers (map (λ log. log_view (R.told log) (R.totals log) (R.number log)) found.logs.items) (solution_of t found.answer)) }
    ensures fault { IfErr result (IsCrewFault (searched_tree (search_tree P.Problem problem.now) kind) (gap_of kind) (skeleton_of coord) workers ((log : R) × IsSome (R.told log))) }
{
    match kind {
        Kind::Count => count(rt, alloc, problem, tally, coord, workers, gate),
        Kind::Best => best(rt, alloc, problem, coord, workers, gate),
        Kind::Reach(target) => reach(rt, alloc, problem, target, coord, workers, gate),
        Kind::Near(gap) => near(rt, alloc, problem, gap, coord, workers, gate),
    }
}
