//! The search of a tree by several workers, whose answer is that of one worker, its path included.
ghost use Rattle.std.specs.Prelude.{◌≡◌, ◌≤◌, ◌^◌, length, map, IsSome, IfOk, IfErr, OnOk};
ghost use Rattle.yew_crew.specs.CrewSearch.{HasCrewLogs, solution_of};
ghost use Rattle.yew_kinds.specs.Kinds.{IsKindInRange, IsExact};
ghost use Rattle.yew_kinds.specs.Wrappers.{counted_tree, clipped_tree};
ghost use Rattle.yew_laws.specs.Fold.{Fold};
ghost use Rattle.yew_laws.specs.SearchTree.{search_tree};
ghost use Rattle.yew_log.specs.Groups.{in_order};
ghost use Rattle.yew_log.specs.Items.{items_of};
ghost use Rattle.yew_walk.specs.Answers.{IsCountAnswer, IsBestAnswer, IsReachAnswer};
ghost use Rattle.yew_walk.specs.Kinds.{IsAnswer};
ghost use Rattle.yew_walk.specs.LogViews.{log_view};
ghost use Rattle.yew_walk.specs.PlainSearch.{searched_tree};
ghost use Rattle.yew_ranked.specs.OrderedSearch.{IsOrderedFound, IsOrderedFault};
ghost use Rattle.yew_ranked.specs.Searching.{IsBegun, HasWorked};

use crate::claims::Claims;
use crate::ending::{Ended, Worked, end_search};
use crate::frontier::walk_frontier;
use crate::laws::frontier_full_is_audit_full;
use crate::starting::{make_stations, start};
use crate::station::{RankedShared, RankedStation};
use std::alloc::Global;
use std::sync::Wait;
use std::thread::Threads;
use yew_best::Best;
use yew_crew::Open;
use yew_io::Gate;
use yew_kinds::laws::clipped_members;
use yew_kinds::{Answer, Clipped, Counted, Kind, NoTally, Tally};
use yew_laws::{Memory, Problem};
use yew_log::Recorder;
use yew_walk::{Found, SearchFault, empty_hand};

// How many keys have the same worth: 2^20, one for each number of an item.
const ITEMS: u64 = 1_048_576;

/// What the workers share, and the station of the first one, whose seats have the whole shares.
#[derive(Drop)]
struct Begun<S, R> {
    shared: RankedShared,
    first: RankedStation<S, R>,
}

// The first worker takes the root, and walks what lies above the depth of tasks.
fn walk_above<P: Problem, T: Tally<P::Node>, R: Recorder, G: Gate, H: Threads + Wait>(
    rt: &H,
    alloc: Global,
    problem: &P,
    tally: &T,
    depth: u32,
    workers: u32,
    gate: &G,
) -> Result<Begun<T::Sum, R>, SearchFault>
    requires root { P.sound problem.now (P.root problem.now) }
    requires depth { (1 ≤ depth) × (depth ≤ 255) }
    requires workers { (1 ≤ workers) × (workers ≤ 64) }
    ensures begun { IfOk result (λ begun. IsBegun (search_tree P.Problem problem.now) (T.join tally.now) (T.none tally.now) (T.of tally.now)
        (λ log. log_view (R.told log) (R.totals log) (R.number log)) (T.fits tally.now) depth workers begun.shared begun.first) }
    ensures fault { IfErr result (IsOrderedFault (search_tree P.Problem problem.now) depth workers ((log : R) × IsSome (R.told log))) }
{
    frontier_full_is_audit_full(problem);
    let (best, mut best_seat) = Best::new(alloc, workers)?;
    let mut hand = empty_hand(alloc, tally)?;
    let mut log = R::fresh(alloc, 1)?;
    gate.at(rt, 1, 1);
    let tasks = match walk_frontier(
        alloc,
        problem,
        tally,
        depth,
        &best,
        &mut best_seat,
        &mut hand,
        &mut log,
    ) {
        Ok(tasks) => tasks,
        Err(fault) => return Err(fault),
    };
    let (claims, claim_seat) = Claims::new(alloc, workers)?;
    let (stop, stop_seat) = Open::new(alloc, workers)?;
    Ok(Begun {
        shared: RankedShared {
            best,
            claims,
            stop,
            tasks,
        },
        first: RankedStation {
            number: 1,
            best: best_seat,
            claims: claim_seat,
            stop: stop_seat,
            hand,
            log,
        },
    })
}

// Lets all workers walk the tasks.
fn walk_tasks<P: Problem, T: Tally<P::Node>, R: Recorder, G: Gate, H: Threads + Wait + Sync>(
    rt: &H,
    alloc: Global,
    problem: &P,
    tally: &T,
    depth: u32,
    workers: u32,
    gate: &G,
    begun: Begun<T::Sum, R>,
) -> Result<Worked<T::Sum, R>, Memory>
    requires root { P.sound problem.now (P.root problem.now) }
    requires workers { (1 ≤ workers) × (workers ≤ 64) }
    requires begun { IsBegun (search_tree P.Problem problem.now) (T.join tally.now) (T.none tally.now) (T.of tally.now)
        (λ log. log_view (R.told log) (R.totals log) (R.number log)) (T.fits tally.now) depth workers begun.shared begun.first }
    ensures worked { IfOk result (λ worked. HasWorked (search_tree P.Problem problem.now) (T.join tally.now) (T.none tally.now) (T.of tally.now)
        (λ log. log_view (R.told log) (R.totals log) (R.number log)) (T.fits tally.now) depth workers worked.shared worked.reports.items) }
    ensures few { OnOk result (length (items_of (search_tree P.Problem problem.now) depth) ≤ 2 ^ 20) }
{
    let _ = depth;
    let Begun { shared, first } = begun;
    let stations = make_stations(alloc, tally, &shared, first, workers)?;
    let reports = start(rt, alloc, problem, tally, &shared, gate, stations)?;
    Ok(Worked { shared, reports })
}

// Searches the whole tree of a problem.
fn search_items<P: Problem, T: Tally<P::Node>, R: Recorder, G: Gate, H: Threads + Wait + Sync>(
    rt: &H,
    alloc: Global,
    problem: &P,
    tally: &T,
    depth: u32,
    workers: u32,
    gate: &G,
) -> Result<Ended<T::Sum, R>, SearchFault>
    requires root { P.sound problem.now (P.root problem.now) }
    requires depth { (1 ≤ depth) × (depth ≤ 255) }
    requires workers { (1 ≤ workers) × (workers ≤ 64) }
    ensures found { IfOk result (λ ended. IsOrderedFound (search_tree P.Problem problem.now) (T.join tally.now) (T.none tally.now) (T.of tally.now)
        (λ log. log_view (R.told log) (R.totals log) (R.number log)) depth workers ended.hand ended.logs.items) }
    ensures few { OnOk result (length (items_of (search_tree P.Problem problem.now) depth) ≤ 2 ^ 20) }
    ensures fault { IfErr result (IsOrderedFault (search_tree P.Problem problem.now) depth workers ((log : R) × IsSome (R.told log))) }
{
    let begun = match walk_above(rt, alloc, problem, tally, depth, workers, gate) {
        Ok(begun) => begun,
        Err(fault) => return Err(fault),
    };
    let worked = walk_tasks(rt, alloc, problem, tally, depth, workers, gate, begun)?;
    end_search(alloc, problem, tally, depth, workers, worked)
}

// The fold of all nodes.
fn count<P: Problem, T: Tally<P::Node>, R: Recorder, G: Gate, H: Threads + Wait + Sync>(
    rt: &H,
    alloc: Global,
    problem: &P,
    tally: &T,
    depth: u32,
    workers: u32,
    gate: &G,
) -> Result<Found<T::Sum, R>, SearchFault>
    requires root { P.sound problem.now (P.root problem.now) }
    requires depth { (1 ≤ depth) × (depth ≤ 255) }
    requires workers { (1 ≤ workers) × (workers ≤ 64) }
    ensures answer { IfOk result (λ found. IsCountAnswer (Fold (search_tree P.Problem problem.now) (T.join tally.now) (T.none tally.now) (T.of tally.now)) found.answer) }
    ensures logs { IfOk result (λ found. let t = search_tree P.Problem problem.now in
        HasCrewLogs (counted_tree t) 0 (in_order depth) workers (map (λ log. log_view (R.told log) (R.totals log) (R.number log)) found.logs.items) (solution_of t found.answer)) }
    ensures few { OnOk result (length (items_of (counted_tree (search_tree P.Problem problem.now)) depth) ≤ 2 ^ 20) }
    ensures fault { IfErr result (IsOrderedFault (counted_tree (search_tree P.Problem problem.now)) depth workers ((log : R) × IsSome (R.told log))) }
{
    let counted = Counted { inner: problem };
    match search_items::<_, _, R, _, _>(rt, alloc, &counted, tally, depth, workers, gate) {
        Ok(Ended { hand, logs }) => Ok(Found {
            answer: Answer::Count(hand.sum),
            logs,
        }),
        Err(fault) => Err(fault),
    }
}

// The first best node.
fn best<P: Problem, S: Drop, R: Recorder, G: Gate, H: Threads + Wait + Sync>(
    rt: &H,
    alloc: Global,
    problem: &P,
    depth: u32,
    workers: u32,
    gate: &G,
) -> Result<Found<S, R>, SearchFault>
    requires root { P.sound problem.now (P.root problem.now) }
    requires depth { (1 ≤ depth) × (depth ≤ 255) }
    requires workers { (1 ≤ workers) × (workers ≤ 64) }
    ensures answer { IfOk result (λ found. IsBestAnswer (search_tree P.Problem problem.now) found.answer) }
    ensures logs { IfOk result (λ found. let t = search_tree P.Problem problem.now in
        HasCrewLogs t 0 (in_order depth) workers (map (λ log. log_view (R.told log) (R.totals log) (R.number log)) found.logs.items) (solution_of t found.answer)) }
    ensures few { OnOk result (length (items_of (search_tree P.Problem problem.now) depth) ≤ 2 ^ 20) }
    ensures fault { IfErr result (IsOrderedFault (search_tree P.Problem problem.now) depth workers ((log : R) × IsSome (R.told log))) }
{
    match search_items::<_, _, R, _, _>(rt, alloc, problem, &NoTally, depth, workers, gate) {
        Ok(Ended { hand, logs }) => {
            let worth = hand.best_key() / ITEMS;
            let path = hand.into_path();
            Ok(Found {
                answer: Answer::Best { worth, path },
                logs,
            })
        }
        Err(fault) => Err(fault),
    }
}

// The first node that meets a target.
fn reach<P: Problem, S: Drop, R: Recorder, G: Gate, H: Threads + Wait + Sync>(
    rt: &H,
    alloc: Global,
    problem: &P,
    target: u64,
    depth: u32,
    workers: u32,
    gate: &G,
) -> Result<Found<S, R>, SearchFault>
    requires root { P.sound problem.now (P.root problem.now) }
    requires target { 1 ≤ target }
    requires depth { (1 ≤ depth) × (depth ≤ 255) }
    requires workers { (1 ≤ workers) × (workers ≤ 64) }
    ensures answer { IfOk result (λ found. IsReachAnswer (search_tree P.Problem problem.now) target found.answer) }
    ensures logs { IfOk result (λ found. let t = search_tree P.Problem problem.now in
        HasCrewLogs (clipped_tree t target) 0 (in_order depth) workers (map (λ log. log_view (R.told log) (R.totals log) (R.number log)) found.logs.items) (solution_of t found.answer)) }
    ensures few { OnOk result (length (items_of (clipped_tree (search_tree P.Problem problem.now) target) depth) ≤ 2 ^ 20) }
    ensures fault { IfErr result (IsOrderedFault (clipped_tree (search_tree P.Problem problem.now) target) depth workers ((log : R) × IsSome (R.told log))) }
{
    let clipped = Clipped {
        inner: problem,
        target,
    };
    clipped_members(&clipped);
    match search_items::<_, _, R, _, _>(rt, alloc, &clipped, &NoTally, depth, workers, gate) {
        Ok(Ended { hand, logs }) => Ok(Found {
            answer: Answer::Reach(hand.into_path()),
            logs,
        }),
        Err(fault) => Err(fault),
    }
}

/// Searches the tree of a problem with 1 to 64 workers, each in a thread of its own as far as they can be had, and answers
/// what a search of one worker does, its path included, whatever the schedule.
///
/// The first worker walks the nodes above `depth`, which is from 1 to 255. Each node at that depth becomes a task, and
/// these nodes and tasks are the items, numbered in preorder. Then all workers claim the tasks in the order of their
/// numbers. Of nodes of equal worth that of the item with the smaller number counts as the better one.
///
/// A count answers the fold of all nodes by the tally, each at its depth. A search for a best node answers the greatest
/// worth, and the first path in preorder that has it; there is none exactly where that worth is 0. A decision answers the
/// first path in preorder whose node has at least the target as its worth; there is none exactly where no node has. A
/// target is from 1 to 2^40 - 1. No gap is permitted.
///
/// There is a log of each worker, in order, and together they are those of a whole search, of which the first one's begins
/// with the items.
///
/// # Errors
///
/// `Memory` where memory ran out. `TooManyTasks` where there are more than 2^20 items, so that one would need the number
/// 2^20. `AuditFull` where the log of a worker that tells its entries had no room for the next one, which is that of the
/// first worker where there are too many items.
pub fn search_ordered<
    P: Problem,
    T: Tally<P::Node>,
    R: Recorder,
    G: Gate,
    H: Threads + Wait + Sync,
>(
    rt: &H,
    alloc: Global,
    problem: &P,
    kind: Kind,
    tally: &T,
    depth: u32,
    workers: u32,
    gate: &G,
) -> Result<Found<T::Sum, R>, SearchFault>
    requires root { P.sound problem.now (P.root problem.now) }
    requires range { IsKindInRange kind }
    requires exact { IsExact kind }
    requires depth { (1 ≤ depth) × (depth ≤ 255) }
    requires workers { (1 ≤ workers) × (workers ≤ 64) }
    ensures answer { IfOk result (λ found. let t = search_tree P.Problem problem.now in
        IsAnswer t (Fold t (T.join tally.now) (T.none tally.now) (T.of tally.now)) kind found.answer) }
    ensures logs { IfOk result (λ found. let t = search_tree P.Problem problem.now in
        HasCrewLogs (searched_tree t kind) 0 (in_order depth) workers (map (λ log. log_view (R.told log) (R.totals log) (R.number log)) found.logs.items) (solution_of t found.answer)) }
    ensures few { OnOk result (length (items_of (searched_tree (search_tree P.Problem problem.now) kind) depth) ≤ 2 ^ 20) }
    ensures fault { IfErr result (IsOrderedFault (searched_tree (search_tree P.Problem problem.now) kind) depth workers ((log : R) × IsSome (R.told log))) }
{
    match kind {
        Kind::Count => count(rt, alloc, problem, tally, depth, workers, gate),
        Kind::Best => best(rt, alloc, problem, depth, workers, gate),
        Kind::Reach(target) => reach(rt, alloc, problem, target, depth, workers, gate),
        Kind::Near(_) => unreachable!(),
    }
}
