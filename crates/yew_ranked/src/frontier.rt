//! The walk above the depth of tasks, which numbers the items of a tree and makes its tasks.
//!
//! The nodes above the depth are walked in preorder, and each one that is visited gets the next number from 0. Each child
//! of a visited node directly above the depth becomes a task: it is not judged, and gets the next number too. A node that
//! is cut gets none.
ghost use Rattle.std.specs.Prelude.{◌≡◌, ℕ, ◌+◌, ◌-◌, ◌<◌, ◌≤◌, ◌^◌, List, [], ◌∷◌, ◌++◌, false, length, map, IfOk, IfErr, OnOk, OnErr, MatchBool};
ghost use Rattle.std.specs.List.{AllByRecursion};
ghost use Rattle.yew_laws.specs.SearchTree.{search_tree, IsTask};
ghost use Rattle.yew_log.specs.Notes.{Note, spawned};
ghost use Rattle.yew_log.specs.SeqLog.{visited_worth};
ghost use Rattle.yew_walk.specs.LogViews.{LogView, log_view, noted, log_after, RefusesNote};
ghost use Rattle.yew_walk.specs.Verdicts.{IsVerdict};
ghost use Rattle.yew_walk.specs.declared.keying.Keying.TheVariants.{Ranked};
ghost use Rattle.yew_ranked.specs.Frontier.{frontier_notes, frontier_log};
ghost use Rattle.yew_ranked.specs.FrontierStates.{frontier_state, IsAfterRoot, IsEntered, IsSpawned, IsSoFar, IsNumbered, IsPastFault, StopsIn, entered_notes};
ghost use Rattle.yew_ranked.specs.FrontierWalk.{IsFrontierWalked, IsFrontierFault};
ghost use Rattle.yew_ranked.specs.Tasks.{numbered_task, IsTaskOf};

use crate::task::RankedTask;
use std::alloc::Global;
use yew_best::{Best, BestSeat};
use yew_kinds::Tally;
use yew_laws::{Memory, Path, Problem};
use yew_log::{LogEnd, Recorder, What};
use yew_walk::{Hand, Keying, SearchFault, Verdict, judge};

/// How many items a search can have, 2^20: their numbers are those below it.
const ITEMS: u32 = 1_048_576;

/// Where the walk stands: the path of its node, the number of the next item, and the tasks so far.
#[derive(Drop)]
struct Frontier {
    path: Path,
    next: u32,
    tasks: Vec<RankedTask>,
}

/// Records an entry. After a refusal the log is unchanged.
fn note<R: Recorder>(
    log: &mut R,
    what: What,
    path: &Path,
    first: u64,
    second: u64,
) -> Result<(), SearchFault>
    ensures ok { OnOk result (log_view (R.told log.new) (R.totals log.new) (R.number log.new) ≡ noted (log_view (R.told log.old) (R.totals log.old) (R.number log.old)) what path.now.numbers first second) }
    ensures err { OnErr result (log_view (R.told log.new) (R.totals log.new) (R.number log.new) ≡ log_view (R.told log.old) (R.totals log.old) (R.number log.old)) }
    ensures cause { IfErr result (RefusesNote (log_view (R.told log.old) (R.totals log.old) (R.number log.old)) path.now.numbers) }
{
    match log.note(what, path, first, second) {
        Ok(()) => Ok(()),
        Err(LogEnd::Full { entries, numbers }) => Err(SearchFault::AuditFull {
            worker: log.worker(),
            entries,
            numbers,
        }),
        Err(LogEnd::Memory) => Err(SearchFault::Memory),
    }
}

/// Decides whether the node at a path is visited or cut off, by one load of the incumbent word. Where the next item would
/// have the number 2^20, a node that is not cut off is refused.
fn judge_item<P: Problem>(
    problem: &P,
    best: &Best,
    seat: &mut BestSeat,
    next: u32,
    path: &Path,
    node: &P::Node,
) -> Result<Verdict, SearchFault>
    requires root { P.sound problem.now (P.root problem.now) }
    requires task { IsTask P.Problem problem.now path.now.numbers node.now }
    requires seat { seat.old.best ≡ best.now }
    requires next { next ≤ 2 ^ 20 }
    requires first { path.now.numbers ≡ [] → next ≡ 0 }
    ensures ok { IfOk result (λ verdict. IsVerdict P.Problem problem.now (Ranked next) path.now.numbers node.now verdict seat.old seat.new) }
    ensures numbered { IfOk result (IsNumbered next) }
    ensures err { IfErr result (IsPastFault (search_tree P.Problem problem.now) next node.now seat.old) }
    ensures best { seat.new.best ≡ seat.old.best }
    ensures share { seat.new.share ≡ seat.old.share }
{
    if next < ITEMS {
        return Ok(judge(problem, best, seat, Keying::Ranked(next), path, node));
    }
    let word = best.read(seat);
    let read = word / ITEMS as u64;
    let bound = problem.bound(node);
    if bound <= read {
        Ok(Verdict::Cut { bound, read })
    } else {
        Err(SearchFault::TooManyTasks {
            number: ITEMS as u64,
        })
    }
}

/// Visits the node at which the walk stands or cuts it off, and records it. A visited node is the next item, and is taken
/// into account. Answers whether it was visited.
fn enter<P: Problem, T: Tally<P::Node>, R: Recorder>(
    problem: &P,
    tally: &T,
    best: &Best,
    seat: &mut BestSeat,
    hand: &mut Hand<T::Sum>,
    log: &mut R,
    frontier: &mut Frontier,
    node: &P::Node,
) -> Result<bool, SearchFault>
    requires root { P.sound problem.now (P.root problem.now) }
    requires task { IsTask P.Problem problem.now frontier.old.path.numbers node.now }
    requires best { seat.old.best ≡ best.now }
    requires whole { seat.old.share ≡ best.now.seats }
    requires next { frontier.old.next ≤ 2 ^ 20 }
    requires first { frontier.old.path.numbers ≡ [] → frontier.old.next ≡ 0 }
    requires space { 65535 ≤ hand.old.path.space }
    requires fits { T.fits tally.now hand.old.sum }
    ensures ok { IfOk result (λ is_visit. (begun : LogView) (notes : List Note) → let t = search_tree P.Problem problem.now in
        IsSoFar t (T.join tally.now) (T.none tally.now) (T.of tally.now) begun notes
        (frontier_state seat.old hand.old (log_view (R.told log.old) (R.totals log.old) (R.number log.old)) frontier.old.next (map numbered_task frontier.old.tasks.items))
        → IsAfterRoot frontier.old.path.numbers notes
        → IsEntered t (T.join tally.now) (T.none tally.now) (T.of tally.now) begun notes frontier.old.path.numbers node.now is_visit
        (frontier_state seat.new hand.new (log_view (R.told log.new) (R.totals log.new) (R.number log.new)) frontier.new.next (map numbered_task frontier.new.tasks.items))) }
    ensures err { IfErr result (λ fault. (begun : LogView) (notes : List Note) (levels : ℕ) → let t = search_tree P.Problem problem.now in
        IsSoFar t (T.join tally.now) (T.none tally.now) (T.of tally.now) begun notes
        (frontier_state seat.old hand.old (log_view (R.told log.old) (R.totals log.old) (R.number log.old)) frontier.old.next (map numbered_task frontier.old.tasks.items))
        → IsAfterRoot frontier.old.path.numbers notes
        → StopsIn (entered_notes t levels frontier.old.path.numbers node.now (visited_worth notes)) frontier.old.next
        (log_view (R.told log.old) (R.totals log.old) (R.number log.old)) (log_view (R.told log.new) (R.totals log.new) (R.number log.new)) fault) }
    ensures path { frontier.new.path ≡ frontier.old.path }
    ensures next { frontier.new.next ≤ 2 ^ 20 }
    ensures best { seat.new.best ≡ seat.old.best }
    ensures share { seat.new.share ≡ seat.old.share }
    ensures space { hand.new.path.space ≡ hand.old.path.space }
    ensures fits { T.fits tally.now hand.new.sum }
{
    match judge_item(problem, best, seat, frontier.next, &frontier.path, node) {
        Ok(Verdict::Cut { bound, read }) => {
            match note(log, What::Cut, &frontier.path, bound, read) {
                Ok(()) => Ok(false),
                Err(fault) => Err(fault),
            }
        }
        Ok(Verdict::Visit { worth, read }) => {
            match note(log, What::Visited, &frontier.path, worth, read) {
                Ok(()) => {}
                Err(fault) => return Err(fault),
            }
            let depth = frontier.path.numbers().len() as u32;
            tally.note(&mut hand.sum, node, depth);
            hand.keep(Keying::Ranked(frontier.next), worth, &frontier.path);
            frontier.next += 1;
            Ok(true)
        }
        Err(fault) => Err(fault),
    }
}

/// Makes the child of this number a task of the next number, and records it.
fn spawn<R: Recorder>(log: &mut R, frontier: &mut Frontier, number: u32) -> Result<(), SearchFault>
    requires next { frontier.old.next ≤ 2 ^ 20 }
    ensures ok { OnOk result (IsSpawned (frontier.old.path.numbers ++ number ∷ []) (log_view (R.told log.old) (R.totals log.old) (R.number log.old)) frontier.old.next (map numbered_task frontier.old.tasks.items)
        (log_view (R.told log.new) (R.totals log.new) (R.number log.new)) frontier.new.next (map numbered_task frontier.new.tasks.items)) }
    ensures err { IfErr result (StopsIn (spawned (frontier.old.path.numbers ++ number ∷ []) ∷ []) frontier.old.next
        (log_view (R.told log.old) (R.totals log.old) (R.number log.old)) (log_view (R.told log.new) (R.totals log.new) (R.number log.new))) }
    ensures path { frontier.new.path ≡ frontier.old.path }
    ensures next { frontier.new.next ≤ 2 ^ 20 }
{
    if frontier.next >= ITEMS {
        return Err(SearchFault::TooManyTasks {
            number: ITEMS as u64,
        });
    }
    let path = match frontier.path.child(number) {
        Ok(path) => path,
        Err(Memory) => return Err(SearchFault::Memory),
    };
    match note(log, What::Spawned, &path, 0, 0) {
        Ok(()) => {}
        Err(fault) => return Err(fault),
    }
    match frontier.tasks.push(RankedTask {
        path,
        rank: frontier.next,
    }) {
        Ok(()) => {
            frontier.next += 1;
            Ok(())
        }
        Err(_) => Err(SearchFault::Memory),
    }
}

/// Walks the node at which the walk stands and all that lies below it above the depth of tasks, which is one more than so
/// many levels below the node.
fn walk_levels<P: Problem, T: Tally<P::Node>, R: Recorder>(
    alloc: Global,
    problem: &P,
    tally: &T,
    levels: u32,
    best: &Best,
    seat: &mut BestSeat,
    hand: &mut Hand<T::Sum>,
    log: &mut R,
    frontier: &mut Frontier,
    node: P::Node,
) -> Result<(), SearchFault>
    requires root { P.sound problem.now (P.root problem.now) }
    requires task { IsTask P.Problem problem.now frontier.old.path.numbers node }
    requires best { seat.old.best ≡ best.now }
    requires whole { seat.old.share ≡ best.now.seats }
    requires next { frontier.old.next ≤ 2 ^ 20 }
    requires first { frontier.old.path.numbers ≡ [] → frontier.old.next ≡ 0 }
    requires room { length frontier.old.path.numbers + levels ≤ frontier.old.path.space }
    requires space { 65535 ≤ hand.old.path.space }
    requires fits { T.fits tally.now hand.old.sum }
    ensures ok { OnOk result ((begun : LogView) (notes : List Note) → let t = search_tree P.Problem problem.now in
        IsSoFar t (T.join tally.now) (T.none tally.now) (T.of tally.now) begun notes
        (frontier_state seat.old hand.old (log_view (R.told log.old) (R.totals log.old) (R.number log.old)) frontier.old.next (map numbered_task frontier.old.tasks.items))
        → IsAfterRoot frontier.old.path.numbers notes
        → IsSoFar t (T.join tally.now) (T.none tally.now) (T.of tally.now) begun (notes ++ entered_notes t levels frontier.old.path.numbers node (visited_worth notes))
        (frontier_state seat.new hand.new (log_view (R.told log.new) (R.totals log.new) (R.number log.new)) frontier.new.next (map numbered_task frontier.new.tasks.items))) }
    ensures err { IfErr result (λ fault. (begun : LogView) (notes : List Note) → let t = search_tree P.Problem problem.now in
        IsSoFar t (T.join tally.now) (T.none tally.now) (T.of tally.now) begun notes
        (frontier_state seat.old hand.old (log_view (R.told log.old) (R.totals log.old) (R.number log.old)) frontier.old.next (map numbered_task frontier.old.tasks.items))
        → IsAfterRoot frontier.old.path.numbers notes
        → StopsIn (entered_notes t levels frontier.old.path.numbers node (visited_worth notes)) frontier.old.next
        (log_view (R.told log.old) (R.totals log.old) (R.number log.old)) (log_view (R.told log.new) (R.totals log.new) (R.number log.new)) fault) }
    ensures path { OnOk result (frontier.new.path.numbers ≡ frontier.old.path.numbers) }
    ensures path_space { OnOk result (frontier.new.path.space ≡ frontier.old.path.space) }
    ensures next { frontier.new.next ≤ 2 ^ 20 }
    ensures best { seat.new.best ≡ seat.old.best }
    ensures share { seat.new.share ≡ seat.old.share }
    ensures space { hand.new.path.space ≡ hand.old.path.space }
    ensures fits { T.fits tally.now hand.new.sum }
{
    match enter(problem, tally, best, seat, hand, log, frontier, &node) {
        Ok(true) => {}
        Ok(false) => return Ok(()),
        Err(fault) => return Err(fault),
    }
    let mut kids = problem.open(alloc, node)?;
    let depth = frontier.path.numbers().len();
    let mut number: u32 = 0;
    'children: loop {
        match problem.next(alloc, &mut kids) {
            Ok(Some(child)) => {
                if levels == 0 {
                    match spawn(log, frontier, number) {
                        Ok(()) => {}
                        Err(fault) => return Err(fault),
                    }
                } else {
                    frontier.path.push(number);
                    match walk_levels(
                        alloc,
                        problem,
                        tally,
                        levels - 1,
                        best,
                        seat,
                        hand,
                        log,
                        frontier,
                        child,
                    ) {
                        Ok(()) => {}
                        Err(fault) => return Err(fault),
                    }
                    frontier.path.truncate(depth);
                }
                number += 1;
            }
            Ok(None) => return note(log, What::Ended, &frontier.path, 0, 0),
            Err(Memory) => return Err(SearchFault::Memory),
        }
    }
}

/// Walks the nodes above a depth, from 1 to 255, in preorder: each node that is visited and each task has the next number
/// from 0. The tasks are the children of the visited nodes directly above the depth, in order. What is done is recorded:
/// the root is taken, each node is visited or cut off, and each task is spawned.
///
/// # Errors
///
/// `Memory` where memory ran out. `AuditFull` where the log had no room for the next entry. `TooManyTasks` where an item
/// would have the number 2^20: then there are more than 2^20 items.
pub(crate) fn walk_frontier<P: Problem, T: Tally<P::Node>, R: Recorder>(
    alloc: Global,
    problem: &P,
    tally: &T,
    depth: u32,
    best: &Best,
    seat: &mut BestSeat,
    hand: &mut Hand<T::Sum>,
    log: &mut R,
) -> Result<Vec<RankedTask>, SearchFault>
    requires root { P.sound problem.now (P.root problem.now) }
    requires depth { (1 ≤ depth) × (depth ≤ 255) }
    requires best { seat.old.best ≡ best.now }
    requires whole { seat.old.share ≡ best.now.seats }
    requires none_offered { seat.old.offered ≡ [] }
    requires holds { hand.old.holds ≡ false }
    requires sum { hand.old.sum ≡ T.none tally.now }
    requires space { 65535 ≤ hand.old.path.space }
    ensures walked { IfOk result (λ tasks. IsFrontierWalked (search_tree P.Problem problem.now) (T.join tally.now) (T.none tally.now) (T.of tally.now) depth seat.old seat.new hand.new (map numbered_task tasks.items)) }
    ensures log { OnOk result (log_view (R.told log.new) (R.totals log.new) (R.number log.new)
        ≡ log_after (log_view (R.told log.old) (R.totals log.old) (R.number log.old)) (frontier_log (search_tree P.Problem problem.now) (depth - 1))) }
    ensures there { IfOk result (λ tasks. AllByRecursion (IsTaskOf (search_tree P.Problem problem.now)) tasks.items) }
    ensures fault { IfErr result (IsFrontierFault (search_tree P.Problem problem.now) depth
        (log_view (R.told log.old) (R.totals log.old) (R.number log.old)) (log_view (R.told log.new) (R.totals log.new) (R.number log.new))) }
    ensures best { seat.new.best ≡ seat.old.best }
    ensures share { seat.new.share ≡ seat.old.share }
    ensures space { hand.new.path.space ≡ hand.old.path.space }
    ensures fits { T.fits tally.now hand.new.sum }
{
    let node = problem.root(alloc)?;
    let mut frontier = Frontier {
        path: Path::empty(alloc, depth)?,
        next: 0,
        tasks: Vec::new(alloc),
    };
    match note(log, What::Taken, &frontier.path, 0, 0) {
        Ok(()) => {}
        Err(fault) => return Err(fault),
    }
    match walk_levels(
        alloc,
        problem,
        tally,
        depth - 1,
        best,
        seat,
        hand,
        log,
        &mut frontier,
        node,
    ) {
        Ok(()) => {
            let Frontier {
                path: _,
                next: _,
                tasks,
            } = frontier;
            Ok(tasks)
        }
        Err(fault) => Err(fault),
    }
}
