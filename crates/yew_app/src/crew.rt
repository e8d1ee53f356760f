//! A crew of workers in threads.

ghost use Rattle.std.specs.Prelude.{◌≡◌, IfOk, IfErr, IsSome};
ghost use Rattle.yew_kinds.specs.Kinds.{IsKindInRange, IsExact, gap_of};
ghost use Rattle.yew_laws.specs.Fold.{Fold};
ghost use Rattle.yew_laws.specs.SearchTree.{search_tree};
ghost use Rattle.yew_walk.specs.LogViews.{log_view};
ghost use Rattle.yew_walk.specs.PlainSearch.{searched_tree};
ghost use Rattle.yew_words.specs.declared.plan.Skeleton.TheVariants as skeleton;
ghost use Rattle.yew_app.specs.Asks.{IsAnySkeleton, IsAskable, IsOrdered};
ghost use Rattle.yew_app.specs.Searches.{IsFound, IsSearchFault};
ghost use Rattle.yew_app.specs.Ways.{IsShared, IsWayOf};

use crate::asked::Asked;
use crate::searcher::{Searcher, search_alone};
use std::alloc::Global;
use std::sync::Wait;
use std::thread::Threads;
use yew_crew::{Coord, search_crew};
use yew_io::Gate;
use yew_kinds::{Kind, Tally};
use yew_laws::Problem;
use yew_log::Recorder;
use yew_ranked::search_ordered;
use yew_stack::Chunk;
use yew_walk::{Found, SearchFault};
use yew_words::Skeleton;

/// A crew of workers, which share out each tree among them. Each passes the gate at each task that it takes. One worker
/// alone goes through a tree in preorder.
#[derive(Drop)]
pub(crate) struct Crew<'r, H: Threads + Wait + Sync, G: Gate> {
    /// What starts the threads.
    pub rt: &'r H,
    /// The gate of all workers.
    pub gate: &'r G,
}

impl<'r, H: Threads + Wait + Sync, G: Gate> Searcher for Crew<'r, H, G> {
    ghost does = { IsAnySkeleton };

    fn knows(&self, _skeleton: Skeleton) -> bool {
        true
    }
}

/// How workers share a tree out.
#[derive(Clone, Copy)]
pub(crate) enum Way {
    /// One worker goes through it in preorder.
    Alone,
    /// In tasks of no order.
    Shared(Coord),
    /// In tasks at this depth, which are claimed in the order of their numbers.
    InOrder(u32),
}

/// How workers share a tree out under a skeleton.
fn way_of(skeleton: Skeleton) -> Way
    ensures { IsWayOf skeleton result }
{
    match skeleton {
        Skeleton::Sequential => Way::Alone,
        Skeleton::Depth(depth) => Way::Shared(Coord::Depth(depth)),
        Skeleton::Budget(budget) => Way::Shared(Coord::Budget(budget)),
        Skeleton::Steal { all: false } => Way::Shared(Coord::Steal(Chunk::One)),
        Skeleton::Steal { all: true } => Way::Shared(Coord::Steal(Chunk::All)),
        Skeleton::Ordered(depth) => Way::InOrder(depth),
    }
}

/// Searches the tree of a problem by a crew whose tasks have no order.
///
/// # Errors
///
/// Memory ran out, or the log of a worker has no room for its next entry.
fn search_shared<P: Problem, T: Tally<P::Node>, R: Recorder, G: Gate, H: Threads + Wait + Sync>(
    crew: &Crew<H, G>,
    alloc: Global,
    problem: &P,
    kind: Kind,
    tally: &T,
    coord: Coord,
    asked: Asked,
) -> Result<Found<T::Sum, R>, SearchFault>
    requires root { P.sound problem.now (P.root problem.now) }
    requires range { IsKindInRange kind }
    requires askable { IsAskable asked }
    requires shared { IsShared asked.skeleton coord }
    ensures found { IfOk result (λ found. let t = search_tree P.Problem problem.now in
        IsFound t (Fold t (T.join tally.now) (T.none tally.now) (T.of tally.now)) kind asked (λ log. log_view (R.told log) (R.totals log) (R.number log)) found) }
    ensures fault { IfErr result (IsSearchFault (searched_tree (search_tree P.Problem problem.now) kind) (gap_of kind) asked ((log : R) × IsSome (R.told log))) }
{
    search_crew(
        crew.rt,
        alloc,
        problem,
        kind,
        tally,
        coord,
        asked.workers,
        crew.gate,
    )
}

/// Searches the tree of a problem by a crew whose tasks, at this depth, are claimed in the order of their numbers. No gap is
/// permitted.
///
/// # Errors
///
/// Memory ran out, the log of a worker has no room for its next entry, or there are more than 2^20 tasks and nodes above
/// them.
fn search_in_order<P: Problem, T: Tally<P::Node>, R: Recorder, G: Gate, H: Threads + Wait + Sync>(
    crew: &Crew<H, G>,
    alloc: Global,
    problem: &P,
    kind: Kind,
    tally: &T,
    depth: u32,
    asked: Asked,
) -> Result<Found<T::Sum, R>, SearchFault>
    requires root { P.sound problem.now (P.root problem.now) }
    requires range { IsKindInRange kind }
    requires askable { IsAskable asked }
    requires in_order { asked.skeleton ≡ skeleton.Ordered depth }
    requires exact { IsExact kind }
    ensures found { IfOk result (λ found. let t = search_tree P.Problem problem.now in
        IsFound t (Fold t (T.join tally.now) (T.none tally.now) (T.of tally.now)) kind asked (λ log. log_view (R.told log) (R.totals log) (R.number log)) found) }
    ensures fault { IfErr result (IsSearchFault (searched_tree (search_tree P.Problem problem.now) kind) (gap_of kind) asked ((log : R) × IsSome (R.told log))) }
{
    search_ordered(
        crew.rt,
        alloc,
        problem,
        kind,
        tally,
        depth,
        asked.workers,
        crew.gate,
    )
}

/// Searches the tree of a problem by a crew, or by one worker in preorder where that is asked for. Where tasks are claimed in
/// order no gap is permitted.
///
/// # Errors
///
/// Memory ran out, the log of a worker has no room for its next entry, or tasks are claimed in order and there are too many
/// of them.
pub(crate) fn search_together<
    P: Problem,
    T: Tally<P::Node>,
    R: Recorder,
    G: Gate,
    H: Threads + Wait + Sync,
>(
    crew: &Crew<H, G>,
    alloc: Global,
    problem: &P,
    kind: Kind,
    tally: &T,
    asked: Asked,
) -> Result<Found<T::Sum, R>, SearchFault>
    requires root { P.sound problem.now (P.root problem.now) }
    requires range { IsKindInRange kind }
    requires askable { IsAskable asked }
    requires exact { IsOrdered asked.skeleton → IsExact kind }
    ensures found { IfOk result (λ found. let t = search_tree P.Problem problem.now in
        IsFound t (Fold t (T.join tally.now) (T.none tally.now) (T.of tally.now)) kind asked (λ log. log_view (R.told log) (R.totals log) (R.number log)) found) }
    ensures fault { IfErr result (IsSearchFault (searched_tree (search_tree P.Problem problem.now) kind) (gap_of kind) asked ((log : R) × IsSome (R.told log))) }
{
    match way_of(asked.skeleton) {
        Way::Alone => search_alone(alloc, problem, kind, tally, asked),
        Way::Shared(coord) => search_shared(crew, alloc, problem, kind, tally, coord, asked),
        Way::InOrder(depth) => search_in_order(crew, alloc, problem, kind, tally, depth, asked),
    }
}
