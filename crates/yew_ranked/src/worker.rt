//! A worker of an ordered search: it claims the places of tasks one after another, and walks the task at each of them.
ghost use Rattle.std.specs.Prelude.{◌≡◌, ◌<◌, ◌≤◌, ◌^◌, length, map, OnOk, IfOk, IfErr, IsSome};
ghost use Rattle.std.specs.List.{AllByRecursion};
ghost use Rattle.yew_laws.specs.SearchTree.{search_tree, at_path, IsTask};
ghost use Rattle.yew_walk.specs.LogViews.{log_view};
ghost use Rattle.yew_ranked.specs.Stations.{IsRankedReady, IsWorking, IsRankedReport};
ghost use Rattle.yew_ranked.specs.Tasks.{numbered_task, IsTaskOf};
ghost use Rattle.yew_ranked.specs.Turns.{IsTaskStep, IsBrokenStep, IsTurned, ClaimsMore};
ghost use Rattle.yew_ranked.specs.declared.station.RankedStation.{RankedStation as StationValue};

use crate::station::{RankedReport, RankedShared, RankedStation};
use crate::task::RankedTask;
use std::alloc::Global;
use std::sync::Wait;
use std::thread::Threads;
use yew_best::Best;
use yew_crew::End;
use yew_io::Gate;
use yew_kinds::Tally;
use yew_laws::{Memory, Path, Problem, Task, rebuild};
use yew_log::Recorder;
use yew_walk::{Keying, Outbox, Plain, SearchFault, walk};

/// What a worker's turn came to.
#[derive(Drop)]
pub(crate) enum Turn {
    /// A task was walked.
    Walked,
    /// The worker has come to its end.
    Ended(End),
}

// The node of a task, with a path of its own.
fn open_task<P: Problem>(
    alloc: Global,
    problem: &P,
    task: &RankedTask,
) -> Result<Task<P::Node>, Memory>
    requires root { P.sound problem.now (P.root problem.now) }
    requires there { IsSome (at_path (search_tree P.Problem problem.now) task.now.path.numbers) }
    ensures task { IfOk result (λ opened. IsTask P.Problem problem.now opened.path.numbers opened.node) }
    ensures path { IfOk result (λ opened. opened.path.numbers ≡ task.now.path.numbers) }
{
    let Some(node) = rebuild(alloc, problem, &task.path)? else {
        unreachable!()
    };
    let mut path = Path::empty(alloc, task.path.numbers().len() as u32)?;
    path.set(&task.path);
    Ok(Task { path, node })
}

// Walks a task with the keys of its number, and shares nothing out.
fn walk_task<P: Problem, T: Tally<P::Node>, R: Recorder>(
    alloc: Global,
    problem: &P,
    tally: &T,
    best: &Best,
    task: &RankedTask,
    station: &mut RankedStation<T::Sum, R>,
) -> Result<(), SearchFault>
    requires root { P.sound problem.now (P.root problem.now) }
    requires task { IsTaskOf (search_tree P.Problem problem.now) task.now }
    requires seat { station.old.best.best ≡ best.now }
    requires space { 65535 ≤ station.old.hand.path.space }
    requires fits { T.fits tally.now station.old.hand.sum }
    ensures step { OnOk result (IsTaskStep (search_tree P.Problem problem.now) (T.join tally.now) (T.none tally.now) (T.of tally.now)
        (λ l. log_view (R.told l) (R.totals l) (R.number l)) (numbered_task task.now) station.old station.new) }
    ensures refused { IfErr result (λ fault. IsBrokenStep (search_tree P.Problem problem.now) (T.join tally.now) (T.none tally.now) (T.of tally.now)
        (λ l. log_view (R.told l) (R.totals l) (R.number l)) (numbered_task task.now) fault station.old station.new) }
    ensures fits { T.fits tally.now station.new.hand.sum }
{
    let opened = match open_task(alloc, problem, task) {
        Ok(opened) => opened,
        Err(Memory) => return Err(SearchFault::Memory),
    };
    let mut policy = Plain::new();
    let mut outlet = Outbox::new(alloc, problem);
    walk(
        alloc,
        problem,
        opened,
        best,
        &mut station.best,
        Keying::Ranked(task.rank),
        &mut policy,
        &mut outlet,
        tally,
        &mut station.hand,
        &mut station.log,
    )
}

// One turn: looks whether all are told to stop, claims a place, and walks the task there, if there is one. Where the walk is
// refused, all are told to stop.
fn take_turn<P: Problem, T: Tally<P::Node>, R: Recorder, G: Gate, H: Threads + Wait>(
    rt: &H,
    alloc: Global,
    problem: &P,
    tally: &T,
    shared: &RankedShared,
    gate: &G,
    taken: &mut u64,
    station: &mut RankedStation<T::Sum, R>,
) -> Turn
    requires root { P.sound problem.now (P.root problem.now) }
    requires tasks { AllByRecursion (IsTaskOf (search_tree P.Problem problem.now)) shared.now.tasks.items }
    requires best { station.old.best.best ≡ shared.now.best }
    requires claims { station.old.claims.claims ≡ shared.now.claims }
    requires stop { station.old.stop.tasks ≡ shared.now.stop }
    requires one { station.old.claims.share ≡ 1 }
    requires few { length station.old.claims.claimed < 2 ^ 57 }
    requires space { 65535 ≤ station.old.hand.path.space }
    requires fits { T.fits tally.now station.old.hand.sum }
    ensures turned { (first : StationValue T.Sum R) → T.fits tally.now first.hand.sum
        → IsWorking (search_tree P.Problem problem.now) (T.join tally.now) (T.none tally.now) (T.of tally.now)
        (λ l. log_view (R.told l) (R.totals l) (R.number l)) (map numbered_task shared.now.tasks.items) first station.old
        → IsTurned (search_tree P.Problem problem.now) (T.join tally.now) (T.none tally.now) (T.of tally.now)
        (λ l. log_view (R.told l) (R.totals l) (R.number l)) (map numbered_task shared.now.tasks.items) first station.new result }
    ensures more { ClaimsMore station.old station.new result }
    ensures fits { T.fits tally.now station.new.hand.sum }
{
    if shared.stop.stopped(&mut station.stop) {
        return Turn::Ended(End::Stopped);
    }
    let place = shared.claims.claim(&mut station.claims);
    if place >= shared.tasks.len() as u64 {
        return Turn::Ended(End::Done);
    }
    *taken = taken.saturating_add(1);
    gate.at(rt, station.number, *taken);
    match walk_task(
        alloc,
        problem,
        tally,
        &shared.best,
        &shared.tasks[place as usize],
        station,
    ) {
        Ok(()) => Turn::Walked,
        Err(fault) => {
            shared.stop.stop(&mut station.stop);
            Turn::Ended(End::Fault(fault))
        }
    }
}

/// Claims places and walks the tasks there, until the place that it claims is past the last task, or somebody has told all
/// to stop, or a walk is refused, which tells all to stop. The first worker has taken the root before.
pub(crate) fn ranked_worker<P: Problem, T: Tally<P::Node>, R: Recorder, G: Gate, H: Threads + Wait>(
    rt: &H,
    alloc: Global,
    problem: &P,
    tally: &T,
    shared: &RankedShared,
    gate: &G,
    mut station: RankedStation<T::Sum, R>,
) -> RankedReport<T::Sum, R>
    requires root { P.sound problem.now (P.root problem.now) }
    requires tasks { AllByRecursion (IsTaskOf (search_tree P.Problem problem.now)) shared.now.tasks.items }
    requires few { length shared.now.tasks.items ≤ 2 ^ 20 }
    requires ready { IsRankedReady (T.fits tally.now) shared.now station }
    ensures report { IsRankedReport (search_tree P.Problem problem.now) (T.join tally.now) (T.none tally.now) (T.of tally.now)
        (λ l. log_view (R.told l) (R.totals l) (R.number l)) (map numbered_task shared.now.tasks.items) station result }
    ensures fits { T.fits tally.now result.station.hand.sum }
{
    let mut taken: u64 = if station.number == 1 { 1 } else { 0 };
    loop {
        match take_turn(
            rt,
            alloc,
            problem,
            tally,
            shared,
            gate,
            &mut taken,
            &mut station,
        ) {
            Turn::Walked => {}
            Turn::Ended(end) => return RankedReport { station, end },
        }
    }
}
