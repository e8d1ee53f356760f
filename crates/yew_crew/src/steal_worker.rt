//! A worker that gets its tasks from the other workers, and gives tasks to those that ask it.
ghost use Rattle.std.specs.Prelude.{◌≡◌, ◌≤◌, ◌∷◌, [], ℕ, List, Some};
ghost use Rattle.std.specs.List.{AllByRecursion};
ghost use Rattle.yew_laws.specs.SearchTree.{search_tree, IsTask};
ghost use Rattle.yew_laws.specs.Tasks.{members_of};
ghost use Rattle.yew_mail.specs.Views.{first_of};
ghost use Rattle.yew_mail.specs.declared.view.Ask.TheVariants.{Nowhere};
ghost use Rattle.yew_stack.specs.Splits.{paths_of};
ghost use Rattle.yew_walk.specs.LogViews.{log_view};
ghost use Rattle.yew_crew.specs.Reports.{IsReport, IsEnd};
ghost use Rattle.yew_crew.specs.Stations.{searched, IsReady, IsSameStation};
ghost use Rattle.yew_crew.specs.Rounds.{thief_station, IsRound, OnGoing};
ghost use Rattle.yew_crew.specs.Working.{IsWorking};
ghost use Rattle.yew_crew.specs.declared.coord.Coord.TheVariants.{Steal};
ghost use Rattle.yew_crew.specs.declared.station.Station.{Station as StationValue};

use crate::hand_walk::walk_handing;
use crate::handing::{Handing, Known};
use crate::idling::Answer;
use crate::station::{End, Report, Shared, Station};
use crossbeam_utils::Backoff;
use std::alloc::Global;
use std::sync::Wait;
use std::thread::Threads;
use yew_best::{Best, BestSeat};
use yew_io::Gate;
use yew_kinds::Tally;
use yew_laws::{Problem, Task};
use yew_log::Recorder;
use yew_pool::{Pool, PoolPass, Take};
use yew_stack::Chunk;
use yew_walk::Hand;

/// What a worker carries that steals: its station, with the outlet in place of its seats at the mailboxes and at the open
/// tasks.
#[derive(Drop)]
pub(crate) struct Thief<O, N, S, R> {
    pub number: u32,
    pub best: BestSeat,
    pub pool: PoolPass<N>,
    pub outlet: O,
    pub hand: Hand<S>,
    pub log: R,
}

/// What a round of a worker came to.
#[derive(Drop)]
pub(crate) enum Round {
    /// A task was walked, or tasks were got.
    On,
    /// The worker has nothing to walk, but some task is open.
    Idle,
    /// The worker has come to its end.
    Ended(End),
}

// Opens the own box and walks a task. Where the walk is refused, all are told to stop.
fn task_round<P: Problem, T: Tally<P::Node>, R: Recorder>(
    alloc: Global,
    problem: &P,
    tally: &T,
    chunk: Chunk,
    gap: u64,
    best: &Best,
    task: Task<P::Node>,
    thief: &mut Thief<Handing<'_, P>, P::Node, T::Sum, R>,
) -> Round
    requires root { P.sound problem.now (P.root problem.now) }
    requires task { IsTask P.Problem problem.now task.path.numbers task.node }
    requires gap { gap ≤ 1099511627774 }
    requires seat { thief.old.best.best ≡ best.now }
    requires outlet { thief.old.outlet.problem ≡ problem.now }
    requires space { 65535 ≤ thief.old.hand.path.space }
    requires fits { T.fits tally.now thief.old.hand.sum }
    ensures round { (rest : List (List ℕ)) (first : StationValue P.Node T.Sum R) → T.fits tally.now first.hand.sum
        → IsWorking (searched (search_tree P.Problem problem.now) (T.join tally.now) (T.none tally.now) (T.of tally.now)
        (λ l. log_view (R.told l) (R.totals l) (R.number l)) (Steal chunk) gap) (task.path.numbers ∷ rest) first (thief_station thief.old)
        → IsRound (searched (search_tree P.Problem problem.now) (T.join tally.now) (T.none tally.now) (T.of tally.now)
        (λ l. log_view (R.told l) (R.totals l) (R.number l)) (Steal chunk) gap) rest first (thief_station thief.new) result }
    ensures fits { T.fits tally.now thief.new.hand.sum }
    ensures problem { thief.new.outlet.problem ≡ thief.old.outlet.problem }
    ensures ask { thief.new.outlet.seat.ask ≡ thief.old.outlet.seat.ask }
{
    thief.outlet.open();
    match walk_handing(
        alloc,
        problem,
        task,
        best,
        &mut thief.best,
        chunk,
        gap,
        &mut thief.outlet,
        tally,
        &mut thief.hand,
        &mut thief.log,
    ) {
        Ok(()) => Round::On,
        Err(fault) => {
            thief.outlet.stop();
            Round::Ended(End::Fault(fault))
        }
    }
}

// A round of a worker with nothing to walk: it asks the others for tasks.
fn idle_round<P: Problem, T: Tally<P::Node>, R: Recorder, H: Wait>(
    rt: &H,
    problem: &P,
    tally: &T,
    chunk: Chunk,
    gap: u64,
    gift: &mut Vec<Task<P::Node>>,
    thief: &mut Thief<Handing<'_, P>, P::Node, T::Sum, R>,
) -> Round
    requires gift { gift.old.items ≡ [] }
    requires outlet { thief.old.outlet.problem ≡ problem.now }
    requires number { first_of thief.old.outlet.seat.numbers ≡ thief.old.number }
    requires no_ask { thief.old.outlet.seat.ask ≡ Nowhere }
    ensures round { (first : StationValue P.Node T.Sum R)
        → IsWorking (searched (search_tree P.Problem problem.now) (T.join tally.now) (T.none tally.now) (T.of tally.now)
        (λ l. log_view (R.told l) (R.totals l) (R.number l)) (Steal chunk) gap) [] first (thief_station thief.old)
        → IsRound (searched (search_tree P.Problem problem.now) (T.join tally.now) (T.none tally.now) (T.of tally.now)
        (λ l. log_view (R.told l) (R.totals l) (R.number l)) (Steal chunk) gap) (paths_of gift.new.items) first (thief_station thief.new) result }
    ensures gift { AllByRecursion (λ task. IsTask P.Problem problem.now task.path.numbers task.node) gift.new.items }
    ensures hand { thief.new.hand ≡ thief.old.hand }
    ensures problem { thief.new.outlet.problem ≡ thief.old.outlet.problem }
    ensures no_ask { OnGoing result (thief.new.outlet.seat.ask ≡ Nowhere) }
{
    let _ = problem;
    let _ = tally;
    let _ = chunk;
    let _ = gap;
    match thief.outlet.idle(rt, thief.number) {
        Answer::Gift(mut tasks) => {
            tasks.reverse();
            *gift = tasks;
            Round::On
        }
        Answer::Nothing => Round::Idle,
        Answer::Over(end) => Round::Ended(end),
    }
}

// One round: looks whether all are told to stop, and walks the next task of a gift, or asks the others for tasks.
#[allow(clippy::too_many_arguments)]
fn next_round<P: Problem, T: Tally<P::Node>, R: Recorder, G: Gate, H: Threads + Wait + Sync>(
    rt: &H,
    alloc: Global,
    problem: &P,
    tally: &T,
    chunk: Chunk,
    gap: u64,
    best: &Best,
    gate: &G,
    taken: &mut u64,
    gift: &mut Vec<Task<P::Node>>,
    thief: &mut Thief<Handing<'_, P>, P::Node, T::Sum, R>,
) -> Round
    requires root { P.sound problem.now (P.root problem.now) }
    requires gift { AllByRecursion (λ task. IsTask P.Problem problem.now task.path.numbers task.node) gift.old.items }
    requires gap { gap ≤ 1099511627774 }
    requires seat { thief.old.best.best ≡ best.now }
    requires outlet { thief.old.outlet.problem ≡ problem.now }
    requires number { first_of thief.old.outlet.seat.numbers ≡ thief.old.number }
    requires no_ask { thief.old.outlet.seat.ask ≡ Nowhere }
    requires space { 65535 ≤ thief.old.hand.path.space }
    requires fits { T.fits tally.now thief.old.hand.sum }
    ensures round { (first : StationValue P.Node T.Sum R) → T.fits tally.now first.hand.sum
        → IsWorking (searched (search_tree P.Problem problem.now) (T.join tally.now) (T.none tally.now) (T.of tally.now)
        (λ l. log_view (R.told l) (R.totals l) (R.number l)) (Steal chunk) gap) (paths_of gift.old.items) first (thief_station thief.old)
        → IsRound (searched (search_tree P.Problem problem.now) (T.join tally.now) (T.none tally.now) (T.of tally.now)
        (λ l. log_view (R.told l) (R.totals l) (R.number l)) (Steal chunk) gap) (paths_of gift.new.items) first (thief_station thief.new) result }
    ensures gift { AllByRecursion (λ task. IsTask P.Problem problem.now task.path.numbers task.node) gift.new.items }
    ensures fits { T.fits tally.now thief.new.hand.sum }
    ensures problem { thief.new.outlet.problem ≡ thief.old.outlet.problem }
    ensures no_ask { OnGoing result (thief.new.outlet.seat.ask ≡ Nowhere) }
{
    if thief.outlet.stopped() {
        return Round::Ended(End::Stopped);
    }
    match gift.pop() {
        Some(task) => {
            *taken = taken.saturating_add(1);
            gate.at(rt, thief.number, *taken);
            task_round(alloc, problem, tally, chunk, gap, best, task, thief)
        }
        None => idle_round(rt, problem, tally, chunk, gap, gift, thief),
    }
}

// Takes a task from the pool, which has that of the root until a worker takes it, and walks it.
#[allow(clippy::too_many_arguments)]
fn first_round<P: Problem, T: Tally<P::Node>, R: Recorder, G: Gate, H: Threads + Wait + Sync>(
    rt: &H,
    alloc: Global,
    problem: &P,
    tally: &T,
    chunk: Chunk,
    gap: u64,
    best: &Best,
    pool: &Pool<P::Node>,
    gate: &G,
    taken: &mut u64,
    thief: &mut Thief<Handing<'_, P>, P::Node, T::Sum, R>,
) -> Round
    requires root { P.sound problem.now (P.root problem.now) }
    requires gap { gap ≤ 1099511627774 }
    requires seat { thief.old.best.best ≡ best.now }
    requires pool { thief.old.pool.pool ≡ pool.now }
    requires members { thief.old.pool.members ≡ Some (members_of (search_tree P.Problem problem.now)) }
    requires outlet { thief.old.outlet.problem ≡ problem.now }
    requires space { 65535 ≤ thief.old.hand.path.space }
    requires fits { T.fits tally.now thief.old.hand.sum }
    ensures round { (first : StationValue P.Node T.Sum R) → T.fits tally.now first.hand.sum
        → IsWorking (searched (search_tree P.Problem problem.now) (T.join tally.now) (T.none tally.now) (T.of tally.now)
        (λ l. log_view (R.told l) (R.totals l) (R.number l)) (Steal chunk) gap) [] first (thief_station thief.old)
        → IsRound (searched (search_tree P.Problem problem.now) (T.join tally.now) (T.none tally.now) (T.of tally.now)
        (λ l. log_view (R.told l) (R.totals l) (R.number l)) (Steal chunk) gap) [] first (thief_station thief.new) result }
    ensures fits { T.fits tally.now thief.new.hand.sum }
    ensures problem { thief.new.outlet.problem ≡ thief.old.outlet.problem }
    ensures ask { thief.new.outlet.seat.ask ≡ thief.old.outlet.seat.ask }
{
    match pool.take(rt, &mut thief.pool) {
        Take::Task(task) => {
            *taken = taken.saturating_add(1);
            gate.at(rt, thief.number, *taken);
            task_round(alloc, problem, tally, chunk, gap, best, task, thief)
        }
        Take::Empty => Round::Idle,
    }
}

// Rounds until the worker has come to its end.
#[allow(clippy::too_many_arguments)]
fn all_rounds<P: Problem, T: Tally<P::Node>, R: Recorder, G: Gate, H: Threads + Wait + Sync>(
    rt: &H,
    alloc: Global,
    problem: &P,
    tally: &T,
    chunk: Chunk,
    shared: &Shared<P::Node>,
    gate: &G,
    thief: &mut Thief<Handing<'_, P>, P::Node, T::Sum, R>,
) -> End
    requires root { P.sound problem.now (P.root problem.now) }
    requires gap { shared.now.gap ≤ 1099511627774 }
    requires ready { IsReady (T.fits tally.now) (members_of (search_tree P.Problem problem.now)) shared.now (thief_station thief.old) }
    requires outlet { thief.old.outlet.problem ≡ problem.now }
    ensures same { IsSameStation (thief_station thief.old) (thief_station thief.new) }
    ensures end { IsEnd (searched (search_tree P.Problem problem.now) (T.join tally.now) (T.none tally.now) (T.of tally.now)
        (λ l. log_view (R.told l) (R.totals l) (R.number l)) (Steal chunk) shared.now.gap) (thief_station thief.old) (thief_station thief.new) result }
    ensures fits { T.fits tally.now thief.new.hand.sum }
{
    let mut taken = 0;
    if let Round::Ended(end) = first_round(
        rt,
        alloc,
        problem,
        tally,
        chunk,
        shared.gap,
        &shared.best,
        &shared.pool,
        gate,
        &mut taken,
        thief,
    ) {
        return end;
    }
    let mut gift = Vec::new(alloc);
    let backoff = Backoff::new();
    for _ in rt.forever() {
        match next_round(
            rt,
            alloc,
            problem,
            tally,
            chunk,
            shared.gap,
            &shared.best,
            gate,
            &mut taken,
            &mut gift,
            thief,
        ) {
            Round::On => backoff.reset(),
            Round::Idle => backoff.snooze(),
            Round::Ended(end) => return end,
        }
    }
    unreachable!()
}

/// Walks the task of the root, where the pool still has it, and then tasks that other workers give, and gives tasks to
/// those that ask, until no task is open, or somebody has told all to stop, or a walk is refused, which tells all to stop.
#[allow(clippy::too_many_arguments)]
pub(crate) fn steal_worker<
    P: Problem,
    T: Tally<P::Node>,
    R: Recorder,
    G: Gate,
    H: Threads + Wait + Sync,
>(
    rt: &H,
    alloc: Global,
    problem: &P,
    tally: &T,
    chunk: Chunk,
    shared: &Shared<P::Node>,
    gate: &G,
    station: Station<P::Node, T::Sum, R>,
) -> Report<P::Node, T::Sum, R>
    requires root { P.sound problem.now (P.root problem.now) }
    requires gap { shared.now.gap ≤ 1099511627774 }
    requires ready { IsReady (T.fits tally.now) (members_of (search_tree P.Problem problem.now)) shared.now station }
    ensures report { IsReport (searched (search_tree P.Problem problem.now) (T.join tally.now) (T.none tally.now) (T.of tally.now)
        (λ l. log_view (R.told l) (R.totals l) (R.number l)) (Steal chunk) shared.now.gap) station result }
    ensures fits { T.fits tally.now result.station.hand.sum }
{
    let Station {
        number,
        best,
        pool,
        mail,
        tasks,
        hand,
        log,
    } = station;
    let outlet = Handing {
        problem,
        mail: &shared.mail,
        open: &shared.tasks,
        seat: mail,
        tasks,
        known: Known::Nothing,
    };
    let mut thief = Thief {
        number,
        best,
        pool,
        outlet,
        hand,
        log,
    };
    let end = all_rounds(rt, alloc, problem, tally, chunk, shared, gate, &mut thief);
    report(thief, end)
}

// The report of a worker that has come to this end.
fn report<P: Problem, S: Drop, R: Drop>(
    thief: Thief<Handing<'_, P>, P::Node, S, R>,
    end: End,
) -> Report<P::Node, S, R>
    ensures { result ≡ record { station = thief_station thief.entry; end = end } }
{
    let Thief {
        number,
        best,
        pool,
        outlet,
        hand,
        log,
    } = thief;
    let Handing {
        problem: _,
        mail: _,
        open: _,
        seat,
        tasks,
        known: _,
    } = outlet;
    Report {
        station: Station {
            number,
            best,
            pool,
            mail: seat,
            tasks,
            hand,
            log,
        },
        end,
    }
}
