//! A worker that takes its tasks from the pool and spawns others into it.
ghost use Rattle.std.specs.Prelude.{◌≡◌, ◌≤◌, ◌∷◌, [], OnOk, IfErr};
ghost use Rattle.yew_laws.specs.SearchTree.{search_tree, IsTask};
ghost use Rattle.yew_laws.specs.Tasks.{members_of};
ghost use Rattle.yew_walk.specs.LogViews.{log_view};
ghost use Rattle.yew_crew.specs.Reports.{IsReport};
ghost use Rattle.yew_crew.specs.Stations.{searched, IsCoord, Spawns, IsReady};
ghost use Rattle.yew_crew.specs.Turns.{station_of, IsTurned};
ghost use Rattle.yew_crew.specs.Working.{IsStep, IsBrokenStep, IsWorking};
ghost use Rattle.yew_crew.specs.declared.station.Station.{Station as StationValue};

use crate::coord::Coord;
use crate::spawn::walk_spawning;
use crate::spawning::Spawning;
use crate::station::{End, Report, Shared, Station};
use crossbeam_utils::Backoff;
use std::alloc::Global;
use std::sync::Wait;
use std::thread::Threads;
use yew_best::{Best, BestSeat};
use yew_io::Gate;
use yew_kinds::Tally;
use yew_laws::{Problem, Task};
use yew_log::Recorder;
use yew_mail::MailSeat;
use yew_pool::Take;
use yew_walk::{Budget, Depth, Hand, SearchFault};

/// What a worker carries that spawns: its station, with the outlet in place of its pass and its seat at the open tasks.
#[derive(Drop)]
pub(crate) struct Spawner<O, N, S, R> {
    pub number: u32,
    pub best: BestSeat,
    pub outlet: O,
    pub mail: MailSeat<N>,
    pub hand: Hand<S>,
    pub log: R,
}

/// What a worker's turn came to.
#[derive(Drop)]
pub(crate) enum Turn {
    /// A task was walked.
    Walked,
    /// There was no task to take, but some are open.
    Idle,
    /// The worker has come to its end.
    Ended(End),
}

// Walks a task with a fresh policy, and counts it as ended.
fn walk_task<P: Problem, T: Tally<P::Node>, R: Recorder>(
    alloc: Global,
    problem: &P,
    tally: &T,
    coord: Coord,
    gap: u64,
    best: &Best,
    task: Task<P::Node>,
    spawner: &mut Spawner<Spawning<'_, P>, P::Node, T::Sum, R>,
) -> Result<(), SearchFault>
    requires root { P.sound problem.now (P.root problem.now) }
    requires task { IsTask P.Problem problem.now task.path.numbers task.node }
    requires coord { IsCoord coord }
    requires spawns { Spawns coord }
    requires gap { gap ≤ 1099511627774 }
    requires seat { spawner.old.best.best ≡ best.now }
    requires outlet { spawner.old.outlet.problem ≡ problem.now }
    requires space { 65535 ≤ spawner.old.hand.path.space }
    requires fits { T.fits tally.now spawner.old.hand.sum }
    ensures step { OnOk result (IsStep (searched (search_tree P.Problem problem.now) (T.join tally.now) (T.none tally.now) (T.of tally.now)
        (λ l. log_view (R.told l) (R.totals l) (R.number l)) coord gap) task.path.numbers (station_of spawner.old) (station_of spawner.new)) }
    ensures refused { IfErr result (λ fault. IsBrokenStep (searched (search_tree P.Problem problem.now) (T.join tally.now) (T.none tally.now) (T.of tally.now)
        (λ l. log_view (R.told l) (R.totals l) (R.number l)) coord gap) task.path.numbers fault (station_of spawner.old) (station_of spawner.new)) }
    ensures fits { T.fits tally.now spawner.new.hand.sum }
    ensures problem { spawner.new.outlet.problem ≡ spawner.old.outlet.problem }
{
    match coord {
        Coord::Depth(depth) => walk_spawning(
            alloc,
            problem,
            task,
            best,
            &mut spawner.best,
            coord,
            gap,
            &mut Depth::new(depth),
            &mut spawner.outlet,
            tally,
            &mut spawner.hand,
            &mut spawner.log,
        ),
        Coord::Budget(every) => walk_spawning(
            alloc,
            problem,
            task,
            best,
            &mut spawner.best,
            coord,
            gap,
            &mut Budget::new(every),
            &mut spawner.outlet,
            tally,
            &mut spawner.hand,
            &mut spawner.log,
        ),
        Coord::Steal(_) => unreachable!(),
    }
}

// Walks a task that was taken. Where the walk is refused, all are told to stop.
fn task_turn<P: Problem, T: Tally<P::Node>, R: Recorder>(
    alloc: Global,
    problem: &P,
    tally: &T,
    coord: Coord,
    gap: u64,
    best: &Best,
    task: Task<P::Node>,
    spawner: &mut Spawner<Spawning<'_, P>, P::Node, T::Sum, R>,
) -> Turn
    requires root { P.sound problem.now (P.root problem.now) }
    requires task { IsTask P.Problem problem.now task.path.numbers task.node }
    requires coord { IsCoord coord }
    requires spawns { Spawns coord }
    requires gap { gap ≤ 1099511627774 }
    requires seat { spawner.old.best.best ≡ best.now }
    requires outlet { spawner.old.outlet.problem ≡ problem.now }
    requires space { 65535 ≤ spawner.old.hand.path.space }
    requires fits { T.fits tally.now spawner.old.hand.sum }
    ensures turned { (first : StationValue P.Node T.Sum R) → T.fits tally.now first.hand.sum
        → IsWorking (searched (search_tree P.Problem problem.now) (T.join tally.now) (T.none tally.now) (T.of tally.now)
        (λ l. log_view (R.told l) (R.totals l) (R.number l)) coord gap) (task.path.numbers ∷ []) first (station_of spawner.old)
        → IsTurned (searched (search_tree P.Problem problem.now) (T.join tally.now) (T.none tally.now) (T.of tally.now)
        (λ l. log_view (R.told l) (R.totals l) (R.number l)) coord gap) first (station_of spawner.new) result }
    ensures fits { T.fits tally.now spawner.new.hand.sum }
    ensures problem { spawner.new.outlet.problem ≡ spawner.old.outlet.problem }
{
    match walk_task(alloc, problem, tally, coord, gap, best, task, spawner) {
        Ok(()) => Turn::Walked,
        Err(fault) => {
            spawner.outlet.stop();
            Turn::Ended(End::Fault(fault))
        }
    }
}

// One turn: looks whether all are told to stop, and takes a task and walks it, or looks whether any is open.
fn take_turn<P: Problem, T: Tally<P::Node>, R: Recorder, G: Gate, H: Threads + Wait + Sync>(
    rt: &H,
    alloc: Global,
    problem: &P,
    tally: &T,
    coord: Coord,
    gap: u64,
    best: &Best,
    gate: &G,
    taken: &mut u64,
    spawner: &mut Spawner<Spawning<'_, P>, P::Node, T::Sum, R>,
) -> Turn
    requires root { P.sound problem.now (P.root problem.now) }
    requires coord { IsCoord coord }
    requires spawns { Spawns coord }
    requires gap { gap ≤ 1099511627774 }
    requires seat { spawner.old.best.best ≡ best.now }
    requires outlet { spawner.old.outlet.problem ≡ problem.now }
    requires space { 65535 ≤ spawner.old.hand.path.space }
    requires fits { T.fits tally.now spawner.old.hand.sum }
    ensures turned { (first : StationValue P.Node T.Sum R) → T.fits tally.now first.hand.sum
        → IsWorking (searched (search_tree P.Problem problem.now) (T.join tally.now) (T.none tally.now) (T.of tally.now)
        (λ l. log_view (R.told l) (R.totals l) (R.number l)) coord gap) [] first (station_of spawner.old)
        → IsTurned (searched (search_tree P.Problem problem.now) (T.join tally.now) (T.none tally.now) (T.of tally.now)
        (λ l. log_view (R.told l) (R.totals l) (R.number l)) coord gap) first (station_of spawner.new) result }
    ensures fits { T.fits tally.now spawner.new.hand.sum }
    ensures problem { spawner.new.outlet.problem ≡ spawner.old.outlet.problem }
{
    if spawner.outlet.stopped() {
        return Turn::Ended(End::Stopped);
    }
    match spawner.outlet.take(rt) {
        Take::Task(task) => {
            *taken = taken.saturating_add(1);
            gate.at(rt, spawner.number, *taken);
            task_turn(alloc, problem, tally, coord, gap, best, task, spawner)
        }
        Take::Empty => {
            if spawner.outlet.load() == 0 {
                Turn::Ended(End::Done)
            } else {
                Turn::Idle
            }
        }
    }
}

/// Takes tasks from the pool and walks them, and spawns others into it, until no task is open, or somebody has told all
/// to stop, or a walk is refused, which tells all to stop.
pub(crate) fn spawn_worker<
    P: Problem,
    T: Tally<P::Node>,
    R: Recorder,
    G: Gate,
    H: Threads + Wait + Sync,
>(
    rt: &H,
    alloc: Global,
    problem: &P,
    tally: &T,
    coord: Coord,
    shared: &Shared<P::Node>,
    gate: &G,
    station: Station<P::Node, T::Sum, R>,
) -> Report<P::Node, T::Sum, R>
    requires root { P.sound problem.now (P.root problem.now) }
    requires coord { IsCoord coord }
    requires spawns { Spawns coord }
    requires gap { shared.now.gap ≤ 1099511627774 }
    requires ready { IsReady (T.fits tally.now) (members_of (search_tree P.Problem problem.now)) shared.now station }
    ensures report { IsReport (searched (search_tree P.Problem problem.now) (T.join tally.now) (T.none tally.now) (T.of tally.now)
        (λ l. log_view (R.told l) (R.totals l) (R.number l)) coord shared.now.gap) station result }
    ensures fits { T.fits tally.now result.station.hand.sum }
{
    let Station {
        number,
        best,
        pool,
        mail,
        tasks,
        hand,
        log,
    } = station;
    let outlet = Spawning {
        problem,
        pool: &shared.pool,
        open: &shared.tasks,
        pass: pool,
        tasks,
    };
    let mut spawner = Spawner {
        number,
        best,
        outlet,
        mail,
        hand,
        log,
    };
    let mut taken = 0;
    let backoff = Backoff::new();
    for _ in rt.forever() {
        match take_turn(
            rt,
            alloc,
            problem,
            tally,
            coord,
            shared.gap,
            &shared.best,
            gate,
            &mut taken,
            &mut spawner,
        ) {
            Turn::Walked => backoff.reset(),
            Turn::Idle => backoff.snooze(),
            Turn::Ended(end) => return report(spawner, end),
        }
    }
    unreachable!()
}

// The report of a worker that has come to this end.
fn report<P: Problem, S: Drop, R: Drop>(
    spawner: Spawner<Spawning<'_, P>, P::Node, S, R>,
    end: End,
) -> Report<P::Node, S, R>
    ensures { result ≡ record { station = station_of spawner.entry; end = end } }
{
    let Spawner {
        number,
        best,
        outlet,
        mail,
        hand,
        log,
    } = spawner;
    let Spawning {
        problem: _,
        pool: _,
        open: _,
        pass,
        tasks,
    } = outlet;
    Report {
        station: Station {
            number,
            best,
            pool: pass,
            mail,
            tasks,
            hand,
            log,
        },
        end,
    }
}
