//! How a crew begins: what its workers share, and a station for each of them.
ghost use Rattle.std.specs.Prelude.{◌≡◌, ◌+◌, ◌<◌, ◌≤◌, [], ◌∷◌, length, map, IfOk, OnOk};
ghost use Rattle.std.specs.List.{AllByRecursion};
ghost use Rattle.std.specs.Thread.{IsSync};
ghost use Rattle.yew_crew.specs.Crews.{AreReports};
ghost use Rattle.yew_crew.specs.Reports.{IsReport};
ghost use Rattle.yew_crew.specs.Starting.{new_best, new_open, new_put, ArePasses, IsBegun, AreBegun, IsBeginning, HasWorked, IsCrew, IsSeating};
ghost use Rattle.yew_crew.specs.Stations.{searched, IsCoord, IsReady};
ghost use Rattle.yew_crew.specs.declared.station.Report.{Report as ReportValue};
ghost use Rattle.yew_laws.specs.SearchTree.{search_tree};
ghost use Rattle.yew_laws.specs.Tasks.{members_of};
ghost use Rattle.yew_laws.specs.declared.problem.Task.{Task as TaskValue};
ghost use Rattle.yew_mail.specs.Seats.{new_seat};
ghost use Rattle.yew_mail.specs.Views.{counted_from};
ghost use Rattle.yew_walk.specs.LogViews.{log_view};

use crate::any_worker::worker;
use crate::coord::Coord;
use crate::open_tasks::{Open, OpenSeat};
use crate::station::{Report, Shared, Station};
use std::alloc::Global;
use std::sync::Wait;
use std::thread::{Threads, map_vec};
use yew_best::{Best, BestSeat};
use yew_io::Gate;
use yew_kinds::Tally;
use yew_laws::{Memory, Path, Problem, Task};
use yew_log::Recorder;
use yew_mail::{Mail, MailSeat};
use yew_pool::{Pool, PoolPass};
use yew_walk::empty_hand;

/// The seats of a crew before they are shared out: those of the first worker, and a pass and a mail seat for each one.
#[derive(Drop)]
struct Seats<N> {
    best: BestSeat,
    tasks: OpenSeat,
    passes: Vec<PoolPass<N>>,
    mail: Vec<MailSeat<N>>,
}

/// What all workers share, and a station for each of them, in order.
#[derive(Drop)]
pub(crate) struct Crew<N, S, R> {
    pub shared: Shared<N>,
    pub stations: Vec<Station<N, S, R>>,
}

// The station at a place, from 0, of its seats and its pass.
fn make_station<P: Problem, T: Tally<P::Node>, R: Recorder>(
    alloc: Global,
    problem: &P,
    tally: &T,
    shared: &Shared<P::Node>,
    place: u32,
    best: BestSeat,
    pool: PoolPass<P::Node>,
    mail: MailSeat<P::Node>,
    tasks: OpenSeat,
) -> Result<Station<P::Node, T::Sum, R>, Memory>
    requires place { place < 64 }
    requires best { best ≡ new_best shared.now.best 1 }
    requires pool { pool ≡ new_put (members_of (search_tree P.Problem problem.now)) shared.now.pool place pool.put }
    requires mail { mail ≡ new_seat shared.now.mail (members_of (search_tree P.Problem problem.now)) (place + 1) }
    requires tasks { tasks ≡ new_open shared.now.tasks 1 tasks.made }
    ensures { IfOk result (IsBegun (members_of (search_tree P.Problem problem.now)) (T.none tally.now) (λ log. log_view (R.told log) (R.totals log) (R.number log)) shared.now place tasks.made pool.put) }
{
    let _ = problem;
    let _ = shared;
    let number = place + 1;
    let hand = empty_hand(alloc, tally)?;
    let log = R::fresh(alloc, number)?;
    Ok(Station {
        number,
        best,
        pool,
        mail,
        tasks,
        hand,
        log,
    })
}

// Makes the station of the next worker, with seats that are split off the first one's.
fn make_next<P: Problem, T: Tally<P::Node>, R: Recorder>(
    alloc: Global,
    problem: &P,
    tally: &T,
    shared: &Shared<P::Node>,
    best: &mut BestSeat,
    tasks: &mut OpenSeat,
    passes: &mut Vec<PoolPass<P::Node>>,
    seats: &mut Vec<MailSeat<P::Node>>,
    stations: &mut Vec<Station<P::Node, T::Sum, R>>,
) -> Result<(), Memory>
    requires some { 0 < length passes.old.items }
    requires seating { IsSeating (members_of (search_tree P.Problem problem.now)) (T.none tally.now) (λ log. log_view (R.told log) (R.totals log) (R.number log)) shared.now best.old tasks.old passes.old.items seats.old.items stations.old.items }
    ensures seating { OnOk result (IsSeating (members_of (search_tree P.Problem problem.now)) (T.none tally.now) (λ log. log_view (R.told log) (R.totals log) (R.number log)) shared.now best.new tasks.new passes.new.items seats.new.items stations.new.items) }
    ensures count { OnOk result (length stations.new.items + length passes.new.items ≡ length stations.old.items + length passes.old.items) }
    ensures fewer { OnOk result (length passes.new.items < length passes.old.items) }
{
    let place = stations.len() as u32 + 1;
    let pass = passes.remove(0);
    let seat = seats.remove(0);
    let own_best = shared.best.split(best);
    let own_tasks = shared.tasks.split(tasks);
    let station = make_station(
        alloc, problem, tally, shared, place, own_best, pass, seat, own_tasks,
    )?;
    stations.push(station)?;
    Ok(())
}

// The stations of all workers but the first, with seats that are split off the first one's.
fn make_others<P: Problem, T: Tally<P::Node>, R: Recorder>(
    alloc: Global,
    problem: &P,
    tally: &T,
    shared: &Shared<P::Node>,
    best: &mut BestSeat,
    tasks: &mut OpenSeat,
    mut passes: Vec<PoolPass<P::Node>>,
    mut seats: Vec<MailSeat<P::Node>>,
) -> Result<Vec<Station<P::Node, T::Sum, R>>, Memory>
    requires best { best.old ≡ new_best shared.now.best (length passes.items + 1) }
    requires tasks { tasks.old ≡ new_open shared.now.tasks (length passes.items + 1) 1 }
    requires passes { ArePasses (members_of (search_tree P.Problem problem.now)) shared.now.pool 1 passes.items }
    requires seats { seats.items ≡ map (new_seat shared.now.mail (members_of (search_tree P.Problem problem.now))) (counted_from 2 (length passes.items)) }
    requires few { length passes.items < 64 }
    ensures best { OnOk result (best.new ≡ new_best shared.now.best 1) }
    ensures tasks { OnOk result (tasks.new ≡ new_open shared.now.tasks 1 1) }
    ensures stations { IfOk result (λ stations. AreBegun (members_of (search_tree P.Problem problem.now)) (T.none tally.now) (λ log. log_view (R.told log) (R.totals log) (R.number log)) shared.now 1 stations.items) }
    ensures count { IfOk result (λ stations. length stations.items ≡ length passes.items) }
{
    let mut stations = Vec::new(alloc);
    while !passes.is_empty() {
        make_next(
            alloc,
            problem,
            tally,
            shared,
            best,
            tasks,
            &mut passes,
            &mut seats,
            &mut stations,
        )?;
    }
    Ok(stations)
}

// Puts the root's task into the first worker's pass.
fn put_root<P: Problem>(
    alloc: Global,
    problem: &P,
    pool: &Pool<P::Node>,
    pass: &mut PoolPass<P::Node>,
) -> Result<(), Memory>
    requires root { P.sound problem.now (P.root problem.now) }
    requires pass { pass.old ≡ new_put (members_of (search_tree P.Problem problem.now)) pool.now 0 [] }
    ensures { OnOk result ((root : TaskValue P.Node) × (root.path.numbers ≡ [])
        × (pass.new ≡ new_put (members_of (search_tree P.Problem problem.now)) pool.now 0 (root ∷ []))) }
{
    let path = Path::empty(alloc, 0)?;
    let node = problem.root(alloc)?;
    let root = Task { path, node };
    let Ok(()) = pool.put(pass, root) else {
        return Err(Memory);
    };
    Ok(())
}

// What the workers share, with the seats of all, where this gap is permitted. The root's task is counted as made before
// there is a second worker.
fn make_shared<P: Problem>(
    alloc: Global,
    problem: &P,
    gap: u64,
    workers: u32,
) -> Result<(Shared<P::Node>, Seats<P::Node>), Memory>
    requires { (1 ≤ workers) × (workers ≤ 64) }
    ensures beginning { IfOk result (λ r. IsBeginning (members_of (search_tree P.Problem problem.now)) workers r.0 r.1) }
    ensures gap { IfOk result (λ r. r.0.gap ≡ gap) }
{
    let (best, best_seat) = Best::new(alloc, workers)?;
    let (tasks, mut task_seat) = Open::new(alloc, workers)?;
    let (pool, passes) = Pool::new(alloc, problem, workers)?;
    let (mail, seats) = Mail::new(alloc, problem, workers)?;
    tasks.made(&mut task_seat, 1);
    let shared = Shared {
        best,
        pool,
        mail,
        tasks,
        gap,
    };
    let seats = Seats {
        best: best_seat,
        tasks: task_seat,
        passes,
        mail: seats,
    };
    Ok((shared, seats))
}

// The stations of all workers, of whom the first one's pass puts the root's task.
fn make_stations<P: Problem, T: Tally<P::Node>, R: Recorder>(
    alloc: Global,
    problem: &P,
    tally: &T,
    shared: &Shared<P::Node>,
    seats: Seats<P::Node>,
    workers: u32,
) -> Result<Vec<Station<P::Node, T::Sum, R>>, Memory>
    requires root { P.sound problem.now (P.root problem.now) }
    requires workers { (1 ≤ workers) × (workers ≤ 64) }
    requires seats { IsBeginning (members_of (search_tree P.Problem problem.now)) workers shared.now seats }
    ensures { IfOk result (λ stations. IsCrew (members_of (search_tree P.Problem problem.now)) (T.none tally.now) (λ log. log_view (R.told log) (R.totals log) (R.number log)) shared.now workers stations.items) }
{
    let _ = workers;
    let Seats {
        mut best,
        mut tasks,
        mut passes,
        mut mail,
    } = seats;
    let mut pass = passes.remove(0);
    let seat = mail.remove(0);
    put_root(alloc, problem, &shared.pool, &mut pass)?;
    let mut stations = make_others(
        alloc, problem, tally, shared, &mut best, &mut tasks, passes, mail,
    )?;
    let first = make_station(alloc, problem, tally, shared, 0, best, pass, seat, tasks)?;
    stations.insert(0, first)?;
    Ok(stations)
}

/// Makes a crew of 1 to 64 workers, which permits this gap. The root's task is made, and the first worker's pass has put it.
///
/// # Errors
///
/// `Memory` where memory ran out.
pub(crate) fn make_crew<P: Problem, T: Tally<P::Node>, R: Recorder>(
    alloc: Global,
    problem: &P,
    tally: &T,
    gap: u64,
    workers: u32,
) -> Result<Crew<P::Node, T::Sum, R>, Memory>
    requires root { P.sound problem.now (P.root problem.now) }
    requires workers { (1 ≤ workers) × (workers ≤ 64) }
    ensures crew { IfOk result (λ crew. IsCrew (members_of (search_tree P.Problem problem.now)) (T.none tally.now) (λ log. log_view (R.told log) (R.totals log) (R.number log)) crew.shared workers crew.stations.items) }
    ensures gap { IfOk result (λ crew. crew.shared.gap ≡ gap) }
{
    let (shared, seats) = make_shared(alloc, problem, gap, workers)?;
    let stations = make_stations(alloc, problem, tally, &shared, seats, workers)?;
    Ok(Crew { shared, stations })
}

/// Starts a worker at each station, in threads of their own as far as they can be had. Answers their reports, in order.
///
/// # Errors
///
/// `Memory` where there was none for the reports.
pub(crate) fn start<P: Problem, T: Tally<P::Node>, R: Recorder, G: Gate, H: Threads + Wait + Sync>(
    rt: &H,
    alloc: Global,
    problem: &P,
    tally: &T,
    coord: Coord,
    shared: &Shared<P::Node>,
    gate: &G,
    stations: Vec<Station<P::Node, T::Sum, R>>,
) -> Result<Vec<Report<P::Node, T::Sum, R>>, Memory>
    requires root { P.sound problem.now (P.root problem.now) }
    requires coord { IsCoord coord }
    requires gap { shared.now.gap ≤ 1099511627774 }
    requires ready { AllByRecursion (IsReady (T.fits tally.now) (members_of (search_tree P.Problem problem.now)) shared.now) stations.items }
    ensures reports { IfOk result (λ reports. AreReports (searched (search_tree P.Problem problem.now) (T.join tally.now) (T.none tally.now) (T.of tally.now) (λ log. log_view (R.told log) (R.totals log) (R.number log)) coord shared.now.gap) stations.items reports.items) }
    ensures fits { IfOk result (λ reports. AllByRecursion (λ (r : ReportValue P.Node T.Sum R). T.fits tally.now r.station.hand.sum) reports.items) }
{
    let work = |station: Station<P::Node, T::Sum, R>| -> Report<P::Node, T::Sum, R>
        requires { IsSync H.row × P.sound problem.now (P.root problem.now) × IsCoord coord × (shared.now.gap ≤ 1099511627774) × IsReady (T.fits tally.now) (members_of (search_tree P.Problem problem.now)) shared.now station }
        ensures { IsReport (searched (search_tree P.Problem problem.entry.now) (T.join tally.entry.now) (T.none tally.entry.now) (T.of tally.entry.now) (λ log. log_view (R.told log) (R.totals log) (R.number log)) coord shared.entry.now.gap) station result × T.fits tally.entry.now result.station.hand.sum }
    { worker(rt, alloc, problem, tally, coord, shared, gate, station) };
    let reports = map_vec(rt, stations, &work)?;
    Ok(reports)
}

/// What the workers of a crew shared, and their reports, in order.
#[derive(Drop)]
pub(crate) struct Worked<N, S, R> {
    pub shared: Shared<N>,
    pub reports: Vec<Report<N, S, R>>,
}

/// Makes a crew of 1 to 64 workers, which permits this gap, and lets it work.
///
/// # Errors
///
/// `Memory` where memory ran out.
pub(crate) fn run_crew<
    P: Problem,
    T: Tally<P::Node>,
    R: Recorder,
    G: Gate,
    H: Threads + Wait + Sync,
>(
    rt: &H,
    alloc: Global,
    problem: &P,
    tally: &T,
    gap: u64,
    coord: Coord,
    workers: u32,
    gate: &G,
) -> Result<Worked<P::Node, T::Sum, R>, Memory>
    requires root { P.sound problem.now (P.root problem.now) }
    requires workers { (1 ≤ workers) × (workers ≤ 64) }
    requires gap { gap ≤ 1099511627774 }
    requires coord { IsCoord coord }
    ensures worked { IfOk result (λ worked. HasWorked (searched (search_tree P.Problem problem.now) (T.join tally.now) (T.none tally.now) (T.of tally.now) (λ log. log_view (R.told log) (R.totals log) (R.number log)) coord worked.shared.gap)
        (T.fits tally.now) (members_of (search_tree P.Problem problem.now)) workers worked.shared worked.reports.items) }
    ensures gap { IfOk result (λ worked. worked.shared.gap ≡ gap) }
{
    let Crew { shared, stations } = make_crew(alloc, problem, tally, gap, workers)?;
    let reports = start(rt, alloc, problem, tally, coord, &shared, gate, stations)?;
    Ok(Worked { shared, reports })
}
