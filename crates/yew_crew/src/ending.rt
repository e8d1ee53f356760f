//! How a crew ends: what its workers left, and what they found together.
ghost use Rattle.std.specs.Prelude.{◌≡◌, ◌≤◌, ◌<◌, ◌^◌, All, length, map, sum_by, IfOk, IfErr, IsSome, OnOk};
ghost use Rattle.std.specs.List.{AllByRecursion};
ghost use Rattle.yew_crew.specs.CrewSearch.{IsCrewFault};
ghost use Rattle.yew_crew.specs.Ending.{IsSettled, IsFound};
ghost use Rattle.yew_crew.specs.Starting.{HasWorked};
ghost use Rattle.yew_crew.specs.Resting.{IsAllLeft, IsRested, IsRestRefused};
ghost use Rattle.yew_crew.specs.Stations.{searched, skeleton_of};
ghost use Rattle.yew_crew.specs.declared.coord.Coord.TheVariants as coordination;
ghost use Rattle.yew_laws.specs.SearchTree.{search_tree};
ghost use Rattle.yew_laws.specs.Tasks.{IsAmong, members_of};
ghost use Rattle.yew_stack.specs.Splits.{paths_of};
ghost use Rattle.yew_walk.specs.LogViews.{log_view};

use crate::coord::Coord;
use crate::hands::gather;
use crate::joining::{Parts, join_reports};
use crate::starting::Worked;
use crate::station::Shared;
use std::alloc::Global;
use yew_best::{Best, BestSeat};
use yew_kinds::Tally;
use yew_laws::{Memory, Problem, Task};
use yew_log::Recorder;
use yew_mail::{Mail, MailSeat};
use yew_pool::{Pool, PoolPass};
use yew_walk::{Hand, Keying, Outbox, Plain, SearchFault, walk};

// Ends the pool and the mailboxes, and answers what is left in both.
fn close_tasks<N: Drop>(
    alloc: Global,
    pool: Pool<N>,
    mail: Mail<N>,
    passes: Vec<PoolPass<N>>,
    seats: Vec<MailSeat<N>>,
) -> Result<Vec<Task<N>>, Memory>
    requires pool { All (λ pass. pass.pool ≡ pool) passes.items }
    requires passes { sum_by (λ pass. pass.share) passes.items ≡ length pool.deques }
    requires mail { AllByRecursion (λ seat. seat.mail ≡ mail) seats.items }
    requires seats { sum_by (λ seat. seat.share) seats.items ≡ mail.workers }
    ensures { IfOk result (λ left. IsAllLeft passes.items seats.items left.items) }
{
    let mut left = Vec::new(alloc);
    pool.close(passes, &mut left)?;
    mail.close(seats, &mut left)?;
    Ok(left)
}

// Walks what is left in the first worker's place, with this permitted gap, and shares nothing out. A walk that is refused
// ends it.
fn walk_rest<P: Problem, T: Tally<P::Node>, R: Recorder>(
    alloc: Global,
    problem: &P,
    tally: &T,
    gap: u64,
    best: &Best,
    seat: &mut BestSeat,
    hand: &mut Hand<T::Sum>,
    log: &mut R,
    mut left: Vec<Task<P::Node>>,
) -> Result<(), SearchFault>
    requires root { P.sound problem.now (P.root problem.now) }
    requires seat { seat.old.best ≡ best.now }
    requires space { 65535 ≤ hand.old.path.space }
    requires fits { T.fits tally.now hand.old.sum }
    requires gap { gap ≤ 1099511627774 }
    requires tasks { AllByRecursion (IsAmong (members_of (search_tree P.Problem problem.now))) left.items }
    ensures ok { OnOk result (IsRested (searched (search_tree P.Problem problem.now) (T.join tally.now) (T.none tally.now) (T.of tally.now) (λ log. log_view (R.told log) (R.totals log) (R.number log)) (coordination.Depth 0) gap)
        (paths_of left.items) seat.old hand.old log.old seat.new hand.new log.new) }
    ensures refused { IfErr result (λ fault. IsRestRefused (searched (search_tree P.Problem problem.now) (T.join tally.now) (T.none tally.now) (T.of tally.now)
        (λ log. log_view (R.told log) (R.totals log) (R.number log)) (coordination.Depth 0) gap)
        (paths_of left.items) fault seat.old log.old seat.new log.new) }
    ensures best { seat.new.best ≡ seat.old.best }
    ensures share { seat.new.share ≡ seat.old.share }
    ensures fits { T.fits tally.now hand.new.sum }
{
    while let Some(task) = left.pop() {
        let mut policy = Plain::new();
        let mut outlet = Outbox::new(alloc, problem);
        match walk(
            alloc,
            problem,
            task,
            best,
            seat,
            Keying::Gap(gap),
            &mut policy,
            &mut outlet,
            tally,
            hand,
            log,
        ) {
            Ok(()) => {}
            Err(fault) => return Err(fault),
        }
    }
    Ok(())
}

/// What the reports of a crew came to: the incumbent word with the seat of all, the hands and the logs of the workers, the
/// fault of the least worker number that has one, and the tasks that were left.
#[derive(Drop)]
pub(crate) struct Settled<N, S, R> {
    pub best: Best,
    pub seat: BestSeat,
    pub hands: Vec<Hand<S>>,
    pub logs: Vec<R>,
    pub fault: Option<SearchFault>,
    pub left: Vec<Task<N>>,
}

// Joins the seats of all workers, loads the count once more, and ends the pool and the mailboxes.
fn settle<P: Problem, T: Tally<P::Node>, R: Recorder>(
    alloc: Global,
    problem: &P,
    tally: &T,
    coord: Coord,
    workers: u32,
    worked: Worked<P::Node, T::Sum, R>,
) -> Result<Settled<P::Node, T::Sum, R>, Memory>
    requires { HasWorked (searched (search_tree P.Problem problem.now) (T.join tally.now) (T.none tally.now) (T.of tally.now) (λ log. log_view (R.told log) (R.totals log) (R.number log)) coord worked.shared.gap)
        (T.fits tally.now) (members_of (search_tree P.Problem problem.now)) workers worked.shared worked.reports.items }
    ensures settled { IfOk result (IsSettled worked.shared worked.reports.items) }
{
    let _ = problem;
    let _ = tally;
    let _ = coord;
    let _ = workers;
    let Worked { shared, reports } = worked;
    let Parts {
        best: seat,
        mut tasks,
        passes,
        seats,
        hands,
        logs,
        fault,
    } = join_reports(alloc, &shared, reports)?;
    let Shared {
        best,
        pool,
        mail,
        tasks: open,
        gap: _,
    } = shared;
    open.load(&mut tasks);
    let left = close_tasks(alloc, pool, mail, passes, seats)?;
    Ok(Settled {
        best,
        seat,
        hands,
        logs,
        fault,
        left,
    })
}

/// What all workers of a crew have found together, and their logs, in order.
#[derive(Drop)]
pub(crate) struct Ended<S, R> {
    pub hand: Hand<S>,
    pub logs: Vec<R>,
}

/// Ends a crew: what is left of its tasks is walked in the first worker's place, and the hands are gathered.
///
/// # Errors
///
/// `Memory` where memory ran out. `AuditFull` where the log of a worker was full: the least worker number that has a
/// fault is named, or the first worker where the log was full in the walk of what was left.
pub(crate) fn end_crew<P: Problem, T: Tally<P::Node>, R: Recorder>(
    alloc: Global,
    problem: &P,
    tally: &T,
    coord: Coord,
    workers: u32,
    worked: Worked<P::Node, T::Sum, R>,
) -> Result<Ended<T::Sum, R>, SearchFault>
    requires root { P.sound problem.now (P.root problem.now) }
    requires worked { HasWorked (searched (search_tree P.Problem problem.now) (T.join tally.now) (T.none tally.now) (T.of tally.now) (λ log. log_view (R.told log) (R.totals log) (R.number log)) coord worked.shared.gap)
        (T.fits tally.now) (members_of (search_tree P.Problem problem.now)) workers worked.shared worked.reports.items }
    requires gap { worked.shared.gap ≤ 1099511627774 }
    ensures found { IfOk result (λ ended. IsFound (searched (search_tree P.Problem problem.now) (T.join tally.now) (T.none tally.now) (T.of tally.now) (λ log. log_view (R.told log) (R.totals log) (R.number log)) coord worked.shared.gap)
        workers ended.hand ended.logs.items) }
    ensures fault { IfErr result (IsCrewFault (search_tree P.Problem problem.now) worked.shared.gap (skeleton_of coord) workers ((log : R) × IsSome (R.told log))) }
{
    let gap = worked.shared.gap;
    let Settled {
        best,
        mut seat,
        mut hands,
        mut logs,
        fault,
        left,
    } = settle(alloc, problem, tally, coord, workers, worked)?;
    if let Some(fault) = fault {
        return Err(fault);
    }
    match walk_rest(
        alloc,
        problem,
        tally,
        gap,
        &best,
        &mut seat,
        &mut hands[0],
        &mut logs[0],
        left,
    ) {
        Ok(()) => {}
        Err(fault) => return Err(fault),
    }
    best.close(seat);
    let hand = gather(tally, hands);
    Ok(Ended { hand, logs })
}
