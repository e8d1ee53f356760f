//! How an ordered search ends: what its workers found together.
ghost use Rattle.std.specs.Prelude.{◌≡◌, ◌≤◌, IfOk, IfErr, IsSome};
ghost use Rattle.yew_laws.specs.SearchTree.{search_tree};
ghost use Rattle.yew_walk.specs.LogViews.{log_view};
ghost use Rattle.yew_ranked.specs.OrderedSearch.{IsOrderedFound, IsOrderedFault};
ghost use Rattle.yew_ranked.specs.Searching.{HasWorked, IsSettled};

use crate::faults::faults_are_ordered;
use crate::joining::{Parts, join_reports};
use crate::station::{RankedReport, RankedShared};
use crate::whole::parts_are_whole;
use std::alloc::Global;
use yew_crew::gather;
use yew_kinds::Tally;
use yew_laws::{Memory, Problem};
use yew_log::Recorder;
use yew_walk::{Hand, SearchFault};

/// What the workers of an ordered search shared, and their reports, in order.
#[derive(Drop)]
pub(crate) struct Worked<S, R> {
    pub shared: RankedShared,
    pub reports: Vec<RankedReport<S, R>>,
}

/// What the reports came to: the hands and the logs of the workers, in order, and the fault of the least worker number that
/// has one.
#[derive(Drop)]
pub(crate) struct Settled<S, R> {
    pub hands: Vec<Hand<S>>,
    pub logs: Vec<R>,
    pub fault: Option<SearchFault>,
}

/// What all workers have found together, and their logs, in order.
#[derive(Drop)]
pub(crate) struct Ended<S, R> {
    pub hand: Hand<S>,
    pub logs: Vec<R>,
}

// Joins the seats of all workers, loads the stop word once more, and ends the incumbent word and the counter of claims.
fn settle<P: Problem, T: Tally<P::Node>, R: Recorder>(
    alloc: Global,
    problem: &P,
    tally: &T,
    depth: u32,
    workers: u32,
    worked: Worked<T::Sum, R>,
) -> Result<Settled<T::Sum, R>, Memory>
    requires { HasWorked (search_tree P.Problem problem.now) (T.join tally.now) (T.none tally.now) (T.of tally.now) (λ log. log_view (R.told log) (R.totals log) (R.number log))
        (T.fits tally.now) depth workers worked.shared worked.reports.items }
    ensures settled { IfOk result (IsSettled worked.reports.items) }
{
    let _ = problem;
    let _ = tally;
    let _ = depth;
    let _ = workers;
    let Worked { shared, reports } = worked;
    let Parts {
        best: best_seat,
        claims: claim_seat,
        stop: mut stop_seat,
        hands,
        logs,
        fault,
    } = join_reports(alloc, &shared, reports)?;
    let RankedShared {
        best,
        claims,
        stop,
        tasks: _,
    } = shared;
    stop.load(&mut stop_seat);
    best.close(best_seat);
    claims.close(claim_seat);
    Ok(Settled { hands, logs, fault })
}

/// Ends an ordered search: the hands of all workers are gathered.
///
/// # Errors
///
/// `Memory` where memory ran out. `AuditFull` where the log of a worker was full: the least worker number that has a
/// fault is named.
pub(crate) fn end_search<P: Problem, T: Tally<P::Node>, R: Recorder>(
    alloc: Global,
    problem: &P,
    tally: &T,
    depth: u32,
    workers: u32,
    worked: Worked<T::Sum, R>,
) -> Result<Ended<T::Sum, R>, SearchFault>
    requires root { P.sound problem.now (P.root problem.now) }
    requires depth { 1 ≤ depth }
    requires worked { HasWorked (search_tree P.Problem problem.now) (T.join tally.now) (T.none tally.now) (T.of tally.now) (λ log. log_view (R.told log) (R.totals log) (R.number log))
        (T.fits tally.now) depth workers worked.shared worked.reports.items }
    ensures found { IfOk result (λ ended. IsOrderedFound (search_tree P.Problem problem.now) (T.join tally.now) (T.none tally.now) (T.of tally.now)
        (λ log. log_view (R.told log) (R.totals log) (R.number log)) depth workers ended.hand ended.logs.items) }
    ensures fault { IfErr result (IsOrderedFault (search_tree P.Problem problem.now) depth workers ((log : R) × IsSome (R.told log))) }
{
    parts_are_whole::<P, T, R>(problem, tally);
    faults_are_ordered::<P, T, R>(problem, tally);
    let Settled { hands, logs, fault } = settle(alloc, problem, tally, depth, workers, worked)?;
    if let Some(fault) = fault {
        return Err(fault);
    }
    let hand = gather(tally, hands);
    Ok(Ended { hand, logs })
}
