//! How the workers of an ordered search begin: a station for each of them, and a thread.
ghost use Rattle.std.specs.Prelude.{◌≡◌, ℕ, ◌-◌, ◌<◌, ◌≤◌, ◌^◌, [], length, map, IfOk, OnOk};
ghost use Rattle.std.specs.List.{AllByRecursion};
ghost use Rattle.std.specs.Thread.{IsSync};
ghost use Rattle.yew_laws.specs.SearchTree.{search_tree};
ghost use Rattle.yew_walk.specs.LogViews.{log_view};
ghost use Rattle.yew_ranked.specs.Starting.{with_shares, IsSeated, IsNewStation, AreStations};
ghost use Rattle.yew_ranked.specs.Stations.{IsRankedReady, IsRankedReport};
ghost use Rattle.yew_ranked.specs.Tasks.{numbered_task, IsTaskOf};
ghost use Rattle.yew_ranked.specs.Whole.{AreRankedReports};
ghost use Rattle.yew_ranked.specs.declared.station.RankedReport.{RankedReport as ReportValue};

use crate::station::{RankedReport, RankedShared, RankedStation};
use crate::worker::ranked_worker;
use std::alloc::Global;
use std::sync::Wait;
use std::thread::{Threads, map_vec};
use yew_io::Gate;
use yew_kinds::Tally;
use yew_laws::{Memory, Problem};
use yew_log::Recorder;
use yew_walk::empty_hand;

// The station of the worker of this number, with seats that are split off the first worker's.
fn split_off<N, T: Tally<N>, R: Recorder>(
    alloc: Global,
    tally: &T,
    shared: &RankedShared,
    first: &mut RankedStation<T::Sum, R>,
    number: u32,
) -> Result<RankedStation<T::Sum, R>, Memory>
    requires best { first.old.best.best ≡ shared.now.best }
    requires best_share { 1 < first.old.best.share }
    requires claims { first.old.claims.claims ≡ shared.now.claims }
    requires claims_share { 1 < first.old.claims.share }
    requires none_claimed { first.old.claims.claimed ≡ [] }
    requires stop { first.old.stop.tasks ≡ shared.now.stop }
    requires stop_share { 1 < first.old.stop.share }
    ensures new { IfOk result (IsNewStation (T.none tally.now) (λ log. log_view (R.told log) (R.totals log) (R.number log)) shared.now number) }
    ensures first { OnOk result (first.new ≡ record first.old {
      best = record first.old.best { share = first.old.best.share - 1 };
      claims = record first.old.claims { share = first.old.claims.share - 1 };
      stop = record first.old.stop { share = first.old.stop.share - 1 };
    }) }
{
    let best = shared.best.split(&mut first.best);
    let claims = shared.claims.split(&mut first.claims);
    let stop = shared.stop.split(&mut first.stop);
    let hand = empty_hand(alloc, tally)?;
    let log = R::fresh(alloc, number)?;
    Ok(RankedStation {
        number,
        best,
        claims,
        stop,
        hand,
        log,
    })
}

/// Makes the stations of 1 to 64 workers, in order, of the first one's, whose seats have the whole shares.
///
/// # Errors
///
/// `Memory` where memory ran out.
pub(crate) fn make_stations<N, T: Tally<N>, R: Recorder>(
    alloc: Global,
    tally: &T,
    shared: &RankedShared,
    mut first: RankedStation<T::Sum, R>,
    workers: u32,
) -> Result<Vec<RankedStation<T::Sum, R>>, Memory>
    requires workers { (1 ≤ workers) × (workers ≤ 64) }
    requires seated { IsSeated shared.now workers first }
    requires none_claimed { first.claims.claimed ≡ [] }
    ensures { IfOk result (λ stations. AreStations (T.none tally.now) (λ log. log_view (R.told log) (R.totals log) (R.number log)) shared.now workers first stations.items) }
{
    let mut stations = Vec::new(alloc);
    let mut number: u32 = 2;
    while number <= workers {
        let station = split_off(alloc, tally, shared, &mut first, number)?;
        stations.push(station)?;
        number += 1;
    }
    stations.insert(0, first)?;
    Ok(stations)
}

/// Starts a worker at each station, in threads of their own as far as they can be had. Answers their reports, in order.
///
/// # Errors
///
/// `Memory` where there was none for the reports.
pub(crate) fn start<P: Problem, T: Tally<P::Node>, R: Recorder, G: Gate, H: Threads + Wait + Sync>(
    rt: &H,
    alloc: Global,
    problem: &P,
    tally: &T,
    shared: &RankedShared,
    gate: &G,
    stations: Vec<RankedStation<T::Sum, R>>,
) -> Result<Vec<RankedReport<T::Sum, R>>, Memory>
    requires root { P.sound problem.now (P.root problem.now) }
    requires tasks { AllByRecursion (IsTaskOf (search_tree P.Problem problem.now)) shared.now.tasks.items }
    requires few { length shared.now.tasks.items ≤ 2 ^ 20 }
    requires ready { AllByRecursion (IsRankedReady (T.fits tally.now) shared.now) stations.items }
    ensures reports { IfOk result (λ reports. (depth : ℕ) → AreRankedReports (search_tree P.Problem problem.now) (T.join tally.now) (T.none tally.now) (T.of tally.now)
        (λ log. log_view (R.told log) (R.totals log) (R.number log)) depth (map numbered_task shared.now.tasks.items) stations.items reports.items) }
    ensures fits { IfOk result (λ reports. AllByRecursion (λ (r : ReportValue T.Sum R). T.fits tally.now r.station.hand.sum) reports.items) }
{
    let work = |station: RankedStation<T::Sum, R>| -> RankedReport<T::Sum, R>
        requires { IsSync H.row × P.sound problem.now (P.root problem.now) × AllByRecursion (IsTaskOf (search_tree P.Problem problem.now)) shared.now.tasks.items
            × (length shared.now.tasks.items ≤ 2 ^ 20) × IsRankedReady (T.fits tally.now) shared.now station }
        ensures { IsRankedReport (search_tree P.Problem problem.entry.now) (T.join tally.entry.now) (T.none tally.entry.now) (T.of tally.entry.now)
            (λ log. log_view (R.told log) (R.totals log) (R.number log)) (map numbered_task shared.entry.now.tasks.items) station result × T.fits tally.entry.now result.station.hand.sum }
    { ranked_worker(rt, alloc, problem, tally, shared, gate, station) };
    let reports = map_vec(rt, stations, &work)?;
    Ok(reports)
}
