//! How what the workers of an ordered search carried comes together again.
ghost use Rattle.std.specs.Prelude.{◌≡◌, ◌<◌, ◌++◌, [], ◌∷◌, length, vec_len, option_to_list, IsNone, IsSome, IfSome, IfOk, OnOk};
ghost use Rattle.std.specs.List.{AllByRecursion};
ghost use Rattle.yew_crew.specs.Joining.{first_fault};
ghost use Rattle.yew_ranked.specs.Joining.{IsAt, IsJoined, IsFirst, AreParts};
ghost use Rattle.yew_ranked.specs.declared.station.RankedReport.{RankedReport as ReportValue};

use crate::claims::ClaimSeat;
use crate::station::{RankedReport, RankedShared, RankedStation};
use std::alloc::Global;
use yew_best::BestSeat;
use yew_crew::{End, OpenSeat};
use yew_laws::Memory;
use yew_walk::{Hand, SearchFault};

/// What the stations of workers carried, part by part: their seats are joined, and the hands and the logs stand in the order
/// of the workers. The fault is that of the least worker number that has one.
#[derive(Drop)]
pub(crate) struct Parts<S, R> {
    pub best: BestSeat,
    pub claims: ClaimSeat,
    pub stop: OpenSeat,
    pub hands: Vec<Hand<S>>,
    pub logs: Vec<R>,
    pub fault: Option<SearchFault>,
}

// Takes off the last report, if there is one.
#[tactic(auto, using(yew_crew::proofs::Rows::all_but_last))]
fn last_off<S: Drop, R: Drop>(
    shared: &RankedShared,
    reports: &mut Vec<RankedReport<S, R>>,
) -> Option<RankedReport<S, R>>
    requires { AllByRecursion (λ (r : ReportValue S R). IsAt shared.now.best shared.now.claims shared.now.stop r.station) reports.old.items }
    ensures items { reports.old.items ≡ reports.new.items ++ option_to_list result }
    ensures len { IsSome result → vec_len reports.new < vec_len reports.old }
    ensures none { IsNone result → reports.old.items ≡ [] }
    ensures last { IfSome result (λ report. IsAt shared.now.best shared.now.claims shared.now.stop report.station) }
    ensures others { AllByRecursion (λ (r : ReportValue S R). IsAt shared.now.best shared.now.claims shared.now.stop r.station) reports.new.items }
{
    let _ = shared;
    reports.pop()
}

// Keeps the fault that is there, or else that of a worker's end, if it has one.
fn note_fault(fault: &mut Option<SearchFault>, end: End)
    ensures { fault.new ≡ first_fault fault.old end }
{
    if fault.is_some() {
        return;
    }
    if let End::Fault(other) = end {
        *fault = Some(other);
    }
}

// Puts what one more worker carried behind what others carried.
fn join_one<S: Drop, R: Drop>(
    shared: &RankedShared,
    parts: &mut Parts<S, R>,
    report: RankedReport<S, R>,
) -> Result<(), Memory>
    requires best { parts.old.best.best ≡ shared.now.best }
    requires claims { parts.old.claims.claims ≡ shared.now.claims }
    requires stop { parts.old.stop.tasks ≡ shared.now.stop }
    requires seated { IsAt shared.now.best shared.now.claims shared.now.stop report.station }
    ensures ok { OnOk result (IsJoined parts.old (report ∷ []) parts.new) }
    ensures same_best { OnOk result (parts.new.best.best ≡ parts.old.best.best) }
    ensures same_claims { OnOk result (parts.new.claims.claims ≡ parts.old.claims.claims) }
    ensures same_stop { OnOk result (parts.new.stop.tasks ≡ parts.old.stop.tasks) }
{
    let RankedReport { station, end } = report;
    let RankedStation {
        number: _,
        best,
        claims,
        stop,
        hand,
        log,
    } = station;
    shared.best.join(&mut parts.best, best);
    shared.claims.join(&mut parts.claims, claims);
    shared.stop.join(&mut parts.stop, stop);
    parts.hands.push(hand)?;
    parts.logs.push(log)?;
    note_fault(&mut parts.fault, end);
    Ok(())
}

// Takes reports apart, in order, behind what is there already.
fn take_apart<S: Drop, R: Drop>(
    shared: &RankedShared,
    parts: &mut Parts<S, R>,
    mut reports: Vec<RankedReport<S, R>>,
) -> Result<(), Memory>
    requires best { parts.old.best.best ≡ shared.now.best }
    requires claims { parts.old.claims.claims ≡ shared.now.claims }
    requires stop { parts.old.stop.tasks ≡ shared.now.stop }
    requires seated { AllByRecursion (λ (r : ReportValue S R). IsAt shared.now.best shared.now.claims shared.now.stop r.station) reports.items }
    ensures ok { OnOk result (IsJoined parts.old reports.items parts.new) }
    ensures same_best { OnOk result (parts.new.best.best ≡ parts.old.best.best) }
    ensures same_claims { OnOk result (parts.new.claims.claims ≡ parts.old.claims.claims) }
    ensures same_stop { OnOk result (parts.new.stop.tasks ≡ parts.old.stop.tasks) }
{
    let Some(last) = last_off(shared, &mut reports) else {
        return Ok(());
    };
    take_apart(shared, parts, reports)?;
    join_one(shared, parts, last)
}

// What the first worker carried.
fn begin<S: Drop, R: Drop>(alloc: Global, report: RankedReport<S, R>) -> Result<Parts<S, R>, Memory>
    ensures { IfOk result (IsFirst report) }
{
    let RankedReport { station, end } = report;
    let RankedStation {
        number: _,
        best,
        claims,
        stop,
        hand,
        log,
    } = station;
    let mut hands = Vec::new(alloc);
    hands.push(hand)?;
    let mut logs = Vec::new(alloc);
    logs.push(log)?;
    let mut fault = None;
    note_fault(&mut fault, end);
    Ok(Parts {
        best,
        claims,
        stop,
        hands,
        logs,
        fault,
    })
}

/// Takes the reports of all workers apart, of which there is at least one. Their seats are joined, in order.
///
/// # Errors
///
/// `Memory` where there was none for the lists.
pub(crate) fn join_reports<S: Drop, R: Drop>(
    alloc: Global,
    shared: &RankedShared,
    mut reports: Vec<RankedReport<S, R>>,
) -> Result<Parts<S, R>, Memory>
    requires some { 0 < length reports.items }
    requires seated { AllByRecursion (λ (r : ReportValue S R). IsAt shared.now.best shared.now.claims shared.now.stop r.station) reports.items }
    ensures parts { IfOk result (AreParts reports.items) }
    ensures best { IfOk result (λ parts. parts.best.best ≡ shared.now.best) }
    ensures claims { IfOk result (λ parts. parts.claims.claims ≡ shared.now.claims) }
    ensures stop { IfOk result (λ parts. parts.stop.tasks ≡ shared.now.stop) }
{
    let first = reports.remove(0);
    let mut parts = begin(alloc, first)?;
    take_apart(shared, &mut parts, reports)?;
    Ok(parts)
}
