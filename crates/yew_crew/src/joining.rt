//! How what the workers of a crew carried comes together again.
ghost use Rattle.std.specs.Prelude.{◌≡◌, ◌<◌, ◌++◌, [], ◌∷◌, length, vec_len, option_to_list, IsNone, IsSome, IfSome, IfOk, OnOk};
ghost use Rattle.std.specs.List.{AllByRecursion};
ghost use Rattle.yew_crew.specs.Crews.{IsSeated};
ghost use Rattle.yew_crew.specs.Joining.{first_fault, IsJoined, IsFirst, AreParts};
ghost use Rattle.yew_crew.specs.declared.station.Report.{Report};

use crate::open_tasks::OpenSeat;
use crate::station::{End, Report, Shared, Station};
use std::alloc::Global;
use yew_best::BestSeat;
use yew_laws::Memory;
use yew_mail::MailSeat;
use yew_pool::PoolPass;
use yew_walk::{Hand, SearchFault};

/// What the stations of workers carried, part by part: the seats at the incumbent word and at the open tasks are joined,
/// and all else stands in the order of the workers. The fault is that of the least worker number that has one.
#[derive(Drop)]
pub(crate) struct Parts<N, S, R> {
    pub best: BestSeat,
    pub tasks: OpenSeat,
    pub passes: Vec<PoolPass<N>>,
    pub seats: Vec<MailSeat<N>>,
    pub hands: Vec<Hand<S>>,
    pub logs: Vec<R>,
    pub fault: Option<SearchFault>,
}

// Takes off the last report, if there is one.
#[tactic(auto, using(crate::proofs::Rows::all_but_last))]
fn last_off<N: Drop, S: Drop, R: Drop>(
    shared: &Shared<N>,
    reports: &mut Vec<Report<N, S, R>>,
) -> Option<Report<N, S, R>>
    requires { AllByRecursion (λ (r : Report N S R). IsSeated shared.now.best shared.now.tasks r.station) reports.old.items }
    ensures items { reports.old.items ≡ reports.new.items ++ option_to_list result }
    ensures len { IsSome result → vec_len reports.new < vec_len reports.old }
    ensures none { IsNone result → reports.old.items ≡ [] }
    ensures last { IfSome result (λ report. IsSeated shared.now.best shared.now.tasks report.station) }
    ensures others { AllByRecursion (λ (r : Report N S R). IsSeated shared.now.best shared.now.tasks r.station) reports.new.items }
{
    let _ = shared;
    reports.pop()
}

// Puts what one more worker carried behind what others carried.
fn join_one<N: Drop, S: Drop, R: Drop>(
    shared: &Shared<N>,
    parts: &mut Parts<N, S, R>,
    report: Report<N, S, R>,
) -> Result<(), Memory>
    requires best { parts.old.best.best ≡ shared.now.best }
    requires tasks { parts.old.tasks.tasks ≡ shared.now.tasks }
    requires seated { IsSeated shared.now.best shared.now.tasks report.station }
    ensures ok { OnOk result (IsJoined parts.old (report ∷ []) parts.new) }
    ensures same_best { OnOk result (parts.new.best.best ≡ parts.old.best.best) }
    ensures same_tasks { OnOk result (parts.new.tasks.tasks ≡ parts.old.tasks.tasks) }
{
    let Report { station, end } = report;
    let Station {
        number: _,
        best,
        pool,
        mail,
        tasks,
        hand,
        log,
    } = station;
    shared.best.join(&mut parts.best, best);
    shared.tasks.join(&mut parts.tasks, tasks);
    parts.passes.push(pool)?;
    parts.seats.push(mail)?;
    parts.hands.push(hand)?;
    parts.logs.push(log)?;
    note_fault(&mut parts.fault, end);
    Ok(())
}

// Keeps the fault that is there, or else that of a worker's end, if it has one.
fn note_fault(fault: &mut Option<SearchFault>, end: End)
    ensures { fault.new ≡ first_fault fault.old end }
{
    if fault.is_some() {
        return;
    }
    if let End::Fault(other) = end {
        *fault = Some(other);
    }
}

// Takes reports apart, in order, behind what is there already.
fn take_apart<N: Drop, S: Drop, R: Drop>(
    shared: &Shared<N>,
    parts: &mut Parts<N, S, R>,
    mut reports: Vec<Report<N, S, R>>,
) -> Result<(), Memory>
    requires best { parts.old.best.best ≡ shared.now.best }
    requires tasks { parts.old.tasks.tasks ≡ shared.now.tasks }
    requires seated { AllByRecursion (λ (r : Report N S R). IsSeated shared.now.best shared.now.tasks r.station) reports.items }
    ensures ok { OnOk result (IsJoined parts.old reports.items parts.new) }
    ensures same_best { OnOk result (parts.new.best.best ≡ parts.old.best.best) }
    ensures same_tasks { OnOk result (parts.new.tasks.tasks ≡ parts.old.tasks.tasks) }
{
    let Some(last) = last_off(shared, &mut reports) else {
        return Ok(());
    };
    take_apart(shared, parts, reports)?;
    join_one(shared, parts, last)
}

// What the first worker carried.
fn begin<N: Drop, S: Drop, R: Drop>(
    alloc: Global,
    report: Report<N, S, R>,
) -> Result<Parts<N, S, R>, Memory>
    ensures { IfOk result (IsFirst report) }
{
    let Report { station, end } = report;
    let Station {
        number: _,
        best,
        pool,
        mail,
        tasks,
        hand,
        log,
    } = station;
    let mut passes = Vec::new(alloc);
    passes.push(pool)?;
    let mut seats = Vec::new(alloc);
    seats.push(mail)?;
    let mut hands = Vec::new(alloc);
    hands.push(hand)?;
    let mut logs = Vec::new(alloc);
    logs.push(log)?;
    let mut fault = None;
    note_fault(&mut fault, end);
    Ok(Parts {
        best,
        tasks,
        passes,
        seats,
        hands,
        logs,
        fault,
    })
}

/// Takes the reports of all workers apart, of which there is at least one. Their seats are joined, in order.
///
/// # Errors
///
/// `Memory` where there was none for the lists.
pub(crate) fn join_reports<N: Drop, S: Drop, R: Drop>(
    alloc: Global,
    shared: &Shared<N>,
    mut reports: Vec<Report<N, S, R>>,
) -> Result<Parts<N, S, R>, Memory>
    requires some { 0 < length reports.items }
    requires seated { AllByRecursion (λ (r : Report N S R). IsSeated shared.now.best shared.now.tasks r.station) reports.items }
    ensures parts { IfOk result (AreParts reports.items) }
    ensures best { IfOk result (λ parts. parts.best.best ≡ shared.now.best) }
    ensures tasks { IfOk result (λ parts. parts.tasks.tasks ≡ shared.now.tasks) }
{
    let first = reports.remove(0);
    let mut parts = begin(alloc, first)?;
    take_apart(shared, &mut parts, reports)?;
    Ok(parts)
}
