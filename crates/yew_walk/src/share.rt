//! How a walk records what it does, and shares its tasks out.

ghost use Rattle.std.specs.Prelude.{◌≡◌, ◌∷◌, [], ◌++◌, Bool, IfErr, OnOk, OnErr};
ghost use Rattle.std.specs.Option.{option_map};
ghost use Rattle.yew_stack.specs.Splits.{paths_of};
ghost use Rattle.yew_stack.specs.ToCome.{AllOpen};
ghost use Rattle.yew_walk.specs.Asking.{input_of};
ghost use Rattle.yew_walk.specs.LogViews.{log_view, noted, all_noted, IsWithin, RefusesNote};
ghost use Rattle.yew_walk.specs.Sharing.{StopsNoting, IsShared, StopsSharing, IsAsked, StopsAsking};

use crate::fault::SearchFault;
use crate::outlet::Outlet;
use crate::policy::{Act, Event, Policy};
use std::alloc::Global;
use yew_laws::{Path, Problem, Task};
use yew_log::{LogEnd, Recorder, What};
use yew_stack::{Chunk, Descent};

/// Records an entry. After a refusal the log is unchanged.
#[inline(always)]
pub(crate) fn note<R: Recorder>(
    log: &mut R,
    what: What,
    path: &Path,
    first: u64,
    second: u64,
) -> Result<(), SearchFault>
    ensures ok { OnOk result (log_view (R.told log.new) (R.totals log.new) (R.number log.new) ≡ noted (log_view (R.told log.old) (R.totals log.old) (R.number log.old)) what path.now.numbers first second) }
    ensures within { OnOk result (IsWithin (R.told log.new)) }
    ensures err { OnErr result (log_view (R.told log.new) (R.totals log.new) (R.number log.new) ≡ log_view (R.told log.old) (R.totals log.old) (R.number log.old)) }
    ensures cause { IfErr result (RefusesNote (log_view (R.told log.old) (R.totals log.old) (R.number log.old)) path.now.numbers) }
{
    match log.note(what, path, first, second) {
        Ok(()) => Ok(()),
        Err(LogEnd::Full { entries, numbers }) => Err(SearchFault::AuditFull {
            worker: log.worker(),
            entries,
            numbers,
        }),
        Err(LogEnd::Memory) => Err(SearchFault::Memory),
    }
}

/// Records an entry of one kind for each of these tasks.
fn note_all<N, R: Recorder>(log: &mut R, what: What, tasks: &[Task<N>]) -> Result<(), SearchFault>
    ensures ok { OnOk result (log_view (R.told log.new) (R.totals log.new) (R.number log.new) ≡ all_noted (log_view (R.told log.old) (R.totals log.old) (R.number log.old)) what (paths_of tasks.now)) }
    ensures within { OnOk result (IsWithin (R.told log.old) → IsWithin (R.told log.new)) }
    ensures err { IfErr result (λ fault. StopsNoting (log_view (R.told log.old) (R.totals log.old) (R.number log.old)) what (paths_of tasks.now) fault (log_view (R.told log.new) (R.totals log.new) (R.number log.new))) }
{
    for task in tasks {
        match note(log, what, &task.path, 0, 0) {
            Ok(()) => {}
            Err(fault) => return Err(fault),
        }
    }
    Ok(())
}

/// Splits a chunk of the lowest level off, records it and sends it.
fn share<P: Problem, O: Outlet<P>, R: Recorder>(
    alloc: Global,
    problem: &P,
    chunk: Chunk,
    what: What,
    outlet: &mut O,
    log: &mut R,
    stack: &mut Descent<P>,
) -> Result<(), SearchFault>
    requires root { P.sound problem.now (P.root problem.now) }
    requires outlet { O.problem outlet.old ≡ problem.now }
    requires levels_open { AllOpen P.Problem problem.now stack.old.levels }
    ensures ok { OnOk result (IsShared P.Problem problem.now chunk what (λ calls. O.goes outlet.old calls outlet.new) stack.old.levels (log_view (R.told log.old) (R.totals log.old) (R.number log.old)) (O.sent outlet.old) stack.new.levels (log_view (R.told log.new) (R.totals log.new) (R.number log.new)) (O.sent outlet.new)) }
    ensures err { IfErr result (λ fault. StopsSharing P.Problem problem.now what fault stack.old.levels (log_view (R.told log.old) (R.totals log.old) (R.number log.old)) (O.sent outlet.old) stack.new.levels (log_view (R.told log.new) (R.totals log.new) (R.number log.new)) (O.sent outlet.new)) }
    ensures answers { O.answers outlet.new ≡ O.answers outlet.old }
    ensures problem { O.problem outlet.new ≡ O.problem outlet.old }
    ensures kept { O.kept outlet.old outlet.new }
    ensures later { OnOk result (O.later outlet.old outlet.new) }
{
    let mut tasks = Vec::new(alloc);
    match stack.split_lowest(alloc, problem, chunk, &mut tasks) {
        Ok(()) => {}
        Err(_) => return Err(SearchFault::Memory),
    }
    match note_all(log, what, tasks.as_slice()) {
        Ok(()) => {}
        Err(fault) => return Err(fault),
    }
    match outlet.send(tasks) {
        Ok(()) => Ok(()),
        Err(_) => Err(SearchFault::Memory),
    }
}

/// Asks the policy after an event at a depth, and does what it asks for.
#[inline(always)]
pub(crate) fn ask<P: Problem, Q: Policy, O: Outlet<P>, R: Recorder>(
    alloc: Global,
    problem: &P,
    policy: &mut Q,
    outlet: &mut O,
    log: &mut R,
    stack: &mut Descent<P>,
    event: Event,
    depth: u32,
) -> Result<(), SearchFault>
    requires root { P.sound problem.now (P.root problem.now) }
    requires outlet { O.problem outlet.old ≡ problem.now }
    requires levels_open { AllOpen P.Problem problem.now stack.old.levels }
    ensures ok { OnOk result ((wanted : Bool) × (O.answers outlet.new ≡ option_map (λ given. given ++ wanted ∷ []) (O.answers outlet.old))
        × IsAsked P.Problem problem.now Q.meaning (input_of event depth wanted) (λ calls. O.goes outlet.old calls outlet.new) policy.old stack.old.levels (log_view (R.told log.old) (R.totals log.old) (R.number log.old)) (O.sent outlet.old)
        policy.new stack.new.levels (log_view (R.told log.new) (R.totals log.new) (R.number log.new)) (O.sent outlet.new)) }
    ensures err { IfErr result (λ fault. (wanted : Bool) × StopsAsking P.Problem problem.now Q.meaning (input_of event depth wanted) fault policy.old
        stack.old.levels (log_view (R.told log.old) (R.totals log.old) (R.number log.old)) (O.sent outlet.old) stack.new.levels (log_view (R.told log.new) (R.totals log.new) (R.number log.new)) (O.sent outlet.new)) }
    ensures problem { O.problem outlet.new ≡ O.problem outlet.old }
    ensures kept { O.kept outlet.old outlet.new }
    ensures later { OnOk result (O.later outlet.old outlet.new) }
{
    let wanted = outlet.wanted();
    match policy.after(event, depth, wanted) {
        Act::On => Ok(()),
        Act::Spawn(chunk) => share(alloc, problem, chunk, What::Spawned, outlet, log, stack),
        Act::Hand(chunk) => share(alloc, problem, chunk, What::Handed, outlet, log, stack),
    }
}
