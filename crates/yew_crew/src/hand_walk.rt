//! One walk of a worker that hands its tasks to the workers that ask it.
ghost use Rattle.std.specs.Prelude.{◌≡◌, ◌≤◌, ◌+◌, ℕ, OnOk, IfErr};
ghost use Rattle.yew_laws.specs.Tasks.{Members};
ghost use Rattle.yew_laws.specs.declared.problem.Task.{Task as TaskValue};
ghost use Rattle.yew_laws.specs.SearchTree.{search_tree, IsTask};
ghost use Rattle.yew_pool.specs.Passes.{PassView};
ghost use Rattle.yew_walk.specs.LogViews.{log_view};
ghost use Rattle.yew_crew.specs.Stations.{searched, station};
ghost use Rattle.yew_crew.specs.Working.{IsStep, IsBrokenStep};
ghost use Rattle.yew_crew.specs.declared.coord.Coord.TheVariants.{Steal};

use crate::handing::Handing;
use std::alloc::Global;
use yew_best::{Best, BestSeat};
use yew_kinds::Tally;
use yew_laws::{Problem, Task};
use yew_log::Recorder;
use yew_stack::Chunk;
use yew_walk::{Hand, Hungry, Keying, SearchFault, walk};

/// Walks one task to its end, with this permitted gap, and counts it as ended. A worker that asks in the meantime is given
/// this chunk of the lowest level. A walk that is refused is not counted.
///
/// # Errors
///
/// As `walk`: `Memory` where memory ran out, and `AuditFull` where the log has no room for the next entry.
#[allow(clippy::too_many_arguments)]
pub fn walk_handing<P: Problem, T: Tally<P::Node>, R: Recorder>(
    alloc: Global,
    problem: &P,
    task: Task<P::Node>,
    best: &Best,
    seat: &mut BestSeat,
    chunk: Chunk,
    gap: u64,
    outlet: &mut Handing<'_, P>,
    tally: &T,
    hand: &mut Hand<T::Sum>,
    log: &mut R,
) -> Result<(), SearchFault>
    requires root { P.sound problem.now (P.root problem.now) }
    requires task { IsTask P.Problem problem.now task.path.numbers task.node }
    requires seat { seat.old.best ≡ best.now }
    requires outlet { outlet.old.problem ≡ problem.now }
    requires space { 65535 ≤ hand.old.path.space }
    requires fits { T.fits tally.now hand.old.sum }
    requires gap { gap ≤ 1099511627774 }
    ensures step { OnOk result ((number : ℕ) (pass : PassView (TaskValue P.Node) (Members P.Node)) →
        IsStep (searched (search_tree P.Problem problem.now) (T.join tally.now) (T.none tally.now) (T.of tally.now)
        (λ l. log_view (R.told l) (R.totals l) (R.number l)) (Steal chunk) gap) task.path.numbers
        (station number seat.old pass outlet.old.seat outlet.old.tasks hand.old log.old) (station number seat.new pass outlet.new.seat outlet.new.tasks hand.new log.new)) }
    ensures refused { IfErr result (λ fault. (number : ℕ) (pass : PassView (TaskValue P.Node) (Members P.Node)) →
        IsBrokenStep (searched (search_tree P.Problem problem.now) (T.join tally.now) (T.none tally.now) (T.of tally.now)
        (λ l. log_view (R.told l) (R.totals l) (R.number l)) (Steal chunk) gap) task.path.numbers fault
        (station number seat.old pass outlet.old.seat outlet.old.tasks hand.old log.old) (station number seat.new pass outlet.new.seat outlet.new.tasks hand.new log.new)) }
    ensures fits { T.fits tally.now hand.new.sum }
    ensures problem { outlet.new.problem ≡ outlet.old.problem }
    ensures ask { outlet.new.seat.ask ≡ outlet.old.seat.ask }
{
    let mut policy = Hungry::new(chunk);
    match walk(
        alloc,
        problem,
        task,
        best,
        seat,
        Keying::Gap(gap),
        &mut policy,
        outlet,
        tally,
        hand,
        log,
    ) {
        Ok(()) => {}
        Err(fault) => return Err(fault),
    }
    outlet.ended();
    Ok(())
}
