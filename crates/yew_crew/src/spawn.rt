//! A worker that spawns its tasks into the pool.
ghost use Rattle.std.specs.Prelude.{◌≡◌, ◌≤◌, ◌∷◌, [], ℕ, List, Bool, OnOk, IfErr};
ghost use Rattle.yew_laws.specs.Tasks.{Members};
ghost use Rattle.yew_laws.specs.declared.problem.Task.{Task as TaskValue};
ghost use Rattle.yew_laws.specs.SearchTree.{search_tree, IsTask};
ghost use Rattle.yew_log.specs.Groups.{HasGroups, SkeletonGroup};
ghost use Rattle.yew_log.specs.Notes.{Note};
ghost use Rattle.yew_log.specs.Policies.{HasPolicy};
ghost use Rattle.yew_mail.specs.Seats.{SeatView as MailSeatView};
ghost use Rattle.yew_walk.specs.LogViews.{log_view};
ghost use Rattle.yew_crew.specs.Stations.{searched, skeleton_of, Spawns, station};
ghost use Rattle.yew_crew.specs.Working.{IsStep, IsBrokenStep};

use crate::coord::Coord;
use crate::spawning::Spawning;
use std::alloc::Global;
use yew_best::{Best, BestSeat};
use yew_kinds::Tally;
use yew_laws::{Problem, Task};
use yew_log::Recorder;
use yew_walk::{Hand, Keying, Policy, SearchFault, walk};

/// Walks one task to its end, with this permitted gap, and counts it as ended. A walk that is refused is not counted.
///
/// # Errors
///
/// As `walk`: `Memory` where memory ran out, and `AuditFull` where the log has no room for the next entry.
#[allow(clippy::too_many_arguments)]
pub fn walk_spawning<P: Problem, Q: Policy, T: Tally<P::Node>, R: Recorder>(
    alloc: Global,
    problem: &P,
    task: Task<P::Node>,
    best: &Best,
    seat: &mut BestSeat,
    coord: Coord,
    gap: u64,
    policy: &mut Q,
    outlet: &mut Spawning<'_, P>,
    tally: &T,
    hand: &mut Hand<T::Sum>,
    log: &mut R,
) -> Result<(), SearchFault>
    requires root { P.sound problem.now (P.root problem.now) }
    requires task { IsTask P.Problem problem.now task.path.numbers task.node }
    requires seat { seat.old.best ≡ best.now }
    requires outlet { outlet.old.problem ≡ problem.now }
    requires space { 65535 ≤ hand.old.path.space }
    requires fits { T.fits tally.now hand.old.sum }
    requires spawns { Spawns coord }
    requires gap { gap ≤ 1099511627774 }
    requires groups { (answers : List Bool) (body : List Note) → HasPolicy (search_tree P.Problem problem.now) Q.meaning policy.old answers body → HasGroups (SkeletonGroup (search_tree P.Problem problem.now) (skeleton_of coord)) body }
    ensures step { OnOk result ((number : ℕ) (mail : MailSeatView (TaskValue P.Node) (Members P.Node)) →
        IsStep (searched (search_tree P.Problem problem.now) (T.join tally.now) (T.none tally.now) (T.of tally.now) (λ l. log_view (R.told l) (R.totals l) (R.number l)) coord gap) task.path.numbers
        (station number seat.old outlet.old.pass mail outlet.old.tasks hand.old log.old) (station number seat.new outlet.new.pass mail outlet.new.tasks hand.new log.new)) }
    ensures refused { IfErr result (λ fault. (number : ℕ) (mail : MailSeatView (TaskValue P.Node) (Members P.Node)) →
        IsBrokenStep (searched (search_tree P.Problem problem.now) (T.join tally.now) (T.none tally.now) (T.of tally.now) (λ l. log_view (R.told l) (R.totals l) (R.number l)) coord gap) task.path.numbers fault
        (station number seat.old outlet.old.pass mail outlet.old.tasks hand.old log.old) (station number seat.new outlet.new.pass mail outlet.new.tasks hand.new log.new)) }
    ensures fits { T.fits tally.now hand.new.sum }
    ensures problem { outlet.new.problem ≡ outlet.old.problem }
{
    let _ = coord;
    match walk(
        alloc,
        problem,
        task,
        best,
        seat,
        Keying::Gap(gap),
        policy,
        outlet,
        tally,
        hand,
        log,
    ) {
        Ok(()) => {}
        Err(fault) => return Err(fault),
    }
    outlet.ended();
    Ok(())
}
