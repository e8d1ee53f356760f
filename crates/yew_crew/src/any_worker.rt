//! A worker of a crew, under any coordination.
ghost use Rattle.std.specs.Prelude.{◌≤◌};
ghost use Rattle.yew_laws.specs.SearchTree.{search_tree};
ghost use Rattle.yew_laws.specs.Tasks.{members_of};
ghost use Rattle.yew_walk.specs.LogViews.{log_view};
ghost use Rattle.yew_crew.specs.Reports.{IsReport};
ghost use Rattle.yew_crew.specs.Stations.{searched, IsCoord, IsReady};

use crate::coord::Coord;
use crate::spawn_worker::spawn_worker;
use crate::station::{Report, Shared, Station};
use crate::steal_worker::steal_worker;
use std::alloc::Global;
use std::sync::Wait;
use std::thread::Threads;
use yew_io::Gate;
use yew_kinds::Tally;
use yew_laws::Problem;
use yew_log::Recorder;

/// A worker's part in the search of a crew: it takes tasks and walks them, and shares its own out as the coordination
/// says, until no task is open, or somebody has told all to stop, or a walk of its own is refused, which tells all to
/// stop. A node is cut off where the gap that the crew shares permits it, which is at most 2^40 - 2. At each task that it
/// takes it passes the gate. It hands its station back, with the reason why it ended.
pub fn worker<P: Problem, T: Tally<P::Node>, R: Recorder, G: Gate, H: Threads + Wait + Sync>(
    rt: &H,
    alloc: Global,
    problem: &P,
    tally: &T,
    coord: Coord,
    shared: &Shared<P::Node>,
    gate: &G,
    station: Station<P::Node, T::Sum, R>,
) -> Report<P::Node, T::Sum, R>
    requires root { P.sound problem.now (P.root problem.now) }
    requires coord { IsCoord coord }
    requires gap { shared.now.gap ≤ 1099511627774 }
    requires ready { IsReady (T.fits tally.now) (members_of (search_tree P.Problem problem.now)) shared.now station }
    ensures report { IsReport (searched (search_tree P.Problem problem.now) (T.join tally.now) (T.none tally.now) (T.of tally.now)
        (λ l. log_view (R.told l) (R.totals l) (R.number l)) coord shared.now.gap) station result }
    ensures fits { T.fits tally.now result.station.hand.sum }
{
    match coord {
        Coord::Depth(_) | Coord::Budget(_) => {
            spawn_worker(rt, alloc, problem, tally, coord, shared, gate, station)
        }
        Coord::Steal(chunk) => {
            steal_worker(rt, alloc, problem, tally, chunk, shared, gate, station)
        }
    }
}
