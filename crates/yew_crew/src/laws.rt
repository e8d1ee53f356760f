//! The laws of groups of workers. Each function is a law: it does nothing, and its contract is proved once for all that
//! cite it.
ghost use Rattle.std.specs.Prelude.{◌≡◌, ℕ, ◌<◌, ◌⊎◌, true, List, [], ◌∷◌, ◌++◌, length, Contains};
ghost use Rattle.std.specs.List.{AllByRecursion};
ghost use Rattle.yew_best.specs.Seats.{SeatView};
ghost use Rattle.yew_laws.specs.Bag.{SameBag};
ghost use Rattle.yew_laws.specs.Cover.{Cover};
ghost use Rattle.yew_laws.specs.SearchTree.{search_tree, below};
ghost use Rattle.yew_log.specs.Attained.{Attained};
ghost use Rattle.yew_log.specs.Notes.{paths};
ghost use Rattle.yew_walk.specs.LogViews.{log_view};
ghost use Rattle.yew_crew.specs.Crews.{IsFresh, AreReports, AreWorked, IsCrewWork, tasks_with, stations_of};
ghost use Rattle.yew_crew.specs.Groups.{Group, taken, sent, all_together, together, IsBalanced, IsClosed};
ghost use Rattle.yew_crew.specs.OpenSeats.{OpenSeatView};
ghost use Rattle.yew_crew.specs.Reports.{IsGroupWork, HasNoFault, IsEndDone};
ghost use Rattle.yew_crew.specs.Stations.{searched};
ghost use Rattle.yew_crew.specs.declared.coord.Coord as coord;
ghost use Rattle.yew_crew.specs.declared.station.Station.{Station};
ghost use Rattle.yew_crew.specs.declared.station.Report.{Report};

use yew_kinds::Tally;
use yew_laws::Problem;
use yew_log::Recorder;

/// Two groups that keep the equations keep them together, and so do all groups of a list.
pub fn groups_join<P: Problem, T: Tally<P::Node>>(problem: &P, tally: &T)
    ensures two { (gap : ℕ) (g h : Group P.Node T.Sum) → let t = search_tree P.Problem problem.now in
        IsBalanced t gap (T.join tally.now) (T.none tally.now) (T.of tally.now) g → IsBalanced t gap (T.join tally.now) (T.none tally.now) (T.of tally.now) h
        → IsBalanced t gap (T.join tally.now) (T.none tally.now) (T.of tally.now) (together (T.join tally.now) g h) }
    ensures all { (gap : ℕ) (gs : List (Group P.Node T.Sum)) → let t = search_tree P.Problem problem.now in
        AllByRecursion (IsBalanced t gap (T.join tally.now) (T.none tally.now) (T.of tally.now)) gs
        → IsBalanced t gap (T.join tally.now) (T.none tally.now) (T.of tally.now) (all_together (T.join tally.now) (T.none tally.now) gs) }
{
    let _ = problem;
    let _ = tally;
}

/// Once nothing is left, the equations of all workers and of the caller give the cover of the tree and the cause of each
/// cut: the tasks that were sent cancel, once for all workers.
pub fn group_covers<P: Problem, T: Tally<P::Node>>(problem: &P, tally: &T)
    ensures cover { (gap : ℕ) (g : Group P.Node T.Sum) → let t = search_tree P.Problem problem.now in
        IsBalanced t gap (T.join tally.now) (T.none tally.now) (T.of tally.now) g → IsClosed g → Cover t (paths g.visits) (paths g.cuts) }
    ensures attained { (gap : ℕ) (g : Group P.Node T.Sum) → let t = search_tree P.Problem problem.now in
        IsBalanced t gap (T.join tally.now) (T.none tally.now) (T.of tally.now) g → IsClosed g → Attained t gap g.visits g.cuts }
{
    let _ = problem;
    let _ = tally;
}

/// What all workers of a crew have done is what one group has done, by which the joined seats and all passes have grown.
pub fn crew_is_group<P: Problem, T: Tally<P::Node>, R: Recorder>(problem: &P, tally: &T)
    ensures { (coord : coord.Coord) (gap : ℕ) (groups : List (Group P.Node T.Sum)) (befores afters : List (Station P.Node T.Sum R)) (seat : SeatView) (tasks : OpenSeatView) →
        let s = searched (search_tree P.Problem problem.now) (T.join tally.now) (T.none tally.now) (T.of tally.now) (λ log. log_view (R.told log) (R.totals log) (R.number log)) coord gap in
        AllByRecursion (IsFresh (T.fits tally.now)) befores
        → AreWorked s groups befores afters
        → IsCrewWork s (all_together s.join s.none groups) seat tasks befores afters }
{
    let _ = problem;
    let _ = tally;
}

/// Where a task has ended, or some task was made, and nothing is left but what is said to be left, the root's task was
/// taken by a worker: what the workers took, with what is left, is the root's task with what they put and gave.
pub fn root_is_taken<P: Problem, T: Tally<P::Node>>(problem: &P, tally: &T)
    ensures { (gap : ℕ) (g : Group P.Node T.Sum) (left : List (List ℕ)) → let t = search_tree P.Problem problem.now in
        IsBalanced t gap (T.join tally.now) (T.none tally.now) (T.of tally.now) g
        → SameBag (taken g ++ left) ([] ∷ sent g)
        → AllByRecursion (λ path. 0 < length (below t path)) (taken g ++ sent g)
        → (0 < g.ended) ⊎ (0 < g.made)
        → Contains (taken g) [] }
{
    let _ = problem;
    let _ = tally;
}

/// Work upon work is work. So it is what a worker keeps that walks one task after another.
pub fn work_goes_on<P: Problem, T: Tally<P::Node>, R: Recorder>(problem: &P, tally: &T)
    ensures { (coord : coord.Coord) (gap : ℕ) (a b c : Station P.Node T.Sum R) →
        let s = searched (search_tree P.Problem problem.now) (T.join tally.now) (T.none tally.now) (T.of tally.now) (λ log. log_view (R.told log) (R.totals log) (R.number log)) coord gap in
        T.fits tally.now a.hand.sum → IsGroupWork s a b → IsGroupWork s b c → IsGroupWork s a c }
{
    let _ = problem;
    let _ = tally;
}

/// Where no report ended with a fault, every report ended with Done: the seats of a crew begin without a stop, and the
/// joined seat has seen the stop word set only where it has a stop, as its last load tells.
pub fn all_are_done<P: Problem, T: Tally<P::Node>, R: Recorder>(problem: &P, tally: &T)
    ensures { (coord : coord.Coord) (gap : ℕ) (befores : List (Station P.Node T.Sum R)) (reports : List (Report P.Node T.Sum R)) (seat : OpenSeatView) →
        let s = searched (search_tree P.Problem problem.now) (T.join tally.now) (T.none tally.now) (T.of tally.now) (λ log. log_view (R.told log) (R.totals log) (R.number log)) coord gap in
        AreReports s befores reports
        → AllByRecursion (λ (b : Station P.Node T.Sum R). b.tasks.stops ≡ 0) befores
        → AllByRecursion (λ (r : Report P.Node T.Sum R). HasNoFault r.end) reports
        → seat.stops ≡ 0
        → ((tasks_with seat (stations_of reports)).saw ≡ true → 0 < (tasks_with seat (stations_of reports)).stops)
        → AllByRecursion (λ (r : Report P.Node T.Sum R). IsEndDone r.end) reports }
{
    let _ = problem;
    let _ = tally;
}
