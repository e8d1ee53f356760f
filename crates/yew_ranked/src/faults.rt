//! Why an ordered search is refused. The function is a law: it does nothing, and its contract is proved once for all that
//! cite it.
ghost use Rattle.std.specs.Prelude.{◌≡◌, ℕ, ◌≤◌, List, Some, None, IsSome};
ghost use Rattle.yew_laws.specs.SearchTree.{search_tree};
ghost use Rattle.yew_walk.specs.LogViews.{log_view};
ghost use Rattle.yew_walk.specs.declared.fault.SearchFault as fault;
ghost use Rattle.yew_ranked.specs.Joining.{fault_in};
ghost use Rattle.yew_ranked.specs.OrderedSearch.{IsOrderedFault};
ghost use Rattle.yew_ranked.specs.Tasks.{Numbered};
ghost use Rattle.yew_ranked.specs.Whole.{HasRankedWorked};
ghost use Rattle.yew_ranked.specs.declared.station.RankedReport.{RankedReport};

use yew_kinds::Tally;
use yew_laws::Problem;
use yew_log::Recorder;

/// Where workers have walked tasks of a tree, the fault that their reports answer is one of the whole search: memory ran
/// out, or the log of a worker, with what the walk above the tasks has noted in it, had no room for its next entry.
pub(crate) fn faults_are_ordered<P: Problem, T: Tally<P::Node>, R: Recorder>(problem: &P, tally: &T)
    requires { P.sound problem.now (P.root problem.now) }
    ensures { (depth workers : ℕ) (tasks : List Numbered) (reports : List (RankedReport T.Sum R)) (why : fault.SearchFault) →
        let t = search_tree P.Problem problem.now in
        1 ≤ depth
        → HasRankedWorked t (T.join tally.now) (T.none tally.now) (T.of tally.now) (λ log. log_view (R.told log) (R.totals log) (R.number log)) depth tasks workers reports
        → fault_in None reports ≡ Some why
        → IsOrderedFault t depth workers ((log : R) × IsSome (R.told log)) why }
{
    let _ = problem;
    let _ = tally;
}
