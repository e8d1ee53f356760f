//! From what all workers of an ordered search have done to the whole search. Each function is a law: it does nothing, and
//! its contract is proved once for all that cite it.
ghost use Rattle.std.specs.Prelude.{◌≡◌, ℕ, ◌≤◌, List};
ghost use Rattle.std.specs.List.{AllByRecursion};
ghost use Rattle.yew_crew.specs.Gathering.{IsGathered};
ghost use Rattle.yew_laws.specs.SearchTree.{search_tree};
ghost use Rattle.yew_walk.specs.LogViews.{log_view};
ghost use Rattle.yew_walk.specs.declared.hand.Hand as hand;
ghost use Rattle.yew_ranked.specs.Joining.{hands_of, logs_of};
ghost use Rattle.yew_ranked.specs.OrderedSearch.{IsOrderedFound};
ghost use Rattle.yew_ranked.specs.Tasks.{Numbered};
ghost use Rattle.yew_ranked.specs.Whole.{HasRankedWorked, AllDone, IsRankedSettled, ranked_stations};
ghost use Rattle.yew_ranked.specs.declared.station.RankedReport.{RankedReport};

use yew_kinds::Tally;
use yew_laws::Problem;
use yew_log::Recorder;

pub(crate) fn parts_are_whole<P: Problem, T: Tally<P::Node>, R: Recorder>(problem: &P, tally: &T)
    requires { P.sound problem.now (P.root problem.now) }
    ensures { (depth workers : ℕ) (tasks : List Numbered) (reports : List (RankedReport T.Sum R)) (found : hand.Hand T.Sum) (logs : List R) →
        let t = search_tree P.Problem problem.now in
        1 ≤ depth
        → HasRankedWorked t (T.join tally.now) (T.none tally.now) (T.of tally.now) (λ log. log_view (R.told log) (R.totals log) (R.number log)) depth tasks workers reports
        → AllDone reports → IsRankedSettled reports
        → IsGathered (T.join tally.now) (T.none tally.now) (hands_of (ranked_stations reports)) found → logs ≡ logs_of (ranked_stations reports)
        → AllByRecursion (λ (r : RankedReport T.Sum R). T.fits tally.now r.station.hand.sum) reports
        → IsOrderedFound t (T.join tally.now) (T.none tally.now) (T.of tally.now) (λ log. log_view (R.told log) (R.totals log) (R.number log)) depth workers found logs }
{
    let _ = problem;
    let _ = tally;
}
