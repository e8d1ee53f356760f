//! The laws of a run. Each function is a law: it does nothing, and its contract is proved once for all that cite it.

ghost use Rattle.std.specs.Prelude.{◌≡◌, ◌+◌, ℕ, List, Option, length};
ghost use Rattle.yew_kinds.specs.Wrappers.{counted_tree};
ghost use Rattle.yew_laws.specs.SearchTree.{search_tree, tree_paths};
ghost use Rattle.yew_log.specs.AuditFull.{IsLarge, MeetsLimits};
ghost use Rattle.yew_log.specs.Groups.{Skeleton};
ghost use Rattle.yew_log.specs.Notes.{Note};
ghost use Rattle.yew_log.specs.SeqLog.{seq_log};
ghost use Rattle.yew_log.specs.Totals.{totals_of};
ghost use Rattle.yew_log.specs.WholeSearch.{AreLogs, joined};
ghost use Rattle.yew_words.specs.Plans.{Planned};
ghost use Rattle.yew_words.specs.Ranges.{file_count_of};
ghost use Rattle.yew_words.specs.Word.{Word};
ghost use Rattle.yew_app.specs.Asks.{IsSequential, IsAnySkeleton};
ghost use Rattle.yew_app.specs.Jobs.{of_job};
ghost use Rattle.yew_app.specs.Meanings.{IsOneWay};
ghost use Rattle.yew_app.specs.Outcomes.{Outside};
ghost use Rattle.yew_app.specs.Replicas.{WriteTheSame};

use yew_laws::Problem;
use yew_words::one_answer;

/// The files of each job that searches are read to one instance or refused for one reason.
pub(crate) fn files_have_one_way()
    ensures { (plan : Planned) → length plan.files ≡ file_count_of plan.job →
        of_job plan.job plan.files plan (λ kind. Unit {0}) (λ X N m. IsOneWay m) }
{
    yew_knap::laws::file_laws();
    yew_tsp::laws::file_laws();
    yew_lad::laws::file_laws();
    yew_flow::laws::file_laws();
}

/// What the numbers of the logs of a whole search, of any skeleton and any number of workers, have to do with each other:
/// each task that was spawned or handed over was taken, and the root besides; and a count visits each node of the tree and
/// cuts none.
pub fn report_numbers<P: Problem>(problem: &P)
    ensures tasks { (gap workers : ℕ) (skeleton : Skeleton) (logs : List (List Note)) (solution : Option P.Node) →
        AreLogs (search_tree P.Problem problem.now) gap skeleton workers logs solution →
        (totals_of (joined logs)).taken ≡ (totals_of (joined logs)).spawned + (totals_of (joined logs)).handed + 1 }
    ensures count { (gap workers : ℕ) (skeleton : Skeleton) (logs : List (List Note)) (solution : Option P.Node) →
        AreLogs (counted_tree (search_tree P.Problem problem.now)) gap skeleton workers logs solution →
        ((totals_of (joined logs)).cut ≡ 0) × ((totals_of (joined logs)).visited ≡ length (tree_paths (search_tree P.Problem problem.now))) }
{
    let _ = problem;
}

/// Two runs, of `run` or of `run_plain`, whose plans are one where `sequential` stands in the place of their skeletons, and of
/// which each asks for what one worker writes in preorder: the skeleton is `sequential`, or it is `ordered` and neither report
/// nor audit is asked for. Over the same files they write the same bytes: for every depth, every number of workers and every
/// schedule.
pub fn replicas_write_the_same()
    ensures runs { (words others : List Word) (before after other_before other_after : Outside) →
        WriteTheSame IsAnySkeleton IsAnySkeleton words others before after other_before other_after }
    ensures plain { (words others : List Word) (before after other_before other_after : Outside) →
        WriteTheSame IsAnySkeleton IsSequential words others before after other_before other_after }
{
    files_have_one_way();
    one_answer();
}

/// The sequential log of a tree of at most 2^16 nodes, whose paths have at most 2^20 numbers together, is within the limits
/// of an audit, whatever gap is permitted.
pub fn small_trees_fit<P: Problem>(problem: &P)
    requires { P.sound problem.now (P.root problem.now) }
    ensures { let t = search_tree P.Problem problem.now in (gap : ℕ) → ¬ IsLarge t → ¬ MeetsLimits (seq_log t gap) }
{
    let _ = problem;
}
