//! The laws of a search by ranked keys. Each function is a law: it does nothing, and its contract is proved once for all that cite it.
ghost use Rattle.std.specs.List.{AllByRecursion, flat_map};
ghost use Rattle.std.specs.Prelude.{◌≡◌, ℕ, suc, ◌<◌, List, [], ◌++◌, map, None, IsTrue, IsSome, IfSome};
ghost use Rattle.yew_laws.specs.Greatest.{first_best};
ghost use Rattle.yew_laws.specs.Incumbent.{Incumbent};
ghost use Rattle.yew_laws.specs.Order.{comes_before};
ghost use Rattle.yew_laws.specs.SearchTree.{search_tree, at_path};
ghost use Rattle.yew_log.specs.AuditFull.{IsAuditFull};
ghost use Rattle.yew_log.specs.Groups.{HasGroups, SkeletonGroup, in_order};
ghost use Rattle.yew_log.specs.HeldValues.{ranked, HeldRises, HeldIsMaximum, IsJudged};
ghost use Rattle.yew_log.specs.Items.{items_of, item_paths, IsInItem};
ghost use Rattle.yew_log.specs.Lawful.{item_in, IsBrokenWalk};
ghost use Rattle.yew_log.specs.Notes.{Note, sent_paths, spawned_paths, handed_paths};
ghost use Rattle.yew_log.specs.Segment.{entries_in, IsSegment, IsBroken};
ghost use Rattle.yew_ranked.specs.Frontier.{frontier_log, frontier_segment};
ghost use Rattle.yew_ranked.specs.FrontierWalk.{IsFrontierFull};
ghost use Rattle.yew_ranked.specs.RankedSearch.{RankedJudgement, IsRankedSearch, ItemsInOrder, IsFirstBestVisit, IsFirstAnswer, ranked_answer, gathered_answer, plain_judgement};
ghost use Rattle.yew_ranked.specs.Tasks.{Numbered, tasks_of_tree};
ghost use Rattle.yew_walk.specs.Hands.{best_after};
ghost use Rattle.yew_walk.specs.LogViews.{LogView};

use yew_laws::Problem;
use yew_walk::Keying;

/// Whatever the schedule, a search whose cuts have ranked words visits the first best node, with the greatest key of all
/// visits. And the answer gathered from the visits of all workers, one after another, is that of one worker, where each
/// item was visited in preorder.
pub fn ranked_keys_find_the_first<P: Problem>(problem: &P)
    requires { P.sound problem.now (P.root problem.now) }
    ensures visit { (visits cuts : List RankedJudgement) → let t = search_tree P.Problem problem.now in
        IsRankedSearch t visits cuts → IfSome (first_best t) (λ path. IsFirstBestVisit t visits path) }
    ensures answer { (visits cuts : List RankedJudgement) → let t = search_tree P.Problem problem.now in
        IsRankedSearch t visits cuts → ItemsInOrder visits → IsFirstAnswer t (ranked_answer (record { worth = 0; path = None }) visits) }
{
    let _ = problem;
}

/// The numbers of items rise in preorder: what lies in an item of a smaller number comes before.
pub fn items_rise<P: Problem>(problem: &P)
    ensures { (depth r s : ℕ) (p q : List ℕ) → let items = items_of (search_tree P.Problem problem.now) depth in
        IsInItem items r p → IsInItem items s q → r < s → IsTrue (comes_before p q) }
{
    let _ = problem;
}

/// The log of the walk above a depth has the items of that depth: its visits and its spawned tasks are they, in order.
pub fn frontier_has_the_items<P: Problem>(problem: &P)
    ensures { (levels : ℕ) → let t = search_tree P.Problem problem.now in
        flat_map (item_in (suc levels)) (frontier_log t levels) ≡ item_paths (items_of t (suc levels)) }
{
    let _ = problem;
}

/// The log of the walk above a depth is one whole segment of the root with the groups of that depth: the tasks are spawned,
/// in order, each of them of the tree, and nothing is handed over. Its held values are each the greatest worth of the
/// earlier visits. And its entries up to any place are a walk of the root that may have been broken off.
pub fn frontier_is_lawful<P: Problem>(problem: &P)
    requires { P.sound problem.now (P.root problem.now) }
    ensures segment { (levels : ℕ) → let t = search_tree P.Problem problem.now in
        (frontier_log t levels ≡ entries_in (frontier_segment t levels)) × IsSegment t (frontier_segment t levels) × IsBroken t (frontier_segment t levels) }
    ensures groups { (levels : ℕ) → let t = search_tree P.Problem problem.now in
        HasGroups (SkeletonGroup t (in_order (suc levels))) (frontier_segment t levels).body }
    ensures tasks { (levels : ℕ) → let t = search_tree P.Problem problem.now in let sent = spawned_paths (frontier_segment t levels).body in
        (sent ≡ map (λ (task : Numbered). task.path) (tasks_of_tree t (suc levels))) × AllByRecursion (λ path. IsSome (at_path t path)) sent }
    ensures only_spawned { (levels : ℕ) → let t = search_tree P.Problem problem.now in let body = (frontier_segment t levels).body in
        (sent_paths body ≡ spawned_paths body) × (handed_paths body ≡ []) }
    ensures held { (levels : ℕ) → let t = search_tree P.Problem problem.now in
        HeldRises (frontier_log t levels) × HeldIsMaximum (frontier_log t levels) × IsJudged t 0 ranked (frontier_log t levels) }
    ensures fronts { (levels : ℕ) (notes rest : List Note) → let t = search_tree P.Problem problem.now in
        frontier_log t levels ≡ notes ++ rest → IsBrokenWalk t 0 ranked [] notes × HeldIsMaximum notes }
{
    let _ = problem;
}

/// Where a log was new, and the walk above a depth found no room in it for the next entry, that is an audit that is full,
/// and it is the log's own worker that says so.
pub fn frontier_full_is_audit_full<P: Problem>(problem: &P)
    requires { P.sound problem.now (P.root problem.now) }
    ensures { (depth workers worker entries numbers : ℕ) (first now : LogView) → let t = search_tree P.Problem problem.now in
        IfSome first.told (λ notes. notes ≡ []) → IsFrontierFull t depth first now worker entries numbers
        → IsAuditFull t 0 (in_order depth) workers entries numbers × (worker ≡ first.number) }
{
    let _ = problem;
}

/// What a worker's hand holds after the walk of an item is the answer of its visits, and the first of the greatest key of
/// several answers is the answer of all their visits, one list after another.
pub fn answers_gather(rank: u32)
    ensures walk { (incumbent : Incumbent) (visits : List RankedJudgement) → AllByRecursion (λ v. v.item ≡ rank) visits →
        ranked_answer incumbent visits ≡ best_after (Keying.Ranked rank) incumbent (map plain_judgement visits) }
    ensures gather { (lists : List (List RankedJudgement)) → let none : Incumbent = record { worth = 0; path = None } in
        gathered_answer none (map (ranked_answer none) lists) ≡ ranked_answer none (flat_map (λ visits. visits) lists) }
{
    let _ = Keying::Ranked(rank);
}
