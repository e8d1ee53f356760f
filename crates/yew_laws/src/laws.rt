//! The laws of bags and of trees that searches rest on. Each function is a law: it does nothing, and its contract is
//! proved once for all that cite it.

ghost use Rattle.std.specs.Prelude.{◌≡◌, ◌+◌, ◌≤◌, ℕ, List, [], ◌∷◌, ◌++◌, Contains};
ghost use Rattle.std.specs.List.{flat_map};
ghost use Rattle.yew_laws.specs.Bag.{SameBag};
ghost use Rattle.yew_laws.specs.Cover.{Cover};
ghost use Rattle.yew_laws.specs.SearchTree.{search_tree, at_path, below, numbered, tree_paths, IsTask};
ghost use Rattle.yew_laws.specs.Order.{occurs};
ghost use Rattle.yew_laws.specs.Tasks.{IsAmong, members_of};
ghost use Rattle.yew_laws.specs.Tree.{tree};
ghost use Rattle.yew_laws.specs.declared.problem.Task.{Task as TaskValue};

use crate::problem::Problem;

/// What stands on both sides of two bags cancels.
pub fn bags_cancel<T>()
    ensures { (xs ys zs : List T) → SameBag (xs ++ zs) (ys ++ zs) → SameBag xs ys }
{}

/// What lies below joined lists is what lies below the one and below the other, and the same bag has the same below.
pub fn below_joins<P: Problem>(problem: &P)
    ensures joined { (xs ys : List (List ℕ)) → let t = search_tree P.Problem problem.now in
        flat_map (below t) (xs ++ ys) ≡ flat_map (below t) xs ++ flat_map (below t) ys }
    ensures same { (xs ys : List (List ℕ)) → let t = search_tree P.Problem problem.now in
        SameBag xs ys → SameBag (flat_map (below t) xs) (flat_map (below t) ys) }
{
    let _ = problem;
}

/// No path stands twice in the tree of a problem, so with a cover no node is visited twice, and none is both visited
/// and below a cut.
pub fn paths_once<P: Problem>(problem: &P)
    requires { P.sound problem.now (P.root problem.now) }
    ensures once { (path : List ℕ) → occurs path (tree_paths (search_tree P.Problem problem.now)) ≤ 1 }
    ensures cover { (visited cut : List (List ℕ)) → let t = search_tree P.Problem problem.now in
        Cover t visited cut → (path : List ℕ) → occurs path visited + occurs path (flat_map (below t) cut) ≤ 1 }
{
    let _ = problem;
}

/// The cancelling of tasks: the tasks that were taken lie in the visits, the cuts and the tasks that were sent, and the
/// root's task and those that were sent were taken. Then the whole tree is visited or cut.
pub fn tasks_cancel<P: Problem>(problem: &P)
    ensures { (visited cut took sent : List (List ℕ)) → let t = search_tree P.Problem problem.now in
        Contains visited []
        → SameBag (visited ++ flat_map (below t) (cut ++ sent)) (flat_map (below t) took)
        → SameBag took ([] ∷ sent)
        → Cover t visited cut }
{
    let _ = problem;
}

/// The tasks of a problem are those whose node is a member of its tree, at their path.
pub fn tasks_are_members<P: Problem>(problem: &P)
    requires { P.sound problem.now (P.root problem.now) }
    ensures among { (task : TaskValue P.Node) → IsTask P.Problem problem.now task.path.numbers task.node → IsAmong (members_of (search_tree P.Problem problem.now)) task }
    ensures task { (task : TaskValue P.Node) → IsAmong (members_of (search_tree P.Problem problem.now)) task → IsTask P.Problem problem.now task.path.numbers task.node }
{
    let _ = problem;
}
