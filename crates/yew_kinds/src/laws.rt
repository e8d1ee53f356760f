//! What the kinds of search answer, in the words of the problem itself. Each function is a law: it does nothing, and
//! its contract is proved once for all that cite it.

ghost use Rattle.std.specs.Prelude.{◌≡◌, ◌≤◌, ◌↔◌, ℕ, List, Some, IsSome, IfSome, IsSomeAnd};
ghost use Rattle.yew_kinds.specs.DepthCounts.{depth_fold, depth_counts};
ghost use Rattle.yew_kinds.specs.Wrappers.{counted_tree, clipped_tree};
ghost use Rattle.yew_laws.specs.Greatest.{greatest, first_best, Reach};
ghost use Rattle.yew_laws.specs.SearchTree.{search_tree, preorder, worth_at};

use crate::{ByDepth, Clipped, Counted};
use yew_laws::Problem;

/// The fold by depth has at each depth the number of nodes there.
pub fn fold_by_depth<P: Problem>(problem: &P, tally: ByDepth)
    ensures { let t = search_tree P.Problem problem.now in
        depth_fold t tally.depths ≡ depth_counts t tally.depths }
{
    let _ = problem;
    let _ = tally;
}

/// The tree that a count searches has the members of the problem's tree, and no node of it is an answer.
pub fn counted_members<P: Problem>(counted: &Counted<P>)
    ensures same { let t = search_tree P.Problem counted.now.inner.now in preorder (counted_tree t) ≡ preorder t }
    ensures greatest { let t = search_tree P.Problem counted.now.inner.now in greatest (counted_tree t) ≡ 0 }
{
    let _ = counted;
}

/// The tree that a decision searches has the members of the problem's tree. Some node meets the target exactly where
/// the greatest worth of that tree is 1, and exactly where there is a first best path. A path whose node has worth 1
/// leads to a node that meets the target.
pub fn clipped_members<P: Problem>(clipped: &Clipped<P>)
    requires { P.sound clipped.now.inner.now (P.root clipped.now.inner.now) }
    ensures same { let t = search_tree P.Problem clipped.now.inner.now in
        preorder (clipped_tree t clipped.now.target) ≡ preorder t }
    ensures small { let t = search_tree P.Problem clipped.now.inner.now in
        greatest (clipped_tree t clipped.now.target) ≤ 1 }
    ensures greatest { let t = search_tree P.Problem clipped.now.inner.now in
        (greatest (clipped_tree t clipped.now.target) ≡ 1) ↔ Reach t clipped.now.target }
    ensures first { let t = search_tree P.Problem clipped.now.inner.now in
        IsSome (first_best (clipped_tree t clipped.now.target)) ↔ Reach t clipped.now.target }
    ensures meets { (path : List ℕ) → let t = search_tree P.Problem clipped.now.inner.now in
        worth_at (clipped_tree t clipped.now.target) path ≡ Some 1 → IsSomeAnd (worth_at t path) (λ worth. clipped.now.target ≤ worth) }
    ensures first_meets { let t = search_tree P.Problem clipped.now.inner.now in
        IfSome (first_best (clipped_tree t clipped.now.target)) (λ path. IsSomeAnd (worth_at t path) (λ worth. clipped.now.target ≤ worth)) }
{
    let _ = clipped;
}
