//! What the trees of these problems are. Each function is a law: it does nothing, and its contract is proved once for
//! all that cite it.

ghost use Rattle.std.specs.Prelude.{◌≡◌, ◌↔◌, ℕ, List};
ghost use Rattle.std.specs.List.{filter};
ghost use Rattle.std.specs.List.Sorted.{IsNonDecreasingBy};
ghost use Rattle.yew_calls.specs.KeyOrder.{by_key, has_same_key};
ghost use Rattle.yew_calls.specs.Reordering.{reordered_tree, nodes_with_depths};
ghost use Rattle.yew_calls.specs.SameTrees.{HasSameNodes};
ghost use Rattle.yew_calls.specs.Shapes.{shape_tree};
ghost use Rattle.yew_laws.specs.Bag.{SameBag};
ghost use Rattle.yew_laws.specs.Fold.{Fold};
ghost use Rattle.yew_laws.specs.Greatest.{greatest, first_best, Reach};
ghost use Rattle.yew_laws.specs.SearchTree.{search_tree, preorder, at_path, worth_at, bound_at};

use crate::{ByCalls, KeyShape, Reordered, Shape};
use std::alloc::Global;
use yew_kinds::Tally;
use yew_laws::{Memory, Problem};

/// The tree of a problem of stored functions is that of their shape.
pub fn calls_tree<S: Shape, Z, C, W, B>(calls: &ByCalls<S, Z, C, W, B>)
where
    Z: Fn(Global) -> Result<S::Node, Memory> + Sync,
    C: Fn(Global, &S::Node) -> Result<Vec<S::Node>, Memory> + Sync,
    W: Fn(&S::Node) -> u64 + Sync,
    B: Fn(&S::Node) -> u64 + Sync,
    ensures { search_tree ⟦<ByCalls<S, Z, C, W, B> as Problem>⟧ calls.now ≡ shape_tree S.Shape }
{
    let _ = calls;
}

/// Two problems with equal root, children, worth and bound have equal trees, whatever their ranks: the nodes at each
/// path, their worths and their bounds, and so the greatest worth and the first path that has it.
pub fn same_trees<P: Problem, Q: Problem<Node = P::Node>>(one: &P, other: &Q)
    requires one { P.sound one.now (P.root one.now) }
    requires other { Q.sound other.now (Q.root other.now) }
    requires same { HasSameNodes (P.sound one.now) (search_tree P.Problem one.now) (search_tree Q.Problem other.now) }
    ensures tree { preorder (search_tree P.Problem one.now) ≡ preorder (search_tree Q.Problem other.now) }
    ensures nodes { (path : List ℕ) → at_path (search_tree P.Problem one.now) path ≡ at_path (search_tree Q.Problem other.now) path }
    ensures worths { (path : List ℕ) → worth_at (search_tree P.Problem one.now) path ≡ worth_at (search_tree Q.Problem other.now) path }
    ensures bounds { (path : List ℕ) → bound_at (search_tree P.Problem one.now) path ≡ bound_at (search_tree Q.Problem other.now) path }
    ensures greatest { greatest (search_tree P.Problem one.now) ≡ greatest (search_tree Q.Problem other.now) }
    ensures first { first_best (search_tree P.Problem one.now) ≡ first_best (search_tree Q.Problem other.now) }
{
    let _ = one;
    let _ = other;
}

/// The list by rising key: no key falls along it, and it has the same elements, those of one key in their order. It is
/// the one such list, so a list along which no key falls is left as it is.
pub fn keys_rise<T>()
    ensures rises { (key : T → ℕ) (xs : List T) → IsNonDecreasingBy key (by_key key xs) }
    ensures same { (key : T → ℕ) (xs : List T) → SameBag (by_key key xs) xs }
    ensures stays { (key : T → ℕ) (x : T) (xs : List T) → filter (has_same_key key x) (by_key key xs) ≡ filter (has_same_key key x) xs }
    ensures only { (key : T → ℕ) (xs ys : List T) → IsNonDecreasingBy key ys
        → ((x : T) → filter (has_same_key key x) ys ≡ filter (has_same_key key x) xs) → ys ≡ by_key key xs }
{}

/// The tree of a problem with its children in another order has the nodes of the inner tree, each at its depth and as
/// often: so its greatest worth is the inner one, and it reaches a target exactly where the inner one does.
pub fn reordered_members<'a, P: Problem, M: KeyShape<P>, K: Fn(&P::Node) -> u64 + Sync>(
    reordered: &Reordered<'a, P, M, K>,
)
    requires { P.sound reordered.now.inner.now (P.root reordered.now.inner.now) }
    ensures tree { search_tree ⟦<Reordered<'a, P, M, K> as Problem>⟧ reordered.now
        ≡ reordered_tree (M.key reordered.now.inner.now) (search_tree P.Problem reordered.now.inner.now) }
    ensures members { let t = search_tree P.Problem reordered.now.inner.now in
        SameBag (nodes_with_depths (reordered_tree (M.key reordered.now.inner.now) t)) (nodes_with_depths t) }
    ensures greatest { let t = search_tree P.Problem reordered.now.inner.now in
        greatest (reordered_tree (M.key reordered.now.inner.now) t) ≡ greatest t }
    ensures reach { (target : ℕ) → let t = search_tree P.Problem reordered.now.inner.now in
        Reach (reordered_tree (M.key reordered.now.inner.now) t) target ↔ Reach t target }
{
    let _ = reordered;
}

/// The fold of all nodes does not depend on the order of children.
pub fn reordered_fold<
    'a,
    P: Problem,
    M: KeyShape<P>,
    K: Fn(&P::Node) -> u64 + Sync,
    T: Tally<P::Node>,
>(reordered: &Reordered<'a, P, M, K>, tally: &T)
    requires { P.sound reordered.now.inner.now (P.root reordered.now.inner.now) }
    ensures { let t = search_tree P.Problem reordered.now.inner.now in
        Fold (reordered_tree (M.key reordered.now.inner.now) t) (T.join tally.now) (T.none tally.now) (T.of tally.now)
        ≡ Fold t (T.join tally.now) (T.none tally.now) (T.of tally.now) }
{
    let _ = reordered;
    let _ = tally;
}
