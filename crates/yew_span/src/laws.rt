//! What the bound with the span says, and that the tree is that of the tours. Each function does nothing: its contract is the law.

ghost use Rattle.std.specs.Prelude.{◌≡◌, ◌≤◌, IsTrue, IsFalse};
ghost use Rattle.yew_laws.specs.Greatest.{greatest};
ghost use Rattle.yew_laws.specs.SearchTree.{preorder};
ghost use Rattle.yew_span.specs.Bounds.{spanned_bound, spanned_tree, BoundIs, IsLowerLength};
ghost use Rattle.yew_span.specs.Span.{IsSymmetric};
ghost use Rattle.yew_tsp.specs.Answers.{tours_tree};
ghost use Rattle.yew_tsp.specs.Nodes.{bound_of, IsNode};

use crate::spanned::Spanned;
use yew_tsp::{TourNode, Tours};

/// No tour that begins with a node's list is shorter than the length so far and the least weight that joins the last city, city 1
/// and the cities that are not in the list.
pub fn span_is_lower(tours: &Tours, node: &TourNode)
    requires symmetric { IsSymmetric tours.now }
    requires node { IsNode tours.now node.now }
    ensures { IsLowerLength tours.now node.now }
{
    let _ = tours;
    let _ = node;
}

/// Where the weights are symmetric the bound is 2^37 less the length so far and less the greater of the inner bound's rest and that
/// least weight; elsewhere it is the inner bound. It is never above the inner bound.
pub fn spanned_bounds(spanned: &Spanned, node: &TourNode)
    requires { IsNode spanned.now.inner.now node.now }
    ensures symmetric { IsTrue spanned.now.symmetric → BoundIs spanned.now.inner.now node.now }
    ensures elsewhere { IsFalse spanned.now.symmetric → spanned_bound spanned.now.symmetric spanned.now.inner.now node.now ≡ bound_of spanned.now.inner.now node.now }
    ensures below { spanned_bound spanned.now.symmetric spanned.now.inner.now node.now ≤ bound_of spanned.now.inner.now node.now }
{
    let _ = spanned;
    let _ = node;
}

/// The tree that is searched has the members of the tree of the tours, and the same greatest worth. So its whole lists are all
/// tours, each once, and its greatest worth tells the least length, as [`yew_tsp::laws::tree_tours`] says of the tours.
pub fn spanned_is_tours(spanned: &Spanned)
    ensures members { preorder (spanned_tree spanned.now.symmetric spanned.now.inner.now) ≡ preorder (tours_tree spanned.now.inner.now) }
    ensures greatest { greatest (spanned_tree spanned.now.symmetric spanned.now.inner.now) ≡ greatest (tours_tree spanned.now.inner.now) }
{
    let _ = spanned;
}
