//! What is searched of tours: they themselves, or a problem over them with another bound or another order of children, whose
//! tree has the same lists of cities.

ghost use Rattle.std.specs.Prelude.{◌≡◌, refl};
ghost use Rattle.yew_laws.specs.Greatest.{greatest};
ghost use Rattle.yew_laws.specs.SearchTree.{SearchTree, search_tree};
ghost use Rattle.yew_span.specs.Bounds.{span_tree};
ghost use Rattle.yew_span.specs.SymmetryLaws.{span_tree-is};
ghost use Rattle.yew_tsp.specs.Answers.{tours_tree};
ghost use Rattle.yew_tsp.specs.declared.nodes.TourNode.{TourNode as ListNode};
ghost use Rattle.yew_tsp.specs.Instance.{Instance};
ghost use Rattle.yew_tsp.specs.Nodes.{cities_of, worth_of, IsNode};
ghost use Rattle.yew_tsp.specs.Routes.{last_step};
ghost use Rattle.yew_app.specs.ShortestTours.{near_tree};
ghost use Rattle.yew_app.specs.TourTreeLaws.{near_tree-is};

use yew_calls::{KeyShape, Reordered};
use yew_laws::Problem;
use yew_span::Spanned;
use yew_tsp::{TourNode, Tours};

/// A problem whose tree has the lists of cities of an instance as its nodes, with the worths of the tours.
pub(crate) trait ToursSearch: Problem<Node = TourNode> {
    /// The instance.
    ghost instance: { Self → Instance };

    /// The tree that is searched of an instance.
    ghost tree: { Instance → SearchTree ListNode };

    /// The tours of the instance.
    fn tours(&self) -> &Tours
        ensures { result.now ≡ instance self.now };

    /// The greatest worth is that of the tours. A law: it does nothing.
    fn greatest_is(&self)
        requires { Self.sound self.now (Self.root self.now) }
        ensures { greatest (tree (instance self.now)) ≡ greatest (tours_tree (instance self.now)) };

    /// A node is a list of cities of the instance, with the worth of the tours. A law: it does nothing.
    fn node_is_list(&self, node: &TourNode)
        requires { Self.sound self.now node.now }
        ensures node { IsNode (instance self.now) node.now }
        ensures worth { (tree (instance self.now)).worth node.now ≡ worth_of (instance self.now) node.now };

    /// The tree is that of the problem.
    ghost tree_is: { (searched : Self) → tree (instance searched) ≡ search_tree ⟦<Self as Problem>⟧ searched };

    /// The nodes are lists of the instance.
    ghost nodes: { (searched : Self) (node : ListNode) → Self.sound searched node → IsNode (instance searched) node };
}

impl ToursSearch for Tours {
    ghost instance = { λ tours. tours };

    ghost tree = { tours_tree };

    fn tours(&self) -> &Tours {
        self
    }

    fn greatest_is(&self) {}

    fn node_is_list(&self, node: &TourNode) {
        let _ = node;
    }

    ghost tree_is = { λ _. refl };

    ghost nodes = { λ _ _ is. is };
}

impl<'a> ToursSearch for Spanned<'a> {
    ghost instance = { λ spanned. spanned.inner.now };

    ghost tree = { span_tree };

    fn tours(&self) -> &Tours {
        self.inner
    }

    fn greatest_is(&self) {}

    fn node_is_list(&self, node: &TourNode) {
        let _ = node;
    }

    ghost tree_is = { λ spanned. span_tree-is spanned.inner.now spanned.symmetric spanned.symmetric_is };

    ghost nodes = { λ _ _ is. is };
}

/// The key of a list of cities is the weight of its last step, and 0 where it has no step. No code has a value of it.
pub(crate) struct LastStep;

impl<P: ToursSearch> KeyShape<P> for LastStep {
    ghost key = { λ searched node. last_step (P.instance searched) (cities_of node) };
}

impl<'a, P: ToursSearch, K: Fn(&TourNode) -> u64 + Sync> ToursSearch
    for Reordered<'a, P, LastStep, K> {
    ghost instance = { λ near. P.instance near.inner.now };

    ghost tree = { near_tree P.tree };

    fn tours(&self) -> &Tours {
        self.inner.tours()
    }

    fn greatest_is(&self) {
        self.inner.greatest_is();
    }

    fn node_is_list(&self, node: &TourNode) {
        self.inner.node_is_list(node);
    }

    ghost tree_is = { λ near. near_tree-is P.tree (P.instance near.inner.now) (search_tree P.Problem near.inner.now) (P.tree_is near.inner.now) };

    ghost nodes = { λ near node is. P.nodes near.inner.now node is.0 };
}
