//! What a problem of tree search is: its tree, one child at a time, with a worth and a bound at each node.

ghost use Rattle.std.specs.Prelude.{◌≡◌, ℕ, ◌+◌, ◌<◌, ◌≤◌, ◌^◌, List, [], ◌∷◌, length, IfOk, OnErr, MatchOption};
ghost use Rattle.std.specs.List.{AllByRecursion};
ghost use Rattle.yew_laws.specs.Tree.{IsRanked, IsBounded};

use crate::memory::Memory;
use crate::paths::Path;
use std::alloc::Global;

/// A problem of tree search: a lazy node generator, which gives the children of a node one at a time, the most
/// promising first (Archibald, Maier, Stewart and Trinder, PPoPP 2020).
///
/// An implementation says what its tree is by the ghost members, and proves the facts on them; each skeleton then
/// applies. A node should be small and flat: what its children, its worth and its bound need, and no memory of its own.
pub trait Problem: Sync {
    /// A node of the tree.
    type Node: Send + Drop;

    /// A generator: the children of one node that were not given yet.
    type Kids: Send + Drop;

    /// The root of the tree.
    ghost root: { Self → Self.Node };

    /// The children of a node, in order.
    ghost children: { Self → Self.Node → List Self.Node };

    /// At most so many levels lie below a node.
    ghost rank: { Self → Self.Node → ℕ };

    /// Which data are nodes of this problem.
    ghost sound: { Self → Self.Node → Type 0 };

    /// The nodes that a generator has still to give.
    ghost remaining: { Self → Self.Kids → List Self.Node };

    /// How good a node is as an answer. A worth of 0 is no answer.
    ghost worth: { Self → Self.Node → ℕ };

    /// At least the worth of each node at or below a node.
    ghost bound: { Self → Self.Node → ℕ };

    /// The children of a sound node are sound, and of less rank.
    ghost ranked: { (problem : Self) → IsRanked (sound problem) (children problem) (rank problem) };

    /// The root has at most 65,535 levels below it.
    ghost root_rank: { (problem : Self) → sound problem (root problem) → rank problem (root problem) ≤ 65535 };

    /// No node at or below a node has a worth above the node's bound, and every bound is below 2^40.
    ghost bounded: { (problem : Self) → IsBounded (sound problem) (children problem) (worth problem) (bound problem) };

    /// A node has fewer than 2^32 - 1 children.
    ghost countable: { (problem : Self) (node : Self.Node) → sound problem node → length (children problem node) + 1 < 2 ^ 32 };

    /// The root.
    ///
    /// # Errors
    ///
    /// `Memory` where memory ran out.
    fn root(&self, alloc: Global) -> Result<Self::Node, Memory>
        requires { sound self.now (root self.now) }
        ensures { IfOk result (λ node. node ≡ root self.now) };

    /// The generator of a node's children.
    ///
    /// # Errors
    ///
    /// `Memory` where memory ran out.
    fn open(&self, alloc: Global, node: Self::Node) -> Result<Self::Kids, Memory>
        requires root { sound self.now (root self.now) }
        requires node { sound self.now node }
        ensures { IfOk result (λ kids. remaining self.now kids ≡ children self.now node) };

    /// The next child, which the generator then no longer has, or `None` where it has none left.
    ///
    /// # Errors
    ///
    /// `Memory` where memory ran out. The generator then has all that it had.
    fn next(&self, alloc: Global, kids: &mut Self::Kids) -> Result<Option<Self::Node>, Memory>
        requires root { sound self.now (root self.now) }
        requires kids { AllByRecursion (sound self.now) (remaining self.now kids.old) }
        ensures ok { IfOk result (λ found. MatchOption found
            ((remaining self.now kids.old ≡ []) × (remaining self.now kids.new ≡ []))
            (λ node. remaining self.now kids.old ≡ node ∷ remaining self.now kids.new)) }
        ensures err { OnErr result (remaining self.now kids.new ≡ remaining self.now kids.old) };

    /// The worth of a node.
    fn worth(&self, node: &Self::Node) -> u64
        requires root { sound self.now (root self.now) }
        requires node { sound self.now node.now }
        ensures { result ≡ worth self.now node.now };

    /// The bound of a node.
    fn bound(&self, node: &Self::Node) -> u64
        requires root { sound self.now (root self.now) }
        requires node { sound self.now node.now }
        ensures { result ≡ bound self.now node.now };
}

/// A node to search from, with its path from the root of the tree. For a problem `P` that is a `Task<P::Node>`: what
/// carries tasks between threads speaks of the nodes alone.
#[derive(Drop)]
pub struct Task<N> {
    pub path: Path,
    pub node: N,
}
