//! What a tree of stored functions is.

ghost use Rattle.std.specs.Prelude.{ℕ, ◌+◌, ◌<◌, ◌≤◌, ◌^◌, List, length};
ghost use Rattle.yew_laws.specs.Tree.{IsRanked, IsBounded};

/// What the tree of a [`ByCalls`](crate::ByCalls) is: the meanings that its functions answer. No code has a value of a
/// shape; an implementation says the meanings by the ghost members, and proves the facts on them.
pub trait Shape: Sync {
    /// A node of the tree.
    type Node: Send + Drop;

    /// The root of the tree.
    ghost root: { Self.Node };

    /// The children of a node, in order.
    ghost children: { Self.Node → List Self.Node };

    /// At most so many levels lie below a node.
    ghost rank: { Self.Node → ℕ };

    /// Which data are nodes of the tree.
    ghost sound: { Self.Node → Type 0 };

    /// How good a node is as an answer. A worth of 0 is no answer.
    ghost worth: { Self.Node → ℕ };

    /// At least the worth of each node at or below a node.
    ghost bound: { Self.Node → ℕ };

    /// The root is a node.
    ghost rooted: { sound root };

    /// The children of a sound node are sound, and of less rank.
    ghost ranked: { IsRanked sound children rank };

    /// The root has at most 65,535 levels below it.
    ghost root_rank: { rank root ≤ 65535 };

    /// No node at or below a node has a worth above the node's bound, and every bound is below 2^40.
    ghost bounded: { IsBounded sound children worth bound };

    /// A node has fewer than 2^32 - 1 children.
    ghost countable: { (node : Self.Node) → sound node → length (children node) + 1 < 2 ^ 32 };
}
