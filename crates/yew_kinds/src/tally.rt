//! Folds of the nodes of a tree.

ghost use Rattle.std.specs.Prelude.{◌≡◌, ℕ, IfOk};
ghost use Rattle.yew_kinds.specs.TallyLaws.{unit-tally};
ghost use Rattle.yew_laws.specs.Fold.{IsTally};

use std::alloc::Global;
use yew_laws::Memory;

/// A fold of nodes into a commutative monoid: sums that can be joined in any order, each node with the sum that it is
/// worth at its depth (enumeration in Archibald, Maier, Stewart and Trinder, PPoPP 2020).
///
/// An implementation says what its sums are by the ghost members, and proves the facts on them.
pub trait Tally<N>: Sync {
    /// A sum of nodes.
    type Sum: Send + Drop;

    /// The sum of no nodes.
    ghost none: { Self → Self.Sum };

    /// The sum of one node at a depth.
    ghost of: { Self → N → ℕ → Self.Sum };

    /// Two sums together.
    ghost join: { Self → Self.Sum → Self.Sum → Self.Sum };

    /// Which data are sums of this tally.
    ghost fits: { Self → Self.Sum → Type 0 };

    /// The sums that fit are a commutative monoid.
    ghost monoid: { (tally : Self) → IsTally (fits tally) (join tally) (none tally) };

    /// The sum of one node fits.
    ghost of_fits: { (tally : Self) (node : N) (depth : ℕ) → fits tally (of tally node depth) };

    /// The sum of no nodes.
    ///
    /// # Errors
    ///
    /// `Memory` where memory ran out.
    fn none(&self, alloc: Global) -> Result<Self::Sum, Memory>
        ensures { IfOk result (λ sum. sum ≡ none self.now) };

    /// Adds a node at a depth to a sum. No memory is taken.
    fn note(&self, sum: &mut Self::Sum, node: &N, depth: u32)
        requires { fits self.now sum.old }
        ensures { sum.new ≡ join self.now sum.old (of self.now node.now depth) };

    /// Joins another sum to a sum. No memory is taken.
    fn join(&self, sum: &mut Self::Sum, other: Self::Sum)
        requires sum { fits self.now sum.old }
        requires other { fits self.now other }
        ensures { sum.new ≡ join self.now sum.old other };
}

/// The tally that keeps nothing, for searches that count no nodes.
#[derive(Clone, Copy, Debug, PartialEq, Eq)]
pub struct NoTally;

impl<N> Tally<N> for NoTally {
    type Sum = ();

    ghost none = { λ _. tt };

    ghost of = { λ _ _ _. tt };

    ghost join = { λ _ _ _. tt };

    ghost fits = { λ _ _. Unit {0} };

    ghost monoid = { λ _. unit-tally };

    ghost of_fits = { λ _ _ _. tt };

    fn none(&self, _alloc: Global) -> Result<(), Memory> {
        Ok(())
    }

    fn note(&self, _sum: &mut (), _node: &N, _depth: u32) {}

    fn join(&self, _sum: &mut (), _other: ()) {}
}
