//! The tree of a problem as a decision sees it: a node meets the target or does not.

ghost use Rattle.std.specs.Prelude.{◌≡◌, ◌≤◌, ⊤};
ghost use Rattle.yew_kinds.specs.Wrappers.{clipped};
ghost use Rattle.yew_kinds.specs.WrapperLaws.{clipped-bounded};

use std::alloc::{AllocError, Global};
use yew_laws::{Memory, Problem};

/// The tree of the inner problem, where a node has worth 1 if its worth is at least the target, and 0 otherwise. The
/// bounds are clipped in the same way.
pub struct Clipped<'a, P: Problem> {
    pub inner: &'a P,
    /// The worth that is sought, at least 1.
    pub target: u64,
    ghost positive: { 1 ≤ target },
}

impl<'a, P: Problem> Clone for Clipped<'a, P> {
    ghost is_clone = { λ x y. y ≡ x };

    ghost is_infallible = { λ _. ⊤ };

    fn clone(&self) -> Result<Self, AllocError> {
        Ok(*self)
    }
}

impl<'a, P: Problem> Copy for Clipped<'a, P> {}

impl<'a, P: Problem> Problem for Clipped<'a, P> {
    type Node = P::Node;

    type Kids = P::Kids;

    ghost root = { λ clip. P.root clip.inner.now };

    ghost children = { λ clip. P.children clip.inner.now };

    ghost rank = { λ clip. P.rank clip.inner.now };

    ghost sound = { λ clip. P.sound clip.inner.now };

    ghost remaining = { λ clip. P.remaining clip.inner.now };

    ghost worth = { λ clip node. clipped clip.target (P.worth clip.inner.now node) };

    ghost bound = { λ clip node. clipped clip.target (P.bound clip.inner.now node) };

    ghost ranked = { λ clip. P.ranked clip.inner.now };

    ghost root_rank = { λ clip. P.root_rank clip.inner.now };

    ghost bounded = { λ clip. clipped-bounded (P.bounded clip.inner.now) clip.target };

    ghost countable = { λ clip. P.countable clip.inner.now };

    fn root(&self, alloc: Global) -> Result<P::Node, Memory> {
        self.inner.root(alloc)
    }

    #[inline(always)]
    fn open(&self, alloc: Global, node: P::Node) -> Result<P::Kids, Memory> {
        self.inner.open(alloc, node)
    }

    #[inline(always)]
    fn next(&self, alloc: Global, kids: &mut P::Kids) -> Result<Option<P::Node>, Memory> {
        self.inner.next(alloc, kids)
    }

    #[inline(always)]
    fn worth(&self, node: &P::Node) -> u64 {
        u64::from(self.target <= self.inner.worth(node))
    }

    #[inline(always)]
    fn bound(&self, node: &P::Node) -> u64 {
        u64::from(self.target <= self.inner.bound(node))
    }
}
