//! The tree of a problem as a count sees it: each node is visited, and none is an answer.

ghost use Rattle.yew_kinds.specs.WrapperLaws.{counted-bounded};

use std::alloc::Global;
use yew_laws::{Memory, Problem};

/// The tree of the inner problem, where each node has worth 0 and bound 1.
#[derive_where(Clone, Copy)]
pub struct Counted<'a, P: Problem> {
    pub inner: &'a P,
}

impl<'a, P: Problem> Problem for Counted<'a, P> {
    type Node = P::Node;

    type Kids = P::Kids;

    ghost root = { λ counted. P.root counted.inner.now };

    ghost children = { λ counted. P.children counted.inner.now };

    ghost rank = { λ counted. P.rank counted.inner.now };

    ghost sound = { λ counted. P.sound counted.inner.now };

    ghost remaining = { λ counted. P.remaining counted.inner.now };

    ghost worth = { λ _ _. 0 };

    ghost bound = { λ _ _. 1 };

    ghost ranked = { λ counted. P.ranked counted.inner.now };

    ghost root_rank = { λ counted. P.root_rank counted.inner.now };

    ghost bounded = { λ counted. counted-bounded (P.bounded counted.inner.now) };

    ghost countable = { λ counted. P.countable counted.inner.now };

    fn root(&self, alloc: Global) -> Result<P::Node, Memory> {
        self.inner.root(alloc)
    }

    #[inline(always)]
    fn open(&self, alloc: Global, node: P::Node) -> Result<P::Kids, Memory> {
        self.inner.open(alloc, node)
    }

    #[inline(always)]
    fn next(&self, alloc: Global, kids: &mut P::Kids) -> Result<Option<P::Node>, Memory> {
        self.inner.next(alloc, kids)
    }

    #[inline(always)]
    fn worth(&self, _node: &P::Node) -> u64 {
        0
    }

    #[inline(always)]
    fn bound(&self, _node: &P::Node) -> u64 {
        1
    }
}
