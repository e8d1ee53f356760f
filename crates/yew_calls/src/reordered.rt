//! The children of a problem in the order of keys.

ghost use Rattle.std.specs.Prelude.{ℕ, ◌≡◌};
ghost use Rattle.std.specs.Vec.Iter.{into_iter_items};
ghost use Rattle.yew_calls.specs.Calls.{AnswersNumber};
ghost use Rattle.yew_calls.specs.KeyOrder.{by_key};
ghost use Rattle.yew_calls.specs.Keyed.{nodes_of};
ghost use Rattle.yew_calls.specs.ReorderLaws.{reordered-ranked, reordered-bounded, reordered-countable};
ghost use Rattle.yew_calls.specs.ShapeLaws.{both-ranked, both-bounded};

use crate::keyed::{Keyed, in_order};
use std::alloc::Global;
use std::marker::PhantomData;
use std::vec::IntoIter;
use yew_laws::{Memory, Problem};

/// For how many children room is made at once: a list that grows to its length is copied each time.
const SOME_CHILDREN: usize = 32;

/// By which keys the children of a problem are put in order. No code has a value of it.
pub trait KeyShape<P: Problem>: Sync {
    /// The key of a node of a problem.
    ghost key: { P → P.Node → ℕ };
}

/// The tree of the inner problem with the children of each node by rising key; children of one key stay in their order.
/// Root, worth, bound and rank are the inner ones.
#[derive(Drop)]
pub struct Reordered<'a, P: Problem, M: KeyShape<P>, K> {
    /// The problem whose children are put in order.
    pub inner: &'a P,
    key: K,
    shape: PhantomData<M>,
}

impl<'a, P: Problem, M: KeyShape<P>, K: Fn(&P::Node) -> u64 + Sync> Reordered<'a, P, M, K> {
    /// The problem with its children in another order. The function may be called on every sound node, and answers the
    /// key of the node.
    pub fn new(inner: &'a P, key: K) -> Reordered<'a, P, M, K>
        requires { AnswersNumber (K.pre key) (K.post key) (P.sound inner.now) (M.key inner.now) }
        ensures inner { result.inner.now ≡ inner.now }
        ensures sound { let problem = ⟦<Reordered<'a, P, M, K> as Problem>⟧ in
            P.sound inner.now (P.root inner.now) → problem.sound result (problem.root result) }
    {
        Reordered {
            inner,
            key,
            shape: PhantomData,
        }
    }
}

impl<'a, P: Problem, M: KeyShape<P>, K: Fn(&P::Node) -> u64 + Sync> Problem
    for Reordered<'a, P, M, K> {
    type Node = P::Node;

    type Kids = IntoIter<Keyed<P::Node>>;

    ghost root = { λ reordered. P.root reordered.inner.now };

    ghost children = { λ reordered node. by_key (M.key reordered.inner.now) (P.children reordered.inner.now node) };

    ghost rank = { λ reordered. P.rank reordered.inner.now };

    ghost sound = { λ reordered node. P.sound reordered.inner.now node
        × AnswersNumber (K.pre reordered.key) (K.post reordered.key) (P.sound reordered.inner.now) (M.key reordered.inner.now) };

    ghost remaining = { λ _ kids. nodes_of (into_iter_items kids) };

    ghost worth = { λ reordered. P.worth reordered.inner.now };

    ghost bound = { λ reordered. P.bound reordered.inner.now };

    ghost ranked = { λ reordered. both-ranked (reordered-ranked (M.key reordered.inner.now) (P.children reordered.inner.now) (P.ranked reordered.inner.now)) };

    ghost root_rank = { λ reordered both. P.root_rank reordered.inner.now both.0 };

    ghost bounded = { λ reordered.
        both-bounded (reordered-bounded (M.key reordered.inner.now) (P.children reordered.inner.now) (P.bounded reordered.inner.now)) };

    ghost countable = { λ reordered node both.
        reordered-countable (M.key reordered.inner.now) (P.children reordered.inner.now) (P.countable reordered.inner.now) node both.0 };

    fn root(&self, alloc: Global) -> Result<P::Node, Memory> {
        self.inner.root(alloc)
    }

    fn open(&self, alloc: Global, node: P::Node) -> Result<IntoIter<Keyed<P::Node>>, Memory> {
        let mut kids = self.inner.open(alloc, node)?;
        let mut keyed = Vec::with_capacity(alloc, SOME_CHILDREN)?;
        while let Some(child) = self.inner.next(alloc, &mut kids)? {
            let key = (self.key)(&child);
            keyed.push(Keyed { key, node: child })?;
        }
        Ok(in_order(keyed)?.into_iter())
    }

    #[inline(always)]
    fn next(
        &self,
        _alloc: Global,
        kids: &mut IntoIter<Keyed<P::Node>>,
    ) -> Result<Option<P::Node>, Memory> {
        match kids.next() {
            Some(child) => Ok(Some(child.node)),
            None => Ok(None),
        }
    }

    #[inline(always)]
    fn worth(&self, node: &P::Node) -> u64 {
        self.inner.worth(node)
    }

    #[inline(always)]
    fn bound(&self, node: &P::Node) -> u64 {
        self.inner.bound(node)
    }
}
