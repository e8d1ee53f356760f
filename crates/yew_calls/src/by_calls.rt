//! The problem of four stored functions.

ghost use Rattle.std.specs.Vec.Iter.{into_iter_items};
ghost use Rattle.yew_calls.specs.Calls.{AnswersRoot, AnswersChildren, AnswersNumber};
ghost use Rattle.yew_calls.specs.ShapeLaws.{both-ranked, both-bounded};

use crate::shape::Shape;
use std::alloc::Global;
use std::marker::PhantomData;
use std::vec::IntoIter;
use yew_laws::{Memory, Problem};

/// The problem of four functions that answer the root, the children, the worth and the bound of a shape.
#[derive(Drop)]
pub struct ByCalls<S: Shape, Z, C, W, B> {
    root: Z,
    children: C,
    worth: W,
    bound: B,
    shape: PhantomData<S>,
}

impl<S: Shape, Z, C, W, B> ByCalls<S, Z, C, W, B>
where
    Z: Fn(Global) -> Result<S::Node, Memory> + Sync,
    C: Fn(Global, &S::Node) -> Result<Vec<S::Node>, Memory> + Sync,
    W: Fn(&S::Node) -> u64 + Sync,
    B: Fn(&S::Node) -> u64 + Sync,
{
    /// The problem of these functions. Each may be called on every sound node, and answers what the shape means: the
    /// root; the children of a node, in order; its worth; its bound. The first two may answer that memory is wanting.
    pub fn new(root: Z, children: C, worth: W, bound: B) -> ByCalls<S, Z, C, W, B>
        requires root { AnswersRoot (Z.pre root) (Z.post root) S.root }
        requires children { AnswersChildren (C.pre children) (C.post children) S.sound S.children }
        requires worth { AnswersNumber (W.pre worth) (W.post worth) S.sound S.worth }
        requires bound { AnswersNumber (B.pre bound) (B.post bound) S.sound S.bound }
        ensures { let problem = ⟦<ByCalls<S, Z, C, W, B> as Problem>⟧ in problem.sound result (problem.root result) }
    {
        ByCalls {
            root,
            children,
            worth,
            bound,
            shape: PhantomData,
        }
    }
}

impl<S: Shape, Z, C, W, B> Problem for ByCalls<S, Z, C, W, B>
where
    Z: Fn(Global) -> Result<S::Node, Memory> + Sync,
    C: Fn(Global, &S::Node) -> Result<Vec<S::Node>, Memory> + Sync,
    W: Fn(&S::Node) -> u64 + Sync,
    B: Fn(&S::Node) -> u64 + Sync,
{
    type Node = S::Node;

    type Kids = IntoIter<S::Node>;

    ghost root = { λ _. S.root };

    ghost children = { λ _. S.children };

    ghost rank = { λ _. S.rank };

    ghost sound = { λ calls node. S.sound node × (
        AnswersRoot (Z.pre calls.root) (Z.post calls.root) S.root
        × AnswersChildren (C.pre calls.children) (C.post calls.children) S.sound S.children
        × AnswersNumber (W.pre calls.worth) (W.post calls.worth) S.sound S.worth
        × AnswersNumber (B.pre calls.bound) (B.post calls.bound) S.sound S.bound) };

    ghost remaining = { λ _. into_iter_items };

    ghost worth = { λ _. S.worth };

    ghost bound = { λ _. S.bound };

    ghost ranked = { λ _. both-ranked S.ranked };

    ghost root_rank = { λ _ _. S.root_rank };

    ghost bounded = { λ _. both-bounded S.bounded };

    ghost countable = { λ _ node both. S.countable node both.0 };

    fn root(&self, alloc: Global) -> Result<S::Node, Memory> {
        (self.root)(alloc)
    }

    #[inline(always)]
    fn open(&self, alloc: Global, node: S::Node) -> Result<IntoIter<S::Node>, Memory> {
        let children = (self.children)(alloc, &node)?;
        Ok(children.into_iter())
    }

    #[inline(always)]
    fn next(
        &self,
        _alloc: Global,
        kids: &mut IntoIter<S::Node>,
    ) -> Result<Option<S::Node>, Memory> {
        Ok(kids.next())
    }

    #[inline(always)]
    fn worth(&self, node: &S::Node) -> u64 {
        (self.worth)(node)
    }

    #[inline(always)]
    fn bound(&self, node: &S::Node) -> u64 {
        (self.bound)(node)
    }
}
