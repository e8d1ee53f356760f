//! The problem of counting numerical semigroups.

ghost use Rattle.std.specs.Prelude.{◌≡◌, ◌≤◌, []};
ghost use Rattle.yew_semi.specs.SemigroupTree.{children_of, rank_of, IsSemigroup};
ghost use Rattle.yew_semi.specs.SemigroupLaws.{few-levels, semigroups-ranked, semigroups-bounded, semigroups-countable};

use crate::semigroup::{Generators, Semigroup};
use std::alloc::Global;
use yew_laws::{Memory, Problem};

/// The tree of the numerical semigroups of at most a genus, itself at most 40.
///
/// A node is seen as the rising list of the gaps of a semigroup. Its children take out one minimal generator that is
/// greater than the Frobenius number, by rising generator; a node of the last genus has no children. No node is an
/// answer: each has worth 0 and bound 1.
#[derive(Clone, Copy, Debug)]
pub struct Semigroups {
    /// The last genus.
    pub genus: u32,
    ghost few: { genus ≤ 40 },
}

impl Semigroups {
    /// The semigroups of at most this genus.
    pub fn new(genus: u32) -> Semigroups
        requires { genus ≤ 40 }
        ensures genus { result.genus ≡ genus }
        ensures root { IsSemigroup result.genus [] }
    {
        Semigroups { genus }
    }
}

impl Problem for Semigroups {
    type Node = Semigroup;

    type Kids = Generators;

    ghost root = { λ _. [] };

    ghost children = { λ semigroups gaps. children_of semigroups.genus gaps };

    ghost rank = { λ semigroups gaps. rank_of semigroups.genus gaps };

    ghost sound = { λ semigroups gaps. IsSemigroup semigroups.genus gaps };

    ghost remaining = { λ _ kids. kids };

    ghost worth = { λ _ _. 0 };

    ghost bound = { λ _ _. 1 };

    ghost ranked = { λ semigroups. semigroups-ranked semigroups.genus };

    ghost root_rank = { λ semigroups s. few-levels semigroups.genus semigroups.few };

    ghost bounded = { λ semigroups. semigroups-bounded semigroups.genus };

    ghost countable = { λ semigroups gaps s. semigroups-countable semigroups.genus semigroups.few gaps s };

    #[inline(always)]
    fn root(&self, _alloc: Global) -> Result<Semigroup, Memory> {
        Ok(Semigroup::all())
    }

    #[inline(always)]
    fn open(&self, _alloc: Global, node: Semigroup) -> Result<Generators, Memory> {
        if node.genus() < self.genus {
            Ok(node.generators())
        } else {
            Ok(node.last())
        }
    }

    #[inline(always)]
    fn next(&self, _alloc: Global, kids: &mut Generators) -> Result<Option<Semigroup>, Memory> {
        Ok(kids.take())
    }

    #[inline(always)]
    fn worth(&self, _node: &Semigroup) -> u64 {
        0
    }

    #[inline(always)]
    fn bound(&self, _node: &Semigroup) -> u64 {
        1
    }
}
