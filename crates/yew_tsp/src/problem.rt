//! The problem of the shortest tour as a problem of tree search.

ghost use Rattle.std.specs.Prelude.{◌≡◌, slice_index};
ghost use Rattle.yew_tsp.specs.Nodes.{extended, IsNode};

use crate::nodes::{TourKids, TourNode};
use crate::tours::Tours;
use std::alloc::Global;
use yew_laws::{Memory, Problem};

/// What a length is taken from, 2^37, so that a shorter tour has a greater worth.
pub(crate) const WHOLE: u64 = 1 << 37;

impl Tours {
    /// The list of a node that is written out with one more city.
    #[inline(always)]
    fn extend(&self, node: &TourNode, city: u32) -> TourNode
        requires written { slice_index node.now.cities node.now.steps ≡ node.now.last }
        requires child { IsNode self.now (extended self.now node.now city) }
        ensures { result ≡ extended self.now node.now city }
    {
        let surplus = self.surplus(node.last as usize, city as usize);
        TourNode {
            cities: node.cities,
            steps: node.steps + 1,
            last: city as u8,
            unvisited: node.unvisited & !(1 << city),
            lower: node.lower + surplus as u64,
        }
    }
}

impl Problem for Tours {
    ghost use Rattle.yew_tsp.specs.Nodes.{root_of, children_of, remaining_of, rank_of, worth_of, bound_of, IsNode};
    ghost use Rattle.yew_tsp.specs.NodeLaws.{tours-ranked, root_rank-small, children-few};
    ghost use Rattle.yew_tsp.specs.BoundLaws.{tours-bounded};

    type Node = TourNode;

    type Kids = TourKids;

    ghost root = { root_of };

    ghost children = { children_of };

    ghost rank = { rank_of };

    ghost sound = { IsNode };

    ghost remaining = { remaining_of };

    ghost worth = { worth_of };

    ghost bound = { bound_of };

    ghost ranked = { tours-ranked };

    ghost root_rank = { root_rank-small };

    ghost bounded = { tours-bounded };

    ghost countable = { children-few };

    #[inline(always)]
    fn root(&self, _alloc: Global) -> Result<TourNode, Memory> {
        Ok(self.first())
    }

    #[inline(always)]
    fn open(&self, _alloc: Global, node: TourNode) -> Result<TourKids, Memory> {
        Ok(TourKids {
            left: node.unvisited,
            parent: node.written(),
        })
    }

    #[inline(always)]
    fn next(&self, _alloc: Global, kids: &mut TourKids) -> Result<Option<TourNode>, Memory> {
        let left = kids.left;
        if left == 0 {
            return Ok(None);
        }
        let city = left.trailing_zeros();
        let child = self.extend(&kids.parent, city);
        kids.left = left & !(1 << city);
        Ok(Some(child))
    }

    #[inline(always)]
    fn worth(&self, node: &TourNode) -> u64 {
        if node.unvisited != 0 {
            return 0;
        }
        WHOLE - (node.lower + self.surplus(node.last as usize, 1) as u64)
    }

    #[inline(always)]
    fn bound(&self, node: &TourNode) -> u64 {
        WHOLE - node.lower
    }
}
