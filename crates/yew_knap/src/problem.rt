//! The knapsack problem as a problem of tree search.

ghost use Rattle.std.specs.Prelude.{◌≡◌, ◌<◌, ◌≤◌, length};

use crate::item_sets::ItemSet;
use crate::knapsack::Knapsack;
use crate::nodes::{KnapKids, KnapNode};
use std::alloc::Global;
use yew_laws::{Memory, Problem};

impl Knapsack {
    ghost use Rattle.yew_knap.specs.Nodes.{added, item_of, IsNode};
    ghost use Rattle.yew_knap.specs.Copies.{searched_copies};

    /// The set with one more copy, that at a place of the searched order, which fits.
    #[inline(always)]
    fn with(&self, kids: &KnapKids, place: usize) -> KnapNode
        requires within { place < length (searched_copies self.now) }
        requires fits { (item_of (searched_copies self.now) place).weight ≤ kids.now.room }
        requires sound { IsNode self.now (added self.now kids.now place (item_of (searched_copies self.now) place)) }
        ensures { result ≡ added self.now kids.now place (item_of (searched_copies self.now) place) }
    {
        let here = &self.places()[place];
        let next = place + 1;
        // Together with all copies in front of the place, so that the places tell which of them fit.
        let room = here.weight_before + kids.room;
        KnapNode {
            profit: kids.profit + here.profit as u64,
            room: kids.room - here.weight as u64,
            next,
            breaking: self.find_breaking(kids.breaking, next, room),
            earlier: kids.chosen,
            last: Some(place as u32),
        }
    }
}

impl Problem for Knapsack {
    ghost use Rattle.yew_knap.specs.Nodes.{root_of, children_of, remaining_of, rank_of, worth_of, bound_of, IsNode};
    ghost use Rattle.yew_knap.specs.NodeLaws.{knapsack-ranked, root_rank-small, children-few};
    ghost use Rattle.yew_knap.specs.BoundLaws.{knapsack-bounded};

    type Node = KnapNode;

    type Kids = KnapKids;

    ghost root = { root_of };

    ghost children = { children_of };

    ghost rank = { rank_of };

    ghost sound = { IsNode };

    ghost remaining = { remaining_of };

    ghost worth = { λ instance node. worth_of instance node };

    ghost bound = { bound_of };

    ghost ranked = { knapsack-ranked };

    ghost root_rank = { λ instance sound. root_rank-small instance sound.limits };

    ghost bounded = { knapsack-bounded };

    ghost countable = { children-few };

    fn root(&self, _alloc: Global) -> Result<KnapNode, Memory> {
        let capacity = self.capacity();
        Ok(KnapNode {
            profit: 0,
            room: capacity,
            next: 0,
            breaking: self.find_breaking(0, 0, capacity),
            earlier: ItemSet::empty(),
            last: None,
        })
    }

    #[inline(always)]
    fn open(&self, _alloc: Global, node: KnapNode) -> Result<KnapKids, Memory> {
        Ok(KnapKids {
            profit: node.profit,
            room: node.room,
            next: node.next,
            breaking: node.breaking,
            chosen: node.items(),
        })
    }

    #[inline(always)]
    fn next(&self, _alloc: Global, kids: &mut KnapKids) -> Result<Option<KnapNode>, Memory> {
        let places = self.places();
        let end = self.copies().len();
        for place in kids.next..end {
            let here = &places[place];
            if here.weight as u64 <= kids.room {
                let node = self.with(kids, place);
                kids.next = here.next_item as usize;
                kids.breaking = node.breaking;
                return Ok(Some(node));
            }
            if kids.room < here.least_weight as u64 {
                kids.next = end;
                return Ok(None);
            }
        }
        kids.next = end;
        Ok(None)
    }

    #[inline(always)]
    fn worth(&self, node: &KnapNode) -> u64 {
        node.profit + 1
    }

    #[inline(always)]
    fn bound(&self, node: &KnapNode) -> u64 {
        let gain = self.greedy_gain(node.next, node.breaking, node.room);
        node.profit + gain + 1
    }
}
