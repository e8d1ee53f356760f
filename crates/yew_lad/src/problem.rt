//! The search of a map as a problem of tree search.

use crate::nodes::{MapKids, MapNode, VertexWord};
use crate::subgraph::Subgraph;
use std::alloc::Global;
use yew_laws::{Memory, Problem};

impl Problem for Subgraph {
    ghost use Rattle.yew_lad.specs.Kids.{remaining_of};
    ghost use Rattle.yew_lad.specs.Nodes.{root_of, children_of, rank_of, worth_of, bound_of, IsNode};
    ghost use Rattle.yew_lad.specs.NodeLaws.{maps-ranked, maps-bounded, maps-countable, root_rank-small};

    type Node = MapNode;

    type Kids = MapKids;

    ghost root = { λ pair. root_of pair };

    ghost children = { λ pair images. children_of pair images };

    ghost rank = { λ pair images. rank_of pair images };

    ghost sound = { λ pair images. IsNode pair images };

    ghost remaining = { λ pair kids. remaining_of pair kids };

    ghost worth = { λ pair images. worth_of pair images };

    ghost bound = { λ pair images. bound_of pair images };

    ghost ranked = { λ pair. maps-ranked pair };

    ghost root_rank = { λ pair sound. root_rank-small pair sound };

    ghost bounded = { λ pair. maps-bounded pair };

    ghost countable = { λ pair images sound. maps-countable pair images sound };

    fn root(&self, _alloc: Global) -> Result<MapNode, Memory> {
        Ok(MapNode::root())
    }

    #[inline(always)]
    fn open(&self, _alloc: Global, node: MapNode) -> Result<MapKids, Memory> {
        let word = if node.count() < self.places() {
            self.next_word(&node, 0)
        } else {
            VertexWord { number: 0, bits: 0 }
        };
        Ok(MapKids::new(node, word))
    }

    #[inline(always)]
    fn next(&self, _alloc: Global, kids: &mut MapKids) -> Result<Option<MapNode>, Memory> {
        if kids.word().bits == 0 {
            return Ok(None);
        }
        let image = kids.take();
        self.fill(kids);
        // The child is made last, so that it is copied once.
        Ok(Some(kids.child(image)))
    }

    #[inline(always)]
    fn worth(&self, node: &MapNode) -> u64 {
        if node.count() == self.places() { 1 } else { 0 }
    }

    #[inline(always)]
    fn bound(&self, node: &MapNode) -> u64 {
        let mut unused = [u64::MAX; 16];
        node.take_from(&mut unused);
        for place in node.count()..self.places() {
            if !self.has_candidate(node, &unused, place) {
                return 0;
            }
        }
        1
    }
}
