//! The colouring of a graph as a problem of tree search.

ghost use Rattle.std.specs.Prelude.{◌≡◌, ◌≤◌, []};
ghost use Rattle.yew_example.specs.NodeLaws.{colouring-ranked, colouring-bounded, colouring-countable, root_rank-small};
ghost use Rattle.yew_example.specs.Nodes.{children_from, children_of, rank_of, worth_of, bound_of, IsNode};

use crate::colours::Colours;
use crate::graph::Graph;
use std::alloc::Global;
use yew_laws::{Memory, Problem};

/// Which graph is coloured, and with at most how many colours.
#[derive(Clone, Copy)]
pub struct Colouring<'a> {
    pub graph: Graph<'a>,
    /// The colours are the numbers below this one.
    pub number: u32,
    ghost few_vertices: { graph.vertices ≤ 16 },
    ghost few_colours: { number ≤ 16 },
}

/// The children of a node that were not given yet.
#[derive(Drop)]
pub struct ColouringKids {
    parent: Colours,
    /// The least colour that the next vertex was not given yet.
    next: u32,
}

impl<'a> Problem for Colouring<'a> {
    type Node = Colours;

    type Kids = ColouringKids;

    ghost root = { λ _. [] };

    ghost children = { λ problem colours. children_of problem.graph problem.number colours };

    ghost rank = { λ problem colours. rank_of problem.graph colours };

    ghost sound = { λ problem colours. IsNode problem.graph problem.number colours };

    ghost remaining = { λ problem kids. children_from problem.graph problem.number kids.parent kids.next };

    ghost worth = { λ problem colours. worth_of problem.graph problem.number colours };

    ghost bound = { λ problem colours. bound_of problem.number colours };

    ghost ranked = { λ problem. colouring-ranked problem.graph problem.number };

    ghost root_rank = { λ problem _. root_rank-small problem.graph problem.few_vertices };

    ghost bounded = { λ problem. colouring-bounded problem.graph problem.number problem.few_colours };

    ghost countable = { λ problem colours _. colouring-countable problem.graph problem.number problem.few_colours colours };

    fn root(&self, _alloc: Global) -> Result<Colours, Memory> {
        Ok(Colours::none())
    }

    fn open(&self, _alloc: Global, node: Colours) -> Result<ColouringKids, Memory> {
        Ok(ColouringKids {
            parent: node,
            next: 0,
        })
    }

    fn next(&self, _alloc: Global, kids: &mut ColouringKids) -> Result<Option<Colours>, Memory> {
        if kids.parent.as_slice().len() < self.graph.vertices as usize {
            for colour in kids.next..self.number {
                let child = kids.parent.with(colour);
                if self.graph.is_proper(child.as_slice()) {
                    kids.next = colour + 1;
                    return Ok(Some(child));
                }
            }
            kids.next = self.number;
        }
        Ok(None)
    }

    fn worth(&self, node: &Colours) -> u64 {
        if node.as_slice().len() == self.graph.vertices as usize {
            self.bound(node)
        } else {
            0
        }
    }

    fn bound(&self, node: &Colours) -> u64 {
        (self.number + 1 - node.used()) as u64
    }
}
