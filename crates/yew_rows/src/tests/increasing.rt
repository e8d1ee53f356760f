//! Trees of numbers, given as tables.
ghost use Rattle.std.specs.Prelude.{◌≡◌, ◌+◌, ◌<◌, [], ◌∷◌, length, slice_index, IfSome, MatchOption};
ghost use Rattle.yew_rows.specs.IncreasingTrees.{children_from, children_of, rank_of, worth_of, IsNumberOf};
ghost use Rattle.yew_rows.specs.IncreasingTrees.{increasing-ranked, increasing-root_rank, increasing-bounded, increasing-countable};

use std::alloc::Global;
use yew_laws::{Memory, Problem};

/// An increasing tree: the nodes are the numbers below the length of the table, the root is 0, and the children of a
/// number are the greater ones that have it as their parent, by rising number. The bound of a number is how many there
/// are from it on, and its worth is that of the table, at most its bound.
#[derive(Drop)]
pub struct Increasing {
    pub parents: Vec<usize>,
    pub worths: Vec<u64>,
}

/// The children of a number from another one on.
#[derive(Clone, Copy)]
pub struct Later {
    parent: usize,
    next: usize,
}

/// The number at a place of a table, and 0 past its end.
pub fn number_at(numbers: &[u64], place: usize) -> u64
    ensures { result ≡ slice_index numbers.now place }
{
    if place < numbers.len() {
        numbers[place]
    } else {
        0
    }
}

/// The first number from another one on whose parent is this one.
#[tactic(auto, using(crate::specs::IncreasingTrees::children_from_here, crate::specs::IncreasingTrees::children_from_past, crate::specs::IncreasingTrees::children_from_end))]
pub fn next_child(parents: &[usize], parent: usize, from: usize) -> Option<usize>
    ensures below { IfSome result (λ child. child < length parents.now) }
    ensures first { MatchOption result (children_from parents.now parent from ≡ [])
        (λ child. children_from parents.now parent from ≡ child ∷ children_from parents.now parent (child + 1)) }
{
    for number in from..parents.len() {
        if parents[number] == parent {
            return Some(number);
        }
    }
    None
}

impl Problem for Increasing {
    type Node = usize;

    type Kids = Later;

    ghost root = { λ _. 0 };

    ghost children = { λ tree. children_of tree.parents.items };

    ghost rank = { λ tree. rank_of tree.parents.items };

    ghost sound = { λ tree. IsNumberOf tree.parents.items };

    ghost remaining = { λ tree kids. children_from tree.parents.items kids.parent kids.next };

    ghost worth = { λ tree. worth_of tree.parents.items tree.worths.items };

    ghost bound = { λ tree. rank_of tree.parents.items };

    ghost ranked = { λ tree. increasing-ranked tree.parents.items };

    ghost root_rank = { λ tree. increasing-root_rank tree.parents.items };

    ghost bounded = { λ tree. increasing-bounded tree.parents.items tree.worths.items };

    ghost countable = { λ tree. increasing-countable tree.parents.items };

    fn root(&self, _alloc: Global) -> Result<usize, Memory> {
        Ok(0)
    }

    fn open(&self, _alloc: Global, node: usize) -> Result<Later, Memory> {
        Ok(Later {
            parent: node,
            next: node + 1,
        })
    }

    fn next(&self, _alloc: Global, kids: &mut Later) -> Result<Option<usize>, Memory> {
        match next_child(&self.parents, kids.parent, kids.next) {
            Some(child) => {
                kids.next = child + 1;
                Ok(Some(child))
            }
            None => {
                kids.next = self.parents.len();
                Ok(None)
            }
        }
    }

    fn worth(&self, node: &usize) -> u64 {
        number_at(&self.worths, *node).min(self.bound(node))
    }

    fn bound(&self, node: &usize) -> u64 {
        (self.parents.len() - *node) as u64
    }
}
