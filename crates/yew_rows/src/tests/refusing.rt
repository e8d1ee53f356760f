//! A crew that has no memory for one node.
ghost use Rattle.std.specs.Prelude.{◌≤◌, []};
ghost use Rattle.yew_crew.specs.Stations.{IsCoord};
ghost use Rattle.yew_semi.specs.SemigroupLaws.{few-levels, semigroups-ranked, semigroups-bounded, semigroups-countable};
ghost use Rattle.yew_semi.specs.SemigroupTree.{children_of, rank_of, IsSemigroup};

use super::allowed;
use std::alloc::Global;
use std::sync::Wait;
use std::test::Fail;
use std::thread::Threads;
use yew_crew::{Coord, search_crew};
use yew_io::OpenGate;
use yew_kinds::{ByDepth, Kind};
use yew_laws::{Memory, Problem};
use yew_log::Counts;
use yew_semi::{Generators, Semigroup, Semigroups};
use yew_stack::Chunk;
use yew_walk::SearchFault;

/// Semigroups, of which the one whose gaps are 1 and 2 has no memory for its children. Its path is 0, 0.
#[derive(Drop)]
struct Refusing {
    inner: Semigroups,
}

impl Problem for Refusing {
    type Node = Semigroup;

    type Kids = Generators;

    ghost root = { λ _. [] };

    ghost children = { λ refusing gaps. children_of refusing.inner.genus gaps };

    ghost rank = { λ refusing gaps. rank_of refusing.inner.genus gaps };

    ghost sound = { λ refusing gaps. IsSemigroup refusing.inner.genus gaps };

    ghost remaining = { λ _ kids. kids };

    ghost worth = { λ _ _. 0 };

    ghost bound = { λ _ _. 1 };

    ghost ranked = { λ refusing. semigroups-ranked refusing.inner.genus };

    ghost root_rank = { λ refusing _. few-levels refusing.inner.genus refusing.inner.few };

    ghost bounded = { λ refusing. semigroups-bounded refusing.inner.genus };

    ghost countable = { λ refusing gaps s. semigroups-countable refusing.inner.genus refusing.inner.few gaps s };

    fn root(&self, alloc: Global) -> Result<Semigroup, Memory> {
        self.inner.root(alloc)
    }

    fn open(&self, alloc: Global, node: Semigroup) -> Result<Generators, Memory> {
        if node.genus() == 2 && node.is_gap(1) && node.is_gap(2) {
            return Err(Memory);
        }
        self.inner.open(alloc, node)
    }

    fn next(&self, alloc: Global, kids: &mut Generators) -> Result<Option<Semigroup>, Memory> {
        self.inner.next(alloc, kids)
    }

    fn worth(&self, node: &Semigroup) -> u64 {
        self.inner.worth(node)
    }

    fn bound(&self, node: &Semigroup) -> u64 {
        self.inner.bound(node)
    }
}

/// Whether a crew ends for want of memory.
fn is_refused<R: Threads + Wait + Sync>(
    rt: &R,
    alloc: Global,
    genus: u32,
    coord: Coord,
    workers: u32,
) -> bool
    requires genus { genus ≤ 40 }
    requires coord { IsCoord coord }
    requires workers { (1 ≤ workers) × (workers ≤ 64) }
{
    let problem = Refusing {
        inner: Semigroups::new(genus),
    };
    let tally = ByDepth { depths: 5 };
    match search_crew::<_, _, Counts, _, _>(
        rt,
        alloc,
        &problem,
        Kind::Count,
        &tally,
        coord,
        workers,
        &OpenGate,
    ) {
        Err(SearchFault::Memory) => true,
        _ => false,
    }
}

// Whichever worker comes to that node, all end and memory is answered. Without the node there is an answer.
#[test]
fn a_refused_node_ends_all_workers(rt: HostRuntime) -> Result<(), Fail> {
    let alloc = rt.alloc();
    for coord in [
        Coord::Depth(1),
        Coord::Depth(2),
        Coord::Depth(3),
        Coord::Budget(1),
        Coord::Budget(5),
        Coord::Steal(Chunk::One),
        Coord::Steal(Chunk::All),
    ] {
        for _round in 0..20 {
            assert!(rt; is_refused(&rt, alloc, 5, allowed(coord), 3));
        }
        assert!(rt; !is_refused(&rt, alloc, 1, allowed(coord), 3));
    }
    Ok(())
}
