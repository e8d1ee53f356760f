//! What a worker does with a station.
ghost use Rattle.std.specs.Prelude.{◌≡◌};
ghost use Rattle.std.specs.List.{range_with_len};
ghost use Rattle.yew_crew.specs.SmallTree.{children_of, rank_of, worth_of, IsBelowSeven, small-ranked, small-bounded, small-countable, small-root_rank};
ghost use Rattle.yew_crew.specs.Stations.{IsCoord};

use crate::starting::{Crew, make_crew};
use crate::{Coord, End, Report, worker};
use std::alloc::Global;
use std::sync::Wait;
use std::test::Fail;
use std::thread::Threads;
use yew_io::OpenGate;
use yew_kinds::{NoTally, Tally};
use yew_laws::{Memory, Problem};
use yew_log::{Counts, Recorder};

/// The numbers below 7. The children of 0 are 1 and 2, those of 1 are 3 and 4, and those of 2 are 5 and 6. The worth of a
/// number is the rest by 6 of it and 2, so that 3 has the greatest.
struct Small;

/// So many numbers from one on.
#[derive(Clone, Copy)]
struct Numbers {
    next: u32,
    count: u32,
}

impl Problem for Small {
    type Node = u32;

    type Kids = Numbers;

    ghost root = { λ _. 0 };

    ghost children = { λ _. children_of };

    ghost rank = { λ _. rank_of };

    ghost sound = { λ _. IsBelowSeven };

    ghost remaining = { λ _ kids. range_with_len kids.next kids.count };

    ghost worth = { λ _. worth_of };

    ghost bound = { λ _ _. 5 };

    ghost ranked = { λ _. small-ranked };

    ghost root_rank = { λ _ _. small-root_rank };

    ghost bounded = { λ _. small-bounded };

    ghost countable = { λ _ n _. small-countable n };

    fn root(&self, _alloc: Global) -> Result<u32, Memory> {
        Ok(0)
    }

    #[tactic(auto, using(crate::specs::SmallTree::children_inner, crate::specs::SmallTree::children_none))]
    fn open(&self, _alloc: Global, node: u32) -> Result<Numbers, Memory> {
        if node < 3 {
            Ok(Numbers {
                next: node + node + 1,
                count: 2,
            })
        } else {
            Ok(Numbers { next: 0, count: 0 })
        }
    }

    #[tactic(auto, using(crate::specs::SmallTree::numbers_first))]
    fn next(&self, _alloc: Global, kids: &mut Numbers) -> Result<Option<u32>, Memory> {
        if kids.count == 0 {
            return Ok(None);
        }
        let node = kids.next;
        kids.next += 1;
        kids.count -= 1;
        Ok(Some(node))
    }

    fn worth(&self, node: &u32) -> u64 {
        (*node as u64 + 2) % 6
    }

    fn bound(&self, _node: &u32) -> u64 {
        5
    }
}

/// The report of the one worker of a crew.
fn reported<P: Problem, T: Tally<P::Node>, R: Recorder, H: Threads + Wait + Sync>(
    rt: &H,
    alloc: Global,
    problem: &P,
    tally: &T,
    coord: Coord,
) -> Result<Report<P::Node, T::Sum, R>, Memory>
    requires root { P.sound problem.now (P.root problem.now) }
    requires coord { IsCoord coord }
{
    let Crew {
        shared,
        mut stations,
    } = make_crew(alloc, problem, tally, 0, 1)?;
    match stations.pop() {
        Some(station) => Ok(worker(
            rt, alloc, problem, tally, coord, &shared, &OpenGate, station,
        )),
        None => Err(Memory),
    }
}

// One worker alone finds no open task in the end, and holds the best node, which is the first grandchild.
#[test]
fn one_worker_finds_the_best_node(rt: HostRuntime) -> Result<(), Fail> {
    let alloc = rt.alloc();
    let report = reported::<_, _, Counts, _>(&rt, alloc, &Small, &NoTally, Coord::Depth(1))?;
    match report.end {
        End::Done => {}
        _ => assert!(rt; false),
    }
    assert!(rt; report.station.hand.holds);
    assert_eq!(rt; report.station.hand.key, 5);
    assert_eq!(rt; report.station.hand.path.numbers(), [0, 0].as_slice());
    Ok(())
}
