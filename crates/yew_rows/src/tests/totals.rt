//! Counts by crews, and the totals of their logs in every schedule.
ghost use Rattle.std.specs.Prelude.{◌≤◌};
ghost use Rattle.yew_crew.specs.Stations.{IsCoord};

use super::allowed;
use std::alloc::Global;
use std::sync::Wait;
use std::test::Fail;
use std::thread::Threads;
use yew_crew::{Coord, search_crew};
use yew_io::OpenGate;
use yew_kinds::{Answer, ByDepth, Depths, Kind};
use yew_log::{Counts, Recorder, Totals};
use yew_semi::Semigroups;
use yew_stack::Chunk;
use yew_walk::{Found, SearchFault};

/// The totals of two logs together.
fn added(one: Totals, other: Totals) -> Totals {
    Totals {
        taken: one.taken.saturating_add(other.taken),
        spawned: one.spawned.saturating_add(other.spawned),
        handed: one.handed.saturating_add(other.handed),
        visited: one.visited.saturating_add(other.visited),
        cut: one.cut.saturating_add(other.cut),
    }
}

/// What a crew answers for the semigroups of a genus, and the totals of all its logs, of which there is one a worker.
fn counted<R: Threads + Wait + Sync>(
    rt: &R,
    alloc: Global,
    genus: u32,
    coord: Coord,
    workers: u32,
) -> Result<(Answer<Depths>, Totals, usize), SearchFault>
    requires genus { genus ≤ 40 }
    requires coord { IsCoord coord }
    requires workers { (1 ≤ workers) × (workers ≤ 64) }
{
    let Found { answer, logs } = search_crew::<_, _, Counts, _, _>(
        rt,
        alloc,
        &Semigroups::new(genus),
        Kind::Count,
        &ByDepth { depths: genus },
        coord,
        workers,
        &OpenGate,
    )?;
    let mut totals = Totals {
        taken: 0,
        spawned: 0,
        handed: 0,
        visited: 0,
        cut: 0,
    };
    for log in logs.iter() {
        totals = added(totals, log.totals());
    }
    Ok((answer, totals, logs.len()))
}

/// The counts of an answer, where it is one.
fn counts_of(answer: &Answer<Depths>) -> &[u64] {
    match answer {
        Answer::Count(sum) => sum.counts(),
        _ => &[],
    }
}

// By depth 2 the root, its child and the two children of that are tasks, in every schedule.
#[test]
fn totals_by_depth(rt: HostRuntime) -> Result<(), Fail> {
    for _round in 0..20 {
        let (answer, totals, logs) = counted(&rt, rt.alloc(), 5, Coord::Depth(2), 3)?;
        assert_eq!(rt; counts_of(&answer), [1, 1, 2, 4, 7, 12].as_slice());
        let wanted = Totals {
            taken: 4,
            spawned: 3,
            handed: 0,
            visited: 27,
            cut: 0,
        };
        assert_eq!(rt; totals, wanted);
        assert_eq!(rt; logs, 3);
    }
    Ok(())
}

// Without a split above, each node is visited by the first task.
#[test]
fn totals_of_one_task(rt: HostRuntime) -> Result<(), Fail> {
    for coord in [Coord::Depth(0), Coord::Budget(1000)] {
        let (answer, totals, logs) = counted(&rt, rt.alloc(), 5, allowed(coord), 3)?;
        assert_eq!(rt; counts_of(&answer), [1, 1, 2, 4, 7, 12].as_slice());
        let wanted = Totals {
            taken: 1,
            spawned: 0,
            handed: 0,
            visited: 27,
            cut: 0,
        };
        assert_eq!(rt; totals, wanted);
        assert_eq!(rt; logs, 3);
    }
    Ok(())
}

// The numbers of semigroups of genus 0 to 20 (OEIS, A007323), by as many workers as there can be.
#[test]
fn totals_of_the_greatest_crew(rt: HostRuntime) -> Result<(), Fail> {
    let coord = Coord::Steal(Chunk::All);
    let (answer, totals, logs) = counted(&rt, rt.alloc(), 20, coord, 64)?;
    let wanted = [
        1, 1, 2, 4, 7, 12, 23, 39, 67, 118, 204, 343, 592, 1001, 1693, 2857, 4806, 8045, 13467,
        22464, 37396,
    ];
    assert_eq!(rt; counts_of(&answer), wanted.as_slice());
    assert_eq!(rt; (totals.visited, totals.cut, totals.spawned), (93142, 0, 0));
    assert_eq!(rt; totals.taken, totals.handed.saturating_add(1));
    assert_eq!(rt; logs, 64);
    Ok(())
}
