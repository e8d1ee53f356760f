//! Many small trees, made from a seed, searched by crews and judged.
ghost use Rattle.std.specs.Prelude.{◌≡◌, ◌≤◌, ◌<◌, true, length, IfOk};
ghost use Rattle.yew_crew.specs.Stations.{IsCoord};
ghost use Rattle.yew_kinds.specs.Kinds.{IsKindInRange};

use super::allowed;
use super::increasing::Increasing;
use super::judging::{are_right_logs, greatest_of, is_right_answer, zeros};
use std::alloc::Global;
use std::sync::Wait;
use std::test::Fail;
use std::thread::Threads;
use yew_crew::{Coord, search_crew};
use yew_io::OpenGate;
use yew_kinds::{Answer, ByDepth, Depths, Kind};
use yew_laws::Memory;
use yew_log::{Counts, Full, Recorder};
use yew_stack::Chunk;
use yew_walk::{Found, SearchFault};

/// How many trees of each shape are searched.
const TREES: u64 = 20;

/// How deep the trees are at most.
const DEPTHS: u32 = 40;

/// The next draw of a generator, and a number below 2^32 of it.
fn drawn(state: &mut u64) -> u64 {
    *state = state
        .wrapping_mul(6364136223846793005)
        .wrapping_add(1442695040888963407);
    *state >> 33
}

/// A tree of a size, in which the parent of a number is one of so many before it, and each worth of the table is below the
/// cap, or 0 where that is 0.
pub fn grown(
    alloc: Global,
    seed: u64,
    size: usize,
    reach: usize,
    cap: u64,
) -> Result<Increasing, Memory> {
    let mut state = seed;
    let mut parents = Vec::new(alloc);
    let mut worths = zeros(alloc, size)?;
    for number in 0..size {
        let near = reach.min(number);
        let back = if near == 0 {
            0
        } else {
            drawn(&mut state) as usize % near
        };
        parents.push(number.saturating_sub(back.saturating_add(1)))?;
        if number < worths.len() {
            let draw = drawn(&mut state);
            worths[number] = if cap == 0 { 0 } else { draw % cap };
        }
    }
    Ok(Increasing { parents, worths })
}

/// What a crew finds in a tree that is neither empty nor too large.
fn found<R: Threads + Wait + Sync, L: Recorder>(
    rt: &R,
    alloc: Global,
    tree: &Increasing,
    kind: Kind,
    coord: Coord,
    workers: u32,
) -> Result<Found<Depths, L>, SearchFault>
    requires workers { (1 ≤ workers) × (workers ≤ 64) }
    requires coord { IsCoord coord }
    requires range { IsKindInRange kind }
{
    if tree.parents.is_empty() || tree.parents.len() > 65535 {
        return Err(SearchFault::Memory);
    }
    let tally = ByDepth { depths: DEPTHS };
    search_crew(rt, alloc, tree, kind, &tally, coord, workers, &OpenGate)
}

/// Whether a crew answers a search of the tree rightly, with right logs of as many workers.
fn is_searched<R: Threads + Wait + Sync>(
    rt: &R,
    alloc: Global,
    tree: &Increasing,
    kind: Kind,
    coord: Coord,
    workers: u32,
) -> Result<bool, SearchFault>
    requires workers { (1 ≤ workers) × (workers ≤ 64) }
    requires coord { IsCoord coord }
    requires range { IsKindInRange kind }
{
    let Found { answer, logs } = found::<_, Full>(rt, alloc, tree, kind, coord, workers)?;
    Ok(
        logs.len() == workers as usize
            && is_right_answer(alloc, tree, kind, &answer)?
            && are_right_logs(alloc, tree, kind, &logs)?,
    )
}

/// Whether searches of each kind are right: a count, a best node, one within a gap of 0, of 2 and of the greatest worth of
/// the best, and decisions whose target is the least one, the greatest worth, and the next number.
fn are_searched<R: Threads + Wait + Sync>(
    rt: &R,
    alloc: Global,
    tree: &Increasing,
    coord: Coord,
    workers: u32,
) -> Result<bool, SearchFault>
    requires workers { (1 ≤ workers) × (workers ≤ 64) }
    requires coord { IsCoord coord }
{
    let greatest = greatest_of(tree).min(65535);
    Ok(
        is_searched(rt, alloc, tree, Kind::Count, coord, workers)?
            && is_searched(rt, alloc, tree, Kind::Best, coord, workers)?
            && is_searched(rt, alloc, tree, Kind::Near(0), coord, workers)?
            && is_searched(rt, alloc, tree, Kind::Near(2), coord, workers)?
            && is_searched(rt, alloc, tree, Kind::Near(greatest), coord, workers)?
            && is_searched(rt, alloc, tree, Kind::Reach(1), coord, workers)?
            && is_searched(
                rt,
                alloc,
                tree,
                Kind::Reach(greatest.max(1)),
                coord,
                workers,
            )?
            && is_searched(rt, alloc, tree, Kind::Reach(greatest + 1), coord, workers)?,
    )
}

/// Whether crews of 1 to 8 workers search trees rightly: chains, and trees of few and of many levels, whose worths are all
/// 0, few, or up to their size.
fn many_are_searched<R: Threads + Wait + Sync>(
    rt: &R,
    alloc: Global,
    coord: Coord,
) -> Result<bool, SearchFault>
    requires { IsCoord coord }
{
    for seed in 0..TREES {
        for (size, reach, cap) in [(1, 1, 4), (30, 1, 31), (36, 4, 3), (36, 64, 37), (24, 8, 0)] {
            let tree = grown(alloc, seed, size, reach, cap)?;
            if !are_searched(rt, alloc, &tree, coord, 1 + (seed % 8) as u32)? {
                return Ok(false);
            }
        }
    }
    Ok(true)
}

#[test]
fn crews_search_small_trees_by_depth(rt: HostRuntime) -> Result<(), Fail> {
    for coord in [Coord::Depth(0), Coord::Depth(1), Coord::Depth(3)] {
        assert!(rt; many_are_searched(&rt, rt.alloc(), allowed(coord))?);
    }
    Ok(())
}

#[test]
fn crews_search_small_trees_by_budget(rt: HostRuntime) -> Result<(), Fail> {
    for coord in [Coord::Budget(1), Coord::Budget(3), Coord::Budget(1000)] {
        assert!(rt; many_are_searched(&rt, rt.alloc(), allowed(coord))?);
    }
    Ok(())
}

#[test]
fn crews_search_small_trees_by_stealing(rt: HostRuntime) -> Result<(), Fail> {
    for coord in [Coord::Steal(Chunk::One), Coord::Steal(Chunk::All)] {
        assert!(rt; many_are_searched(&rt, rt.alloc(), allowed(coord))?);
    }
    Ok(())
}

// Below the root three children, of worths 5, 4 and 3, of which the first has two: the bounds are 6, 5, 4, 3, 2 and 1, so
// that the last one's worth is 1.
#[test]
fn two_workers_find_the_best_child(rt: HostRuntime) -> Result<(), Fail> {
    let alloc = rt.alloc();
    let tree = Increasing {
        parents: Vec::from_slice(alloc, &[0, 0, 0, 0, 1, 1])?,
        worths: Vec::from_slice(alloc, &[1, 5, 4, 3, 2, 9])?,
    };
    let best = found::<_, Counts>(&rt, alloc, &tree, Kind::Best, Coord::Depth(1), 2)?;
    match &best.answer {
        Answer::Best {
            worth: 5,
            path: Some(path),
        } => assert_eq!(rt; path.numbers(), [0].as_slice()),
        _ => assert!(rt; false),
    }
    let none = found::<_, Counts>(&rt, alloc, &tree, Kind::Reach(6), Coord::Depth(1), 2)?;
    match &none.answer {
        Answer::Reach(None) => {}
        _ => assert!(rt; false),
    }
    let all = found::<_, Counts>(&rt, alloc, &tree, Kind::Count, Coord::Depth(1), 2)?;
    match &all.answer {
        Answer::Count(sum) => assert!(rt; sum.counts().starts_with(&[1, 3, 2, 0])),
        _ => assert!(rt; false),
    }
    Ok(())
}

// More workers than there are nodes, and than there are processors.
#[test]
fn the_greatest_crew_searches_a_small_tree(rt: HostRuntime) -> Result<(), Fail> {
    let alloc = rt.alloc();
    for size in [1, 2, 48] {
        let tree = grown(alloc, 7, size, 6, 49)?;
        for coord in [
            Coord::Depth(2),
            Coord::Budget(2),
            Coord::Steal(Chunk::One),
            Coord::Steal(Chunk::All),
        ] {
            assert!(rt;
                are_searched(&rt, alloc, &tree, allowed(coord), 64)?,
                "{size}"
            );
        }
    }
    Ok(())
}
