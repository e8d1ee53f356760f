//! Ordered searches of many small trees: the answer is that of one worker in preorder, its path included, and the logs are
//! judged.
ghost use Rattle.std.specs.Prelude.{◌≤◌};
ghost use Rattle.yew_kinds.specs.Kinds.{IsKindInRange, IsExact};

use super::increasing::Increasing;
use super::judging::{are_right_logs, greatest_of};
use super::trees::grown;
use std::alloc::Global;
use std::sync::Wait;
use std::test::Fail;
use std::thread::Threads;
use yew_io::OpenGate;
use yew_kinds::{Answer, ByDepth, Depths, Kind};
use yew_laws::Path;
use yew_log::{Counts, Full};
use yew_ranked::search_ordered;
use yew_walk::{Found, SearchFault, search_plain};

/// Whether two paths are the same, or neither is there.
fn are_same_paths(one: &Option<Path>, other: &Option<Path>) -> bool {
    match (one, other) {
        (Some(one), Some(other)) => one.numbers() == other.numbers(),
        (None, None) => true,
        _ => false,
    }
}

/// Whether two answers are the same, with their paths.
fn are_same(one: &Answer<Depths>, other: &Answer<Depths>) -> bool {
    match (one, other) {
        (Answer::Count(one), Answer::Count(other)) => one.counts() == other.counts(),
        (
            Answer::Best { worth, path },
            Answer::Best {
                worth: other_worth,
                path: other_path,
            },
        ) => *worth == *other_worth && are_same_paths(path, other_path),
        (Answer::Reach(one), Answer::Reach(other)) => are_same_paths(one, other),
        _ => false,
    }
}

/// Whether an ordered search of the tree has the answer of a search in preorder, with right logs of as many workers.
fn is_in_order<R: Threads + Wait + Sync>(
    rt: &R,
    alloc: Global,
    tree: &Increasing,
    kind: Kind,
    depth: u32,
    workers: u32,
) -> Result<bool, SearchFault>
    requires depth { (1 ≤ depth) × (depth ≤ 255) }
    requires workers { (1 ≤ workers) × (workers ≤ 64) }
    requires range { IsKindInRange kind }
    requires exact { IsExact kind }
{
    if tree.parents.is_empty() || tree.parents.len() > 65535 {
        return Err(SearchFault::Memory);
    }
    let tally = ByDepth { depths: 40 };
    let Found { answer, logs } = search_ordered::<_, _, Full, _, _>(
        rt, alloc, tree, kind, &tally, depth, workers, &OpenGate,
    )?;
    let plain = search_plain::<_, _, Counts>(alloc, tree, kind, &tally)?;
    Ok(
        logs.len() == workers as usize
            && are_same(&answer, &plain.answer)
            && are_right_logs(alloc, tree, kind, &logs)?,
    )
}

/// Whether ordered searches of each kind are right: a count, a best node, and decisions whose target is the least one, the
/// greatest worth, and the next number.
fn are_in_order<R: Threads + Wait + Sync>(
    rt: &R,
    alloc: Global,
    tree: &Increasing,
    depth: u32,
    workers: u32,
) -> Result<bool, SearchFault>
    requires depth { (1 ≤ depth) × (depth ≤ 255) }
    requires workers { (1 ≤ workers) × (workers ≤ 64) }
{
    let greatest = greatest_of(tree).min(65535);
    Ok(
        is_in_order(rt, alloc, tree, Kind::Count, depth, workers)?
            && is_in_order(rt, alloc, tree, Kind::Best, depth, workers)?
            && is_in_order(rt, alloc, tree, Kind::Reach(1), depth, workers)?
            && is_in_order(
                rt,
                alloc,
                tree,
                Kind::Reach(greatest.max(1)),
                depth,
                workers,
            )?
            && is_in_order(rt, alloc, tree, Kind::Reach(greatest + 1), depth, workers)?,
    )
}

/// Whether 1 to 8 workers search trees in order: a root alone, chains, and trees of few and of many levels, with few and
/// many worths, and with none but 0.
fn many_are_in_order<R: Threads + Wait + Sync>(
    rt: &R,
    alloc: Global,
    depth: u32,
) -> Result<bool, SearchFault>
    requires { (1 ≤ depth) × (depth ≤ 255) }
{
    for seed in 0..8 {
        for (size, reach, cap) in [(1, 1, 4), (30, 1, 31), (36, 4, 3), (36, 64, 37), (24, 8, 0)] {
            let tree = grown(alloc, seed, size, reach, cap)?;
            if !are_in_order(rt, alloc, &tree, depth, 1 + seed as u32)? {
                return Ok(false);
            }
        }
    }
    Ok(true)
}

#[test]
fn small_trees_in_order(rt: HostRuntime) -> Result<(), Fail> {
    for depth in 1..7 {
        assert!(rt; many_are_in_order(&rt, rt.alloc(), depth)?);
    }
    Ok(())
}

// No tree is as deep, so that the first worker walks it alone.
#[test]
fn small_trees_above_the_greatest_depth(rt: HostRuntime) -> Result<(), Fail> {
    assert!(rt; many_are_in_order(&rt, rt.alloc(), 255)?);
    Ok(())
}
