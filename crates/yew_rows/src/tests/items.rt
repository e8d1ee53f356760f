//! Searches of a small knapsack: four items of profits 10, 40, 30 and 50 and weights 5, 4, 6 and 3, of which 10 can be carried.

use std::alloc::Global;
use std::sync::Wait;
use std::test::Fail;
use std::thread::Threads;
use yew_crew::{Coord, search_crew};
use yew_io::OpenGate;
use yew_kinds::{Answer, Kind, NoTally};
use yew_log::Counts;
use yew_ranked::search_ordered;
use yew_walk::Found;

/// The file of the four items.
pub(super) const FOUR: &[u8] = b"4 10\n10 5\n40 4\n30 6\n50 3\n";

/// Whether the answer is the worth 91, of the items 4 and 2, with the path 0, 0.
fn is_best(answer: &Answer<()>) -> bool {
    match answer {
        Answer::Best {
            worth: 91,
            path: Some(path),
        } => path.numbers() == [0, 0].as_slice(),
        _ => false,
    }
}

/// Whether two workers find the best of the four items, by depth and in order.
fn are_found<R: Threads + Wait + Sync>(rt: &R, alloc: Global) -> Result<bool, Fail> {
    let Ok(problem) = yew_knap::read(alloc, FOUR) else {
        return Ok(false);
    };
    let by_depth: Found<(), Counts> = search_crew(
        rt,
        alloc,
        &problem,
        Kind::Best,
        &NoTally,
        Coord::Depth(1),
        2,
        &OpenGate,
    )?;
    let in_order: Found<(), Counts> = search_ordered(
        rt,
        alloc,
        &problem,
        Kind::Best,
        &NoTally,
        1,
        2,
        &OpenGate,
    )?;
    Ok(is_best(&by_depth.answer) && is_best(&in_order.answer))
}

#[test]
fn two_workers_find_the_best_of_four_items(rt: HostRuntime) -> Result<(), Fail> {
    assert!(rt; are_found(&rt, rt.alloc())?);
    Ok(())
}
