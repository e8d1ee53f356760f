ghost use Rattle.std.specs.Prelude.{◌≡◌, ◌≤◌, ◌<◌, ◌+◌, IfOk};
ghost use Rattle.std.proofs.Common.{arith};
ghost use Rattle.yew_calls.specs.StepsToThree.{next_number, numbers_left, IsUpToThree, steps-ranked, steps-bounded, steps-countable};

use crate::{ByCalls, Shape, laws};
use std::alloc::Global;
use std::sync::Wait;
use std::test::Fail;
use std::thread::Threads;
use yew_crew::{Coord, search_crew};
use yew_io::OpenGate;
use yew_kinds::{Answer, ByDepth, Kind};
use yew_laws::{Memory, Problem};
use yew_log::Counts;
use yew_walk::{Found, SearchFault, search_plain};

/// The numbers from 0 to 3, each the one child of the one before it.
struct StepsToThree;

impl Shape for StepsToThree {
    type Node = u32;

    ghost root = { 0 };

    ghost children = { next_number };

    ghost rank = { numbers_left };

    ghost sound = { IsUpToThree };

    ghost worth = { λ _. 0 };

    ghost bound = { λ _. 1 };

    ghost rooted = { Prim.omega arith };

    ghost ranked = { steps-ranked };

    ghost root_rank = { Prim.omega arith };

    ghost bounded = { steps-bounded };

    ghost countable = { steps-countable };
}

fn first(_alloc: Global) -> Result<u32, Memory>
    ensures { IfOk result (λ node. node ≡ 0) }
{
    Ok(0)
}

fn following(alloc: Global, node: &u32) -> Result<Vec<u32>, Memory>
    requires { node.now ≤ 3 }
    ensures { IfOk result (λ nodes. nodes.items ≡ next_number node.now) }
{
    let mut nodes = Vec::new(alloc);
    if *node < 3 {
        nodes.push(*node + 1)?;
    }
    Ok(nodes)
}

fn no_worth(_node: &u32) -> u64
    ensures { result ≡ 0 }
{
    0
}

fn one(_node: &u32) -> u64
    ensures { result ≡ 1 }
{
    1
}

#[test]
fn counts_by_stored_functions(rt: HostRuntime) -> Result<(), Fail> {
    let calls: ByCalls<StepsToThree, _, _, _, _> = ByCalls::new(first, following, no_worth, one);
    let Found { answer, logs: _ } = search_plain::<_, _, Counts>(
        rt.alloc(),
        &calls,
        Kind::Count,
        &ByDepth { depths: 3 },
    )?;
    match answer {
        Answer::Count(sum) => assert_eq!(rt; sum.counts(), [1, 1, 1, 1].as_slice()),
        _ => assert!(rt; false),
    }
    laws::calls_tree(&calls);
    Ok(())
}

/// The same by two workers.
fn is_counted_by_two<R: Threads + Wait + Sync>(rt: &R, alloc: Global) -> Result<bool, SearchFault> {
    let calls: ByCalls<StepsToThree, _, _, _, _> = ByCalls::new(first, following, no_worth, one);
    let tally = ByDepth { depths: 3 };
    let Found { answer, logs: _ } = search_crew::<_, _, Counts, _, _>(
        rt,
        alloc,
        &calls,
        Kind::Count,
        &tally,
        Coord::Depth(1),
        2,
        &OpenGate,
    )?;
    match answer {
        Answer::Count(sum) => Ok(sum.counts() == [1, 1, 1, 1].as_slice()),
        Answer::Best { .. } | Answer::Reach(_) => Ok(false),
    }
}

#[test]
fn counts_with_two_workers(rt: HostRuntime) -> Result<(), Fail> {
    assert!(rt; is_counted_by_two(&rt, rt.alloc())?);
    Ok(())
}

/// The children of a number, for which there is no memory at 2.
fn without_memory(alloc: Global, node: &u32) -> Result<Vec<u32>, Memory>
    requires { node.now ≤ 3 }
    ensures { IfOk result (λ nodes. nodes.items ≡ next_number node.now) }
{
    if *node == 2 {
        return Err(Memory);
    }
    following(alloc, node)
}

#[test]
fn hands_on_that_memory_is_wanting(rt: HostRuntime) -> Result<(), Fail> {
    let calls: ByCalls<StepsToThree, _, _, _, _> = ByCalls::new(
        first,
        without_memory,
        no_worth,
        one,
    );
    let found = search_plain::<_, _, Counts>(
        rt.alloc(),
        &calls,
        Kind::Count,
        &ByDepth { depths: 3 },
    );
    assert!(rt; matches!(found, Err(SearchFault::Memory)));
    Ok(())
}
