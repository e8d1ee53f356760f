//! Two workers that meet: a schedule that a gate, or the problem, waits for.
ghost use Rattle.std.specs.Prelude.{◌≡◌, ◌≤◌};
ghost use Rattle.yew_crew.specs.Stations.{IsCoord};

use std::alloc::Global;
use std::sync::Wait;
use std::sync::atomic::{AtomicU64, Ordering};
use std::test::Fail;
use std::thread::{Threads, yield_now};
use yew_crew::{Coord, search_crew};
use yew_io::Gate;
use yew_kinds::{Answer, ByDepth, Kind};
use yew_laws::{Memory, Problem};
use yew_log::Counts;
use yew_ranked::search_ordered;
use yew_semi::Semigroups;
use yew_stack::Chunk;
use yew_walk::{Found, SearchFault};

/// The numbers of semigroups of genus 0 to 12 (OEIS, A007323).
const COUNTS: [u64; 13] = [1, 1, 2, 4, 7, 12, 23, 39, 67, 118, 204, 343, 592];

/// A gate for two workers that knows which of them have called it, apart from the first calls, of which there are so
/// many. One call waits until both have, for so many turns at most.
#[derive(Drop)]
struct Meeting {
    passed: u64,
    waiting: u64,
    turns: u64,
    calls: AtomicU64,
    first: AtomicU64,
    second: AtomicU64,
}

impl Meeting {
    /// A gate that nobody has called yet. The calls are numbered from 0.
    fn new(passed: u64, waiting: u64, turns: u64) -> Meeting {
        Meeting {
            passed,
            waiting,
            turns,
            calls: AtomicU64::new(0),
            first: AtomicU64::new(0),
            second: AtomicU64::new(0),
        }
    }

    /// Whether both workers have called.
    fn is_held(&self) -> bool {
        self.first.load(Ordering::SeqCst) > 0 && self.second.load(Ordering::SeqCst) > 0
    }
}

/// Waits until both workers have called the gate, for so many turns at most.
fn wait_for(gate: &Meeting, turns: u64) {
    for _turn in 0..turns {
        if gate.is_held() {
            return;
        }
        yield_now();
    }
}

impl Gate for Meeting {
    fn at<R: Threads + Wait>(&self, _rt: &R, worker: u32, _taken: u64) {
        let call = self.calls.fetch_add(1, Ordering::SeqCst);
        if call < self.passed {
            return;
        }
        match worker {
            1 => self.first.store(1, Ordering::SeqCst),
            2 => self.second.store(1, Ordering::SeqCst),
            _ => {}
        }
        if call == self.waiting {
            wait_for(self, self.turns);
        }
    }
}

/// A problem whose generators wait for a meeting, before each child, for at most 10,000 turns.
#[derive_where(Clone, Copy)]
struct Waiting<'a, P: Problem> {
    inner: &'a P,
    gate: &'a Meeting,
}

impl<'a, P: Problem> Problem for Waiting<'a, P> {
    type Node = P::Node;

    type Kids = P::Kids;

    ghost root = { λ waiting. P.root waiting.inner.now };

    ghost children = { λ waiting. P.children waiting.inner.now };

    ghost rank = { λ waiting. P.rank waiting.inner.now };

    ghost sound = { λ waiting. P.sound waiting.inner.now };

    ghost remaining = { λ waiting. P.remaining waiting.inner.now };

    ghost worth = { λ waiting. P.worth waiting.inner.now };

    ghost bound = { λ waiting. P.bound waiting.inner.now };

    ghost ranked = { λ waiting. P.ranked waiting.inner.now };

    ghost root_rank = { λ waiting. P.root_rank waiting.inner.now };

    ghost bounded = { λ waiting. P.bounded waiting.inner.now };

    ghost countable = { λ waiting. P.countable waiting.inner.now };

    fn root(&self, alloc: Global) -> Result<P::Node, Memory> {
        self.inner.root(alloc)
    }

    fn open(&self, alloc: Global, node: P::Node) -> Result<P::Kids, Memory> {
        self.inner.open(alloc, node)
    }

    fn next(&self, alloc: Global, kids: &mut P::Kids) -> Result<Option<P::Node>, Memory> {
        wait_for(self.gate, 10000);
        self.inner.next(alloc, kids)
    }

    fn worth(&self, node: &P::Node) -> u64 {
        self.inner.worth(node)
    }

    fn bound(&self, node: &P::Node) -> u64 {
        self.inner.bound(node)
    }
}

/// Whether two workers count the semigroups, and the gate has seen both.
fn is_counted<P: Problem, R: Threads + Wait + Sync>(
    rt: &R,
    alloc: Global,
    problem: &P,
    coord: Coord,
    gate: &Meeting,
) -> Result<bool, SearchFault>
    requires root { P.sound problem.now (P.root problem.now) }
    requires coord { IsCoord coord }
{
    let tally = ByDepth { depths: 12 };
    let Found { answer, logs: _ } = search_crew::<_, _, Counts, _, _>(
        rt,
        alloc,
        problem,
        Kind::Count,
        &tally,
        coord,
        2,
        gate,
    )?;
    Ok(match answer {
        Answer::Count(sum) => sum.counts() == COUNTS.as_slice() && gate.is_held(),
        _ => false,
    })
}

/// Whether two workers count the semigroups by tasks in order, and the gate has seen both.
fn is_counted_in_order<P: Problem, R: Threads + Wait + Sync>(
    rt: &R,
    alloc: Global,
    problem: &P,
    depth: u32,
    gate: &Meeting,
) -> Result<bool, SearchFault>
    requires root { P.sound problem.now (P.root problem.now) }
    requires depth { (1 ≤ depth) × (depth ≤ 255) }
{
    let tally = ByDepth { depths: 12 };
    let Found { answer, logs: _ } = search_ordered::<_, _, Counts, _, _>(
        rt,
        alloc,
        problem,
        Kind::Count,
        &tally,
        depth,
        2,
        gate,
    )?;
    Ok(match answer {
        Answer::Count(sum) => sum.counts() == COUNTS.as_slice() && gate.is_held(),
        _ => false,
    })
}

// The first two tasks are the root and its only child. Whichever worker takes the third, a fourth is there for the other.
#[test]
fn two_workers_meet_at_the_third_task(rt: HostRuntime) -> Result<(), Fail> {
    let gate = Meeting::new(1, 2, 10000000);
    let problem = Semigroups::new(12);
    assert!(rt; is_counted(&rt, rt.alloc(), &problem, Coord::Depth(6), &gate)?);
    Ok(())
}

// The first task is the root's, which the caller takes alone. Whichever worker takes the third, a fourth is there for the other.
#[test]
fn two_workers_meet_at_the_third_task_in_order(rt: HostRuntime) -> Result<(), Fail> {
    let gate = Meeting::new(1, 2, 10000000);
    let problem = Semigroups::new(12);
    assert!(rt; is_counted_in_order(&rt, rt.alloc(), &problem, 6, &gate)?);
    Ok(())
}

// A walk that waits gives the other worker the time to ask for a task.
#[test]
fn a_worker_is_given_a_task(rt: HostRuntime) -> Result<(), Fail> {
    let gate = Meeting::new(0, u64::MAX, 0);
    let semigroups = Semigroups::new(12);
    let problem = Waiting {
        inner: &semigroups,
        gate: &gate,
    };
    assert!(rt; is_counted(&rt, rt.alloc(), &problem, Coord::Steal(Chunk::One), &gate)?);
    Ok(())
}
