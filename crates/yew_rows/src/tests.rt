mod increasing;
mod items;
mod judged;
mod judging;
mod meeting;
mod ordered;
mod refusing;
mod stopping;
mod totals;
mod trees;

ghost use Rattle.std.specs.Prelude.{◌≡◌, ◌≤◌, [], IfOk};
ghost use Rattle.yew_laws.specs.SearchTree.{IsTask};
ghost use Rattle.yew_crew.specs.Stations.{IsCoord};
ghost use Rattle.yew_stack.specs.ToCome.{AllOpen};
ghost use Rattle.yew_stack.specs.Turns.{GivesTask};

use std::alloc::Global;
use std::sync::Wait;
use std::test::Fail;
use std::thread::Threads;
use yew_best::Best;
use yew_crew::{Coord, search_crew};
use yew_io::OpenGate;
use yew_kinds::{Answer, ByDepth, Counted, Kind, NoTally};
use yew_laws::{Memory, Path, Problem, Task};
use yew_log::{Full, Recorder, audit_text};
use yew_semi::{Semigroup, Semigroups};
use yew_stack::{Chunk, GenStack, Turn};
use yew_walk::{Found, Keying, Outbox, Plain, SearchFault, empty_hand, search_plain, walk};

/// Adds the level of a task.
fn pushed<P: Problem>(
    alloc: Global,
    problem: &P,
    task: Task<P::Node>,
    stack: &mut GenStack<P>,
) -> Result<(), Memory>
    requires root { P.sound problem.now (P.root problem.now) }
    requires task { IsTask P.Problem problem.now task.path.numbers task.node }
    requires levels_open { AllOpen P.Problem problem.now stack.old }
    ensures { AllOpen P.Problem problem.now stack.new }
{
    let Task { path, node } = task;
    let kids = problem.open(alloc, node)?;
    stack.push_level(path, kids)
}

/// The task of the root.
fn root_task<P: Problem>(alloc: Global, problem: &P) -> Result<Task<P::Node>, Memory>
    requires { P.sound problem.now (P.root problem.now) }
    ensures { IfOk result (λ task. IsTask P.Problem problem.now task.path.numbers task.node) }
{
    Ok(Task {
        path: Path::empty(alloc, 0)?,
        node: problem.root(alloc)?,
    })
}

/// The next turn.
fn turned<P: Problem>(
    alloc: Global,
    problem: &P,
    stack: &mut GenStack<P>,
) -> Result<Turn<P>, Memory>
    requires root { P.sound problem.now (P.root problem.now) }
    requires levels_open { AllOpen P.Problem problem.now stack.old }
    ensures levels_open { AllOpen P.Problem problem.now stack.new }
    ensures task { IfOk result (λ turn. GivesTask P.Problem problem.now turn) }
{
    stack.next(alloc, problem)
}

/// Moves the lowest nodes to the end of a list of tasks.
fn split<P: Problem>(
    alloc: Global,
    problem: &P,
    chunk: Chunk,
    stack: &mut GenStack<P>,
    into: &mut Vec<Task<P::Node>>,
) -> Result<(), Memory>
    requires root { P.sound problem.now (P.root problem.now) }
    requires levels_open { AllOpen P.Problem problem.now stack.old }
    ensures { AllOpen P.Problem problem.now stack.new }
{
    stack.split_lowest(alloc, problem, chunk, into)
}

/// The stack whose levels are those of the root and of each first child down to a depth, which the highest level has.
fn first_children<P: Problem>(alloc: Global, problem: &P, depth: u32) -> Result<GenStack<P>, Memory>
    requires { P.sound problem.now (P.root problem.now) }
    ensures { IfOk result (λ stack. AllOpen P.Problem problem.now stack) }
{
    let mut stack = GenStack::new(alloc);
    let task = root_task(alloc, problem)?;
    pushed(alloc, problem, task, &mut stack)?;
    for _level in 0..depth {
        if let Turn::Node(task) = turned(alloc, problem, &mut stack)? {
            pushed(alloc, problem, task, &mut stack)?;
        }
    }
    Ok(stack)
}

/// The gaps of a semigroup, which are below 8.
fn gaps(alloc: Global, node: &Semigroup) -> Result<Vec<u32>, Memory> {
    let mut numbers = Vec::new(alloc);
    for number in 0..8u32 {
        if node.is_gap(number) {
            numbers.push(number)?;
        }
    }
    Ok(numbers)
}

/// The task has this path and these gaps.
fn is_task(
    alloc: Global,
    task: &Task<<Semigroups as Problem>::Node>,
    path: &[u32],
    wanted: &[u32],
) -> Result<bool, Memory> {
    let found = gaps(alloc, &task.node)?;
    Ok(task.path.numbers() == path && found.as_slice() == wanted)
}

// The semigroup with the gaps 1 and 2 has three children, and the one with the gap 1 has two.
#[test]
fn semigroups_on_a_stack(rt: HostRuntime) -> Result<(), Fail> {
    let alloc = rt.alloc();
    let problem = Semigroups::new(3);
    let mut stack = first_children(alloc, &problem, 2)?;
    if let Turn::Node(task) = turned(alloc, &problem, &mut stack)? {
        assert!(rt; is_task(alloc, &task, &[0, 0, 0], &[1, 2, 3])?);
    } else {
        assert!(rt; false);
    }
    let mut tasks = Vec::new(alloc);
    split(alloc, &problem, Chunk::One, &mut stack, &mut tasks)?;
    assert_eq!(rt; tasks.len(), 1);
    assert!(rt; is_task(alloc, &tasks[0], &[0, 1], &[1, 3])?);
    split(alloc, &problem, Chunk::All, &mut stack, &mut tasks)?;
    assert_eq!(rt; tasks.len(), 3);
    assert!(rt; is_task(alloc, &tasks[1], &[0, 0, 1], &[1, 2, 4])?);
    assert!(rt; is_task(alloc, &tasks[2], &[0, 0, 2], &[1, 2, 5])?);
    split(alloc, &problem, Chunk::All, &mut stack, &mut tasks)?;
    assert_eq!(rt; tasks.len(), 3);
    match turned(alloc, &problem, &mut stack)? {
        Turn::Ended(path) => assert_eq!(rt; path.numbers(), [0, 0].as_slice()),
        _ => assert!(rt; false),
    }
    Ok(())
}

/// The text of the log of a walk over a whole tree.
fn walked<P: Problem>(alloc: Global, problem: &P) -> Result<Vec<u8>, SearchFault>
    requires { P.sound problem.now (P.root problem.now) }
{
    let (best, mut seat) = Best::new(alloc, 1)?;
    let mut hand = empty_hand::<P::Node, _>(alloc, &NoTally)?;
    let mut log = Full::fresh(alloc, 1)?;
    let mut policy = Plain::new();
    let mut outlet = Outbox::new(alloc, problem);
    let root = root_task(alloc, problem)?;
    match walk(
        alloc,
        problem,
        root,
        &best,
        &mut seat,
        Keying::Plain,
        &mut policy,
        &mut outlet,
        &NoTally,
        &mut hand,
        &mut log,
    ) {
        Ok(()) => {}
        Err(fault) => return Err(fault),
    }
    Ok(audit_text(alloc, &[log])?)
}

#[test]
fn semigroups_walked(rt: HostRuntime) -> Result<(), Fail> {
    let problem = Semigroups::new(2);
    let text = walked(rt.alloc(), &Counted { inner: &problem })?;
    let log = "audit 1
worker 1
take /
visit / 0 0
visit /0 0 0
visit /0/0 0 0
end /0/0
visit /0/1 0 0
end /0/1
end /0
end /
done
";
    assert_eq!(rt; text.as_slice(), log.as_bytes());
    Ok(())
}

// The numbers of semigroups of genus 0 to 10 (OEIS, A007323).
#[test]
fn semigroups_counted(rt: HostRuntime) -> Result<(), Fail> {
    let problem = Semigroups::new(10);
    let Found { answer, logs } = search_plain::<_, _, Full>(
        rt.alloc(),
        &problem,
        Kind::Count,
        &ByDepth { depths: 10 },
    )?;
    match answer {
        Answer::Count(sum) => assert_eq!(rt;
            sum.counts(),
            [1, 1, 2, 4, 7, 12, 23, 39, 67, 118, 204].as_slice()
        ),
        _ => assert!(rt; false),
    }
    assert_eq!(rt; logs.len(), 1);
    assert_eq!(rt; logs[0].totals().visited, 478);
    assert_eq!(rt; logs[0].entries().len(), 957);
    Ok(())
}

// Up to genus 23 the paths have more numbers than a log has room for, and each path has 23 at most.
#[test]
fn semigroups_fill_a_log(rt: HostRuntime) -> Result<(), Fail> {
    match search_plain::<_, _, Full>(rt.alloc(), &Semigroups::new(23), Kind::Count, &NoTally) {
        Err(
            SearchFault::AuditFull {
                worker,
                entries,
                numbers,
            },
        ) => {
            assert_eq!(rt; worker, 1);
            assert!(rt; entries < 262144);
            assert!(rt; numbers <= 4194304 && numbers > 4194304 - 23);
        }
        _ => assert!(rt; false),
    }
    Ok(())
}

/// Whether a crew counts the semigroups of genus 0 to 10 (OEIS, A007323), with a log of each worker, and the numbers of
/// entries that every schedule has.
fn crew_counts<R: Threads + Wait + Sync>(
    rt: &R,
    alloc: Global,
    coord: Coord,
    workers: u32,
) -> Result<bool, SearchFault>
    requires workers { (1 ≤ workers) × (workers ≤ 64) }
    requires coord { IsCoord coord }
{
    let problem = Semigroups::new(10);
    let Found { answer, logs } = search_crew::<_, _, Full, _, _>(
        rt,
        alloc,
        &problem,
        Kind::Count,
        &ByDepth { depths: 10 },
        coord,
        workers,
        &OpenGate,
    )?;
    let right = match answer {
        Answer::Count(sum) => {
            sum.counts() == [1, 1, 2, 4, 7, 12, 23, 39, 67, 118, 204].as_slice()
        }
        _ => false,
    };
    let mut visited = 0u64;
    let mut cut = 0u64;
    let mut taken = 0u64;
    let mut sent = 0u64;
    for log in logs.iter() {
        let totals = log.totals();
        visited = visited.saturating_add(totals.visited);
        cut = cut.saturating_add(totals.cut);
        taken = taken.saturating_add(totals.taken);
        sent = sent
            .saturating_add(totals.spawned)
            .saturating_add(totals.handed);
    }
    Ok(
        right
            && logs.len() == workers as usize
            && visited == 478
            && cut == 0
            && taken == sent.saturating_add(1),
    )
}

/// The coordination, in which a budget of 0 is one of 1.
fn allowed(coord: Coord) -> Coord
    ensures { IsCoord result }
{
    match coord {
        Coord::Depth(depth) => Coord::Depth(depth),
        Coord::Budget(every) => Coord::Budget(every.max(1)),
        Coord::Steal(chunk) => Coord::Steal(chunk),
    }
}

// Every coordination, with 1 to 8 workers, again and again.
#[test]
fn crews_count(rt: HostRuntime) -> Result<(), Fail> {
    let alloc = rt.alloc();
    let coords = [
        Coord::Depth(0),
        Coord::Depth(1),
        Coord::Depth(3),
        Coord::Budget(1),
        Coord::Budget(7),
        Coord::Steal(Chunk::One),
        Coord::Steal(Chunk::All),
    ];
    for _round in 0..10 {
        for workers in 1..9 {
            for coord in coords {
                assert!(rt; crew_counts(&rt, alloc, allowed(coord), workers)?);
            }
        }
    }
    Ok(())
}
