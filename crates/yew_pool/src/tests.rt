ghost use Rattle.std.specs.Prelude.{◌≡◌, ◌<◌, ◌≤◌, ◌∷◌, [], length, replicate, IfOk};
ghost use Rattle.std.specs.Thread.{IsSync};
ghost use Rattle.yew_pool.specs.Trials.{ArePassesFor, IsPassFor, IsOfFlat, children_of, rank_of, told_flat};
ghost use Rattle.yew_pool.specs.Trials.{flat-bounded, flat-countable, flat-ranked, flat-root_rank};

use crate::{Pool, PoolPass, Take};
use std::alloc::Global;
use std::sync::{Mutex, Wait};
use std::test::Fail;
use std::thread::{Threads, map_vec, yield_now};
use yew_laws::{Memory, Path, Problem, Task};

/// A root with so many children, which have none.
#[derive(Clone, Copy)]
struct Flat {
    width: u32,
}

/// How many children are left.
#[derive(Clone, Copy)]
struct Kids {
    left: u32,
}

impl Problem for Flat {
    type Node = u32;

    type Kids = Kids;

    ghost root = { λ _. 0 };

    ghost children = { λ problem. children_of problem.width };

    ghost rank = { λ _. rank_of };

    ghost sound = { λ problem. IsOfFlat problem.width };

    ghost remaining = { λ _ kids. replicate kids.left 1 };

    ghost worth = { λ _ _. 0 };

    ghost bound = { λ _ _. 1 };

    ghost ranked = { λ problem. flat-ranked problem.width };

    ghost root_rank = { λ _ _. flat-root_rank };

    ghost bounded = { λ problem. flat-bounded problem.width };

    ghost countable = { λ problem. flat-countable problem.width };

    fn root(&self, _alloc: Global) -> Result<u32, Memory> {
        Ok(0)
    }

    #[tactic(auto, using(crate::specs::Trials::no_children))]
    fn open(&self, _alloc: Global, node: u32) -> Result<Kids, Memory> {
        let left = if node == 0 { self.width } else { 0 };
        Ok(Kids { left })
    }

    fn next(&self, _alloc: Global, kids: &mut Kids) -> Result<Option<u32>, Memory> {
        if kids.left == 0 {
            return Ok(None);
        }
        kids.left -= 1;
        Ok(Some(1))
    }

    fn worth(&self, _node: &u32) -> u64 {
        0
    }

    fn bound(&self, _node: &u32) -> u64 {
        1
    }
}

/// The task of a child of the root.
fn child(alloc: Global, number: u32) -> Result<Task<u32>, Memory>
    requires { number < 65536 }
    ensures { IfOk result (λ task. (task.path.numbers ≡ number ∷ []) × (task.node ≡ 1)) }
{
    Ok(Task {
        path: Path::empty(alloc, 1)?.child(number)?,
        node: 1,
    })
}

/// The number of the child whose task it is.
fn number_of(task: &Task<u32>) -> u32 {
    match task.path.numbers().first() {
        Some(number) => *number,
        None => u32::MAX,
    }
}

/// A pool and its passes.
fn made(
    alloc: Global,
    problem: &Flat,
    passes: u32,
) -> Result<(Pool<u32>, Vec<PoolPass<u32>>), Memory>
    requires { (0 < passes) × (passes ≤ 64) }
    ensures count { IfOk result (λ r. (length r.0.deques ≡ passes) × (length r.1.items ≡ passes)) }
    ensures passes { IfOk result (λ r. ArePassesFor r.0 (told_flat problem.now.width) r.1.items) }
{
    let (pool, passes) = Pool::new(alloc, problem, passes)?;
    Ok((pool, passes))
}

/// Puts the task of a child of the root.
fn put(
    alloc: Global,
    problem: &Flat,
    pool: &Pool<u32>,
    pass: &mut PoolPass<u32>,
    number: u32,
) -> Result<(), Memory>
    requires width { problem.now.width < 65536 }
    requires pass { IsPassFor pool.now (told_flat problem.now.width) pass.old }
    ensures { IsPassFor pool.now (told_flat problem.now.width) pass.new }
{
    if number >= problem.width {
        return Err(Memory);
    }
    let task = child(alloc, number)?;
    match pool.put(pass, task) {
        Ok(()) => Ok(()),
        Err(_) => Err(Memory),
    }
}

/// Takes a task, and answers the number of its child.
fn take<R: Wait>(rt: &R, problem: &Flat, pool: &Pool<u32>, pass: &mut PoolPass<u32>) -> Option<u32>
    requires { IsPassFor pool.now (told_flat problem.now.width) pass.old }
    ensures { IsPassFor pool.now (told_flat problem.now.width) pass.new }
{
    let _ = problem;
    match pool.take(rt, pass) {
        Take::Task(task) => Some(number_of(&task)),
        Take::Empty => None,
    }
}

/// Closes the pool, and answers the numbers of the children whose tasks were left.
fn close(
    alloc: Global,
    problem: &Flat,
    pool: Pool<u32>,
    passes: Vec<PoolPass<u32>>,
) -> Result<Vec<u32>, Memory>
    requires passes { ArePassesFor pool (told_flat problem.now.width) passes.items }
    requires count { length passes.items ≡ length pool.deques }
{
    let _ = problem;
    let mut left = Vec::new(alloc);
    pool.close(passes, &mut left)?;
    let mut numbers = Vec::new(alloc);
    for task in left.iter() {
        numbers.push(number_of(task))?;
    }
    Ok(numbers)
}

/// A pool for two passes, and the passes.
fn pair(alloc: Global, problem: &Flat) -> Result<(Pool<u32>, PoolPass<u32>, PoolPass<u32>), Memory>
    ensures count { IfOk result (λ r. length r.0.deques ≡ 2) }
    ensures first { IfOk result (λ r. IsPassFor r.0 (told_flat problem.now.width) r.1) }
    ensures second { IfOk result (λ r. IsPassFor r.0 (told_flat problem.now.width) r.2) }
{
    let (pool, mut passes) = made(alloc, problem, 2)?;
    let first = passes.remove(0);
    let second = passes.remove(0);
    Ok((pool, first, second))
}

/// Two passes as a list.
fn listed(
    alloc: Global,
    problem: &Flat,
    pool: &Pool<u32>,
    first: PoolPass<u32>,
    second: PoolPass<u32>,
) -> Result<Vec<PoolPass<u32>>, Memory>
    requires first { IsPassFor pool.now (told_flat problem.now.width) first }
    requires second { IsPassFor pool.now (told_flat problem.now.width) second }
    ensures passes { IfOk result (λ passes. ArePassesFor pool.now (told_flat problem.now.width) passes.items) }
    ensures count { IfOk result (λ passes. length passes.items ≡ 2) }
{
    let _ = problem;
    let _ = pool;
    let mut passes = Vec::with_capacity(alloc, 2)?;
    passes.push(first)?;
    passes.push(second)?;
    Ok(passes)
}

/// One pass puts 0, which the other takes, and finds nothing then. The first puts 1, which is left. The passes are handed
/// back in both orders.
fn two_passes<R: Wait>(
    rt: &R,
    alloc: Global,
    problem: &Flat,
    turned: bool,
) -> Result<(Option<u32>, Option<u32>, Vec<u32>), Memory>
    requires { problem.now.width < 65536 }
{
    let (pool, mut first, mut second) = pair(alloc, problem)?;
    put(alloc, problem, &pool, &mut first, 0)?;
    let taken = take(rt, problem, &pool, &mut second);
    let nothing = take(rt, problem, &pool, &mut second);
    put(alloc, problem, &pool, &mut first, 1)?;
    let passes = if turned {
        listed(alloc, problem, &pool, second, first)?
    } else {
        listed(alloc, problem, &pool, first, second)?
    };
    Ok((taken, nothing, close(alloc, problem, pool, passes)?))
}

#[test]
fn what_is_put_is_taken_or_left(rt: HostRuntime) -> Result<(), Fail> {
    for turned in [false, true] {
        let (taken, nothing, left) = two_passes(&rt, rt.alloc(), &Flat { width: 2 }, turned)?;
        assert_eq!(rt; (taken, nothing), (Some(0), None));
        assert_eq!(rt; left.as_slice(), [1].as_slice());
    }
    Ok(())
}

/// What a thread does in one turn after another: it puts the next of its children, up to the last, and takes a task, up
/// to so many.
#[derive(Clone, Copy)]
struct Plan {
    turns: u32,
    next: u32,
    end: u32,
    most: usize,
}

/// The plan of the thread that has the pass with this number, of four or eight.
fn plan_of(number: usize, eight: bool) -> Plan {
    let number = (number % 8) as u32;
    if eight {
        return Plan {
            turns: 250,
            next: number * 250,
            end: number * 250 + 250,
            most: 250,
        };
    }
    if number < 2 {
        return Plan {
            turns: 1000,
            next: number * 1000,
            end: number * 1000 + 1000,
            most: 0,
        };
    }
    Plan {
        turns: 9000,
        next: 0,
        end: 0,
        most: 900,
    }
}

/// Takes the turns of a plan, and answers the numbers that were taken.
fn follow<R: Wait>(
    rt: &R,
    alloc: Global,
    problem: &Flat,
    pool: &Pool<u32>,
    pass: &mut PoolPass<u32>,
    plan: Plan,
) -> Result<Vec<u32>, Memory>
    requires width { problem.now.width < 65536 }
    requires pass { IsPassFor pool.now (told_flat problem.now.width) pass.old }
    ensures { IsPassFor pool.now (told_flat problem.now.width) pass.new }
{
    let mut taken = Vec::new(alloc);
    for turn in 0..plan.turns {
        let next = plan.next.saturating_add(turn);
        if next < plan.end {
            put(alloc, problem, pool, pass, next)?;
        }
        if taken.len() < plan.most {
            match take(rt, problem, pool, pass) {
                Some(number) => taken.push(number)?,
                None => yield_now(),
            }
        }
    }
    Ok(taken)
}

/// A thread's work, which adds what it took to what all took.
fn work<R: Wait>(
    rt: &R,
    alloc: Global,
    problem: &Flat,
    pool: &Pool<u32>,
    mut pass: PoolPass<u32>,
    eight: bool,
    taken: &Mutex<Vec<u32>>,
) -> PoolPass<u32>
    requires width { problem.now.width < 65536 }
    requires pass { IsPassFor pool.now (told_flat problem.now.width) pass }
    ensures { IsPassFor pool.now (told_flat problem.now.width) result }
{
    let plan = plan_of(pass.number(), eight);
    if let Ok(mut mine) = follow(rt, alloc, problem, pool, &mut pass, plan) {
        let _ = taken.lock(rt).append(&mut mine);
    }
    pass
}

/// A thread for each pass.
fn in_threads<R: Threads + Wait + Sync>(
    rt: &R,
    alloc: Global,
    problem: &Flat,
    pool: &Pool<u32>,
    passes: Vec<PoolPass<u32>>,
    eight: bool,
    taken: &Mutex<Vec<u32>>,
) -> Result<Vec<PoolPass<u32>>, Memory>
    requires width { problem.now.width < 65536 }
    requires passes { ArePassesFor pool.now (told_flat problem.now.width) passes.items }
    ensures { IfOk result (λ after. ArePassesFor pool.now (told_flat problem.now.width) after.items × (length after.items ≡ length passes.items)) }
{
    let run = |pass: PoolPass<u32>| -> PoolPass<u32>
        requires { IsSync R.row × (problem.now.width < 65536) × IsPassFor pool.now (told_flat problem.now.width) pass }
        ensures { IsPassFor pool.entry.now (told_flat problem.entry.now.width) result }
    { work(rt, alloc, problem, pool, pass, eight, taken) };
    let after = map_vec(rt, passes, &run)?;
    Ok(after)
}

/// The numbers that four or eight threads took and those that were left, by rising number.
fn taken_and_left<R: Threads + Wait + Sync>(
    rt: &R,
    alloc: Global,
    eight: bool,
) -> Result<Vec<u32>, Memory> {
    let problem = Flat { width: 2000 };
    let (pool, passes) = made(alloc, &problem, if eight { 8 } else { 4 })?;
    let taken = Mutex::new(Vec::new(alloc));
    let passes = in_threads(rt, alloc, &problem, &pool, passes, eight, &taken)?;
    let mut left = close(alloc, &problem, pool, passes)?;
    let mut numbers = taken.into_inner();
    numbers.append(&mut left)?;
    numbers.sort()?;
    Ok(numbers)
}

// Two threads put 1,000 tasks each, and two take at most 900 each; or eight put 250 each, and take as many. Whatever the
// schedule, each task is taken or left once.
#[test]
fn no_task_is_lost_between_threads(rt: HostRuntime) -> Result<(), Fail> {
    let mut all = Vec::new(rt.alloc());
    for number in 0..2000u32 {
        all.push(number)?;
    }
    for eight in [false, true] {
        for _ in 0..30u8 {
            let numbers = taken_and_left(&rt, rt.alloc(), eight)?;
            assert!(rt; numbers == all, "eight threads: {eight}");
        }
    }
    Ok(())
}
