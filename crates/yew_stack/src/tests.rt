ghost use Rattle.std.specs.Prelude.{◌≡◌, [], ◌∷◌, ◌++◌, length, IfOk, OnOk};
ghost use Rattle.std.specs.List.{AllByRecursion};
ghost use Rattle.yew_laws.specs.SearchTree.{IsTask};
ghost use Rattle.yew_stack.specs.Fan.{from, children_of, rank_of, IsBelowFive, fan-ranked, fan-bounded, fan-countable, fan-root_rank};
ghost use Rattle.yew_stack.specs.Descents.{turn_of};
ghost use Rattle.yew_stack.specs.ToCome.{AllOpen};
ghost use Rattle.yew_stack.specs.Turns.{GivesTask};

use crate::{Chunk, Descent, GenStack, Step, Turn};
use std::alloc::Global;
use std::test::Fail;
use yew_laws::{Memory, Path, Problem, Task};

/// The numbers below 5, each with the greater ones as its children. Of each generator one call is refused memory.
#[derive(Clone, Copy)]
struct Fan {
    refused: u32,
}

/// The children from `next` on, after so many calls.
#[derive(Clone, Copy)]
struct Numbers {
    next: u32,
    calls: u32,
}

impl Problem for Fan {
    type Node = u32;

    type Kids = Numbers;

    ghost root = { λ _. 0 };

    ghost children = { λ _. children_of };

    ghost rank = { λ _. rank_of };

    ghost sound = { λ _. IsBelowFive };

    ghost remaining = { λ _ kids. from kids.next };

    ghost worth = { λ _ _. 0 };

    ghost bound = { λ _ _. 1 };

    ghost ranked = { λ _. fan-ranked };

    ghost root_rank = { λ _ _. fan-root_rank };

    ghost bounded = { λ _. fan-bounded };

    ghost countable = { λ _ n _. fan-countable n };

    fn root(&self, _alloc: Global) -> Result<u32, Memory> {
        Ok(0)
    }

    fn open(&self, _alloc: Global, node: u32) -> Result<Numbers, Memory> {
        Ok(Numbers {
            next: node + 1,
            calls: 0,
        })
    }

    fn next(&self, _alloc: Global, kids: &mut Numbers) -> Result<Option<u32>, Memory> {
        kids.calls = kids.calls.saturating_add(1);
        if kids.calls == self.refused {
            return Err(Memory);
        }
        if kids.next >= 5 {
            return Ok(None);
        }
        let node = kids.next;
        kids.next += 1;
        Ok(Some(node))
    }

    fn worth(&self, _node: &u32) -> u64 {
        0
    }

    fn bound(&self, _node: &u32) -> u64 {
        1
    }
}

/// A stack whose one level is that of the root.
fn opened<P: Problem>(alloc: Global, problem: &P) -> Result<GenStack<P>, Memory>
    requires { P.sound problem.now (P.root problem.now) }
    ensures { IfOk result (λ stack. AllOpen P.Problem problem.now stack) }
{
    let mut stack = GenStack::new(alloc);
    let task = Task {
        path: Path::empty(alloc, 0)?,
        node: problem.root(alloc)?,
    };
    visited(alloc, problem, task, &mut stack)?;
    Ok(stack)
}

/// Adds the level of a task.
fn visited<P: Problem>(
    alloc: Global,
    problem: &P,
    task: Task<P::Node>,
    stack: &mut GenStack<P>,
) -> Result<(), Memory>
    requires root { P.sound problem.now (P.root problem.now) }
    requires task { IsTask P.Problem problem.now task.path.numbers task.node }
    requires levels_open { AllOpen P.Problem problem.now stack.old }
    ensures { AllOpen P.Problem problem.now stack.new }
{
    let Task { path, node } = task;
    let kids = problem.open(alloc, node)?;
    stack.push_level(path, kids)
}

/// The next turn.
fn turned<P: Problem>(
    alloc: Global,
    problem: &P,
    stack: &mut GenStack<P>,
) -> Result<Turn<P>, Memory>
    requires root { P.sound problem.now (P.root problem.now) }
    requires levels_open { AllOpen P.Problem problem.now stack.old }
    ensures levels_open { AllOpen P.Problem problem.now stack.new }
    ensures task { IfOk result (λ turn. GivesTask P.Problem problem.now turn) }
{
    stack.next(alloc, problem)
}

/// The next turn, where a call that is refused is made again.
fn retried<P: Problem>(
    alloc: Global,
    problem: &P,
    stack: &mut GenStack<P>,
    refusals: &mut u32,
) -> Result<Turn<P>, Memory>
    requires root { P.sound problem.now (P.root problem.now) }
    requires levels_open { AllOpen P.Problem problem.now stack.old }
    ensures { AllOpen P.Problem problem.now stack.new }
{
    if let Ok(turn) = turned(alloc, problem, stack) {
        return Ok(turn);
    }
    *refusals = refusals.saturating_add(1);
    turned(alloc, problem, stack)
}

/// Moves the lowest nodes to the end of a list of tasks.
fn split<P: Problem>(
    alloc: Global,
    problem: &P,
    chunk: Chunk,
    stack: &mut GenStack<P>,
    into: &mut Vec<Task<P::Node>>,
) -> Result<(), Memory>
    requires root { P.sound problem.now (P.root problem.now) }
    requires levels_open { AllOpen P.Problem problem.now stack.old }
    ensures { AllOpen P.Problem problem.now stack.new }
{
    stack.split_lowest(alloc, problem, chunk, into)
}

/// The tasks have these paths and nodes.
fn tasks_are(tasks: &[Task<u32>], wanted: &[(&[u32], u32)]) -> bool {
    tasks.len() == wanted.len()
        && tasks.iter().zip(wanted.iter()).all(|(task, (path, node))| task.path.numbers() == *path
            && task.node == *node)
}

/// The turn gives a node with this path.
fn gives(turn: Result<Turn<Fan>, Memory>, path: &[u32], number: u32) -> bool {
    match turn {
        Ok(Turn::Node(task)) => task.path.numbers() == path && task.node == number,
        _ => false,
    }
}

/// The turn ends the level of this path.
fn ends(turn: Result<Turn<Fan>, Memory>, path: &[u32]) -> bool {
    match turn {
        Ok(Turn::Ended(parent)) => parent.numbers() == path,
        _ => false,
    }
}

/// A stack may cross threads.
fn crosses_threads<P: Problem>(stack: GenStack<P>) {
    sent(stack);
}

fn sent<T: Send + Drop>(_value: T) {}

#[test]
fn one_level(rt: HostRuntime) -> Result<(), Fail> {
    let alloc = rt.alloc();
    let fan = Fan { refused: 0 };
    let mut stack = opened(alloc, &fan)?;
    assert!(rt; gives(turned(alloc, &fan, &mut stack), &[0], 1));
    let mut tasks = Vec::new(alloc);
    split(alloc, &fan, Chunk::One, &mut stack, &mut tasks)?;
    assert!(rt; tasks_are(&tasks, &[(&[1], 2)]));
    split(alloc, &fan, Chunk::All, &mut stack, &mut tasks)?;
    assert!(rt; tasks_are(&tasks, &[(&[1], 2), (&[2], 3), (&[3], 4)]));
    split(alloc, &fan, Chunk::All, &mut stack, &mut tasks)?;
    split(alloc, &fan, Chunk::One, &mut stack, &mut tasks)?;
    assert_eq!(rt; tasks.len(), 3);
    assert!(rt; ends(turned(alloc, &fan, &mut stack), &[]));
    assert!(rt; matches!(turned(alloc, &fan, &mut stack), Ok(Turn::Empty)));
    crosses_threads(stack);
    Ok(())
}

#[test]
fn lowest_level_first(rt: HostRuntime) -> Result<(), Fail> {
    let alloc = rt.alloc();
    let fan = Fan { refused: 0 };
    let mut stack = opened(alloc, &fan)?;
    if let Turn::Node(task) = turned(alloc, &fan, &mut stack)? {
        visited(alloc, &fan, task, &mut stack)?;
    }
    let mut tasks = Vec::new(alloc);
    split(alloc, &fan, Chunk::One, &mut stack, &mut tasks)?;
    assert!(rt; gives(turned(alloc, &fan, &mut stack), &[0, 0], 2));
    split(alloc, &fan, Chunk::All, &mut stack, &mut tasks)?;
    split(alloc, &fan, Chunk::All, &mut stack, &mut tasks)?;
    assert!(rt;
        tasks_are(
            &tasks,
            &[(&[1], 2), (&[2], 3), (&[3], 4), (&[0, 1], 3), (&[0, 2], 4)]
        )
    );
    assert!(rt; ends(turned(alloc, &fan, &mut stack), &[0]));
    assert!(rt; ends(turned(alloc, &fan, &mut stack), &[]));
    Ok(())
}

#[test]
fn refused_calls(rt: HostRuntime) -> Result<(), Fail> {
    let alloc = rt.alloc();
    for refused in 1..6u32 {
        let fan = Fan { refused };
        let mut stack = opened(alloc, &fan)?;
        let mut refusals = 0;
        assert!(rt;
            gives(retried(alloc, &fan, &mut stack, &mut refusals), &[0], 1),
            "at {refused}"
        );
        assert!(rt;
            gives(retried(alloc, &fan, &mut stack, &mut refusals), &[1], 2),
            "at {refused}"
        );
        assert!(rt;
            gives(retried(alloc, &fan, &mut stack, &mut refusals), &[2], 3),
            "at {refused}"
        );
        assert!(rt;
            gives(retried(alloc, &fan, &mut stack, &mut refusals), &[3], 4),
            "at {refused}"
        );
        assert!(rt;
            ends(retried(alloc, &fan, &mut stack, &mut refusals), &[]),
            "at {refused}"
        );
        assert_eq!(rt; refusals, 1);
        let mut stack = opened(alloc, &fan)?;
        let mut tasks = Vec::new(alloc);
        assert!(rt;
            split(alloc, &fan, Chunk::All, &mut stack, &mut tasks).is_err(),
            "at {refused}"
        );
        assert_eq!(rt; tasks.len() + 1, refused as usize);
        split(alloc, &fan, Chunk::All, &mut stack, &mut tasks)?;
        assert!(rt;
            tasks_are(&tasks, &[(&[0], 1), (&[1], 2), (&[2], 3), (&[3], 4)]),
            "at {refused}"
        );
    }
    Ok(())
}

/// How many nodes below the root are given and how many levels end, where each path is handed back.
fn given_and_ended<P: Problem>(alloc: Global, problem: &P) -> Result<(u32, u32), Memory>
    requires { P.sound problem.now (P.root problem.now) }
{
    let mut stack = opened(alloc, problem)?;
    let (mut given, mut ended) = (0u32, 0u32);
    for _turn in 0..100u32 {
        match turned(alloc, problem, &mut stack)? {
            Turn::Node(task) => {
                given = given.saturating_add(1);
                visited(alloc, problem, task, &mut stack)?;
            }
            Turn::Ended(path) => {
                ended = ended.saturating_add(1);
                stack.reuse(path);
            }
            Turn::Empty => break,
        }
    }
    Ok((given, ended))
}

#[test]
fn whole_tree(rt: HostRuntime) -> Result<(), Fail> {
    assert_eq!(rt; given_and_ended(rt.alloc(), &Fan { refused: 0 })?, (15, 16));
    Ok(())
}

/// Adds the level of the node at which a descent stands.
fn entered<P: Problem>(
    alloc: Global,
    problem: &P,
    node: P::Node,
    descent: &mut Descent<P>,
) -> Result<(), Memory>
    requires root { P.sound problem.now (P.root problem.now) }
    requires task { IsTask P.Problem problem.now descent.old.path node }
    requires levels_open { AllOpen P.Problem problem.now descent.old.levels }
    ensures { AllOpen P.Problem problem.now descent.new.levels }
{
    let kids = problem.open(alloc, node)?;
    descent.open(kids)
}

/// A descent whose one level is that of the root.
fn descended<P: Problem>(alloc: Global, problem: &P) -> Result<Descent<P>, Memory>
    requires { P.sound problem.now (P.root problem.now) }
    ensures { IfOk result (λ descent. AllOpen P.Problem problem.now descent.levels) }
{
    let mut descent = Descent::new(alloc, Path::empty(alloc, 0)?);
    entered(alloc, problem, problem.root(alloc)?, &mut descent)?;
    Ok(descent)
}

/// The next step.
fn stepped<P: Problem>(
    alloc: Global,
    problem: &P,
    descent: &mut Descent<P>,
) -> Result<Step<P::Node>, Memory>
    requires root { P.sound problem.now (P.root problem.now) }
    requires levels_open { AllOpen P.Problem problem.now descent.old.levels }
    ensures levels_open { AllOpen P.Problem problem.now descent.new.levels }
    ensures task { IfOk result (λ step. GivesTask P.Problem problem.now (turn_of descent.new.path step)) }
{
    descent.next(alloc, problem)
}

/// Moves the lowest nodes of a descent to the end of a list of tasks.
fn split_off<P: Problem>(
    alloc: Global,
    problem: &P,
    chunk: Chunk,
    descent: &mut Descent<P>,
    into: &mut Vec<Task<P::Node>>,
) -> Result<(), Memory>
    requires root { P.sound problem.now (P.root problem.now) }
    requires levels_open { AllOpen P.Problem problem.now descent.old.levels }
    ensures { AllOpen P.Problem problem.now descent.new.levels }
{
    descent.split_lowest(alloc, problem, chunk, into)
}

/// How many nodes below the root are given and how many levels end.
fn steps_and_ends<P: Problem>(alloc: Global, problem: &P) -> Result<(u32, u32), Memory>
    requires { P.sound problem.now (P.root problem.now) }
{
    let mut descent = descended(alloc, problem)?;
    let (mut given, mut ended) = (0u32, 0u32);
    for _step in 0..100u32 {
        match stepped(alloc, problem, &mut descent)? {
            Step::Node(node) => {
                given = given.saturating_add(1);
                entered(alloc, problem, node, &mut descent)?;
            }
            Step::Ended => ended = ended.saturating_add(1),
            Step::Empty => break,
        }
    }
    Ok((given, ended))
}

#[test]
fn whole_tree_along_one_path(rt: HostRuntime) -> Result<(), Fail> {
    assert_eq!(rt; steps_and_ends(rt.alloc(), &Fan { refused: 0 })?, (15, 16));
    Ok(())
}

#[test]
fn descent_keeps_its_path(rt: HostRuntime) -> Result<(), Fail> {
    let alloc = rt.alloc();
    let fan = Fan { refused: 0 };
    let mut descent = descended(alloc, &fan)?;
    if let Step::Node(node) = stepped(alloc, &fan, &mut descent)? {
        assert_eq!(rt; node, 1);
        assert_eq!(rt; descent.path().numbers(), [0].as_slice());
        entered(alloc, &fan, node, &mut descent)?;
    }
    let mut tasks = Vec::new(alloc);
    split_off(alloc, &fan, Chunk::One, &mut descent, &mut tasks)?;
    assert!(rt; tasks_are(&tasks, &[(&[1], 2)]));
    assert!(rt; matches!(stepped(alloc, &fan, &mut descent), Ok(Step::Node(2))));
    assert_eq!(rt; descent.path().numbers(), [0, 0].as_slice());
    assert!(rt; matches!(stepped(alloc, &fan, &mut descent), Ok(Step::Node(3))));
    assert_eq!(rt; descent.path().numbers(), [0, 1].as_slice());
    split_off(alloc, &fan, Chunk::All, &mut descent, &mut tasks)?;
    split_off(alloc, &fan, Chunk::All, &mut descent, &mut tasks)?;
    assert!(rt; tasks_are(&tasks, &[(&[1], 2), (&[2], 3), (&[3], 4), (&[0, 2], 4)]));
    assert!(rt; matches!(stepped(alloc, &fan, &mut descent), Ok(Step::Ended)));
    assert_eq!(rt; descent.path().numbers(), [0].as_slice());
    assert!(rt; matches!(stepped(alloc, &fan, &mut descent), Ok(Step::Ended)));
    assert!(rt; descent.path().numbers().is_empty());
    assert!(rt; matches!(stepped(alloc, &fan, &mut descent), Ok(Step::Empty)));
    Ok(())
}
