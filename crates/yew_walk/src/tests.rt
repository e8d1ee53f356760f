ghost use Rattle.std.specs.Prelude.{◌≡◌, ◌<◌, ◌≤◌, ◌^◌, ◌++◌, OnOk, OnErr};
ghost use Rattle.std.specs.List.{AllByRecursion};
ghost use Rattle.yew_kinds.specs.Kinds.{IsKindInRange};
ghost use Rattle.yew_laws.specs.Bag.{SameBag};
ghost use Rattle.yew_laws.specs.SearchTree.{IsTask};
ghost use Rattle.yew_walk.specs.Keys.{IsKeying};
ghost use Rattle.yew_walk.specs.Outlets.{IsSentPart};
ghost use Rattle.yew_walk.specs.SmallTree.{down_to, children_of, rank_of, worth_of, IsBelowFive, numbers-ranked, numbers-bounded, numbers-countable, numbers-root_rank};
ghost use Rattle.yew_walk.specs.Star.{leaves, rank_of as star_rank_of, IsNarrow, star-ranked, star-bounded, star-countable, star-root_rank};

use crate::{
    Budget, Depth, Found, Hand, Hungry, Keying, Outbox, Outlet, Plain, Policy, SearchFault,
    search_plain, walk,
};
use std::alloc::Global;
use std::test::Fail;
use yew_best::Best;
use yew_kinds::{Answer, ByDepth, Depths, Kind, NoTally, Tally};
use yew_laws::{Memory, Path, Problem, Task};
use yew_log::{Counts, Full, Recorder, Totals, audit_text};
use yew_stack::Chunk;

/// The numbers below 5, each with the greater ones as its children, the greatest first. The worth of a number is the rest
/// by 5 of it and the shift, at most the cap. The generators have no memory for one number.
#[derive(Clone, Copy)]
struct Numbers {
    shift: u32,
    cap: u64,
    refused: u32,
}

/// The numbers from so many above one number down.
#[derive(Clone, Copy)]
struct Above {
    number: u32,
    count: u32,
}

impl Problem for Numbers {
    type Node = u32;

    type Kids = Above;

    ghost root = { λ _. 0 };

    ghost children = { λ _. children_of };

    ghost rank = { λ _. rank_of };

    ghost sound = { λ _. IsBelowFive };

    ghost remaining = { λ _ kids. down_to kids.number kids.count };

    ghost worth = { λ numbers n. worth_of numbers.shift numbers.cap n };

    ghost bound = { λ _ _. 4 };

    ghost ranked = { λ _. numbers-ranked };

    ghost root_rank = { λ _ _. numbers-root_rank };

    ghost bounded = { λ numbers. numbers-bounded numbers.shift numbers.cap };

    ghost countable = { λ _ n _. numbers-countable n };

    fn root(&self, _alloc: Global) -> Result<u32, Memory> {
        Ok(0)
    }

    fn open(&self, _alloc: Global, node: u32) -> Result<Above, Memory> {
        Ok(Above {
            number: node,
            count: 4 - node,
        })
    }

    #[tactic(auto, using(crate::specs::SmallTree::down_to_first))]
    fn next(&self, _alloc: Global, kids: &mut Above) -> Result<Option<u32>, Memory> {
        if kids.count == 0 {
            return Ok(None);
        }
        let node = kids.number + kids.count;
        if node == self.refused {
            return Err(Memory);
        }
        kids.count -= 1;
        Ok(Some(node))
    }

    fn worth(&self, node: &u32) -> u64 {
        self.cap.min((*node as u64 + self.shift as u64) % 5)
    }

    fn bound(&self, _node: &u32) -> u64 {
        4
    }
}

/// A root with 2^18 - 1 leaves, none of which is an answer. A node is how many leaves it has.
struct Star;

impl Problem for Star {
    type Node = u32;

    type Kids = u32;

    ghost root = { λ _. 262143 };

    ghost children = { λ _. leaves };

    ghost rank = { λ _. star_rank_of };

    ghost sound = { λ _. IsNarrow };

    ghost remaining = { λ _ kids. leaves kids };

    ghost worth = { λ _ _. 0 };

    ghost bound = { λ _ _. 0 };

    ghost ranked = { λ _. star-ranked };

    ghost root_rank = { λ _ _. star-root_rank 262143 };

    ghost bounded = { λ _. star-bounded };

    ghost countable = { λ _. star-countable };

    fn root(&self, _alloc: Global) -> Result<u32, Memory> {
        Ok(262143)
    }

    fn open(&self, _alloc: Global, node: u32) -> Result<u32, Memory> {
        Ok(node)
    }

    #[tactic(auto, using(crate::specs::Star::leaves_first))]
    fn next(&self, _alloc: Global, kids: &mut u32) -> Result<Option<u32>, Memory> {
        if *kids == 0 {
            return Ok(None);
        }
        *kids -= 1;
        Ok(Some(0))
    }

    fn worth(&self, _node: &u32) -> u64 {
        0
    }

    fn bound(&self, _node: &u32) -> u64 {
        0
    }
}

/// An outlet that wants tasks from one call on.
#[derive(Drop)]
struct Wanting<'a, P: Problem> {
    problem: &'a P,
    tasks: Vec<Task<P::Node>>,
    calls: u32,
    lists: u32,
    from: u32,
}

impl<'a, P: Problem> Wanting<'a, P> {
    fn new(alloc: Global, problem: &'a P, from: u32) -> Wanting<'a, P>
        ensures { result.problem.now ≡ problem.now }
    {
        Wanting {
            problem,
            tasks: Vec::new(alloc),
            calls: 0,
            lists: 0,
            from,
        }
    }
}

impl<'a, P: Problem> Outlet<P> for Wanting<'a, P> {
    ghost use Rattle.std.specs.Prelude.{None};

    ghost problem = { λ outlet. outlet.problem.now };

    ghost sent = { λ outlet. outlet.tasks.items };

    ghost answers = { λ _. None };

    ghost kept = { λ _ _. Unit {0} };

    ghost later = { λ _ _. Unit {0} };

    ghost kept_same = { λ _. tt };

    ghost kept_twice = { λ _ _ _ _ _. tt };

    ghost later_same = { λ _. tt };

    ghost later_twice = { λ _ _ _ _ _. tt };

    ghost goes = { λ _ _ _. Unit {0} };

    ghost goes_none = { λ _. tt };

    ghost goes_on = { λ _ _ _ _ _ _ _. tt };

    fn wanted(&mut self) -> bool {
        self.calls = self.calls.saturating_add(1);
        self.calls >= self.from
    }

    #[tactic(auto, using(crate::proofs::Parts::sent_none))]
    fn send(&mut self, tasks: Vec<Task<P::Node>>) -> Result<(), Memory>
        requires { AllByRecursion (λ task. IsTask P.Problem self.old.problem.now task.path.numbers task.node) tasks.items }
        ensures ok { OnOk result (SameBag self.new.tasks.items (self.old.tasks.items ++ tasks.items)) }
        ensures err { OnErr result (IsSentPart (λ task. IsTask P.Problem self.old.problem.now task.path.numbers task.node) self.old.tasks.items tasks.items self.new.tasks.items) }
        ensures answers { Unit {0} }
        ensures problem { self.new.problem.now ≡ self.old.problem.now }
        ensures kept { Unit {0} }
        ensures later { OnOk result (Unit {0}) }
        ensures goes { OnOk result (Unit {0}) }
    {
        self.lists = self.lists.saturating_add(1);
        let mut tasks = tasks;
        self.tasks.append(&mut tasks)?;
        Ok(())
    }
}

const NEVER: u32 = u32::MAX;

/// What a walk from the root leaves: how it ended, the hand, and the text of its log.
#[derive(Drop)]
struct Outcome {
    ended: Result<(), SearchFault>,
    hand: Hand<()>,
    text: Vec<u8>,
}

/// Walks from the root, where the incumbent word has been offered a key.
fn walked<Q: Policy, O: Outlet<Numbers>>(
    alloc: Global,
    numbers: &Numbers,
    keying: Keying,
    offered: u64,
    policy: &mut Q,
    outlet: &mut O,
) -> Result<Outcome, Memory>
    requires keying { IsKeying keying }
    requires outlet { O.problem outlet.old ≡ numbers.now }
{
    let (best, mut seat) = Best::new(alloc, 1)?;
    let _ = best.raise(&mut seat, offered);
    let mut hand = Hand {
        sum: (),
        key: 0,
        path: Path::empty(alloc, 65535)?,
        holds: false,
    };
    let mut log = Full::fresh(alloc, 1)?;
    let root = Task {
        path: Path::empty(alloc, 0)?,
        node: numbers.root(alloc)?,
    };
    let ended = walk(
        alloc, numbers, root, &best, &mut seat, keying, policy, outlet, &NoTally, &mut hand,
        &mut log,
    );
    let text = audit_text(alloc, &[log])?;
    Ok(Outcome { ended, hand, text })
}

/// The numbers where 3, the second child of the root, is the one answer of worth 4.
fn second_is_best(refused: u32) -> Numbers {
    Numbers {
        shift: 1,
        cap: 4,
        refused,
    }
}

// 4 is no answer, 3 is the best one, and then nothing more is promising.
const WHOLE: &str = "audit 1
worker 1
take /
visit / 1 0
visit /0 0 1
end /0
visit /1 4 1
cut /1/0 4 4
end /1
cut /2 4 4
cut /3 4 4
end /
done
";

#[test]
fn walks_and_cuts(rt: HostRuntime) -> Result<(), Fail> {
    let numbers = second_is_best(NEVER);
    let mut outlet = Outbox::new(rt.alloc(), &numbers);
    let mut policy = Plain::new();
    let found = walked(
        rt.alloc(),
        &numbers,
        Keying::Plain,
        0,
        &mut policy,
        &mut outlet,
    )?;
    assert!(rt; found.ended.is_ok());
    assert_eq!(rt; found.text.as_slice(), WHOLE.as_bytes());
    assert!(rt; found.hand.holds);
    assert_eq!(rt; found.hand.key, 4);
    assert_eq!(rt; found.hand.path.numbers(), [1].as_slice());
    assert!(rt; outlet.tasks.is_empty());
    Ok(())
}

/// The text of the log of a walk, and the nodes of the tasks that it sent.
fn shared<Q: Policy + Drop>(
    alloc: Global,
    mut policy: Q,
    from: u32,
) -> Result<(Vec<u8>, Vec<u32>), SearchFault> {
    let numbers = second_is_best(NEVER);
    let mut outlet = Wanting::new(alloc, &numbers, from);
    let found = walked(alloc, &numbers, Keying::Plain, 0, &mut policy, &mut outlet)?;
    let Outcome {
        ended,
        hand: _,
        text,
    } = found;
    ended?;
    let mut nodes = Vec::new(alloc);
    for task in outlet.tasks.iter() {
        nodes.push(task.node).map_err(|_| SearchFault::Memory)?;
    }
    Ok((text, nodes))
}

// At the last end there is no child left, and the list is empty.
#[test]
fn sends_a_list_at_each_act(rt: HostRuntime) -> Result<(), Fail> {
    let numbers = second_is_best(NEVER);
    let mut outlet = Wanting::new(rt.alloc(), &numbers, 1);
    let mut policy = Hungry::new(Chunk::One);
    let found = walked(
        rt.alloc(),
        &numbers,
        Keying::Plain,
        0,
        &mut policy,
        &mut outlet,
    )?;
    assert!(rt; found.ended.is_ok());
    assert_eq!(rt; outlet.lists, outlet.calls);
    assert!(rt; outlet.tasks.len() < outlet.lists as usize);
    Ok(())
}

#[test]
fn spawns_above_a_depth(rt: HostRuntime) -> Result<(), Fail> {
    let (text, nodes) = shared(rt.alloc(), Depth::new(1), NEVER)?;
    let log = "audit 1
worker 1
take /
visit / 1 0
spawn /0
spawn /1
spawn /2
spawn /3
end /
done
";
    assert_eq!(rt; text.as_slice(), log.as_bytes());
    assert_eq!(rt; nodes.as_slice(), [4, 3, 2, 1].as_slice());
    Ok(())
}

#[test]
fn spawns_after_backtracks(rt: HostRuntime) -> Result<(), Fail> {
    let (text, nodes) = shared(rt.alloc(), Budget::new(2), NEVER)?;
    let log = "audit 1
worker 1
take /
visit / 1 0
visit /0 0 1
end /0
visit /1 4 1
cut /1/0 4 4
end /1
spawn /2
spawn /3
end /
done
";
    assert_eq!(rt; text.as_slice(), log.as_bytes());
    assert_eq!(rt; nodes.as_slice(), [2, 1].as_slice());
    Ok(())
}

#[test]
fn hands_over_what_is_wanted(rt: HostRuntime) -> Result<(), Fail> {
    let (text, nodes) = shared(rt.alloc(), Hungry::new(Chunk::One), 1)?;
    let log = "audit 1
worker 1
take /
visit / 1 0
hand /0
visit /1 4 1
hand /2
cut /1/0 4 4
hand /3
end /1
end /
done
";
    assert_eq!(rt; text.as_slice(), log.as_bytes());
    assert_eq!(rt; nodes.as_slice(), [4, 2, 1].as_slice());
    let (text, nodes) = shared(rt.alloc(), Hungry::new(Chunk::All), 2)?;
    let log = "audit 1
worker 1
take /
visit / 1 0
visit /0 0 1
hand /1
hand /2
hand /3
end /0
end /
done
";
    assert_eq!(rt; text.as_slice(), log.as_bytes());
    assert_eq!(rt; nodes.as_slice(), [3, 2, 1].as_slice());
    Ok(())
}

/// The key of worth 4 of item 5: that worth times 2^20, and 2^20 - 1 less 5.
const FIFTH: u64 = 4 * 1048576 + 1048570;

/// A walk for an item, where the word holds worth 4 of item 5.
fn ranked(alloc: Global, item: u32) -> Result<Outcome, Memory>
    requires { item < 2 ^ 20 }
{
    let numbers = second_is_best(NEVER);
    let mut outlet = Outbox::new(alloc, &numbers);
    let mut policy = Plain::new();
    walked(
        alloc,
        &numbers,
        Keying::Ranked(item),
        FIFTH,
        &mut policy,
        &mut outlet,
    )
}

// Items before the one that is held may still have its worth, and others may not.
#[test]
fn ranks_equal_worths_by_item(rt: HostRuntime) -> Result<(), Fail> {
    let fourth = ranked(rt.alloc(), 4)?;
    let log = "audit 1
worker 1
take /
visit / 1 4
visit /0 0 4
end /0
visit /1 4 4
cut /1/0 4 4
end /1
cut /2 4 4
cut /3 4 4
end /
done
";
    assert!(rt; fourth.ended.is_ok());
    assert_eq!(rt; fourth.text.as_slice(), log.as_bytes());
    assert_eq!(rt; fourth.hand.key, FIFTH + 1);
    assert_eq!(rt; fourth.hand.path.numbers(), [1].as_slice());
    let fifth = ranked(rt.alloc(), 5)?;
    let log = "audit 1
worker 1
take /
visit / 1 4
cut /0 4 4
cut /1 4 4
cut /2 4 4
cut /3 4 4
end /
done
";
    assert!(rt; fifth.ended.is_ok());
    assert_eq!(rt; fifth.text.as_slice(), log.as_bytes());
    assert_eq!(rt; fifth.hand.key, 1048576 + 1048570);
    assert!(rt; fifth.hand.path.numbers().is_empty());
    Ok(())
}

/// A walk with a gap, where the word holds a worth.
fn with_gap(alloc: Global, gap: u64, offered: u64) -> Result<Outcome, Memory>
    requires { gap ≤ 1099511627774 }
{
    let numbers = second_is_best(NEVER);
    let mut outlet = Outbox::new(alloc, &numbers);
    let mut policy = Plain::new();
    walked(
        alloc,
        &numbers,
        Keying::Gap(gap),
        offered,
        &mut policy,
        &mut outlet,
    )
}

// The bounds are 4: they are above 3, but not above 3 with a gap of 1.
#[test]
fn cuts_within_a_gap(rt: HostRuntime) -> Result<(), Fail> {
    let none = with_gap(rt.alloc(), 0, 3)?;
    let log = "audit 1
worker 1
take /
visit / 1 3
visit /0 0 3
end /0
visit /1 4 3
cut /1/0 4 4
end /1
cut /2 4 4
cut /3 4 4
end /
done
";
    assert!(rt; none.ended.is_ok());
    assert_eq!(rt; none.text.as_slice(), log.as_bytes());
    assert_eq!(rt; none.hand.key, 4);
    assert_eq!(rt; none.hand.path.numbers(), [1].as_slice());
    let one = with_gap(rt.alloc(), 1, 3)?;
    let log = "audit 1
worker 1
take /
visit / 1 3
cut /0 4 3
cut /1 4 3
cut /2 4 3
cut /3 4 3
end /
done
";
    assert!(rt; one.ended.is_ok());
    assert_eq!(rt; one.text.as_slice(), log.as_bytes());
    assert_eq!(rt; one.hand.key, 1);
    assert!(rt; one.hand.path.numbers().is_empty());
    Ok(())
}

// The root is no answer, so its first child is visited, however great the gap is.
#[test]
fn permits_no_gap_where_nothing_is_held(rt: HostRuntime) -> Result<(), Fail> {
    let numbers = Numbers {
        shift: 0,
        cap: 4,
        refused: NEVER,
    };
    let mut outlet = Outbox::new(rt.alloc(), &numbers);
    let mut policy = Plain::new();
    let found = walked(
        rt.alloc(),
        &numbers,
        Keying::Gap(1099511627774),
        0,
        &mut policy,
        &mut outlet,
    )?;
    let log = "audit 1
worker 1
take /
visit / 0 0
visit /0 4 0
end /0
cut /1 4 4
cut /2 4 4
cut /3 4 4
end /
done
";
    assert!(rt; found.ended.is_ok());
    assert_eq!(rt; found.text.as_slice(), log.as_bytes());
    Ok(())
}

// Each row has the number that is refused, and how many lines of the whole log come before it.
#[test]
fn stops_without_memory(rt: HostRuntime) -> Result<(), Fail> {
    for (refused, lines) in [(4, 4), (3, 6), (2, 9), (1, 10)] {
        let numbers = second_is_best(refused);
        let mut outlet = Outbox::new(rt.alloc(), &numbers);
        let mut policy = Plain::new();
        let found = walked(
            rt.alloc(),
            &numbers,
            Keying::Plain,
            0,
            &mut policy,
            &mut outlet,
        )?;
        assert!(rt;
            matches!(found.ended, Err(SearchFault::Memory)),
            "at {refused}"
        );
        let entries = found.text.as_slice().strip_suffix(b"done\n").unwrap_or(b"");
        assert!(rt; WHOLE.as_bytes().starts_with(entries), "at {refused}");
        let mut count = 0u32;
        for byte in entries {
            if *byte == b'\n' {
                count = count.saturating_add(1);
            }
        }
        assert_eq!(rt; count, lines, "at {refused}");
    }
    Ok(())
}

/// What the sequential search finds on the numbers, with their counts by depth.
fn found<R: Recorder>(
    alloc: Global,
    shift: u32,
    cap: u64,
    kind: Kind,
) -> Result<Found<Depths, R>, SearchFault>
    requires { IsKindInRange kind }
{
    let numbers = Numbers {
        shift,
        cap,
        refused: NEVER,
    };
    search_plain(alloc, &numbers, kind, &ByDepth { depths: 5 })
}

/// The answer on the numbers.
fn answered(alloc: Global, shift: u32, cap: u64, kind: Kind) -> Result<Answer<Depths>, SearchFault>
    requires { IsKindInRange kind }
{
    let Found { answer, logs: _ } = found::<Counts>(alloc, shift, cap, kind)?;
    Ok(answer)
}

/// Whether a path has these numbers, or both are absent.
fn is_path(path: &Option<Path>, numbers: Option<&[u32]>) -> bool {
    match path {
        Some(path) => match numbers {
            Some(numbers) => path.numbers() == numbers,
            None => false,
        },
        None => numbers.is_none(),
    }
}

/// The totals of a search that takes the one task.
fn totals(visited: u64, cut: u64) -> Totals {
    Totals {
        taken: 1,
        spawned: 0,
        handed: 0,
        visited,
        cut,
    }
}

#[test]
fn counts(rt: HostRuntime) -> Result<(), Fail> {
    let Found { answer, logs } = found::<Counts>(rt.alloc(), 0, 4, Kind::Count)?;
    match answer {
        Answer::Count(sum) => {
            assert_eq!(rt; sum.counts(), [1, 4, 6, 4, 1, 0].as_slice());
        }
        _ => assert!(rt; false),
    }
    assert_eq!(rt; logs.len(), 1);
    assert_eq!(rt; logs[0].totals(), totals(16, 0));
    assert_eq!(rt; logs[0].worker(), 1);
    let Found { answer: _, logs } = found::<Full>(rt.alloc(), 0, 4, Kind::Count)?;
    assert_eq!(rt; logs.len(), 1);
    assert_eq!(rt; logs[0].totals(), totals(16, 0));
    assert_eq!(rt; logs[0].entries().len(), 33);
    Ok(())
}

#[test]
fn finds_best(rt: HostRuntime) -> Result<(), Fail> {
    let rows: [(u32, u64, u64, Option<&[u32]>); 6] = [
        (0, 4, 4, Some(&[0])),
        (1, 4, 4, Some(&[1])),
        (1, 3, 3, Some(&[1])),
        (2, 4, 4, Some(&[2])),
        (4, 9, 4, Some(&[])),
        (2, 0, 0, None),
    ];
    for (shift, cap, greatest, first) in rows {
        match answered(rt.alloc(), shift, cap, Kind::Best)? {
            Answer::Best { worth, path } => {
                assert_eq!(rt; worth, greatest, "at {shift}");
                assert!(rt; is_path(&path, first), "at {shift}");
            }
            _ => assert!(rt; false),
        }
    }
    Ok(())
}

/// The numbers with their paths, in preorder.
const PREORDER: [(u32, &[u32]); 16] = [
    (0, &[]),
    (4, &[0]),
    (3, &[1]),
    (4, &[1, 0]),
    (2, &[2]),
    (4, &[2, 0]),
    (3, &[2, 1]),
    (4, &[2, 1, 0]),
    (1, &[3]),
    (4, &[3, 0]),
    (3, &[3, 1]),
    (4, &[3, 1, 0]),
    (2, &[3, 2]),
    (4, &[3, 2, 0]),
    (3, &[3, 2, 1]),
    (4, &[3, 2, 1, 0]),
];

/// What one worker finds in preorder with a gap: the greatest worth that it visits, and the first path that has it.
#[derive(Drop)]
struct Visited {
    worth: u64,
    path: &'static [u32],
    visited: u64,
    cut: u64,
}

/// Goes through the numbers in preorder, and leaves out all that lies below a node that is cut.
fn slowly(shift: u32, cap: u64, gap: u64) -> Visited {
    let mut best = Visited {
        worth: 0,
        path: &[],
        visited: 0,
        cut: 0,
    };
    let mut cut_at = usize::MAX;
    for (node, path) in PREORDER {
        if path.len() > cut_at {
            continue;
        }
        cut_at = usize::MAX;
        if !path.is_empty() && best.worth > 0 && best.worth.saturating_add(gap) >= 4 {
            best.cut = best.cut.saturating_add(1);
            cut_at = path.len();
            continue;
        }
        best.visited = best.visited.saturating_add(1);
        let worth = cap.min((node as u64 + shift as u64) % 5);
        if worth > best.worth {
            best.worth = worth;
            best.path = path;
        }
    }
    best
}

/// Whether a search finds with a gap what the slow one finds.
fn is_found(alloc: Global, shift: u32, cap: u64, gap: u64) -> Result<bool, SearchFault>
    requires { gap ≤ 1099511627774 }
{
    let slow = slowly(shift, cap, gap);
    let first = if slow.worth == 0 {
        None
    } else {
        Some(slow.path)
    };
    let Found { answer, logs } = found::<Counts>(alloc, shift, cap, Kind::Near(gap))?;
    let is_answer = match answer {
        Answer::Best { worth, path } => worth == slow.worth && is_path(&path, first),
        _ => false,
    };
    Ok(is_answer && logs.len() == 1 && logs[0].totals() == totals(slow.visited, slow.cut))
}

// Each shift, cap and gap from 0 on.
#[test]
fn finds_near(rt: HostRuntime) -> Result<(), Fail> {
    for case in 0..175u32 {
        let shift = case % 5;
        let cap = (case / 5 % 5) as u64;
        let gap = (case / 25) as u64;
        assert!(rt;
            is_found(rt.alloc(), shift, cap, gap)?,
            "at {shift} {cap} {gap}"
        );
    }
    assert!(rt; is_found(rt.alloc(), 0, 4, 1099511627774)?);
    Ok(())
}

// The root has worth 2, and the best node 4, as each bound: a gap of 2 permits to cut all but the root.
#[test]
fn stays_within_a_gap(rt: HostRuntime) -> Result<(), Fail> {
    let rows: [(u64, u64, Option<&[u32]>); 5] = [
        (0, 4, Some(&[2])),
        (1, 4, Some(&[2])),
        (2, 2, Some(&[])),
        (3, 2, Some(&[])),
        (1099511627774, 2, Some(&[])),
    ];
    for (gap, near, first) in rows {
        assert!(rt; gap <= 1099511627774);
        match answered(rt.alloc(), 2, 4, Kind::Near(gap))? {
            Answer::Best { worth, path } => {
                assert_eq!(rt; worth, near, "at {gap}");
                assert!(rt; is_path(&path, first), "at {gap}");
            }
            _ => assert!(rt; false),
        }
    }
    Ok(())
}

#[test]
fn reaches(rt: HostRuntime) -> Result<(), Fail> {
    let rows: [(u32, u64, Option<&[u32]>); 6] = [
        (0, 4, Some(&[0])),
        (0, 5, None),
        (1, 2, Some(&[1])),
        (2, 2, Some(&[])),
        (2, 3, Some(&[2])),
        (3, 1, Some(&[])),
    ];
    for (shift, target, first) in rows {
        assert!(rt; target >= 1 && target < 1 << 40);
        match answered(rt.alloc(), shift, 4, Kind::Reach(target))? {
            Answer::Reach(path) => assert!(rt; is_path(&path, first), "at {shift} {target}"),
            _ => assert!(rt; false),
        }
    }
    Ok(())
}

#[test]
fn keeps_one_log(rt: HostRuntime) -> Result<(), Fail> {
    let Found { answer: _, logs } = found::<Full>(rt.alloc(), 1, 4, Kind::Best)?;
    assert_eq!(rt;
        audit_text(rt.alloc(), logs.as_slice())?.as_slice(),
        WHOLE.as_bytes()
    );
    assert_eq!(rt; logs[0].totals(), totals(3, 3));
    assert_eq!(rt; logs[0].worker(), 1);
    let Found { answer: _, logs } = found::<Full>(rt.alloc(), 1, 4, Kind::Reach(1))?;
    assert_eq!(rt; logs.len(), 1);
    assert_eq!(rt; logs[0].totals(), totals(1, 4));
    assert_eq!(rt; logs[0].worker(), 1);
    Ok(())
}

// Two entries come before the leaves, and two are of each leaf, of which each has a path of one number.
#[test]
fn meets_the_limit_of_a_log(rt: HostRuntime) -> Result<(), Fail> {
    match search_plain::<_, _, Full>(rt.alloc(), &Star, Kind::Count, &NoTally) {
        Err(
            SearchFault::AuditFull {
                worker,
                entries,
                numbers,
            },
        ) => {
            assert_eq!(rt; worker, 1);
            assert_eq!(rt; entries, 262144);
            assert_eq!(rt; numbers, 262142);
        }
        _ => assert!(rt; false),
    }
    let Found { answer: _, logs } = search_plain::<_, _, Counts>(
        rt.alloc(),
        &Star,
        Kind::Count,
        &NoTally,
    )?;
    assert_eq!(rt; logs[0].totals(), totals(262144, 0));
    Ok(())
}
