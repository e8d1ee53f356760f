ghost use Rattle.std.specs.Prelude.{IfOk, IfSome};
ghost use Rattle.std.specs.List.{AllByRecursion};
ghost use Rattle.yew_knap.specs.Nodes.{root_of, remaining_of, IsNode};

use crate::{KnapKids, KnapNode, Knapsack, read};
use std::alloc::Global;
use std::test::Fail;
use yew_laws::{Memory, Path, Problem, rebuild};
use yew_lines::{push_line_end, push_number, push_spaced, push_text};
use yew_text::{FileEnd, TextKind};

/// Four items, which are tried in the order 4, 2, 3, 1.
const FOUR: &[u8] = b"4 10\n10 5\n40 4\n30 6\n50 3\n";

/// Ten items, of which 1, 2, 3, 4 and 6 fit exactly.
const TEN: &[u8] =
    b"10 165\n92 23\n57 31\n49 29\n68 44\n60 53\n43 38\n67 63\n84 85\n87 89\n72 82\n";

/// The node at a path.
fn node_at(alloc: Global, problem: &Knapsack, numbers: &[u32]) -> Result<Option<KnapNode>, Memory>
    requires { IsNode problem.now (root_of problem.now) }
    ensures { IfOk result (λ found. IfSome found (IsNode problem.now)) }
{
    let mut path = Path::empty(alloc, 8)?;
    for number in numbers {
        path = path.child(*number)?;
    }
    rebuild(alloc, problem, &path)
}

/// The bound of the node at a path.
fn bound_at(alloc: Global, problem: &Knapsack, numbers: &[u32]) -> Result<Option<u64>, Memory>
    requires { IsNode problem.now (root_of problem.now) }
{
    match node_at(alloc, problem, numbers)? {
        Some(node) => Ok(Some(problem.bound(&node))),
        None => Ok(None),
    }
}

/// Whether the node at a path has these items, as its text lists them; where there is none the text is empty.
fn has_items(
    alloc: Global,
    problem: &Knapsack,
    numbers: &[u32],
    items: &str,
) -> Result<bool, Memory>
    requires { IsNode problem.now (root_of problem.now) }
{
    match node_at(alloc, problem, numbers)? {
        Some(node) => lists(alloc, problem, &node, items),
        None => Ok(items.is_empty()),
    }
}

/// Whether a node's text lists these items.
fn lists(alloc: Global, problem: &Knapsack, node: &KnapNode, items: &str) -> Result<bool, Memory>
    requires root { IsNode problem.now (root_of problem.now) }
    requires node { IsNode problem.now node.now }
{
    let best = problem.best_text(alloc, problem.worth(node), node)?;
    Ok(best.ends_with(items.as_bytes()))
}

/// Whether the next child has these items; where there is none they are empty.
fn next_has(
    alloc: Global,
    problem: &Knapsack,
    kids: &mut KnapKids,
    items: &str,
) -> Result<bool, Memory>
    requires root { IsNode problem.now (root_of problem.now) }
    requires kids { AllByRecursion (IsNode problem.now) (remaining_of problem.now kids.old) }
    ensures { AllByRecursion (IsNode problem.now) (remaining_of problem.now kids.new) }
{
    match problem.next(alloc, kids) {
        Ok(Some(node)) => lists(alloc, problem, &node, items),
        Ok(None) => Ok(items.is_empty()),
        Err(e) => Err(e),
    }
}

/// The kind and the line of a refusal.
fn refusal(alloc: Global, bytes: &[u8]) -> Option<(TextKind, u64)> {
    match read(alloc, bytes) {
        Err(FileEnd::Refused(fault)) => Some((fault.kind, fault.line)),
        _ => None,
    }
}

/// The number past its limit, and the limit.
fn past_limit(alloc: Global, bytes: &[u8]) -> Option<(u64, u64)> {
    match read(alloc, bytes) {
        Err(FileEnd::TooLarge { number, limit }) => Some((number, limit)),
        _ => None,
    }
}

/// A file of `count` items of one profit and weight 1.
fn equal_items(alloc: Global, count: u64, capacity: u64, profit: u64) -> Result<Vec<u8>, Memory> {
    let mut text = Vec::new(alloc);
    push_number(&mut text, count)?;
    push_spaced(&mut text, capacity)?;
    push_line_end(&mut text)?;
    for _k in 0..count {
        push_number(&mut text, profit)?;
        push_text(&mut text, b" 1\n")?;
    }
    Ok(text)
}

#[test]
fn gives_the_children_in_order(rt: HostRuntime) -> Result<(), Fail> {
    let problem = read(rt.alloc(), FOUR)?;
    let root = problem.root(rt.alloc())?;
    assert!(rt; lists(rt.alloc(), &problem, &root, "items\n")?);
    assert!(rt; has_items(rt.alloc(), &problem, &[0, 0], "items 2 4\n")?);
    assert!(rt; has_items(rt.alloc(), &problem, &[0, 3], "")?);
    let mut kids = problem.open(rt.alloc(), root)?;
    assert!(rt; next_has(rt.alloc(), &problem, &mut kids, "items 4\n")?);
    assert!(rt; next_has(rt.alloc(), &problem, &mut kids, "items 2\n")?);
    assert!(rt; next_has(rt.alloc(), &problem, &mut kids, "items 3\n")?);
    assert!(rt; next_has(rt.alloc(), &problem, &mut kids, "items 1\n")?);
    assert!(rt; next_has(rt.alloc(), &problem, &mut kids, "")?);
    assert!(rt; next_has(rt.alloc(), &problem, &mut kids, "")?);
    Ok(())
}

/// Of two items there are copies; the second has more profit for its weight, and is tried first.
const COPIES: &[u8] = b"knapsack 2\n2 10\n5 3 2\n4 2 3\n";

#[test]
fn adds_copies_in_order(rt: HostRuntime) -> Result<(), Fail> {
    let problem = read(rt.alloc(), COPIES)?;
    let root = problem.root(rt.alloc())?;
    let mut kids = problem.open(rt.alloc(), root)?;
    assert!(rt; next_has(rt.alloc(), &problem, &mut kids, "items 2\n")?);
    assert!(rt; next_has(rt.alloc(), &problem, &mut kids, "items 1\n")?);
    assert!(rt; next_has(rt.alloc(), &problem, &mut kids, "")?);
    assert!(rt; next_has(rt.alloc(), &problem, &mut kids, "")?);
    for (path, items) in [
        ([0u32].as_slice(), "items 2\n"),
        ([0, 0].as_slice(), "items 2 2\n"),
        ([0, 1].as_slice(), "items 1 2\n"),
        ([0, 2].as_slice(), ""),
        ([0, 0, 0].as_slice(), "items 2 2 2\n"),
        ([0, 0, 0, 0].as_slice(), "items 1 2 2 2\n"),
        ([0, 0, 0, 0, 0].as_slice(), ""),
        ([0, 0, 1, 0].as_slice(), "items 1 1 2 2\n"),
        ([1, 0].as_slice(), "items 1 1\n"),
        ([1, 1].as_slice(), ""),
        ([1, 0, 0].as_slice(), ""),
    ] {
        assert!(rt; has_items(rt.alloc(), &problem, path, items)?, "{items}");
    }
    // Three times 4 for 6, and of the room 4 that is left 5 for 3 and a third of 5.
    assert_eq!(rt; bound_at(rt.alloc(), &problem, &[])?, Some(12 + 5 + 1 + 1));
    assert_eq!(rt; bound_at(rt.alloc(), &problem, &[0, 1])?, Some(9 + 5 + 1));
    assert_eq!(rt; bound_at(rt.alloc(), &problem, &[1])?, Some(5 + 5 + 1));
    Ok(())
}

#[test]
fn bounds_what_lies_below(rt: HostRuntime) -> Result<(), Fail> {
    let four = read(rt.alloc(), FOUR)?;
    assert_eq!(rt; bound_at(rt.alloc(), &four, &[0])?, Some(106));
    assert_eq!(rt; bound_at(rt.alloc(), &four, &[0, 0])?, Some(106));
    assert_eq!(rt; bound_at(rt.alloc(), &four, &[0, 1])?, Some(83));
    assert_eq!(rt; bound_at(rt.alloc(), &four, &[0, 2])?, Some(61));
    assert_eq!(rt; bound_at(rt.alloc(), &four, &[1])?, Some(71));
    assert_eq!(rt; bound_at(rt.alloc(), &four, &[2])?, Some(39));
    assert_eq!(rt; bound_at(rt.alloc(), &four, &[3])?, Some(11));
    let ten = read(rt.alloc(), TEN)?;
    assert_eq!(rt; bound_at(rt.alloc(), &ten, &[])?, Some(310));
    let most = equal_items(rt.alloc(), 256, 256, 2147483647)?;
    let most = read(rt.alloc(), most.as_slice())?;
    assert_eq!(rt; bound_at(rt.alloc(), &most, &[])?, Some(549755813633));
    Ok(())
}

#[test]
fn spells_answers(rt: HostRuntime) -> Result<(), Fail> {
    let problem = read(rt.alloc(), FOUR)?;
    let no = problem.reach_text(rt.alloc(), None)?;
    assert_eq!(rt; no.as_slice(), b"no\n".as_slice());
    match node_at(rt.alloc(), &problem, &[0, 0])? {
        Some(node) => {
            let worth = problem.worth(&node);
            assert_eq!(rt; worth, 91);
            let best = problem.best_text(rt.alloc(), worth, &node)?;
            assert_eq!(rt; best.as_slice(), b"best 90\nitems 2 4\n".as_slice());
            let near = problem.near_text(rt.alloc(), worth, 54, &node)?;
            assert_eq!(rt;
                near.as_slice(),
                b"found 90\nwithin 54\nitems 2 4\n".as_slice()
            );
            let yes = problem.reach_text(rt.alloc(), Some(&node))?;
            assert_eq!(rt; yes.as_slice(), b"yes\nitems 2 4\n".as_slice());
        }
        None => assert!(rt; false),
    }
    let none = read(rt.alloc(), b"0 5\n")?;
    let root = none.root(rt.alloc())?;
    let best = none.best_text(rt.alloc(), none.worth(&root), &root)?;
    assert_eq!(rt; best.as_slice(), b"best 0\nitems\n".as_slice());
    let near = none.near_text(rt.alloc(), none.worth(&root), 0, &root)?;
    assert_eq!(rt; near.as_slice(), b"found 0\nwithin 0\nitems\n".as_slice());
    Ok(())
}

#[test]
fn tries_weightless_items_first(rt: HostRuntime) -> Result<(), Fail> {
    let problem = read(rt.alloc(), b"2 0\n7 3\n5 0\n")?;
    assert!(rt; has_items(rt.alloc(), &problem, &[0], "items 2\n")?);
    assert!(rt; has_items(rt.alloc(), &problem, &[1], "")?);
    let equal = read(rt.alloc(), b"5 10\n10 5\n40 4\n30 6\n50 3\n40 4\n")?;
    assert!(rt; has_items(rt.alloc(), &equal, &[1], "items 2\n")?);
    assert!(rt; has_items(rt.alloc(), &equal, &[2], "items 5\n")?);
    Ok(())
}

#[test]
fn reads_files(rt: HostRuntime) -> Result<(), Fail> {
    for bytes in [
        b"4 10\n10 5\n40 4\n30 6\n50 3".as_slice(),
        b"4 10\r\n10 5\r\n40 4\r\n30 6\r\n50 3\r\n".as_slice(),
        b"\t 0004 010 10 5 40 004 30 6\n\n50 3 ".as_slice(),
        b"knapsack 2\n4 10\n10 5 1\n40 4 1\n30 6 1\n50 3 1\n".as_slice(),
        b"knapsack\r\n02\r\n4 10 10 5 1 40 4 1 30 6\r\n1 50 3 1".as_slice(),
        b"knapsack 2 5 10 99 1 0 10 5 1 40 4 1 30 6 1 50 3 1".as_slice(),
    ] {
        let problem = read(rt.alloc(), bytes)?;
        assert_eq!(rt; bound_at(rt.alloc(), &problem, &[])?, Some(106));
    }
    Ok(())
}

#[test]
fn refuses_files(rt: HostRuntime) -> Result<(), Fail> {
    for (bytes, kind, line) in [
        (b"".as_slice(), TextKind::EndsEarly, 1),
        (
            b"4 10\n10 5\n40 4\n30 6\n50\n".as_slice(),
            TextKind::EndsEarly,
            6,
        ),
        (
            b"4 10\n10 5\n40 4\n30 6\n50 3\n1\n".as_slice(),
            TextKind::Surplus,
            6,
        ),
        (
            b"4 10\n10 5\n40 4\n30 6\n50 x5\n".as_slice(),
            TextKind::NotNumber,
            5,
        ),
        (b"4 10\n10 -5\n".as_slice(), TextKind::NotNumber, 2),
        (b"9223372036854775808 5\n".as_slice(), TextKind::TooBig, 1),
        (b"knapsack\n".as_slice(), TextKind::EndsEarly, 2),
        (b"knapsack".as_slice(), TextKind::EndsEarly, 1),
        (b"knapsack 3\n".as_slice(), TextKind::BadLine, 1),
        (b"knapsack\n\n1 x\n".as_slice(), TextKind::BadLine, 3),
        (b"knapsack two\n".as_slice(), TextKind::NotNumber, 1),
        (
            b"knapsack 9223372036854775808".as_slice(),
            TextKind::TooBig,
            1,
        ),
        (b"Knapsack 2\n0 0\n".as_slice(), TextKind::NotNumber, 1),
        (b"0 5\nknapsack\n".as_slice(), TextKind::Surplus, 2),
        (b"knapsack 2\n1 5\n3 2\n".as_slice(), TextKind::EndsEarly, 4),
        (
            b"knapsack 2\n1 5\n3 2 1\n7".as_slice(),
            TextKind::Surplus,
            4,
        ),
        (
            b"knapsack 2\n1 5\n3 2 one\n".as_slice(),
            TextKind::NotNumber,
            3,
        ),
        (
            b"9223372036854775807 5\n".as_slice(),
            TextKind::EndsEarly,
            2,
        ),
        (
            b"1 1099511627776\n2147483648\n".as_slice(),
            TextKind::EndsEarly,
            3,
        ),
    ] {
        assert_eq!(rt; refusal(rt.alloc(), bytes), Some((kind, line)));
    }
    let many = equal_items(rt.alloc(), 257, 5, 1)?;
    assert_eq!(rt; past_limit(rt.alloc(), many.as_slice()), Some((257, 256)));
    for (bytes, number, limit) in [
        (
            b"0 1099511627776\n".as_slice(),
            1099511627776,
            1099511627775,
        ),
        (b"1 5\n2147483648 1\n".as_slice(), 2147483648, 2147483647),
        (
            b"2 5\n1 1\n1 2147483648\n".as_slice(),
            2147483648,
            2147483647,
        ),
        (
            b"1 1099511627776\n2147483648 1\n".as_slice(),
            1099511627776,
            1099511627775,
        ),
        (b"knapsack 2\n2 5\n1 1 200\n1 1 57\n".as_slice(), 257, 256),
        (
            b"knapsack 2\n2 5\n1 1 9223372036854775807\n1 2147483648 1\n".as_slice(),
            9223372036854775807,
            256,
        ),
        (
            b"knapsack 2\n2 5\n1 1 256\n1 1 9223372036854775807\n".as_slice(),
            9223372036854776063,
            256,
        ),
        (
            b"knapsack 2\n1 5\n1 2147483648 257\n".as_slice(),
            2147483648,
            2147483647,
        ),
    ] {
        assert_eq!(rt; past_limit(rt.alloc(), bytes), Some((number, limit)));
    }
    Ok(())
}

#[test]
fn spells_problems(rt: HostRuntime) -> Result<(), Fail> {
    for (bytes, text) in [
        (b"1 5\n3 2\n".as_slice(), "knapsack 2\n1 5\n3 2 1\n"),
        (b"0 5\n".as_slice(), "knapsack 2\n0 5\n"),
        (COPIES, "knapsack 2\n2 10\n5 3 2\n4 2 3\n"),
        (
            b"knapsack 2 1 7 008 0 00".as_slice(),
            "knapsack 2\n1 7\n8 0 0\n",
        ),
    ] {
        let problem = read(rt.alloc(), bytes)?;
        let once = problem.file_text()?;
        assert_eq!(rt; once.as_slice(), text.as_bytes());
        let again = read(rt.alloc(), once.as_slice())?;
        assert_eq!(rt; again.file_text()?.as_slice(), text.as_bytes());
    }
    Ok(())
}
