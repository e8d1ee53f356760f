ghost use Rattle.std.specs.Prelude.{IfOk, IfSome};
ghost use Rattle.std.specs.List.{AllByRecursion};
ghost use Rattle.yew_flow.specs.Nodes.{root_of, remaining_of, IsNode};

use crate::{Flow, FlowKids, FlowNode, read};
use std::alloc::Global;
use std::test::Fail;
use yew_laws::{Memory, Path, Problem, rebuild};
use yew_lines::{push_line_end, push_number, push_spaced};
use yew_text::{FileEnd, TextKind};

/// Three jobs on two machines.
const THREE: &[u8] = b"3 2\n3 2\n1 4\n2 1\n";

/// Five jobs on three machines, and their times.
const FIVE: &[u8] = b"5 3\n4 2 7\n3 6 1\n5 5 2\n1 8 3\n6 1 4\n";

const TIMES: [[u32; 3]; 5] = [[4, 2, 7], [3, 6, 1], [5, 5, 2], [1, 8, 3], [6, 1, 4]];

/// What makespans are taken from.
const WHOLE: u64 = 1 << 37;

/// The node at a path.
fn node_at(alloc: Global, problem: &Flow, numbers: &[u32]) -> Result<Option<FlowNode>, Memory>
    requires { IsNode problem.now (root_of problem.now) }
    ensures { IfOk result (λ found. IfSome found (IsNode problem.now)) }
{
    let mut path = Path::empty(alloc, 8)?;
    for number in numbers {
        path = path.child(*number)?;
    }
    rebuild(alloc, problem, &path)
}

/// The worth and the bound at a path.
fn judged_at(alloc: Global, problem: &Flow, numbers: &[u32]) -> Result<Option<(u64, u64)>, Memory>
    requires { IsNode problem.now (root_of problem.now) }
{
    match node_at(alloc, problem, numbers)? {
        Some(node) => Ok(Some((problem.worth(&node), problem.bound(&node)))),
        None => Ok(None),
    }
}

/// The last job of the next child, and its number.
fn next_job(alloc: Global, problem: &Flow, kids: &mut FlowKids) -> Result<Option<(u8, u8)>, Memory>
    requires root { IsNode problem.now (root_of problem.now) }
    requires kids { AllByRecursion (IsNode problem.now) (remaining_of problem.now kids.old) }
    ensures { AllByRecursion (IsNode problem.now) (remaining_of problem.now kids.new) }
{
    match problem.next(alloc, kids) {
        Ok(Some(node)) => Ok(Some((node.jobs[0], node.placed))),
        Ok(None) => Ok(None),
        Err(e) => Err(e),
    }
}

#[test]
fn gives_the_children_in_order(rt: HostRuntime) -> Result<(), Fail> {
    let problem = read(rt.alloc(), THREE)?;
    let root = problem.root(rt.alloc())?;
    let mut kids = problem.open(rt.alloc(), root)?;
    assert_eq!(rt; next_job(rt.alloc(), &problem, &mut kids)?, Some((1, 1)));
    assert_eq!(rt; next_job(rt.alloc(), &problem, &mut kids)?, Some((2, 1)));
    assert_eq!(rt; next_job(rt.alloc(), &problem, &mut kids)?, Some((3, 1)));
    assert_eq!(rt; next_job(rt.alloc(), &problem, &mut kids)?, None);
    assert_eq!(rt; next_job(rt.alloc(), &problem, &mut kids)?, None);
    Ok(())
}

#[test]
fn judges_lists(rt: HostRuntime) -> Result<(), Fail> {
    let problem = read(rt.alloc(), THREE)?;
    let table = [
        ([].as_slice(), Some((0, 137438953465))),
        ([0].as_slice(), Some((0, 137438953462))),
        ([1].as_slice(), Some((0, 137438953464))),
        ([2].as_slice(), Some((0, 137438953463))),
        ([1, 0].as_slice(), Some((0, 137438953464))),
        ([1, 0, 0].as_slice(), Some((137438953464, 137438953464))),
        ([0, 0, 0].as_slice(), Some((137438953462, 137438953462))),
        ([2, 1, 0].as_slice(), Some((137438953463, 137438953463))),
        ([3].as_slice(), None),
        ([0, 0, 0, 0].as_slice(), None),
    ];
    for row in &table {
        assert_eq!(rt; judged_at(rt.alloc(), &problem, row.0)?, row.1);
    }
    Ok(())
}

/// The makespan of the five jobs in an order, where jobs are numbered from 0.
fn plain_span(order: [usize; 5]) -> u32 {
    let mut ends = [0u32; 3];
    for job in order {
        let mut done = 0u32;
        for machine in 0..3 {
            let begun = done.max(ends[machine]);
            done = begun.wrapping_add(TIMES[job % 5][machine]);
            ends[machine] = done;
        }
    }
    ends[2]
}

/// Whether no two of these are equal.
fn all_differ(order: [usize; 5]) -> bool {
    for k in 0..5 {
        for l in 0..k {
            if order[k] == order[l] {
                return false;
            }
        }
    }
    true
}

/// The least makespan of all orders of the five jobs.
fn plain_least() -> u32 {
    let mut least = u32::MAX;
    for code in 0..3125 {
        let order = [
            code % 5,
            code / 5 % 5,
            code / 25 % 5,
            code / 125 % 5,
            code / 625 % 5,
        ];
        if all_differ(order) {
            least = least.min(plain_span(order));
        }
    }
    least
}

#[test]
fn finds_the_least_makespan(rt: HostRuntime) -> Result<(), Fail> {
    let problem = read(rt.alloc(), FIVE)?;
    let mut greatest = 0;
    for code in 0u32..120 {
        let path = [code % 5, code / 5 % 4, code / 20 % 3, code / 60 % 2, 0];
        match judged_at(rt.alloc(), &problem, path.as_slice())? {
            Some((worth, _)) => greatest = worth.max(greatest),
            None => assert!(rt; false, "{code}"),
        }
    }
    let least = plain_least();
    assert_eq!(rt; least, 26);
    assert_eq!(rt; greatest, WHOLE - least as u64);
    Ok(())
}

/// The kind and the line of a refusal.
fn refusal(alloc: Global, bytes: &[u8]) -> Option<(TextKind, u64)> {
    match read(alloc, bytes) {
        Err(FileEnd::Refused(fault)) => Some((fault.kind, fault.line)),
        _ => None,
    }
}

/// The number past its limit, and the limit.
fn past_limit(alloc: Global, bytes: &[u8]) -> Option<(u64, u64)> {
    match read(alloc, bytes) {
        Err(FileEnd::TooLarge { number, limit }) => Some((number, limit)),
        _ => None,
    }
}

#[test]
fn refuses_files(rt: HostRuntime) -> Result<(), Fail> {
    let table = [
        (b"".as_slice(), TextKind::EndsEarly, 1),
        (b"\n\n".as_slice(), TextKind::EndsEarly, 3),
        (b"0 3\n".as_slice(), TextKind::BadLine, 1),
        (b"\n00".as_slice(), TextKind::BadLine, 2),
        (b"3\n0\nx".as_slice(), TextKind::BadLine, 2),
        (b"0 x".as_slice(), TextKind::BadLine, 1),
        (b"x 0".as_slice(), TextKind::NotNumber, 1),
        (b"9223372036854775808\n0".as_slice(), TextKind::TooBig, 1),
        (b"1\n-1\n".as_slice(), TextKind::NotNumber, 2),
        (b"2\n".as_slice(), TextKind::EndsEarly, 2),
        (
            b"9223372036854775807 9223372036854775807 7\n".as_slice(),
            TextKind::EndsEarly,
            2,
        ),
        (b"2 2\n1 2\n3".as_slice(), TextKind::EndsEarly, 3),
        (b"2 2\n1 2\n3 4.\n".as_slice(), TextKind::NotNumber, 3),
        (b"2 2\n1 2\n3 4\n\n5".as_slice(), TextKind::Surplus, 5),
        (b"65 1\n1048576\n".as_slice(), TextKind::EndsEarly, 3),
    ];
    for row in &table {
        assert_eq!(rt; refusal(rt.alloc(), row.0), Some((row.1, row.2)));
    }
    Ok(())
}

/// A file of so many jobs and machines whose times are all one number.
fn equal_times(alloc: Global, jobs: u64, machines: u64, time: u64) -> Result<Vec<u8>, Memory> {
    let mut text = Vec::new(alloc);
    push_number(&mut text, jobs)?;
    push_spaced(&mut text, machines)?;
    push_line_end(&mut text)?;
    for _job in 0..jobs {
        for _machine in 0..machines {
            push_spaced(&mut text, time)?;
        }
        push_line_end(&mut text)?;
    }
    Ok(text)
}

#[test]
fn judges_limits(rt: HostRuntime) -> Result<(), Fail> {
    let table = [
        (65, 1, 1, Some((65, 64))),
        (64, 33, 1048576, Some((33, 32))),
        (2, 2, 1048576, Some((1048576, 1048575))),
        (64, 32, 1048575, None),
    ];
    for row in &table {
        let text = equal_times(rt.alloc(), row.0, row.1, row.2)?;
        assert_eq!(rt; past_limit(rt.alloc(), text.as_slice()), row.3);
    }
    let most = equal_times(rt.alloc(), 64, 32, 1048575)?;
    let problem = read(rt.alloc(), most.as_slice())?;
    let root = problem.root(rt.alloc())?;
    assert_eq!(rt; WHOLE - problem.bound(&root), 95 * 1048575);
    let spaced = read(rt.alloc(), b" 02\t1\r\n 3\n\n4")?;
    assert_eq!(rt; spaced.times(), [3, 4].as_slice());
    Ok(())
}

/// The text of the node at a path, where it has some worth; with a gap, that of an order with it.
fn text_at(
    alloc: Global,
    problem: &Flow,
    numbers: &[u32],
    gap: Option<u64>,
) -> Result<Option<Vec<u8>>, Memory>
    requires { IsNode problem.now (root_of problem.now) }
{
    let Some(node) = node_at(alloc, problem, numbers)? else {
        return Ok(None);
    };
    let worth = problem.worth(&node);
    if worth == 0 {
        return Ok(None);
    }
    let text = match gap {
        Some(gap) => problem.near_text(alloc, worth, gap, &node)?,
        None => problem.best_text(alloc, worth, &node)?,
    };
    Ok(Some(text))
}

#[test]
fn spells_answers(rt: HostRuntime) -> Result<(), Fail> {
    let three = read(rt.alloc(), THREE)?;
    match text_at(rt.alloc(), &three, &[1, 0, 0], None)? {
        Some(text) => assert_eq!(rt; text.as_slice(), b"best 8\norder 2 1 3\n".as_slice()),
        None => assert!(rt; false),
    }
    match text_at(rt.alloc(), &three, &[2, 1, 0], Some(1))? {
        Some(text) => {
            assert_eq!(rt;
                text.as_slice(),
                b"found 9\nwithin 1\norder 3 2 1\n".as_slice()
            );
        }
        None => assert!(rt; false),
    }
    assert!(rt; text_at(rt.alloc(), &three, &[1, 0], None)?.is_none());
    let one = read(rt.alloc(), b"1 1\n7\n")?;
    match text_at(rt.alloc(), &one, &[0], None)? {
        Some(text) => assert_eq!(rt; text.as_slice(), b"best 7\norder 1\n".as_slice()),
        None => assert!(rt; false),
    }
    Ok(())
}
