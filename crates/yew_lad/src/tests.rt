ghost use Rattle.std.specs.Prelude.{◌≤◌, IfOk, IfSome};
ghost use Rattle.yew_lad.specs.Nodes.{root_of, IsNode};

use crate::{MapNode, Subgraph, pair, read};
use std::alloc::Global;
use std::test::Fail;
use yew_laws::{Memory, Path, Problem, rebuild};
use yew_lines::{push_line_end, push_number, push_spaced};
use yew_text::{FileEnd, TextKind};

const TRIANGLE: &[u8] = b"3\n2 1 2\n2 0 2\n2 0 1\n";

const FOUR_CYCLE: &[u8] = b"4\n2 1 3\n2 0 2\n2 1 3\n2 0 2\n";

const PATH_OF_THREE: &[u8] = b"3\n1 1\n2 0 2\n1 1\n";

const NO_VERTICES: &[u8] = b"0\n";

const LOOP: &[u8] = b"1\n1 0\n";

/// An arc that is named three times.
const ARC: &[u8] = b"2\n3 1 1 1\n0\n";

/// Two arcs to vertex 1.
const TWO_ARCS: &[u8] = b"3\n1 1\n0\n1 1\n";

/// The problem of two files.
fn pair_of(alloc: Global, pattern: &[u8], target: &[u8]) -> Result<Subgraph, FileEnd>
    ensures { IfOk result (λ problem. IsNode problem (root_of problem)) }
{
    let pattern = match read(alloc, pattern, 64) {
        Ok(graph) => graph,
        Err(end) => return Err(end),
    };
    let target = match read(alloc, target, 1024) {
        Ok(graph) => graph,
        Err(end) => return Err(end),
    };
    match pair(alloc, pattern, target) {
        Ok(problem) => Ok(problem),
        Err(_) => Err(FileEnd::Memory),
    }
}

/// The node at a path.
fn node_at(alloc: Global, problem: &Subgraph, numbers: &[u32]) -> Result<Option<MapNode>, Memory>
    requires { IsNode problem.now (root_of problem.now) }
    ensures { IfOk result (λ found. IfSome found (IsNode problem.now)) }
{
    let mut path = Path::empty(alloc, 8)?;
    for number in numbers {
        path = path.child(*number)?;
    }
    rebuild(alloc, problem, &path)
}

/// The image that the node at a path gave last, and its bound.
fn last_at(
    alloc: Global,
    problem: &Subgraph,
    numbers: &[u32],
) -> Result<Option<(usize, u64)>, Memory>
    requires { IsNode problem.now (root_of problem.now) }
{
    match node_at(alloc, problem, numbers)? {
        Some(node) => {
            let count = node.count();
            if count == 0 {
                return Ok(None);
            }
            Ok(Some((node.image(count - 1), problem.bound(&node))))
        }
        None => Ok(None),
    }
}

/// The text of the node at a path, if it is there and whole.
fn text_at(alloc: Global, problem: &Subgraph, numbers: &[u32]) -> Result<Option<Vec<u8>>, Memory>
    requires { IsNode problem.now (root_of problem.now) }
{
    match node_at(alloc, problem, numbers)? {
        Some(node) => {
            if problem.worth(&node) == 0 {
                return Ok(None);
            }
            Ok(Some(problem.reach_text(alloc, Some(&node))?))
        }
        None => Ok(None),
    }
}

/// The image that was given last at a path of the tree of two files, and the bound there.
fn last_of(
    alloc: Global,
    pattern: &[u8],
    target: &[u8],
    numbers: &[u32],
) -> Result<Option<(usize, u64)>, FileEnd> {
    let problem = match pair_of(alloc, pattern, target) {
        Ok(problem) => problem,
        Err(end) => return Err(end),
    };
    match last_at(alloc, &problem, numbers) {
        Ok(last) => Ok(last),
        Err(_) => Err(FileEnd::Memory),
    }
}

/// Whether the node at a path of the tree of two files is whole and has this text.
fn is_text(
    alloc: Global,
    pattern: &[u8],
    target: &[u8],
    numbers: &[u32],
    wanted: &[u8],
) -> Result<bool, FileEnd> {
    let problem = match pair_of(alloc, pattern, target) {
        Ok(problem) => problem,
        Err(end) => return Err(end),
    };
    match text_at(alloc, &problem, numbers) {
        Ok(Some(text)) => Ok(text.as_slice() == wanted),
        Ok(None) => Ok(false),
        Err(_) => Err(FileEnd::Memory),
    }
}

/// Whether the answer to two files is `no` where no node is given, and the root's bound is 0.
fn has_no_candidate(alloc: Global, pattern: &[u8], target: &[u8]) -> Result<bool, FileEnd> {
    let problem = match pair_of(alloc, pattern, target) {
        Ok(problem) => problem,
        Err(end) => return Err(end),
    };
    match (problem.root(alloc), problem.reach_text(alloc, None)) {
        (Ok(root), Ok(text)) => Ok(
            problem.bound(&root) == 0 && text.as_slice() == b"no\n".as_slice(),
        ),
        _ => Err(FileEnd::Memory),
    }
}

/// The kind and the line of a refusal.
fn refusal(alloc: Global, bytes: &[u8]) -> Option<(TextKind, u64)> {
    match read(alloc, bytes, 1024) {
        Err(FileEnd::Refused(fault)) => Some((fault.kind, fault.line)),
        _ => None,
    }
}

/// The number past its limit, and the limit.
fn past_limit(alloc: Global, bytes: &[u8], limit: u64) -> Option<(u64, u64)>
    requires { limit ≤ 1024 }
{
    match read(alloc, bytes, limit) {
        Err(FileEnd::TooLarge { number, limit }) => Some((number, limit)),
        _ => None,
    }
}

/// Two halves of 512 vertices, each vertex joined to the whole other half.
fn two_halves(alloc: Global) -> Result<Vec<u8>, Memory> {
    let mut text = Vec::new(alloc);
    push_number(&mut text, 1024)?;
    push_line_end(&mut text)?;
    for u in 0u64..1024 {
        let first = if u < 512 { 512 } else { 0 };
        push_number(&mut text, 512)?;
        for k in 0u64..512 {
            push_spaced(&mut text, first + k)?;
        }
        push_line_end(&mut text)?;
    }
    Ok(text)
}

#[test]
fn spells_maps(rt: HostRuntime) -> Result<(), Fail> {
    let rows: [(&[u8], &[u8], &[u32], &[u8]); 6] = [
        (PATH_OF_THREE, TRIANGLE, &[0, 0, 0], b"yes\nmap 1 0 2\n"),
        (PATH_OF_THREE, TRIANGLE, &[2, 1, 0], b"yes\nmap 1 2 0\n"),
        (NO_VERTICES, FOUR_CYCLE, &[], b"yes\nmap\n"),
        (b"1 0", LOOP, &[0], b"yes\nmap 0\n"),
        (ARC, TWO_ARCS, &[0, 0], b"yes\nmap 0 1\n"),
        (ARC, TWO_ARCS, &[1, 0], b"yes\nmap 2 1\n"),
    ];
    for (pattern, target, path, text) in rows {
        assert!(rt; is_text(rt.alloc(), pattern, target, path, text)?);
    }
    assert!(rt; has_no_candidate(rt.alloc(), LOOP, TRIANGLE)?);
    Ok(())
}

#[test]
fn gives_children_and_bounds(rt: HostRuntime) -> Result<(), Fail> {
    let rows: [(&[u8], &[u8], &[u32], Option<(usize, u64)>); 8] = [
        (PATH_OF_THREE, TRIANGLE, &[0, 0, 1], None),
        (TRIANGLE, FOUR_CYCLE, &[0], Some((0, 1))),
        (TRIANGLE, FOUR_CYCLE, &[0, 0], Some((1, 0))),
        (TRIANGLE, FOUR_CYCLE, &[0, 1], Some((3, 0))),
        (TRIANGLE, FOUR_CYCLE, &[0, 2], None),
        (TRIANGLE, FOUR_CYCLE, &[0, 0, 0], None),
        (ARC, TWO_ARCS, &[2], None),
        (ARC, TWO_ARCS, &[0, 1], None),
    ];
    for (pattern, target, path, last) in rows {
        assert_eq!(rt; last_of(rt.alloc(), pattern, target, path)?, last);
    }
    Ok(())
}

#[test]
fn finds_candidates_of_a_wide_target(rt: HostRuntime) -> Result<(), Fail> {
    let halves = two_halves(rt.alloc())?;
    let rows: [(&[u32], Option<(usize, u64)>); 4] = [
        (&[1023], Some((1023, 1))),
        (&[0, 0], Some((512, 0))),
        (&[0, 511], Some((1023, 0))),
        (&[0, 512], None),
    ];
    for (path, last) in rows {
        assert_eq!(rt;
            last_of(rt.alloc(), TRIANGLE, halves.as_slice(), path)?,
            last
        );
    }
    assert_eq!(rt;
        past_limit(rt.alloc(), halves.as_slice(), 64),
        Some((1024, 64))
    );
    Ok(())
}

#[test]
fn refuses_files(rt: HostRuntime) -> Result<(), Fail> {
    for (bytes, kind, line) in [
        (b"".as_slice(), TextKind::EndsEarly, 1),
        (b"1\n1 1\n".as_slice(), TextKind::TooBig, 2),
        (b"2\n1 1\n2 0\n".as_slice(), TextKind::EndsEarly, 4),
        (b"2\n1 1\n".as_slice(), TextKind::EndsEarly, 3),
        (b"1\n0\nx\n".as_slice(), TextKind::Surplus, 3),
        (b"1\n1 -1\n".as_slice(), TextKind::NotNumber, 2),
        (b"1\n9223372036854775808\n".as_slice(), TextKind::TooBig, 2),
        (
            b"9223372036854775807 1\n9223372036854775807\n".as_slice(),
            TextKind::TooBig,
            2,
        ),
        (b"1025\n1\n1024 0\n1\n1025".as_slice(), TextKind::TooBig, 5),
    ] {
        assert_eq!(rt; refusal(rt.alloc(), bytes), Some((kind, line)));
    }
    assert_eq!(rt; past_limit(rt.alloc(), TRIANGLE, 2), Some((3, 2)));
    assert_eq!(rt; past_limit(rt.alloc(), TRIANGLE, 3), None);
    assert_eq!(rt; past_limit(rt.alloc(), NO_VERTICES, 0), None);
    Ok(())
}
