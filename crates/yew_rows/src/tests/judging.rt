//! A plain judge of answers and logs, by the definitions alone: each node of the tree is visited once or lies at or under
//! exactly one cut, each cut's bound is at most what the held value permits to cut, each held value is 0 or a visited worth,
//! and the tasks that were taken are the root's and those that were spawned or handed over.

use super::increasing::{Increasing, next_child, number_at};
use std::alloc::Global;
use yew_kinds::{Answer, Depths, Kind};
use yew_laws::{Memory, Path};
use yew_log::{Entry, Full, Recorder};

/// How often each node stands in the logs, by what happened there.
#[derive(Drop)]
struct Marks {
    taken: Vec<u64>,
    sent: Vec<u64>,
    visited: Vec<u64>,
    cut: Vec<u64>,
    ended: Vec<u64>,
}

/// A table of zeros.
pub fn zeros(alloc: Global, len: usize) -> Result<Vec<u64>, Memory> {
    let mut numbers = Vec::new(alloc);
    for _place in 0..len {
        numbers.push(0)?;
    }
    Ok(numbers)
}

/// Adds 1 at a place of the table, where there is one.
fn mark(marks: &mut Vec<u64>, place: usize) {
    if place < marks.len() {
        marks[place] = marks[place].saturating_add(1);
    }
}

/// The child of this number, counted from 0.
fn child_at(tree: &Increasing, node: usize, number: u32) -> Option<usize> {
    let mut from = node.saturating_add(1);
    for _passed in 0..number {
        from = next_child(&tree.parents, node, from)?.saturating_add(1);
    }
    next_child(&tree.parents, node, from)
}

/// The node at a path.
pub fn node_at(tree: &Increasing, path: &Path) -> Option<usize> {
    let mut node = 0;
    for number in path.numbers() {
        node = child_at(tree, node, *number)?;
    }
    Some(node)
}

/// The bound of a node of the tree itself.
fn bound_at(tree: &Increasing, node: usize) -> u64 {
    tree.parents.len().saturating_sub(node) as u64
}

/// The worth of a node of the tree itself.
pub fn worth_at(tree: &Increasing, node: usize) -> u64 {
    number_at(&tree.worths, node).min(bound_at(tree, node))
}

/// A worth or a bound as the kind of search sees it: a decision knows only whether it meets the target.
fn seen_by(kind: Kind, counted: u64, number: u64) -> u64 {
    match kind {
        Kind::Count => counted,
        Kind::Best | Kind::Near(_) => number,
        Kind::Reach(target) => { if number >= target { 1 } else { 0 } }
    }
}

/// The greatest bound that a held value permits to cut.
fn permitted(kind: Kind, held: u64) -> u64 {
    match kind {
        Kind::Near(gap) if held > 0 => held.saturating_add(gap),
        _ => held,
    }
}

/// Marks the entry at its node, whose numbers must be those of the tree.
fn mark_entry(tree: &Increasing, kind: Kind, entry: &Entry, marks: &mut Marks) -> bool {
    match entry {
        Entry::Taken(path) => match node_at(tree, path) {
            Some(node) => {
                mark(&mut marks.taken, node);
                true
            }
            None => false,
        },
        Entry::Spawned(path) | Entry::Handed(path) => match node_at(tree, path) {
            Some(node) => {
                mark(&mut marks.sent, node);
                true
            }
            None => false,
        },
        Entry::Ended(path) => match node_at(tree, path) {
            Some(node) => {
                mark(&mut marks.ended, node);
                true
            }
            None => false,
        },
        Entry::Visited(path, worth, _) => match node_at(tree, path) {
            Some(node) => {
                mark(&mut marks.visited, node);
                *worth == seen_by(kind, 0, worth_at(tree, node))
            }
            None => false,
        },
        Entry::Cut(path, bound, held) => match node_at(tree, path) {
            Some(node) => {
                mark(&mut marks.cut, node);
                node > 0
                    && *bound == seen_by(kind, 1, bound_at(tree, node))
                    && *bound <= permitted(kind, *held)
            }
            None => false,
        },
    }
}

/// Whether a held value is 0 or the worth of a visit.
fn is_held(logs: &[Full], held: u64) -> bool {
    if held == 0 {
        return true;
    }
    for log in logs {
        for entry in log.entries() {
            if let Entry::Visited(_, worth, _) = entry
                && *worth == held
            {
                return true;
            }
        }
    }
    false
}

/// Whether each held value of the logs is 0 or the worth of a visit.
fn are_held(logs: &[Full]) -> bool {
    for log in logs {
        for entry in log.entries() {
            let held = match entry {
                Entry::Visited(_, _, held) | Entry::Cut(_, _, held) => *held,
                _ => 0,
            };
            if !is_held(logs, held) {
                return false;
            }
        }
    }
    true
}

/// Whether the logs are those of a whole search of this tree.
pub fn are_right_logs(
    alloc: Global,
    tree: &Increasing,
    kind: Kind,
    logs: &[Full],
) -> Result<bool, Memory> {
    let size = tree.parents.len();
    let mut marks = Marks {
        taken: zeros(alloc, size)?,
        sent: zeros(alloc, size)?,
        visited: zeros(alloc, size)?,
        cut: zeros(alloc, size)?,
        ended: zeros(alloc, size)?,
    };
    let mut number = 0u32;
    for log in logs {
        number = number.saturating_add(1);
        if log.worker() != number {
            return Ok(false);
        }
        for entry in log.entries() {
            if !mark_entry(tree, kind, entry, &mut marks) {
                return Ok(false);
            }
        }
    }
    let mut covers = zeros(alloc, size)?;
    for node in 0..size {
        let above = if node == 0 {
            0
        } else {
            number_at(&covers, tree.parents[node])
        };
        let covered = above.saturating_add(number_at(&marks.cut, node));
        if node < covers.len() {
            covers[node] = covered;
        }
        let visited = number_at(&marks.visited, node);
        let sent = number_at(&marks.sent, node);
        let whole = if node == 0 { 1 } else { sent };
        if visited.saturating_add(covered) != 1
            || number_at(&marks.ended, node) != visited
            || number_at(&marks.taken, node) != whole
            || (node == 0 && sent != 0)
        {
            return Ok(false);
        }
    }
    Ok(are_held(logs))
}

/// How many nodes there are at each depth below a number of them, by the parents alone.
fn widths(alloc: Global, tree: &Increasing, depths: usize) -> Result<Vec<u64>, Memory> {
    let mut depth = zeros(alloc, tree.parents.len())?;
    let mut widths = zeros(alloc, depths)?;
    for node in 0..tree.parents.len() {
        if node > 0 && node < depth.len() {
            depth[node] = number_at(&depth, tree.parents[node]).saturating_add(1);
        }
        mark(&mut widths, number_at(&depth, node) as usize);
    }
    Ok(widths)
}

/// The greatest worth, over all nodes.
pub fn greatest_of(tree: &Increasing) -> u64 {
    let mut greatest = 0;
    for node in 0..tree.parents.len() {
        greatest = worth_at(tree, node).max(greatest);
    }
    greatest
}

/// Whether the answer is this worth, with a node that has it, unless it is 0.
fn has_worth(tree: &Increasing, worth: u64, path: &Option<Path>) -> bool {
    match path {
        Some(path) => match node_at(tree, path) {
            Some(node) => worth > 0 && worth_at(tree, node) == worth,
            None => false,
        },
        None => worth == 0,
    }
}

/// Whether an answer is right for the tree: the number of nodes at each depth; the greatest worth, or one within the gap of
/// it that is 0 only where that is, with a node that has it, unless it is 0; or a node that meets the target, exactly where
/// there is one.
pub fn is_right_answer(
    alloc: Global,
    tree: &Increasing,
    kind: Kind,
    answer: &Answer<Depths>,
) -> Result<bool, Memory> {
    let greatest = greatest_of(tree);
    Ok(match (kind, answer) {
        (Kind::Count, Answer::Count(sum)) => {
            let counts = sum.counts();
            counts == widths(alloc, tree, counts.len())?.as_slice()
        }
        (Kind::Best, Answer::Best { worth, path }) => {
            *worth == greatest && has_worth(tree, greatest, path)
        }
        (Kind::Near(gap), Answer::Best { worth, path }) => {
            greatest <= permitted(Kind::Near(gap), *worth) && has_worth(tree, *worth, path)
        }
        (Kind::Reach(target), Answer::Reach(path)) => match path {
            Some(path) => match node_at(tree, path) {
                Some(node) => worth_at(tree, node) >= target,
                None => false,
            },
            None => greatest < target,
        },
        _ => false,
    })
}
