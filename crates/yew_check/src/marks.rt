//! The visits and the cuts of an audit, in the order of their paths.

ghost use Rattle.std.specs.Prelude.{◌≡◌, ◌≢◌, nat_eq, ℕ, ◌≤◌, List, ◌++◌, map, option_map, option_to_list, IfOk, OnOk, MatchBool};
ghost use Rattle.std.specs.List.Sorted.{IsPermutation};
ghost use Rattle.std.proofs.Common.{rules};
ghost use Rattle.std.specs.Cmp.{partial_order_from_own_ties};
ghost use Rattle.std.specs.Cmp.Rules.{comparing};
ghost use Rattle.std.specs.Cmp.Lexicographic.{pointwise, slice_cmp};
ghost use Rattle.std.specs.Ordering.{nat_cmp, on, as_partial_cmp};
ghost use Rattle.yew_laws.specs.Order.{occurs, comes_before};
ghost use Rattle.yew_log.specs.Entries.{entry_note, entry_notes};
ghost use Rattle.yew_log.specs.WholeSearch.{joined};
ghost use Rattle.yew_check.specs.Marks.{mark_in as mark_in_note, marks, mark_paths, seen, all_seen, InOrder, IsTwice, Rises};

use std::alloc::Global;
use std::cmp::Ordering;
use yew_laws::{Memory, Path};
use yew_log::Entry;

/// A visit or a cut: its path, whether it is a visit, its worth or its bound, and the held value.
#[derive(Clone, Copy)]
pub struct Mark<'a> {
    pub path: &'a Path,
    pub is_visit: bool,
    pub value: u64,
    pub held: u64,
}

/// The visit or the cut that an entry is, if it is one.
fn mark_in(entry: &Entry) -> Option<Mark<'_>>
    ensures { option_to_list (option_map seen result) ≡ mark_in_note (entry_note entry.now) }
{
    match entry {
        Entry::Visited(path, worth, held) => Some(Mark {
            path,
            is_visit: true,
            value: *worth,
            held: *held,
        }),
        Entry::Cut(path, bound, held) => Some(Mark {
            path,
            is_visit: false,
            value: *bound,
            held: *held,
        }),
        Entry::Taken(_) | Entry::Spawned(_) | Entry::Handed(_) | Entry::Ended(_) => None,
    }
}

/// Appends the visits and the cuts of a log.
fn push_marks<'a>(found: &mut Vec<Mark<'a>>, log: &'a [Entry]) -> Result<(), Memory>
    ensures { OnOk result (all_seen found.new.items ≡ all_seen found.old.items ++ marks (entry_notes log.now)) }
{
    for entry in log {
        if let Some(mark) = mark_in(entry) {
            found.push(mark)?;
        }
    }
    Ok(())
}

/// The visits and the cuts of these logs.
fn marks_of<'a>(alloc: Global, logs: &'a [Vec<Entry>]) -> Result<Vec<Mark<'a>>, Memory>
    ensures { IfOk result (λ found. all_seen found.items ≡ marks (joined (map (λ log. entry_notes log.items) logs.now))) }
{
    let mut found = Vec::new(alloc);
    for log in logs {
        push_marks(&mut found, log)?;
    }
    Ok(found)
}

impl<'a> PartialEq for Mark<'a> {
    ghost eq = { on (λ m. m.path.now.numbers) (pointwise nat_eq) };

    ghost laws = { Prim.search (comparing, rules) };

    fn eq(&self, other: &Mark<'a>) -> bool {
        self.path.numbers() == other.path.numbers()
    }
}

impl<'a> Eq for Mark<'a> {
    ghost laws = { Prim.search (comparing, rules) };
}

impl<'a> Ord for Mark<'a> {
    ghost cmp = { on (λ m. m.path.now.numbers) (slice_cmp nat_cmp) };

    ghost total = { Prim.search (comparing, rules) };

    ghost matches_partial_cmp = { Prim.search (comparing, rules) };

    ghost matches_eq = { Prim.search (comparing, rules) };

    fn cmp(&self, other: &Mark<'a>) -> Ordering {
        self.path.numbers().cmp(other.path.numbers())
    }
}

impl<'a> PartialOrd for Mark<'a> {
    ghost partial_cmp = { as_partial_cmp (on (λ m. m.path.now.numbers) (slice_cmp nat_cmp)) };

    ghost laws = { partial_order_from_own_ties (Prim.search (comparing, rules)) (Prim.search (comparing, rules)) };

    fn partial_cmp(&self, other: &Mark<'a>) -> Option<Ordering> {
        Some(self.cmp(other))
    }
}

/// The visits and the cuts of these logs, in the order of their paths.
pub fn sorted_marks<'a>(alloc: Global, logs: &'a [Vec<Entry>]) -> Result<Vec<Mark<'a>>, Memory>
    ensures same { IfOk result (λ found. IsPermutation (marks (joined (map (λ log. entry_notes log.items) logs.now))) (all_seen found.items)) }
    ensures order { IfOk result (λ found. InOrder (mark_paths (all_seen found.items))) }
{
    let mut found = marks_of(alloc, logs)?;
    found.sort()?;
    Ok(found)
}

/// Whether two neighbours have the same path. In the order of paths there are such where a path stands twice.
pub fn has_double(marks: &[Mark<'_>]) -> bool
    requires { InOrder (mark_paths (all_seen marks.now)) }
    ensures { MatchBool result (IsTwice (mark_paths (all_seen marks.now))) (Rises (mark_paths (all_seen marks.now))) }
{
    for k in 1..marks.len() {
        if is_path(marks[k - 1].path, marks[k].path) {
            return true;
        }
    }
    false
}

/// Whether two paths are the same.
pub fn is_path(path: &Path, other: &Path) -> bool
    ensures { MatchBool result (path.now.numbers ≡ other.now.numbers) (path.now.numbers ≢ other.now.numbers) }
{
    path.numbers() == other.numbers()
}
