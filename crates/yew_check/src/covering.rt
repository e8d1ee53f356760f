//! The walk of a tree along the visits and the cuts of an audit.

ghost use Rattle.std.specs.Prelude.{◌≡◌, ◌≢◌, ◌&&◌, [], ◌∷◌, ◌++◌, IfOk, OnOk, MatchOption, MatchBool};
ghost use Rattle.yew_laws.specs.SearchTree.{IsTask, search_tree, tree_paths, worth_at};
ghost use Rattle.yew_laws.specs.Tree.{prefixed};
ghost use Rattle.yew_stack.specs.ToCome.{to_come, node_tree, AllOpen};
ghost use Rattle.yew_check.specs.Covering.{coming, Misses, IsMore, Passes, StandFor, TellsValues, IsWhole};
ghost use Rattle.yew_check.specs.Marks.{seen, all_seen, mark_paths, Rises};

use crate::marks::{Mark, is_path};
use std::alloc::Global;
use yew_laws::{Memory, Path, Problem};
use yew_stack::{Descent, Step};

/// The next node of a descent, at whose path it then stands, or none where nothing is to come.
fn next_node<P: Problem>(
    alloc: Global,
    problem: &P,
    descent: &mut Descent<P>,
) -> Result<Option<P::Node>, Memory>
    requires root { P.sound problem.now (P.root problem.now) }
    requires open_levels { AllOpen P.Problem problem.now descent.old.levels }
    ensures still_open { IfOk result (λ found. AllOpen P.Problem problem.now descent.new.levels) }
    ensures found { IfOk result (λ found. MatchOption found
        (to_come P.Problem problem.now descent.old.levels ≡ [])
        (λ node. IsTask P.Problem problem.now descent.new.path node × (to_come P.Problem problem.now descent.old.levels ≡ prefixed descent.new.path (node_tree P.Problem problem.now node) ++ to_come P.Problem problem.now descent.new.levels))) }
{
    loop {
        match descent.next(alloc, problem)? {
            Step::Node(node) => return Ok(Some(node)),
            Step::Ended => {}
            Step::Empty => return Ok(None),
        }
    }
}

/// Whether a path is that of the root.
fn is_root(path: &Path) -> bool
    ensures { MatchBool result (path.now.numbers ≡ []) (path.now.numbers ≢ []) }
{
    path.numbers().is_empty()
}

/// Goes on by one visit or cut, if it is the next to come: behind a visit its children come, and behind a cut nothing of what
/// lies below it. Answers whether its worth or its bound is that of the node.
fn take_mark<P: Problem>(
    alloc: Global,
    problem: &P,
    descent: &mut Descent<P>,
    mark: &Mark<'_>,
) -> Result<Option<bool>, Memory>
    requires root { P.sound problem.now (P.root problem.now) }
    requires open_levels { AllOpen P.Problem problem.now descent.old.levels }
    ensures { IfOk result (λ found. MatchOption found
        (Misses (coming P.Problem problem.now descent.old.levels) mark.now.path.now.numbers)
        (λ fits. Passes P.Problem problem.now descent.old.levels (seen mark.now) fits descent.new.levels)) }
{
    let Some(node) = next_node(alloc, problem, descent)? else {
        return Ok(None);
    };
    if !is_path(descent.path(), mark.path) {
        return Ok(None);
    }
    if !mark.is_visit {
        return Ok(Some(problem.bound(&node) == mark.value));
    }
    let fits = problem.worth(&node) == mark.value;
    let kids = problem.open(alloc, node)?;
    descent.open(kids)?;
    Ok(Some(fits))
}

/// Whether nothing is to come.
fn is_spent<P: Problem>(
    alloc: Global,
    problem: &P,
    descent: &mut Descent<P>,
) -> Result<bool, Memory>
    requires root { P.sound problem.now (P.root problem.now) }
    requires open_levels { AllOpen P.Problem problem.now descent.old.levels }
    ensures { IfOk result (λ spent. MatchBool spent (coming P.Problem problem.now descent.old.levels ≡ [])
        (IsMore (coming P.Problem problem.now descent.old.levels))) }
{
    let Some(_node) = next_node(alloc, problem, descent)? else {
        return Ok(true);
    };
    Ok(false)
}

/// Whether both hold.
fn both(first: bool, second: bool) -> bool
    ensures { result ≡ (first && second) }
{
    first && second
}

/// Goes on by these visits and cuts to the end of what is to come, if they are what is to come, in order. Answers whether each
/// worth and bound is that of its node.
fn walk_on<P: Problem>(
    alloc: Global,
    problem: &P,
    descent: &mut Descent<P>,
    marks: &[Mark<'_>],
) -> Result<Option<bool>, Memory>
    requires root { P.sound problem.now (P.root problem.now) }
    requires open_levels { AllOpen P.Problem problem.now descent.old.levels }
    ensures { let t = search_tree P.Problem problem.now in let to_cover = coming P.Problem problem.now descent.old.levels in
        IfOk result (λ found. MatchOption found
        (Rises to_cover → Rises (mark_paths (all_seen marks.now)) → ¬ StandFor t (all_seen marks.now) to_cover)
        (λ fits. StandFor t (all_seen marks.now) to_cover × TellsValues t (all_seen marks.now) fits)) }
{
    let mut fits = true;
    for mark in marks {
        match take_mark(alloc, problem, descent, mark)? {
            Some(fit) => fits = both(fits, fit),
            None => return Ok(None),
        }
    }
    let spent = is_spent(alloc, problem, descent)?;
    if !spent {
        return Ok(None);
    }
    Ok(Some(fits))
}

/// Visits the root: its children are what is to come. Answers whether this is its worth.
fn open_root<P: Problem>(
    alloc: Global,
    problem: &P,
    descent: &mut Descent<P>,
    value: u64,
) -> Result<bool, Memory>
    requires root { P.sound problem.now (P.root problem.now) }
    requires levels { descent.old.levels ≡ [] }
    requires path { descent.old.path ≡ [] }
    ensures still_open { OnOk result (AllOpen P.Problem problem.now descent.new.levels) }
    ensures tree { OnOk result (tree_paths (search_tree P.Problem problem.now) ≡ [] ∷ coming P.Problem problem.now descent.new.levels) }
    ensures worth { IfOk result (λ fits. MatchBool fits
        (worth_at (search_tree P.Problem problem.now) [] ≡ Some value) (worth_at (search_tree P.Problem problem.now) [] ≢ Some value)) }
{
    let root = problem.root(alloc)?;
    let fits = problem.worth(&root) == value;
    let kids = problem.open(alloc, root)?;
    descent.open(kids)?;
    Ok(fits)
}

/// Walks the tree of a problem once along visits and cuts that are in the order of their paths: behind a visit each child
/// must be visited or cut, behind a cut nothing below it. Answers none where they do not cover the tree, and else
/// whether each worth and bound is that of its node.
pub fn walk<P: Problem>(
    alloc: Global,
    problem: &P,
    marks: &[Mark<'_>],
) -> Result<Option<bool>, Memory>
    requires { P.sound problem.now (P.root problem.now) }
    ensures { let t = search_tree P.Problem problem.now in IfOk result (λ found. MatchOption found
        (Rises (mark_paths (all_seen marks.now)) → ¬ IsWhole t (all_seen marks.now))
        (λ fits. IsWhole t (all_seen marks.now) × TellsValues t (all_seen marks.now) fits)) }
{
    let Some((first, others)) = marks.split_first() else {
        return Ok(None);
    };
    if !first.is_visit {
        return Ok(None);
    }
    if !is_root(first.path) {
        return Ok(None);
    }
    let mut descent = Descent::new(alloc, Path::empty(alloc, 0)?);
    let fits = open_root(alloc, problem, &mut descent, first.value)?;
    let Some(rest) = walk_on(alloc, problem, &mut descent, others)? else {
        return Ok(None);
    };
    Ok(Some(both(fits, rest)))
}
