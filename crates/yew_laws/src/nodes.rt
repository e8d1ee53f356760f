//! The node of a tree at a path.

ghost use Rattle.std.specs.Prelude.{◌≡◌, ◌≢◌, All, Contains, IfOk, IfSome, IfNone, slice_get};
ghost use Rattle.yew_laws.specs.SearchTree.{search_tree, preorder};

use crate::memory::Memory;
use crate::paths::Path;
use crate::problem::Problem;
use std::alloc::Global;

/// The child of a node with this number, or `None` where the node has no such child.
fn child_at<P: Problem>(
    alloc: Global,
    problem: &P,
    node: P::Node,
    number: u32,
) -> Result<Option<P::Node>, Memory>
    requires root { P.sound problem.now (P.root problem.now) }
    requires node { P.sound problem.now node }
    ensures { IfOk result (λ found. found ≡ slice_get (P.children problem.now node) number) }
{
    let mut kids = problem.open(alloc, node)?;
    for _k in 0..number {
        match problem.next(alloc, &mut kids)? {
            Some(_) => {}
            None => return Ok(None),
        }
    }
    problem.next(alloc, &mut kids)
}

/// The node of the tree at a path, or `None` exactly where the tree has no such path.
///
/// # Errors
///
/// `Memory` where memory ran out.
pub fn rebuild<P: Problem>(
    alloc: Global,
    problem: &P,
    path: &Path,
) -> Result<Option<P::Node>, Memory>
    requires { P.sound problem.now (P.root problem.now) }
    ensures some { IfOk result (λ found. IfSome found (λ node. Contains (preorder (search_tree P.Problem problem.now)) (record { path = path.now.numbers; node = node }))) }
    ensures none { IfOk result (λ found. IfNone found (All (λ m. m.path ≢ path.now.numbers) (preorder (search_tree P.Problem problem.now)))) }
{
    let mut node = problem.root(alloc)?;
    for number in path.numbers() {
        match child_at(alloc, problem, node, *number)? {
            Some(child) => node = child,
            None => return Ok(None),
        }
    }
    Ok(Some(node))
}
