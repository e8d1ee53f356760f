//! What a search has found, with the node of its solution in the place of its path.

ghost use Rattle.std.specs.Prelude.{◌≡◌, IfOk, option_and_then};
ghost use Rattle.yew_crew.specs.CrewSearch.{IsCrewAnswer, solution_of as found_by};
ghost use Rattle.yew_laws.specs.SearchTree.{search_tree, at_path};
ghost use Rattle.yew_kinds.specs.declared.kind.Kind.{Kind as Sought};
ghost use Rattle.yew_laws.specs.PathValue.{PathValue};
ghost use Rattle.yew_app.specs.Solutions.{IsSolution, node_of};

use std::alloc::Global;
use yew_kinds::Answer;
use yew_laws::{Memory, Path, Problem, rebuild};

/// What a search has found.
#[derive(Drop)]
pub(crate) enum Solution<N, S> {
    /// The fold of all nodes.
    Count(S),
    /// The greatest worth, or one within a permitted gap of it, and a node that has it; there is none exactly where the
    /// worth is 0.
    Best { worth: u64, node: Option<N> },
    /// A node that meets the target, where there is one.
    Reach(Option<N>),
}

/// The node at a path of the tree, where there is one.
fn found_node<P: Problem>(
    alloc: Global,
    problem: &P,
    path: Option<Path>,
) -> Result<Option<P::Node>, Memory>
    requires root { P.sound problem.now (P.root problem.now) }
    ensures { IfOk result (λ found. found ≡ option_and_then (λ (p : PathValue). at_path (search_tree P.Problem problem.now) p.numbers) path) }
{
    match path {
        Some(path) => rebuild(alloc, problem, &path),
        None => Ok(None),
    }
}

/// What was found, with the node in the place of its path. `Memory` comes only where memory runs out.
pub(crate) fn solution_of<P: Problem, S: Drop>(
    alloc: Global,
    problem: &P,
    answer: Answer<S>,
) -> Result<Solution<P::Node, S>, Memory>
    requires root { P.sound problem.now (P.root problem.now) }
    ensures right { (fold : S) (kind : Sought) → IsCrewAnswer (search_tree P.Problem problem.now) fold kind answer →
        IfOk result (IsSolution (search_tree P.Problem problem.now) (P.sound problem.now) fold kind) }
    ensures node { IfOk result (λ solution. node_of solution ≡ found_by (search_tree P.Problem problem.now) answer) }
{
    match answer {
        Answer::Count(sum) => Ok(Solution::Count(sum)),
        Answer::Best { worth, path } => {
            let node = found_node(alloc, problem, path)?;
            Ok(Solution::Best { worth, node })
        }
        Answer::Reach(path) => {
            let node = found_node(alloc, problem, path)?;
            Ok(Solution::Reach(node))
        }
    }
}
