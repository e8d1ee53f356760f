//! What the searches of the tree say of the graph.

ghost use Rattle.std.specs.Prelude.{◌≡◌, ◌≤◌, ◌↔◌, IfOk, IfErr, IsTrue, MatchOption};
ghost use Rattle.yew_crew.specs.CrewSearch.{IsCrewAnswer};
ghost use Rattle.yew_kinds.specs.Kinds.{IsKindInRange, IsExact};
ghost use Rattle.yew_example.specs.Graphs.{HasColouring, IsLeastColouring};
ghost use Rattle.yew_example.specs.Nodes.{colouring_tree};
ghost use Rattle.yew_example.specs.Skeletons.{IsSkeleton, IsFault};
ghost use Rattle.yew_kinds.specs.Wrappers.{clipped_tree};
ghost use Rattle.yew_walk.specs.PlainSearch.{searched_tree};

use crate::colours::Colours;
use crate::problem::Colouring;
use std::alloc::Global;
use std::sync::Wait;
use std::thread::Threads;
use yew_crew::{Coord, search_crew};
use yew_io::OpenGate;
use yew_kinds::{Answer, Kind, NoTally};
use yew_laws::rebuild;
use yew_log::Counts;
use yew_ranked::search_ordered;
use yew_walk::{Found, SearchFault, search_plain};

/// How many workers a search has that shares its work out.
const WORKERS: u32 = 4;

/// How a tree is searched.
#[derive(Clone, Copy)]
pub enum Skeleton {
    /// By one worker, in preorder.
    Sequential,
    /// By several workers, whose tasks have no order.
    Crew(Coord),
    /// By several workers, who take the nodes at this depth, from 1 to 255, in their order.
    Ordered(u32),
}

/// Searches the tree of colourings.
fn search<H: Threads + Wait + Sync>(
    rt: &H,
    alloc: Global,
    problem: &Colouring,
    kind: Kind,
    skeleton: Skeleton,
) -> Result<Answer<()>, SearchFault>
    requires range { IsKindInRange kind }
    requires exact { IsExact kind }
    requires skeleton { IsSkeleton skeleton }
    ensures answer { IfOk result (λ answer. IsCrewAnswer (colouring_tree problem.now.graph problem.now.number) tt kind answer) }
    ensures fault { IfErr result (IsFault (searched_tree (colouring_tree problem.now.graph problem.now.number) kind) skeleton) }
{
    let found = match skeleton {
        Skeleton::Sequential => search_plain::<_, _, Counts>(alloc, problem, kind, &NoTally),
        Skeleton::Crew(coord) => search_crew::<_, _, Counts, _, _>(
            rt, alloc, problem, kind, &NoTally, coord, WORKERS, &OpenGate,
        ),
        Skeleton::Ordered(depth) => search_ordered::<_, _, Counts, _, _>(
            rt, alloc, problem, kind, &NoTally, depth, WORKERS, &OpenGate,
        ),
    };
    match found {
        Ok(Found { answer, logs: _ }) => Ok(answer),
        Err(fault) => Err(fault),
    }
}

/// Whether the graph can be coloured with so many colours.
///
/// # Errors
///
/// Memory ran out, or under `Ordered` there are more than 2^20 tasks and nodes above them.
pub fn can_colour<H: Threads + Wait + Sync>(
    rt: &H,
    alloc: Global,
    problem: &Colouring,
    skeleton: Skeleton,
) -> Result<bool, SearchFault>
    requires { IsSkeleton skeleton }
    ensures answer { IfOk result (λ yes. IsTrue yes ↔ HasColouring problem.now.graph problem.now.number) }
    ensures fault { IfErr result (IsFault (clipped_tree (colouring_tree problem.now.graph problem.now.number) 1) skeleton) }
{
    match search(rt, alloc, problem, Kind::Reach(1), skeleton)? {
        Answer::Reach(path) => Ok(path.is_some()),
        Answer::Count(_) | Answer::Best { .. } => unreachable!(),
    }
}

/// A colouring with the fewest colours, or `None` exactly where so many colours are too few.
///
/// # Errors
///
/// Memory ran out, or under `Ordered` there are more than 2^20 tasks and nodes above them.
pub fn least_colouring<H: Threads + Wait + Sync>(
    rt: &H,
    alloc: Global,
    problem: &Colouring,
    skeleton: Skeleton,
) -> Result<Option<Colours>, SearchFault>
    requires { IsSkeleton skeleton }
    ensures answer { IfOk result (λ found. MatchOption found
        (¬ HasColouring problem.now.graph problem.now.number)
        (λ colours. IsLeastColouring problem.now.graph colours)) }
    ensures fault { IfErr result (IsFault (colouring_tree problem.now.graph problem.now.number) skeleton) }
{
    match search(rt, alloc, problem, Kind::Best, skeleton)? {
        Answer::Best {
            worth: _,
            path: Some(path),
        } => Ok(rebuild(alloc, problem, &path)?),
        Answer::Best {
            worth: _,
            path: None,
        } => Ok(None),
        Answer::Count(_) | Answer::Reach(_) => unreachable!(),
    }
}
