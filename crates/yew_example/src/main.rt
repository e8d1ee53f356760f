//! The colouring of a graph, a whole problem of one's own: with how few colours can the vertices be coloured, so that no
//! edge has two ends of one colour? The program asks it of the Petersen graph, by each skeleton.
//!
//! A node of the tree is the colours of the first vertices ([`Colours`]); its children give the next vertex each colour
//! that no neighbour before it has ([`Colouring`]). [`can_colour`] and [`least_colouring`] say what the searches of this tree
//! say of the graph.
#![tactic(auto)]

mod colours;
mod graph;
mod problem;
mod search;

ghost use Rattle.std.specs.Prelude.{◌≤◌};
ghost use Rattle.yew_example.specs.Skeletons.{IsSkeleton};

use anyhow::Result;
use graph::Graph;
use problem::Colouring;
use search::{Skeleton, can_colour, least_colouring};
use std::alloc::Global;
use std::sync::Wait;
use std::thread::Threads;
use yew_crew::Coord;
use yew_stack::Chunk;

/// The Petersen graph: an outer cycle of five vertices, an inner star of five, and an edge from each to its own. Its
/// chromatic number is 3.
const PETERSEN: Graph = Graph {
    vertices: 10,
    edges: &[
        (0, 1),
        (1, 2),
        (2, 3),
        (3, 4),
        (0, 4),
        (5, 7),
        (7, 9),
        (6, 9),
        (6, 8),
        (5, 8),
        (0, 5),
        (1, 6),
        (2, 7),
        (3, 8),
        (4, 9),
    ],
};

/// What a search by a skeleton says of a graph and a number of colours. The line is the same in every schedule.
fn tell<H: Threads + Wait + Sync + Print>(
    rt: &H,
    alloc: Global,
    name: &str,
    graph: Graph,
    number: u32,
    skeleton: Skeleton,
) -> Result<()>
    requires vertices { graph.vertices ≤ 16 }
    requires number { number ≤ 16 }
    requires skeleton { IsSkeleton skeleton }
{
    let problem = Colouring { graph, number };
    let answer = if can_colour(rt, alloc, &problem, skeleton)? {
        "yes"
    } else {
        "no"
    };
    match least_colouring(rt, alloc, &problem, skeleton)? {
        Some(colours) => println!(rt;
            "{name}: {number} colours: {answer}, and {} are enough",
            colours.used()
        )?,
        None => println!(rt; "{name}: {number} colours: {answer}")?,
    }
    Ok(())
}

/// The colours of a colouring with the fewest, that of vertex 0 first. Of several best nodes `Sequential` and `Ordered` find
/// the first in preorder: here the colours that come first as words do.
fn show<H: Threads + Wait + Sync + Print>(
    rt: &H,
    alloc: Global,
    name: &str,
    problem: &Colouring,
    skeleton: Skeleton,
) -> Result<()>
    requires { IsSkeleton skeleton }
{
    if let Some(colours) = least_colouring(rt, alloc, problem, skeleton)? {
        println!(rt; "{name}: {:?}", colours.as_slice())?;
    }
    Ok(())
}

fn main(rt: HostRuntime) -> Result<()> {
    let skeletons = [
        ("sequential", Skeleton::Sequential),
        ("depth", Skeleton::Crew(Coord::Depth(2))),
        ("budget", Skeleton::Crew(Coord::Budget(5))),
        ("steal", Skeleton::Crew(Coord::Steal(Chunk::One))),
        ("ordered", Skeleton::Ordered(2)),
    ];
    for number in 2..5 {
        for (name, skeleton) in skeletons {
            tell(&rt, rt.alloc(), name, PETERSEN, number, skeleton)?;
        }
    }
    let problem = Colouring {
        graph: PETERSEN,
        number: 3,
    };
    show(
        &rt,
        rt.alloc(),
        "sequential",
        &problem,
        Skeleton::Sequential,
    )?;
    show(&rt, rt.alloc(), "ordered", &problem, Skeleton::Ordered(2))?;
    Ok(())
}
