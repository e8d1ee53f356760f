//! What a vertex offers: the numbers of its neighbours, and whether it has a loop.

ghost use Rattle.std.specs.Prelude.{◌≡◌, ◌<◌, IfOk, if◌then◌else◌};
ghost use Rattle.yew_lad.specs.Digraphs.{vertex_count, is_other_arc};
ghost use Rattle.yew_lad.specs.SearchedOrder.{profile_of, profiles_of};
ghost use Rattle.yew_lad.specs.Nodes.{has_room};

use crate::graph::Graph;
use std::alloc::Global;
use yew_laws::Memory;

/// A vertex with the number of its successors and of its predecessors, itself not counted, and whether it has a loop.
#[derive(Clone, Copy, Debug, PartialEq, Eq)]
pub struct Profile {
    pub vertex: u32,
    pub successors: u32,
    pub predecessors: u32,
    pub looped: bool,
}

impl Profile {
    /// Whether a vertex may be the image of this one, by what both offer: it has a loop where this one has one, and at
    /// least as many other successors and other predecessors.
    pub fn has_room(&self, image: &Profile) -> bool
        ensures { result ≡ has_room self.now image.now }
    {
        (!self.looped || image.looped)
            && self.successors <= image.successors
            && self.predecessors <= image.predecessors
    }
}

/// 1 where there is an arc from `u` to `v`, which is another vertex, and else 0.
fn arc_count(graph: &Graph, u: usize, v: usize) -> u32
    requires u { u < vertex_count graph.now }
    requires v { v < vertex_count graph.now }
    ensures { result ≡ (if is_other_arc graph.now u v then 1 else 0) }
{
    if u != v && graph.has_arc(u, v) { 1 } else { 0 }
}

/// The profile of a vertex.
fn profile_at(graph: &Graph, v: usize) -> Profile
    requires { v < vertex_count graph.now }
    ensures { result ≡ profile_of graph.now v }
{
    let mut successors = 0;
    let mut predecessors = 0;
    for u in 0..graph.size() {
        successors += arc_count(graph, v, u);
        predecessors += arc_count(graph, u, v);
    }
    Profile {
        vertex: v as u32,
        successors,
        predecessors,
        looped: graph.has_arc(v, v),
    }
}

/// The profiles of all vertices, by their numbers.
pub fn profiles(alloc: Global, graph: &Graph) -> Result<Vec<Profile>, Memory>
    ensures { IfOk result (λ profiles. profiles.items ≡ profiles_of graph.now) }
{
    let mut profiles = Vec::with_capacity(alloc, graph.size())?;
    for v in 0..graph.size() {
        profiles.push(profile_at(graph, v))?;
    }
    Ok(profiles)
}
