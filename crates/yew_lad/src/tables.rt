//! What depends on the graphs alone, computed once: tables of bits.

ghost use Rattle.std.specs.Prelude.{◌≡◌, ◌+◌, ◌*◌, ◌/◌, ◌<◌, ◌≤◌, IfOk, MatchBool, length};
ghost use Rattle.std.specs.List.{AllByRecursion};
ghost use Rattle.yew_lad.specs.Digraphs.{vertex_count};
ghost use Rattle.yew_lad.specs.Tables.{HasTest, HasOneWay, IsTwoWay, has_room_in, is_arc_back, are_joined, is_one_way, is_joined, is_source, is_aim, is_partner, words_for};

use crate::bits::BitTable;
use crate::graph::Graph;
use crate::profiles::Profile;
use std::alloc::Global;
use yew_laws::Memory;

/// For each vertex of an order, the vertices of a list that have room for it.
pub fn rooms(
    alloc: Global,
    order: &[Profile],
    images: &[Profile],
    width: usize,
) -> Result<BitTable, Memory>
    requires order { length order.now ≤ 64 }
    requires width { width ≤ 16 }
    requires images { length images.now ≤ 64 * width }
    ensures { IfOk result (HasTest (length order.now) width (has_room_in order.now images.now)) }
{
    let mut table = BitTable::empty(alloc, order.len(), width)?;
    for place in 0..order.len() {
        for t in 0..images.len() {
            table.put(place, t, order[place].has_room(&images[t]));
        }
    }
    Ok(table)
}

/// For each vertex of a graph its predecessors.
pub fn predecessors(alloc: Global, graph: &Graph) -> Result<BitTable, Memory>
    ensures { IfOk result (HasTest (vertex_count graph.now) (words_for (vertex_count graph.now)) (is_arc_back graph.now)) }
{
    let mut table = BitTable::empty(alloc, graph.size(), graph.width())?;
    for v in 0..graph.size() {
        for t in 0..graph.size() {
            table.put(v, t, graph.has_arc(t, v));
        }
    }
    Ok(table)
}

/// Whether there are arcs between two vertices both ways.
fn are_joined(graph: &Graph, u: usize, v: usize) -> bool
    requires u { u < vertex_count graph.now }
    requires v { v < vertex_count graph.now }
    ensures { result ≡ are_joined graph.now u v }
{
    graph.has_arc(u, v) && graph.has_arc(v, u)
}

/// Whether there is an arc from `u` to `v`, and none back.
fn is_one_way(graph: &Graph, u: usize, v: usize) -> bool
    requires u { u < vertex_count graph.now }
    requires v { v < vertex_count graph.now }
    ensures { result ≡ is_one_way graph.now u v }
{
    graph.has_arc(u, v) && !graph.has_arc(v, u)
}

/// Whether some arc has none back.
pub fn has_one_way(graph: &Graph) -> bool
    ensures { MatchBool result (HasOneWay graph.now) (IsTwoWay graph.now) }
{
    for u in 0..graph.size() {
        for v in 0..graph.size() {
            if is_one_way(graph, u, v) {
                return true;
            }
        }
    }
    false
}

/// For each vertex of a graph those with arcs from it and back.
pub fn joined(alloc: Global, graph: &Graph) -> Result<BitTable, Memory>
    ensures { IfOk result (HasTest (vertex_count graph.now) (words_for (vertex_count graph.now)) (is_joined graph.now)) }
{
    let mut table = BitTable::empty(alloc, graph.size(), graph.width())?;
    for v in 0..graph.size() {
        for t in 0..graph.size() {
            table.put(v, t, are_joined(graph, v, t));
        }
    }
    Ok(table)
}

/// For each place of an order the earlier places with an arc to its vertex and none back.
pub fn sources(alloc: Global, graph: &Graph, order: &[Profile]) -> Result<BitTable, Memory>
    requires few { length order.now ≤ 64 }
    requires vertices { AllByRecursion (λ x. x.vertex < vertex_count graph.now) order.now }
    ensures { IfOk result (HasTest (length order.now) 1 (is_source graph.now order.now)) }
{
    let mut table = BitTable::empty(alloc, order.len(), 1)?;
    for place in 0..order.len() {
        for earlier in 0..place {
            let u = order[earlier].vertex as usize;
            let v = order[place].vertex as usize;
            table.put(place, earlier, is_one_way(graph, u, v));
        }
    }
    Ok(table)
}

/// For each place of an order the earlier places with an arc from its vertex and none back.
pub fn aims(alloc: Global, graph: &Graph, order: &[Profile]) -> Result<BitTable, Memory>
    requires few { length order.now ≤ 64 }
    requires vertices { AllByRecursion (λ x. x.vertex < vertex_count graph.now) order.now }
    ensures { IfOk result (HasTest (length order.now) 1 (is_aim graph.now order.now)) }
{
    let mut table = BitTable::empty(alloc, order.len(), 1)?;
    for place in 0..order.len() {
        for earlier in 0..place {
            let u = order[earlier].vertex as usize;
            let v = order[place].vertex as usize;
            table.put(place, earlier, is_one_way(graph, v, u));
        }
    }
    Ok(table)
}

/// For each place of an order the earlier places with arcs to its vertex and back.
pub fn partners(alloc: Global, graph: &Graph, order: &[Profile]) -> Result<BitTable, Memory>
    requires few { length order.now ≤ 64 }
    requires vertices { AllByRecursion (λ x. x.vertex < vertex_count graph.now) order.now }
    ensures { IfOk result (HasTest (length order.now) 1 (is_partner graph.now order.now)) }
{
    let mut table = BitTable::empty(alloc, order.len(), 1)?;
    for place in 0..order.len() {
        for earlier in 0..place {
            let u = order[earlier].vertex as usize;
            let v = order[place].vertex as usize;
            table.put(place, earlier, are_joined(graph, u, v));
        }
    }
    Ok(table)
}
