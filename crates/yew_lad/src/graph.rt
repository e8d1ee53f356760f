//! Directed graphs.

ghost use Rattle.std.specs.Prelude.{◌≡◌, ◌+◌, ◌/◌, ◌<◌, ◌≤◌};
ghost use Rattle.yew_lad.specs.Bits.{digraph_in, HasVertices};
ghost use Rattle.yew_lad.specs.Digraphs.{vertex_count, is_arc};
ghost use Rattle.yew_lad.specs.Tables.{HasArcs};

use crate::bits::BitTable;
use std::marker::Model;

/// A directed graph of at most 1,024 vertices, which are numbered from 0. A vertex may be its own successor.
///
/// Contracts see it as the rising lists of the successors of each vertex.
#[derive(Drop)]
pub struct Graph {
    size: usize,
    arcs: BitTable,
}

impl Model for Graph {
    ghost use Rattle.yew_lad.specs.Bits.{digraph_in, HasVertices};
    ghost use Rattle.yew_lad.specs.Digraphs.{Digraph};

    ghost Value = { Digraph };

    ghost view = { λ a. digraph_in a.size a.arcs };

    ghost invariant = { λ a. HasVertices a.size a.arcs };
}

impl Graph {
    /// The graph of `size` vertices whose arcs are the bits of a table.
    pub(crate) fn new(size: usize, arcs: BitTable) -> Graph
        requires { HasVertices size arcs }
        ensures { result ≡ digraph_in size arcs }
    {
        Graph { size, arcs }
    }

    /// How many vertices it has.
    #[inline]
    pub(crate) fn size(&self) -> usize
        ensures value { result ≡ vertex_count self.now }
        ensures small { result ≤ 1024 }
    {
        self.size
    }

    /// How many words of 64 bits a set of vertices has.
    #[inline]
    pub(crate) fn width(&self) -> usize
        ensures { result ≡ (vertex_count self.now + 63) / 64 }
    {
        self.arcs.width()
    }

    /// Whether there is an arc from `u` to `v`.
    #[inline]
    pub(crate) fn has_arc(&self, u: usize, v: usize) -> bool
        requires u { u < vertex_count self.now }
        requires v { v < vertex_count self.now }
        ensures { result ≡ is_arc self.now u v }
    {
        self.arcs.has(u, v)
    }

    /// The arcs as a table of bits, a row for each vertex.
    #[inline]
    pub(crate) fn arcs(&self) -> &BitTable
        ensures { HasArcs self.now result.now }
    {
        &self.arcs
    }
}
