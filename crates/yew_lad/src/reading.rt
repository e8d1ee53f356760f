//! The reader of graph files (the LAD format).
//!
//! The file is the number of vertices, then for each vertex from 0 the number of its successors and the successors, then
//! the end. Line breaks have no meaning. A successor that is named twice counts once, and a vertex may be its own.

ghost use Rattle.std.specs.Prelude.{◌<◌, ◌≤◌, ◌^◌, [], ◌∷◌, IfOk, IfErr, MatchResult};
ghost use Rattle.yew_text.specs.Position.{SameText};
ghost use Rattle.yew_lad.specs.Bits.{HasVertices};
ghost use Rattle.yew_lad.specs.Digraphs.{vertex_count};
ghost use Rattle.yew_lad.specs.Files.{IsGraphFile, EndsReading};
ghost use Rattle.yew_lad.specs.Reading.{AddsArcs, VertexRead, EndsVertex, VerticesRead, IsSized, EndsVertices};

use crate::bits::BitTable;
use crate::graph::Graph;
use std::alloc::Global;
use yew_text::{Cursor, FileEnd, TextFault, TextKind};

/// Keeps an arc between two of `n` vertices in a table that has a row for each, and does nothing where it has none.
fn keep_arc(arcs: &mut BitTable, n: u64, u: u64, v: u64)
    requires u { u < n }
    requires v { v < n }
    ensures { AddsArcs n u arcs.old (v ∷ []) arcs.new }
{
    if u < arcs.rows() as u64 && v < 64 * arcs.width() as u64 {
        arcs.set(u as usize, v as usize);
    }
}

/// Reads the number of the successors of vertex `u` and the successors, each of which is below `n`.
fn read_vertex(
    cursor: &mut Cursor<'_>,
    arcs: &mut BitTable,
    n: u64,
    u: u64,
) -> Result<(), TextFault>
    requires u { u < n }
    requires n { n < 2 ^ 63 }
    ensures read { MatchResult result (λ _. VertexRead n u cursor.old arcs.old cursor.new arcs.new) (λ fault. EndsVertex n u cursor.old fault) }
    ensures same { SameText cursor.old cursor.new }
{
    let count = match cursor.number() {
        Ok(number) => number,
        Err(fault) => return Err(fault),
    };
    for k in 0..count {
        let v = match cursor.number() {
            Ok(number) => number,
            Err(fault) => return Err(fault),
        };
        if v >= n {
            let kind = TextKind::TooBig;
            let line = cursor.line();
            return Err(TextFault { kind, line });
        }
        keep_arc(arcs, n, u, v);
    }
    Ok(())
}

/// Reads the successors of `n` vertices. Their arcs are kept where there are at most `most` vertices.
fn read_vertices(
    alloc: Global,
    cursor: &mut Cursor<'_>,
    n: u64,
    most: u64,
) -> Result<BitTable, FileEnd>
    requires n { n < 2 ^ 63 }
    requires most { most ≤ 1024 }
    ensures read { MatchResult result (λ arcs. VerticesRead n n cursor.old cursor.new arcs) (λ end. EndsVertices n cursor.old end) }
    ensures sized { IfOk result (IsSized n most) }
    ensures same { SameText cursor.old cursor.new }
{
    let size = if n <= most { n as usize } else { 0 };
    let mut arcs = match BitTable::empty(alloc, size, (size + 63) / 64) {
        Ok(arcs) => arcs,
        Err(_) => return Err(FileEnd::Memory),
    };
    for u in 0..n {
        match read_vertex(cursor, &mut arcs, n, u) {
            Ok(()) => {}
            Err(fault) => return Err(FileEnd::Refused(fault)),
        }
    }
    Ok(arcs)
}

/// The graph of a file, of at most `limit` vertices.
///
/// # Errors
///
/// `Refused` with the first offence of a file that is not in its grammar, a successor that is no vertex being
/// a number too big, and of one that is, `TooLarge` with the number of vertices where it is past the limit.
/// `Memory` where memory ran out.
pub fn read(alloc: Global, bytes: &[u8], limit: u64) -> Result<Graph, FileEnd>
    requires { limit ≤ 1024 }
    ensures file { IfOk result (λ graph. IsGraphFile bytes.now graph) }
    ensures limits { IfOk result (λ graph. vertex_count graph ≤ limit) }
    ensures end { IfErr result (λ end. EndsReading limit bytes.now end) }
{
    let mut cursor = Cursor::new(bytes);
    let n = match cursor.number() {
        Ok(number) => number,
        Err(fault) => return Err(FileEnd::Refused(fault)),
    };
    let arcs = match read_vertices(alloc, &mut cursor, n, limit) {
        Ok(arcs) => arcs,
        Err(end) => return Err(end),
    };
    match cursor.end() {
        Ok(()) => {}
        Err(fault) => return Err(FileEnd::Refused(fault)),
    }
    if n > limit {
        return Err(FileEnd::TooLarge { number: n, limit });
    }
    Ok(Graph::new(n as usize, arcs))
}
