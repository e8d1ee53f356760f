//! Graphs in the LAD form.

ghost use Rattle.std.specs.Prelude.{◌≡◌, ◌++◌, ◌≤◌, ◌<◌, length, map, take, IfOk, OnOk};
ghost use Rattle.std.specs.List.{range_with_len};
ghost use Rattle.yew_lad.specs.Files.{vertex_numbers};
ghost use Rattle.yew_make.specs.Draws.{word_from};
ghost use Rattle.yew_knap.specs.Rows.{row_line, row_lines};
ghost use Rattle.yew_make.specs.Pairs.{pairs_before, pair_place};
ghost use Rattle.yew_make.specs.Graphs.{joins, kept, are_joined, successors_of, graph_of, graph_from, graph_text};

use crate::draws::Draws;
use std::alloc::Global;
use yew_laws::Memory;
use yew_lines::{push_line_end, push_number, push_numbers_line};

/// The most vertices of a graph.
const MOST_VERTICES: usize = 1024;

/// Draws a word for each pair, and keeps whether it joins the pair. A pair is written in two lines, and so kept.
fn draw_pairs(alloc: Global, draws: &mut Draws, count: usize) -> Result<Vec<bool>, Memory>
    ensures { IfOk result (λ pairs. pairs.items ≡ map (λ place. joins (word_from draws.old place)) (range_with_len 0 count)) }
{
    let mut pairs = Vec::with_capacity(alloc, count)?;
    for _ in 0..count {
        pairs.push(draws.word() % 4 == 0)?;
    }
    Ok(pairs)
}

/// The place of the pair of two vertices, the lower one first, among all pairs.
#[inline]
fn place(size: usize, low: usize, high: usize) -> usize
    requires size { size ≤ 1024 }
    requires order { low < high }
    requires within { high < size }
    ensures place { result ≡ pair_place size low high }
    ensures kept { result < pairs_before size size }
{
    low * (2 * size - low - 1) / 2 + (high - low - 1)
}

/// Whether two vertices are joined.
#[inline]
fn are_joined(pairs: &[bool], size: usize, u: usize, v: usize) -> bool
    requires size { size ≤ 1024 }
    requires pairs { length pairs.now ≡ pairs_before size size }
    requires first { u < size }
    requires second { v < size }
    ensures { result ≡ are_joined (kept pairs.now) size u v }
{
    if u < v {
        pairs[place(size, u, v)]
    } else if v < u {
        pairs[place(size, v, u)]
    } else {
        false
    }
}

/// Finds the successors of a vertex, rising, and answers how many these are. They are put in front of `found`, which has
/// room for all vertices; what stands there behind them means nothing.
///
/// Each vertex is written and then kept or written over, since a branch would often be guessed wrong.
fn find_successors(pairs: &[bool], size: usize, u: usize, found: &mut [u64]) -> usize
    requires size { size ≤ 1024 }
    requires pairs { length pairs.now ≡ pairs_before size size }
    requires vertex { u < size }
    requires room { size ≤ length found.old }
    ensures count { result ≤ size }
    ensures found { take result found.new ≡ successors_of (kept pairs.now) size u }
{
    let mut count = 0;
    for v in 0..size {
        found[count] = v as u64;
        count += are_joined(pairs, size, u, v) as usize;
    }
    count
}

/// Appends the line of a vertex: the number of its successors, and the successors, which are found in `found`.
fn push_vertex(
    out: &mut Vec<u8>,
    pairs: &[bool],
    size: usize,
    u: usize,
    found: &mut [u64],
) -> Result<(), Memory>
    requires size { size ≤ 1024 }
    requires pairs { length pairs.now ≡ pairs_before size size }
    requires vertex { u < size }
    requires room { size ≤ length found.old }
    ensures { OnOk result (out.new.items ≡ out.old.items ++ row_line (vertex_numbers (successors_of (kept pairs.now) size u))) }
{
    let count = find_successors(pairs, size, u, found);
    push_number(out, count as u64)?;
    push_numbers_line(out, b"", &found[..count])
}

/// Appends the line of each vertex.
fn push_vertices(out: &mut Vec<u8>, pairs: &[bool], size: usize) -> Result<(), Memory>
    requires size { size ≤ 1024 }
    requires pairs { length pairs.now ≡ pairs_before size size }
    ensures { OnOk result (out.new.items ≡ out.old.items ++ row_lines (map vertex_numbers (graph_of (kept pairs.now) size))) }
{
    let mut found = [0; MOST_VERTICES];
    for u in 0..size {
        push_vertex(out, pairs, size, u, &mut found)?;
    }
    Ok(())
}

/// Appends the text of the graph of so many vertices, whose pairs are drawn here.
pub fn push_graph(
    alloc: Global,
    out: &mut Vec<u8>,
    draws: &mut Draws,
    size: u32,
) -> Result<(), Memory>
    requires { size ≤ 1024 }
    ensures { OnOk result (out.new.items ≡ out.old.items ++ graph_text (graph_from draws.old size)) }
{
    let size = size as usize;
    let pairs = draw_pairs(alloc, draws, size * size.saturating_sub(1) / 2)?;
    push_number(out, size as u64)?;
    push_line_end(out)?;
    push_vertices(out, pairs.as_slice(), size)
}
