//! A pattern and a target, with what the search of a map needs.

ghost use Rattle.std.specs.Prelude.{◌≡◌, ◌+◌, ◌*◌, ◌<◌, ◌≤◌, ℕ, ◌&&◌, ◌==◌, ◌++◌, length, slice_index, nat_lt, IfOk};
ghost use Rattle.std.specs.Int.{bit_at};
ghost use Rattle.std.specs.List.{list_all};
ghost use Rattle.yew_lad.specs.Bits.{AreBits, in_row};
ghost use Rattle.yew_lad.specs.Candidates.{ArePlaces, places_in};
ghost use Rattle.yew_lad.specs.Digraphs.{GraphPair, vertex_count};
ghost use Rattle.yew_lad.specs.Kids.{in_word, candidates_from, left_from, kids_of};
ghost use Rattle.yew_lad.specs.Nodes.{vertex_at, is_candidate, has_candidate, root_of, IsNode};
ghost use Rattle.yew_lad.specs.NodeWords.{AreUnused};
ghost use Rattle.yew_lad.specs.Tables.{words_for};

use crate::bits::BitTable;
use crate::graph::Graph;
use crate::nodes::{MapKids, MapNode, VertexWord};
use crate::order::order_of;
use crate::profiles::{Profile, profiles};
use crate::tables::{aims, has_one_way, joined, partners, predecessors, rooms, sources};
use std::alloc::Global;
use std::marker::Model;
use yew_laws::Memory;

/// A pattern, and the target in which it is looked for. Beside them it keeps the pattern's vertices in the order in which
/// they are mapped, and tables of bits, each computed once.
#[derive(Drop)]
pub struct Subgraph {
    pattern: Graph,
    target: Graph,
    order: Vec<Profile>,
    /// For each place of the order, the target vertices that have room for its vertex.
    rooms: BitTable,
    /// For each target vertex, its predecessors.
    predecessors: BitTable,
    /// For each target vertex, those with arcs from it and back.
    joined: BitTable,
    /// For each place, the earlier places with an arc to its vertex and none back.
    sources: BitTable,
    /// For each place, the earlier places with an arc from its vertex and none back.
    aims: BitTable,
    /// For each place, the earlier places with arcs to its vertex and back.
    partners: BitTable,
    /// Whether some arc of the pattern has none back. Where it is false, no place has sources or aims.
    one_way: bool,
}

impl Model for Subgraph {
    ghost use Rattle.yew_lad.specs.Digraphs.{GraphPair};
    ghost use Rattle.yew_lad.specs.Tables.{AreTables};

    ghost Value = { GraphPair };

    ghost view = { λ a. record { pattern = a.pattern; target = a.target } };

    ghost invariant = { λ a. AreTables (record { pattern = a.pattern; target = a.target }) a.order.items a.rooms a.predecessors a.joined a.sources a.aims a.partners a.one_way };
}

/// The problem of a pattern of at most 64 vertices and a target of at most 1,024.
///
/// # Errors
///
/// `Memory` where memory ran out.
pub fn pair(alloc: Global, pattern: Graph, target: Graph) -> Result<Subgraph, Memory>
    requires pattern { vertex_count pattern ≤ 64 }
    requires target { vertex_count target ≤ 1024 }
    ensures pair { IfOk result (λ problem. problem ≡ record { pattern = pattern; target = target }) }
    ensures root { IfOk result (λ problem. IsNode problem (root_of problem)) }
{
    let own = profiles(alloc, &pattern)?;
    let order = order_of(alloc, own.as_slice())?;
    let images = profiles(alloc, &target)?;
    let rooms = rooms(alloc, order.as_slice(), images.as_slice(), target.width())?;
    let predecessors = predecessors(alloc, &target)?;
    let joined = joined(alloc, &target)?;
    let sources = sources(alloc, &pattern, order.as_slice())?;
    let aims = aims(alloc, &pattern, order.as_slice())?;
    let partners = partners(alloc, &pattern, order.as_slice())?;
    let one_way = has_one_way(&pattern);
    Ok(Subgraph {
        pattern,
        target,
        order,
        rooms,
        predecessors,
        joined,
        sources,
        aims,
        partners,
        one_way,
    })
}

/// The bits of a word that stand, for each place of a set, in the row of its image too.
#[inline(always)]
fn keep_images(table: &BitTable, node: &MapNode, places: u64, number: usize, word: u64) -> u64
    requires number { number < table.now.width }
    requires places { ArePlaces table.now.rows node.now places }
    ensures { AreBits result (λ k. (bit_at word k == 1) && list_all (λ place. in_row table.now (slice_index node.now place) (64 * number + k)) (places_in places)) }
{
    let mut left = places;
    let mut kept = word;
    while left != 0 {
        if kept == 0 {
            return 0;
        }
        let place = left.trailing_zeros();
        left &= left - 1;
        kept &= table.word(node.image(place as usize), number);
    }
    kept
}

impl Subgraph {
    /// How many vertices the pattern has.
    #[inline(always)]
    pub(crate) fn places(&self) -> usize
        ensures value { result ≡ vertex_count self.now.pattern }
        ensures small { result ≤ 64 }
    {
        self.order.len()
    }

    /// How many words a set of target vertices has.
    #[inline(always)]
    pub(crate) fn width(&self) -> usize
        ensures { result ≡ words_for (vertex_count self.now.target) }
    {
        self.target.width()
    }

    /// The pattern's vertex at a place of the order.
    pub(crate) fn vertex(&self, place: usize) -> usize
        requires { place < vertex_count self.now.pattern }
        ensures { result ≡ vertex_at self.now place }
    {
        self.order[place].vertex as usize
    }

    /// A word of the set of the candidates for the vertex at a place, which is not mapped yet.
    #[inline(always)]
    fn candidates(&self, node: &MapNode, unused: &[u64; 16], place: usize, number: usize) -> u64
        requires node { IsNode self.now node.now }
        requires unused { AreUnused node.now unused.now }
        requires place { length node.now ≤ place }
        requires within { place < vertex_count self.now.pattern }
        requires number { number < words_for (vertex_count self.now.target) }
        ensures { AreBits result (λ k. nat_lt (64 * number + k) (vertex_count self.now.target) && is_candidate self.now node.now (vertex_at self.now place) (64 * number + k)) }
    {
        let mapped = (1 << node.count()) - 1;
        let free = self.rooms.word(place, number) & unused[number];
        let both = self.partners.only_word(place) & mapped;
        let joined = keep_images(&self.joined, node, both, number, free);
        let successors = self.target.arcs();
        if !self.one_way {
            return joined;
        }
        let from = self.sources.only_word(place) & mapped;
        let kept = keep_images(successors, node, from, number, joined);
        let to = self.aims.only_word(place) & mapped;
        keep_images(&self.predecessors, node, to, number, kept)
    }

    /// Whether the vertex at a place, which is not mapped yet, has a candidate.
    #[inline(always)]
    pub(crate) fn has_candidate(&self, node: &MapNode, unused: &[u64; 16], place: usize) -> bool
        requires node { IsNode self.now node.now }
        requires unused { AreUnused node.now unused.now }
        requires place { length node.now ≤ place }
        requires within { place < vertex_count self.now.pattern }
        ensures { result ≡ has_candidate self.now node.now (vertex_at self.now place) }
    {
        for number in 0..self.width() {
            if self.candidates(node, unused, place, number) != 0 {
                return true;
            }
        }
        false
    }

    /// The first word, from a number on, that has candidates for the next vertex, and an empty word where none has.
    pub(crate) fn next_word(&self, node: &MapNode, from: usize) -> VertexWord
        requires node { IsNode self.now node.now }
        requires within { length node.now < vertex_count self.now.pattern }
        ensures candidates { candidates_from self.now node.now (64 * from) ≡ left_from self.now (kids_of node.now result) }
        ensures small { result.number < 16 }
    {
        let mut unused = [u64::MAX; 16];
        node.take_from(&mut unused);
        for number in from..self.width() {
            let bits = self.candidates(node, &unused, node.count(), number);
            if bits != 0 {
                return VertexWord { number, bits };
            }
        }
        VertexWord { number: 0, bits: 0 }
    }

    /// Goes on to the next word with candidates where the word of a generator has none left.
    #[inline(always)]
    pub(crate) fn fill(&self, kids: &mut MapKids)
        requires parent { IsNode self.now kids.old.parent }
        requires within { length kids.old.parent < vertex_count self.now.pattern }
        ensures parent { kids.new.parent ≡ kids.old.parent }
        ensures left { left_from self.now kids.new ≡ in_word kids.old.number kids.old.bits ++ candidates_from self.now kids.old.parent (64 * (kids.old.number + 1)) }
    {
        let word = kids.word();
        if word.bits == 0 && word.number + 1 < self.width() {
            let next = self.next_word(kids.parent(), word.number + 1);
            kids.go_on(next);
        }
    }
}
