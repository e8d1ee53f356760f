//! Tours whose bounds take a least spanning tree into account.

ghost use Rattle.std.specs.Prelude.{◌≡◌, ◌<◌, ◌≤◌, ◌↔◌, ℕ, ◌++◌, length, slice_index, take, IsTrue};
ghost use Rattle.yew_laws.specs.Sets.{contains};
ghost use Rattle.yew_span.specs.Bounds.{ends};
ghost use Rattle.yew_span.specs.Places.{IsRowSymmetric, last_of, left_out};
ghost use Rattle.yew_span.specs.Span.{IsSymmetric};
ghost use Rattle.yew_tsp.specs.Instance.{IsWithinLimits};
ghost use Rattle.yew_tsp.specs.Routes.{way_length};

use crate::growing::least_span;
use std::alloc::Global;
use yew_laws::{Memory, Problem};
use yew_tsp::{TourKids, TourNode, Tours};

/// What a length is taken from, 2^37, so that a shorter tour has a greater worth.
const WHOLE: u64 = 1 << 37;

/// Whether both directions between a city and each one before it weigh the same.
fn is_row_symmetric(tours: &Tours, city: u32) -> bool
    requires limits { IsWithinLimits tours.now }
    requires city { (1 ≤ city) × (city ≤ tours.now.cities) }
    ensures { IsTrue result ↔ IsRowSymmetric tours.now city city }
{
    for other in 1..city {
        if tours.weight(city, other) != tours.weight(other, city) {
            return false;
        }
    }
    true
}

/// Whether both directions of each pair of cities weigh the same.
fn is_symmetric(tours: &Tours) -> bool
    requires { IsWithinLimits tours.now }
    ensures { IsTrue result ↔ IsSymmetric tours.now }
{
    for city in 1..tours.cities() + 1 {
        if !is_row_symmetric(tours, city) {
            return false;
        }
    }
    true
}

/// The length of the steps from each of these cities to the next.
#[inline(always)]
fn length_so_far(tours: &Tours, listed: &[u32]) -> u64
    requires limits { IsWithinLimits tours.now }
    requires few { length listed.now ≤ 60 }
    requires within { (k : ℕ) → k < length listed.now → (1 ≤ slice_index listed.now k) × (slice_index listed.now k ≤ tours.now.cities) }
    ensures { result ≡ way_length tours.now listed.now }
{
    let mut total = 0;
    for place in 1..listed.len() {
        total += tours.weight(listed[place - 1], listed[place]);
    }
    total
}

/// Whether a city is among these.
#[inline(always)]
pub(crate) fn is_among(listed: &[u32], city: u32) -> bool
    ensures { result ≡ contains listed.now city }
{
    for place in 0..listed.len() {
        if listed[place] == city {
            return true;
        }
    }
    false
}

/// Writes the last of the listed cities, city 1 and the cities that are not listed, each once. Answers how many they are.
#[inline(always)]
fn put_rest(cities: u32, listed: &[u32], rest: &mut [u32]) -> usize
    requires some { 1 ≤ length listed.now }
    requires few { cities ≤ 60 }
    requires room { length rest.old ≡ 64 }
    ensures rest { take result rest.new ≡ ends (last_of listed.now) ++ left_out cities listed.now }
    ensures few { result ≤ 62 }
{
    let last = listed[listed.len() - 1];
    rest[0] = last;
    let mut count = 1;
    if last != 1 {
        rest[1] = 1;
        count = 2;
    }
    for city in 1..cities + 1 {
        if !is_among(listed, city) {
            rest[count] = city;
            count += 1;
        }
    }
    count
}

/// The problem of tours with the same tree and the same worths. Where both directions of each pair of cities weigh the same, the
/// bound of a list is 2^37 less the length so far and less the greater of two numbers: what the bound of [`Tours`] adds to it, and
/// what a least spanning tree of the last city, city 1 and the cities that are not in the list weighs. Elsewhere it is the bound
/// of [`Tours`].
#[derive(Clone, Copy)]
pub struct Spanned<'a> {
    /// The problem of tours.
    pub inner: &'a Tours,
    /// Whether both directions of each pair of cities weigh the same.
    pub symmetric: bool,
    pub ghost symmetric_is: { IsTrue symmetric ↔ IsSymmetric inner.now },
}

impl<'a> Spanned<'a> {
    /// The problem over the one of tours. It looks at each pair of cities once, and not at the weights from a city to itself.
    pub fn new(inner: &'a Tours) -> Spanned<'a>
        requires { IsWithinLimits inner.now }
        ensures inner { result.inner.now ≡ inner.now }
        ensures symmetric { IsTrue result.symmetric ↔ IsSymmetric inner.now }
    {
        Spanned {
            inner,
            symmetric: is_symmetric(inner),
        }
    }
}

impl<'a> Problem for Spanned<'a> {
    ghost use Rattle.yew_tsp.specs.Nodes.{root_of, children_of, remaining_of, rank_of, worth_of, IsNode};
    ghost use Rattle.yew_tsp.specs.NodeLaws.{tours-ranked, root_rank-small, children-few};
    ghost use Rattle.yew_span.specs.Bounds.{spanned_bound};
    ghost use Rattle.yew_span.specs.SpannedLaws.{spanned-bounded};

    type Node = TourNode;

    type Kids = TourKids;

    ghost root = { λ s. root_of s.inner.now };

    ghost children = { λ s. children_of s.inner.now };

    ghost rank = { λ s. rank_of s.inner.now };

    ghost sound = { λ s. IsNode s.inner.now };

    ghost remaining = { λ s. remaining_of s.inner.now };

    ghost worth = { λ s. worth_of s.inner.now };

    ghost bound = { λ s. spanned_bound s.symmetric s.inner.now };

    ghost ranked = { λ s. tours-ranked s.inner.now };

    ghost root_rank = { λ s. root_rank-small s.inner.now };

    ghost bounded = { λ s. spanned-bounded s.symmetric s.inner.now s.symmetric_is.0 };

    ghost countable = { λ s. children-few s.inner.now };

    #[inline(always)]
    fn root(&self, alloc: Global) -> Result<TourNode, Memory> {
        self.inner.root(alloc)
    }

    #[inline(always)]
    fn open(&self, alloc: Global, node: TourNode) -> Result<TourKids, Memory> {
        self.inner.open(alloc, node)
    }

    #[inline(always)]
    fn next(&self, alloc: Global, kids: &mut TourKids) -> Result<Option<TourNode>, Memory> {
        self.inner.next(alloc, kids)
    }

    #[inline(always)]
    fn worth(&self, node: &TourNode) -> u64 {
        self.inner.worth(node)
    }

    #[inline(always)]
    fn bound(&self, node: &TourNode) -> u64 {
        let inner = self.inner.bound(node);
        if !self.symmetric {
            return inner;
        }
        let list = node.list();
        let listed = list.as_slice();
        let length = length_so_far(self.inner, listed);
        let mut rest = [0; 64];
        let count = put_rest(self.inner.cities(), listed, &mut rest);
        let span = least_span(self.inner, &rest[..count]);
        WHOLE - length - (WHOLE - inner - length).max(span)
    }
}
