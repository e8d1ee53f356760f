ghost use Rattle.std.specs.Prelude.{◌≡◌, ◌≤◌, length, IfOk, IfSome, IsTrue};
ghost use Rattle.yew_laws.specs.Sets.{are_different, are_within};
ghost use Rattle.yew_tsp.specs.Nodes.{root_of, IsNode};

use crate::laws::{span_is_lower, spanned_bounds, spanned_is_tours};
use crate::spanned::is_among;
use crate::{Spanned, least_span};
use std::alloc::Global;
use std::test::Fail;
use yew_laws::{Memory, Path, Problem, rebuild};
use yew_lines::{push_line_end, push_number, push_spaced, push_text};
use yew_tsp::{TourNode, Tours, read};

/// What a length is taken from.
const WHOLE: u64 = 1 << 37;

/// The pairs of five cities.
const PAIRS: [(u32, u32); 10] = [
    (1, 2),
    (1, 3),
    (1, 4),
    (1, 5),
    (2, 3),
    (2, 4),
    (2, 5),
    (3, 4),
    (3, 5),
    (4, 5),
];

/// A file of so many cities, whose weights stand in it from each city to those behind it.
fn file_of(alloc: Global, cities: u64, weights: &[u32]) -> Result<Vec<u8>, Memory> {
    let mut text = Vec::new(alloc);
    push_text(&mut text, b"TYPE: TSP\nDIMENSION: ")?;
    push_number(&mut text, cities)?;
    push_line_end(&mut text)?;
    push_text(
        &mut text,
        b"EDGE_WEIGHT_TYPE: EXPLICIT\nEDGE_WEIGHT_FORMAT: UPPER_ROW\nEDGE_WEIGHT_SECTION\n",
    )?;
    for weight in weights {
        push_spaced(&mut text, *weight as u64)?;
    }
    push_text(&mut text, b"\nEOF\n")?;
    Ok(text)
}

/// Whether these are several different cities of so many.
fn are_cities(cities: &[u32], count: u32) -> bool
    ensures some { IsTrue result → 1 ≤ length cities.now }
    ensures different { IsTrue result → IsTrue (are_different cities.now) }
    ensures within { IsTrue result → IsTrue (are_within 1 count cities.now) }
{
    for place in 0..cities.len() {
        let city = cities[place];
        if city < 1 {
            return false;
        }
        if city > count {
            return false;
        }
        if is_among(&cities[..place], city) {
            return false;
        }
    }
    !cities.is_empty()
}

/// The span of these cities, where the matrix is symmetric and they are cities of it.
fn span_of(tours: &Tours, cities: &[u32]) -> Option<u64>
    requires { IsNode tours.now (root_of tours.now) }
{
    if !Spanned::new(tours).symmetric {
        return None;
    }
    if !are_cities(cities, tours.cities()) {
        return None;
    }
    Some(least_span(tours, cities))
}

/// The least total weight of the lists of pairs that join these of five cities, by looking at all of them.
fn slow_span(weights: &[u32; 10], cities: &[u32]) -> u64 {
    let mut least = u64::MAX;
    for chosen in 0..1024u32 {
        let mut labels = [0u32, 1, 2, 3, 4, 5, 6, 7];
        let mut total = 0u64;
        let mut fits = true;
        for place in 0..10usize {
            if (chosen >> place) & 1 == 1 {
                let (from, to) = PAIRS[place];
                fits = fits && is_among(cities, from) && is_among(cities, to);
                let old = labels[(from % 8) as usize];
                let new = labels[(to % 8) as usize];
                for label in labels.iter_mut() {
                    if *label == old {
                        *label = new;
                    }
                }
                total = total.saturating_add(weights[place] as u64);
            }
        }
        for city in cities {
            for other in cities {
                fits = fits && labels[(*city % 8) as usize] == labels[(*other % 8) as usize];
            }
        }
        if fits && total < least {
            least = total;
        }
    }
    least
}

/// Ten weights that follow from a number.
fn weights_from(seed: u64) -> [u32; 10] {
    let mut weights = [0; 10];
    let mut state = seed;
    for place in 0..10usize {
        state = state
            .wrapping_mul(6364136223846793005)
            .wrapping_add(1442695040888963407);
        weights[place] = ((state >> 40) % 40) as u32;
    }
    weights
}

#[test]
fn answers_spans(rt: HostRuntime) -> Result<(), Fail> {
    let nine = file_of(rt.alloc(), 4, &[1, 10, 10, 10, 10, 1])?;
    let nine = read(rt.alloc(), nine.as_slice())?;
    assert_eq!(rt; span_of(&nine, &[1, 2, 3, 4]), Some(12));
    let one = file_of(rt.alloc(), 4, &[10, 15, 20, 35, 25, 30])?;
    let one = read(rt.alloc(), one.as_slice())?;
    let table = [
        ([1, 2, 3, 4].as_slice(), Some(45)),
        ([4, 2, 3, 1].as_slice(), Some(45)),
        ([2, 3, 4].as_slice(), Some(55)),
        ([3].as_slice(), Some(0)),
        ([2, 4].as_slice(), Some(25)),
        ([].as_slice(), None),
        ([2, 2].as_slice(), None),
        ([5].as_slice(), None),
    ];
    for row in &table {
        assert_eq!(rt; span_of(&one, row.0), row.1);
    }
    let two = read(
        rt.alloc(),
        b"TYPE: ATSP\nDIMENSION: 2\nEDGE_WEIGHT_TYPE: EXPLICIT\nEDGE_WEIGHT_FORMAT: FULL_MATRIX\nEDGE_WEIGHT_SECTION\n0 3\n4 0\n",
    )?;
    assert!(rt; !Spanned::new(&two).symmetric);
    assert_eq!(rt; span_of(&two, &[1, 2]), None);
    let diagonal = read(
        rt.alloc(),
        b"TYPE: TSP\nDIMENSION: 2\nEDGE_WEIGHT_TYPE: EXPLICIT\nEDGE_WEIGHT_FORMAT: FULL_MATRIX\nEDGE_WEIGHT_SECTION\n7 3\n3 8\n",
    )?;
    assert_eq!(rt; span_of(&diagonal, &[1, 2]), Some(3));
    Ok(())
}

#[test]
fn spans_are_least(rt: HostRuntime) -> Result<(), Fail> {
    let table = [
        [1, 2, 3, 4, 5].as_slice(),
        [5, 3, 1, 4, 2].as_slice(),
        [2, 4, 5].as_slice(),
        [3, 1, 4, 2].as_slice(),
    ];
    for seed in 0..8 {
        let weights = weights_from(seed);
        let text = file_of(rt.alloc(), 5, &weights)?;
        let tours = read(rt.alloc(), text.as_slice())?;
        for cities in &table {
            assert_eq!(rt; span_of(&tours, cities), Some(slow_span(&weights, cities)));
        }
    }
    Ok(())
}

/// The node at a path of the tree with the span.
fn node_at(alloc: Global, problem: &Tours, numbers: &[u32]) -> Result<Option<TourNode>, Memory>
    requires { IsNode problem.now (root_of problem.now) }
    ensures { IfOk result (λ found. IfSome found (IsNode problem.now)) }
{
    let mut path = Path::empty(alloc, 8)?;
    for number in numbers {
        path = path.child(*number)?;
    }
    let spanned = Spanned::new(problem);
    rebuild(alloc, &spanned, &path)
}

/// The weight between two of five cities.
fn slow_weight(weights: &[u32; 10], from: u32, to: u32) -> u64 {
    for place in 0..10usize {
        let pair = PAIRS[place];
        if pair == (from, to) || pair == (to, from) {
            return weights[place] as u64;
        }
    }
    0
}

/// Whether the bound of the node at a path is right, by the definition; and its worth, with the bounds of both problems.
fn judged_at(
    alloc: Global,
    problem: &Tours,
    weights: &[u32; 10],
    numbers: &[u32],
) -> Result<Option<(bool, u64, u64)>, Memory>
    requires { IsNode problem.now (root_of problem.now) }
{
    let Some(node) = node_at(alloc, problem, numbers)? else {
        return Ok(None);
    };
    let spanned = Spanned::new(problem);
    spanned_bounds(&spanned, &node);
    spanned_is_tours(&spanned);
    if spanned.symmetric {
        span_is_lower(problem, &node);
    }
    let list = node.list();
    let listed = list.as_slice();
    let mut length = 0u64;
    let mut last = 1;
    for city in listed {
        if *city != 1 {
            length = length.saturating_add(slow_weight(weights, last, *city));
        }
        last = *city;
    }
    let mut rest = Vec::new(alloc);
    for city in 1..6 {
        if city == 1 || city == last || !is_among(listed, city) {
            rest.push(city)?;
        }
    }
    let inner = problem.bound(&node);
    let left = WHOLE.saturating_sub(inner).saturating_sub(length);
    let span = slow_span(weights, rest.as_slice());
    let wanted = WHOLE.saturating_sub(length).saturating_sub(left.max(span));
    let bound = spanned.bound(&node);
    let right = bound == wanted && bound <= inner && spanned.worth(&node) == problem.worth(&node);
    Ok(Some((right, problem.worth(&node), bound)))
}

#[test]
fn bounds_are_right(rt: HostRuntime) -> Result<(), Fail> {
    for seed in 0..3 {
        let weights = weights_from(seed);
        let text = file_of(rt.alloc(), 5, &weights)?;
        let tours = read(rt.alloc(), text.as_slice())?;
        for number in 0..24 {
            let numbers = [number / 6, number / 2 % 3, number % 2, 0];
            let whole = judged_at(rt.alloc(), &tours, &weights, &numbers)?;
            for depth in 0..5usize {
                let found = judged_at(rt.alloc(), &tours, &weights, &numbers[..depth])?;
                match (found, whole) {
                    (Some(found), Some(whole)) => {
                        assert!(rt; found.0 && whole.1 > 0 && whole.1 <= found.2);
                    }
                    _ => assert!(rt; false),
                }
            }
        }
    }
    Ok(())
}
