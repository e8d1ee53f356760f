//! The places of the copies in the searched order, with what the search asks of each of them again and again.

ghost use Rattle.std.specs.Prelude.{◌≡◌, ◌<◌, ◌≤◌, length, IfOk};
ghost use Rattle.std.specs.List.{AllByRecursion};
ghost use Rattle.yew_knap.specs.Places.{least_weight, next_item, end_place, all_places};

use crate::copies::ItemCopy;
use crate::quotients::reciprocal_of;
use std::alloc::Global;
use yew_laws::Memory;

/// A copy at its place of the searched order, or the end of that order, which has no profit and never fits.
#[derive(Clone, Copy, Debug, PartialEq, Eq)]
pub struct Place {
    /// The profit of all copies in front of this one.
    pub profit_before: u64,
    /// The weight of all copies in front of this one.
    pub weight_before: u64,
    /// The weight of all copies up to this one; at the end 2^64 - 1.
    pub weight_after: u64,
    /// The reciprocal of the weight.
    pub reciprocal: u64,
    pub profit: u32,
    pub weight: u32,
    /// The place of the first copy of the next item, and the end where there is none.
    pub next_item: u32,
    /// The least weight of this copy and of those behind it.
    pub least_weight: u32,
}

/// The least of a weight and the weights of copies.
fn least_weight(weight: u32, items: &[ItemCopy]) -> u32
    ensures { result ≡ least_weight weight items.now }
{
    let mut least = weight;
    for item in items {
        if item.weight < least {
            least = item.weight;
        }
    }
    least
}

/// The place of the first copy of another item among these, the first of which stands at `place`, and the place behind
/// them where there is none.
fn next_item(place: u32, items: &[ItemCopy]) -> u32
    requires place { place ≤ 256 }
    requires count { length items.now ≤ 256 }
    ensures { result ≡ next_item place items.now }
{
    let mut next = place;
    for item in items {
        if item.turn == 0 {
            return next;
        }
        next += 1;
    }
    next
}

/// The end behind copies of this profit and weight.
fn end_place(profit: u64, weight: u64) -> Place
    ensures { result ≡ end_place profit weight }
{
    Place {
        profit_before: profit,
        weight_before: weight,
        weight_after: u64::MAX,
        reciprocal: reciprocal_of(1),
        profit: 0,
        weight: 1,
        next_item: 0,
        least_weight: 1,
    }
}

/// The places of copies in this order, and their end.
pub fn places_of(alloc: Global, items: &[ItemCopy]) -> Result<Vec<Place>, Memory>
    requires count { length items.now ≤ 256 }
    requires indexes { AllByRecursion (λ item. item.index < 256) items.now }
    ensures { IfOk result (λ places. places.items ≡ all_places 0 0 items.now) }
{
    let mut places = Vec::with_capacity(alloc, items.len() + 1)?;
    let mut profit = 0;
    let mut weight = 0;
    for (place, item) in items.iter().enumerate() {
        let weight_after = weight + item.weight as u64;
        places.push(Place {
            profit_before: profit,
            weight_before: weight,
            weight_after,
            reciprocal: reciprocal_of(item.weight),
            profit: item.profit,
            weight: item.weight,
            next_item: next_item(item.index + 1, &items[place + 1..]),
            least_weight: least_weight(item.weight, &items[place + 1..]),
        })?;
        profit += item.profit as u64;
        weight = weight_after;
    }
    places.push(end_place(profit, weight))?;
    Ok(places)
}
