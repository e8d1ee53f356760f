//! The weight of a least spanning tree, by Prim's algorithm (Bell System Technical Journal 36, 1957): a set of joined cities
//! takes in the nearest of the others, one at a time.

ghost use Rattle.std.specs.Prelude.{◌≡◌, ◌<◌, ◌≤◌, length, take, IsTrue};
ghost use Rattle.yew_laws.specs.Sets.{are_different, are_within};
ghost use Rattle.yew_span.specs.Growth.{left_over};
ghost use Rattle.yew_span.specs.Outsides.{IsNearest, IsAllowed, AreAllowed};
ghost use Rattle.yew_span.specs.Span.{IsSpan, IsSymmetric};
ghost use Rattle.yew_tsp.specs.Instance.{IsWithinLimits};

use yew_tsp::Tours;

/// A city that is not joined yet, and the least weight from one that is.
#[derive(Clone, Copy)]
struct Outside {
    city: u32,
    near: u64,
}

/// The nearest of the cities outside, and the first where several are as near.
#[inline(always)]
fn nearest_of(others: &[Outside]) -> Outside
    requires { 1 ≤ length others.now }
    ensures { IsNearest others.now result }
{
    let mut best = others[0];
    for place in 1..others.len() {
        let other = others[place];
        if other.near < best.near {
            best = other;
        }
    }
    best
}

/// Takes a city in: the others move to the front, each with the weight from it where that is less. Answers how many they are.
#[inline(always)]
fn take_in(tours: &Tours, others: &mut [Outside], count: usize, taken: Outside) -> usize
    requires limits { IsWithinLimits tours.now }
    requires count { count ≤ length others.old }
    requires others { AreAllowed tours.now (take count others.old) }
    requires taken { IsAllowed tours.now taken }
    ensures front { take result others.new ≡ left_over tours.now taken (take count others.old) }
    ensures fewer { result ≤ count }
{
    let mut kept = 0;
    for place in 0..count {
        let other = others[place];
        if other.city != taken.city {
            others[kept] = Outside {
                city: other.city,
                near: other.near.min(tours.weight(taken.city, other.city)),
            };
            kept += 1;
        }
    }
    kept
}

/// The span of these cities: the least total weight of a list of pairs of them that joins every two of them by a chain of listed
/// pairs, which is what a least spanning tree weighs. It is 0 for one city. It takes no memory, and time by the square of the number
/// of cities.
#[inline]
pub fn least_span(tours: &Tours, cities: &[u32]) -> u64
    requires limits { IsWithinLimits tours.now }
    requires symmetric { IsSymmetric tours.now }
    requires some { 1 ≤ length cities.now }
    requires different { IsTrue (are_different cities.now) }
    requires within { IsTrue (are_within 1 tours.now.cities cities.now) }
    ensures { IsSpan tours.now cities.now result }
{
    let start = cities[0];
    let mut count = cities.len() - 1;
    let mut others = [Outside { city: 0, near: 0 }; 64];
    for place in 0..count {
        let city = cities[place + 1];
        others[place] = Outside {
            city,
            near: tours.weight(start, city),
        };
    }
    let mut total = 0;
    while count > 0 {
        let taken = nearest_of(&others[..count]);
        total += taken.near;
        count = take_in(tours, &mut others, count, taken);
    }
    total
}
