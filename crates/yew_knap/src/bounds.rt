//! Where taking items in order ends, and Dantzig's bound (G. B. Dantzig, Discrete-variable extremum problems, 1957).

ghost use Rattle.std.specs.Prelude.{◌≡◌, ◌+◌, ◌<◌, ◌≤◌, ◌^◌, drop, length};
ghost use Rattle.yew_knap.specs.Instance.{IsWithinLimits};
ghost use Rattle.yew_knap.specs.Nodes.{breaking_place, dantzig};
ghost use Rattle.yew_knap.specs.Places.{weight_before};
ghost use Rattle.yew_knap.specs.Copies.{searched_copies};

use crate::knapsack::Knapsack;
use crate::quotients::quotient;

impl Knapsack {
    /// A place in front of which all copies fit within a room: `likely` where they do, and otherwise `sure`, where it is
    /// known that they do.
    #[inline(always)]
    fn fitting_place(&self, likely: usize, sure: usize, room: u64) -> usize
        requires sure { sure ≤ length (searched_copies self.now) }
        requires fit { weight_before (searched_copies self.now) sure ≤ room }
        ensures within { result ≤ length (searched_copies self.now) }
        ensures fit { weight_before (searched_copies self.now) result ≤ room }
    {
        let places = self.places();
        if likely < places.len() && places[likely].weight_before <= room {
            return likely;
        }
        sure
    }

    /// The first place whose copy does not fit where the copies are taken in the searched order within a room, and the
    /// end where all fit. The copies in front of `sure` are known to fit; the search begins at `likely` where those in
    /// front of that fit.
    #[inline(always)]
    pub(crate) fn find_breaking(&self, likely: usize, sure: usize, room: u64) -> usize
        requires sure { sure ≤ length (searched_copies self.now) }
        requires fit { weight_before (searched_copies self.now) sure ≤ room }
        requires room { room + 1 < 2 ^ 64 }
        ensures { result ≡ breaking_place room 0 (searched_copies self.now) }
    {
        let places = self.places();
        let mut place = self.fitting_place(likely, sure, room);
        while places[place].weight_after <= room {
            place += 1;
        }
        place
    }

    /// The most profit that the copies from a place on can add within a room, if parts of them could be taken: each
    /// copy while it fits, and then, of the first one that does not fit, which stands at `breaking`, the whole part of
    /// its profit times the room left divided by its weight. The copies that fit are summed by what stands in front of
    /// both places.
    #[inline(always)]
    pub(crate) fn greedy_gain(&self, next: usize, breaking: usize, room: u64) -> u64
        requires limits { IsWithinLimits self.now }
        requires next { next ≤ length (searched_copies self.now) }
        requires breaking { breaking ≡ breaking_place room next (drop next (searched_copies self.now)) }
        requires small { dantzig room (drop next (searched_copies self.now)) < 2 ^ 64 }
        ensures { result ≡ dantzig room (drop next (searched_copies self.now)) }
    {
        let places = self.places();
        let first = &places[next];
        let out = &places[breaking];
        let gain = out.profit_before - first.profit_before;
        let left = room - (out.weight_before - first.weight_before);
        let weight = out.weight as u64;
        let product = out.profit as u64 * left;
        gain + quotient(product, weight, out.reciprocal)
    }
}
