//! The nodes of the tree of lists of cities.

ghost use Rattle.std.specs.Prelude.{◌≡◌, ◌<◌, ◌≤◌, length, slice_index, take};

/// A list of different cities that begins with city 1, and what is known of the tours that begin with it.
#[derive(Clone, Copy, Debug, PartialEq, Eq)]
pub struct TourNode {
    /// The cities before the last one in order, numbered from 1. What stands behind them has no meaning. There are at most
    /// 59 of them: with 64 places the list is copied by whole vectors.
    pub(crate) cities: [u8; 64],
    /// How many steps were taken: how many cities stand before the last one.
    pub(crate) steps: u8,
    /// The last city. It is written behind the others only where the node is opened: most children are cut off.
    pub(crate) last: u8,
    /// Bit c is set where city c is not in the list.
    pub(crate) unvisited: u64,
    /// The length so far, and for each city from which no step was taken the least weight from it to another city.
    pub(crate) lower: u64,
}

/// The cities of a node's list, taken out of the node.
#[derive(Clone, Copy, Debug)]
pub struct TourList {
    pub(crate) cities: [u32; 64],
    pub(crate) count: usize,
    ghost few: { count ≤ 64 },
}

impl TourList {
    /// The cities in order, numbered from 1.
    #[inline(always)]
    pub fn as_slice(&self) -> &[u32]
        ensures { result.now ≡ take self.now.count self.now.cities }
    {
        &self.cities[..self.count]
    }
}

impl TourNode {
    ghost use Rattle.yew_tsp.specs.Nodes.{start_at, written, cities_of};

    /// The list of the node: its cities in order, numbered from 1. It takes no memory.
    #[inline(always)]
    pub fn list(&self) -> TourList
        requires steps { self.now.steps < 64 }
        requires size { length self.now.cities ≡ 64 }
        ensures { take result.count result.cities ≡ cities_of self.now }
    {
        let mut cities = [0; 64];
        let count = self.steps as usize;
        for place in 0..count {
            cities[place] = self.cities[place] as u32;
        }
        cities[count] = self.last as u32;
        TourList {
            cities,
            count: count + 1,
        }
    }

    /// City 1 alone, where the least weights from all cities have this sum.
    pub(crate) fn root(cities: usize, lower: u64) -> TourNode
        requires { (1 ≤ cities) × (cities ≤ 60) }
        ensures { result ≡ start_at cities lower }
    {
        TourNode {
            cities: [0; 64],
            steps: 0,
            last: 1,
            // Bits 2 to the number of cities.
            unvisited: (1u64 << (cities + 1)) - 4,
            lower,
        }
    }

    /// The node with its last city written behind the others. Each place is set anew, in loops that are short enough to
    /// become choices between whole vectors: a byte stored by itself would delay the next copy of the list.
    #[inline(always)]
    pub(crate) fn written(&self) -> TourNode
        requires { self.now.steps < 64 }
        ensures { result ≡ written self.now }
    {
        let mut cities = self.cities;
        let steps = self.steps;
        let last = self.last;
        for place in 0..32 {
            let mut city = cities[place as usize];
            if place == steps {
                city = last;
            }
            cities[place as usize] = city;
        }
        for place in 32..64 {
            let mut city = cities[place as usize];
            if place == steps {
                city = last;
            }
            cities[place as usize] = city;
        }
        TourNode {
            cities,
            steps,
            last,
            unvisited: self.unvisited,
            lower: self.lower,
        }
    }
}

/// The lists with one more city that are still to come: the list without it, which is written out, and the cities to
/// try.
#[derive(Clone, Copy, Debug, PartialEq, Eq)]
pub struct TourKids {
    pub(crate) parent: TourNode,
    /// Bit c is set where city c is still to be tried.
    pub(crate) left: u64,
    ghost last_written: { slice_index parent.cities parent.steps ≡ parent.last },
}
