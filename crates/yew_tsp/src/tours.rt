//! What a problem of tours is about: its cities and the weights between them.

ghost use Rattle.std.specs.Prelude.{◌≡◌, ◌*◌, ◌<◌, ◌≤◌, length, IfOk};
ghost use Rattle.yew_tsp.specs.Instance.{Instance, IsWithinLimits, weight_between};
ghost use Rattle.yew_tsp.specs.Routes.{last_step as step_in};
ghost use Rattle.yew_tsp.specs.Nodes.{cities_of, IsNode};
ghost use Rattle.yew_tsp.specs.Nodes.{least_weight, least_weights, surpluses as surpluses_in, surplus as surplus_between, surplus_at as entry};

use crate::nodes::TourNode;
use std::alloc::Global;
use std::marker::Model;
use yew_laws::Memory;

/// The greatest weight, 2^31 - 1.
pub(crate) const MOST_WEIGHT: u32 = 2_147_483_647;

/// The weight from one city to another, of those of so many cities row by row.
#[inline(always)]
fn weight_at(cities: usize, weights: &[u32], from: usize, to: usize) -> u32
    requires square { length weights.now ≡ cities * cities }
    requires from { (1 ≤ from) × (from ≤ cities) }
    requires to { (1 ≤ to) × (to ≤ cities) }
    ensures { result ≡ weight_between (record { cities = cities; weights = weights.now }) from to }
{
    weights[(from - 1) * cities + (to - 1)]
}

/// The least weight from a city to another one.
fn least_from(cities: usize, weights: &[u32], city: usize) -> u32
    requires limits { IsWithinLimits (record { cities = cities; weights = weights.now }) }
    requires city { (1 ≤ city) × (city ≤ cities) }
    ensures { result ≡ least_weight (record { cities = cities; weights = weights.now }) city }
{
    let mut least = MOST_WEIGHT;
    for other in 1..cities + 1 {
        if other != city {
            least = least.min(weight_at(cities, weights, city, other));
        }
    }
    least
}

/// How many places a city has in the table of surpluses. There are at most 60 cities; a power of two makes the look-up a
/// shift.
const ROW: usize = 64;

/// What stands at a place of the table of surpluses: by how much the weight from a city is above the least of those to
/// others, and 0 behind the last city.
fn surplus_at(cities: usize, weights: &[u32], least: &[u32], place: usize) -> u32
    requires limits { IsWithinLimits (record { cities = cities; weights = weights.now }) }
    requires least { least.now ≡ least_weights (record { cities = cities; weights = weights.now }) }
    requires place { place < 64 * cities }
    ensures { result ≡ entry (record { cities = cities; weights = weights.now }) place }
{
    let from = place / ROW + 1;
    let to = place % ROW + 1;
    if to > cities {
        return 0;
    }
    weight_at(cities, weights, from, to).saturating_sub(least[from - 1])
}

/// The table of surpluses, in a row of [`ROW`] places for each city.
fn surpluses_of(
    alloc: Global,
    cities: usize,
    weights: &[u32],
    least: &[u32],
) -> Result<Vec<u32>, Memory>
    requires limits { IsWithinLimits (record { cities = cities; weights = weights.now }) }
    requires least { least.now ≡ least_weights (record { cities = cities; weights = weights.now }) }
    ensures { IfOk result (λ surpluses. surpluses.items ≡ surpluses_in (record { cities = cities; weights = weights.now })) }
{
    let mut surpluses = Vec::with_capacity(alloc, ROW * cities)?;
    for place in 0..ROW * cities {
        surpluses.push(surplus_at(cities, weights, least, place))?;
    }
    Ok(surpluses)
}

/// A problem of tours: the number of cities and the weights between them. Beside them it keeps by how much each weight from
/// a city is above the least from it to another one, and the root of its tree.
#[derive(Drop)]
pub struct Tours {
    cities: usize,
    weights: Vec<u32>,
    surpluses: Vec<u32>,
    root: TourNode,
}

impl Model for Tours {
    ghost use Rattle.std.specs.Prelude.{◌≡◌};
    ghost use Rattle.yew_tsp.specs.Instance.{Instance};

    ghost Value = { Instance };

    ghost use Rattle.yew_tsp.specs.Nodes.{surpluses as surpluses_in, root_of};

    ghost view = { λ t. record { cities = t.cities; weights = t.weights.items } };

    ghost invariant = { λ t. let instance : Instance = record { cities = t.cities; weights = t.weights.items } in
        (t.surpluses.items ≡ surpluses_in instance) × (t.root ≡ root_of instance) };
}

impl Tours {
    ghost use Rattle.yew_tsp.specs.Nodes.{root_of};

    /// The problem of these cities and weights, which are given row by row.
    pub(crate) fn new(cities: usize, weights: Vec<u32>) -> Result<Tours, Memory>
        requires { IsWithinLimits (record { cities = cities; weights = weights.items }) }
        ensures { IfOk result (λ problem. problem ≡ record { cities = cities; weights = weights.items }) }
    {
        let alloc = *weights.allocator();
        let mut least = Vec::with_capacity(alloc, cities)?;
        let mut total = 0;
        for city in 1..cities + 1 {
            let weight = least_from(cities, weights.as_slice(), city);
            total += weight as u64;
            least.push(weight)?;
        }
        let surpluses = surpluses_of(alloc, cities, weights.as_slice(), least.as_slice())?;
        Ok(Tours {
            root: TourNode::root(cities, total),
            cities,
            weights,
            surpluses,
        })
    }

    /// The number of cities, which are numbered from 1.
    #[inline(always)]
    pub fn cities(&self) -> u32
        requires { IsWithinLimits self.now }
        ensures { result ≡ self.now.cities }
    {
        self.cities as u32
    }

    /// The weight from one city to another: the length of that step. Both are numbers of cities, from 1 on.
    #[inline(always)]
    pub fn weight(&self, from: u32, to: u32) -> u64
        requires limits { IsWithinLimits self.now }
        requires from { (1 ≤ from) × (from ≤ self.now.cities) }
        requires to { (1 ≤ to) × (to ≤ self.now.cities) }
        ensures { result ≡ weight_between self.now from to }
    {
        let weight = weight_at(
            self.cities,
            self.weights.as_slice(),
            from as usize,
            to as usize,
        );
        weight as u64
    }

    /// The weight of the last step of a node's list, and 0 for the root, whose list has no step.
    #[inline(always)]
    pub fn last_step(&self, node: &TourNode) -> u64
        requires { IsNode self.now node.now }
        ensures { result ≡ step_in self.now (cities_of node.now) }
    {
        let steps = node.steps as usize;
        if steps == 0 {
            return 0;
        }
        self.weight(node.cities[steps - 1] as u32, node.last as u32)
    }

    /// The weights from each city to each, row by row.
    #[inline(always)]
    pub(crate) fn weights(&self) -> &[u32]
        ensures { result.now ≡ self.now.weights }
    {
        self.weights.as_slice()
    }

    /// The root of the tree.
    #[inline(always)]
    pub(crate) fn first(&self) -> TourNode
        ensures { result ≡ root_of self.now }
    {
        self.root
    }

    /// By how much the weight from one city to another is above the least from the first.
    #[inline(always)]
    pub(crate) fn surplus(&self, from: usize, to: usize) -> u32
        requires few { self.now.cities ≤ 60 }
        requires from { (1 ≤ from) × (from ≤ self.now.cities) }
        requires to { (1 ≤ to) × (to ≤ self.now.cities) }
        ensures { result ≡ surplus_between self.now from to }
    {
        self.surpluses[(from - 1) * ROW + (to - 1)]
    }
}
