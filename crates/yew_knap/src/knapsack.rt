//! What a knapsack problem is about: its items and what can be carried.

ghost use Rattle.std.specs.Prelude.{◌≡◌, ◌≤◌, length, IfOk};
ghost use Rattle.yew_knap.specs.Instance.{Instance, copies_in};

use crate::copies::{ItemCopy, copies_of};
use crate::order::order_of;
use crate::places::{Place, places_of};
use std::alloc::Global;
use std::marker::Model;
use yew_laws::Memory;

/// An item of a file.
#[derive(Clone, Copy, Debug, PartialEq, Eq)]
pub struct Item {
    pub profit: u32,
    pub weight: u32,
    /// How many of it there are.
    pub copies: u32,
}

/// A knapsack problem: the weight that can be carried, and the items in the order of the file. Beside them it keeps the
/// copies of the items in the order in which they are tried, and the places of that order.
#[derive(Drop)]
pub struct Knapsack {
    capacity: u64,
    items: Vec<Item>,
    copies: Vec<ItemCopy>,
    places: Vec<Place>,
}

impl Model for Knapsack {
    ghost use Rattle.std.specs.Prelude.{◌≡◌, []};
    ghost use Rattle.yew_knap.specs.Instance.{Instance};

    ghost Value = { Instance };

    ghost use Rattle.yew_knap.specs.Places.{all_places};
    ghost use Rattle.yew_knap.specs.Copies.{all_copies};
    ghost use Rattle.yew_knap.specs.SearchedOrder.{all_placed};

    ghost view = { λ a. record { capacity = a.capacity; items = a.items.items } };

    ghost invariant = { λ a. (a.copies.items ≡ all_copies 0 (all_placed [] 0 a.items.items))
        × (a.places.items ≡ all_places 0 0 a.copies.items) };
}

impl Knapsack {
    ghost use Rattle.yew_knap.specs.Places.{all_places};
    ghost use Rattle.yew_knap.specs.Copies.{searched_copies};

    /// The problem of at most 256 items, of which there are at most 256 copies.
    pub(crate) fn new(capacity: u64, items: Vec<Item>) -> Result<Knapsack, Memory>
        requires few { length items.items ≤ 256 }
        requires few_copies { copies_in items.items ≤ 256 }
        ensures { IfOk result (λ problem. problem ≡ record { capacity = capacity; items = items.items }) }
    {
        let order = order_of(*items.allocator(), items.as_slice())?;
        let copies = copies_of(*items.allocator(), order.as_slice())?;
        let places = places_of(*items.allocator(), copies.as_slice())?;
        Ok(Knapsack {
            capacity,
            items,
            copies,
            places,
        })
    }

    /// Where its memory comes from.
    pub(crate) fn allocator(&self) -> Global {
        *self.items.allocator()
    }

    /// The weight that can be carried.
    #[inline(always)]
    pub(crate) fn capacity(&self) -> u64
        ensures { result ≡ self.now.capacity }
    {
        self.capacity
    }

    /// The items in the order of the file.
    pub(crate) fn items(&self) -> &[Item]
        ensures { result.now ≡ self.now.items }
    {
        self.items.as_slice()
    }

    /// The copies of the items in the order in which they are tried.
    #[inline(always)]
    pub(crate) fn copies(&self) -> &[ItemCopy]
        ensures { result.now ≡ searched_copies self.now }
    {
        self.copies.as_slice()
    }

    /// The places of that order, and its end.
    #[inline(always)]
    pub(crate) fn places(&self) -> &[Place]
        ensures { result.now ≡ all_places 0 0 (searched_copies self.now) }
    {
        self.places.as_slice()
    }
}
