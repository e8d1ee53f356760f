//! The copies of the items, in the order in which they are tried: item by item, copy by copy.

ghost use Rattle.std.specs.Prelude.{◌≡◌, ◌≤◌, ◌+◌, ◌++◌, length, sum_by, IfOk, OnOk};
ghost use Rattle.yew_knap.specs.Copies.{copies_from, all_copies};

use crate::order::Numbered;
use std::alloc::Global;
use yew_laws::Memory;

/// A copy of an item.
#[derive(Clone, Copy, Debug, PartialEq, Eq)]
pub struct ItemCopy {
    pub profit: u32,
    pub weight: u32,
    /// The item's place in the file, counted from 0.
    pub item: u32,
    /// How many copies of the item come before this one.
    pub turn: u32,
    /// How many copies of all items come before this one.
    pub index: u32,
}

/// Appends the copies of an item.
fn push_copies(copies: &mut Vec<ItemCopy>, item: &Numbered) -> Result<(), Memory>
    requires { length copies.old.items + item.now.copies ≤ 256 }
    ensures { OnOk result (copies.new.items ≡ copies.old.items ++ copies_from item.now 0 (length copies.old.items) item.now.copies) }
{
    let first = copies.len() as u32;
    for turn in 0..item.copies {
        copies.push(ItemCopy {
            profit: item.profit,
            weight: item.weight,
            item: item.index,
            turn,
            index: first + turn,
        })?;
    }
    Ok(())
}

/// The copies of the items in this order.
pub fn copies_of(alloc: Global, items: &[Numbered]) -> Result<Vec<ItemCopy>, Memory>
    requires { sum_by (λ item. item.copies) items.now ≤ 256 }
    ensures { IfOk result (λ copies. copies.items ≡ all_copies 0 items.now) }
{
    let mut copies = Vec::with_capacity(alloc, items.len())?;
    for item in items {
        push_copies(&mut copies, item)?;
    }
    Ok(copies)
}
