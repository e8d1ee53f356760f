//! Knapsack instances: a profit and a weight for each item, and what can be carried.

ghost use Rattle.std.specs.Prelude.{◌≡◌, ◌++◌, ◌/◌, ◌≤◌, ◌*◌, ◌∷◌, [], length, map, sum_by, IfOk, OnOk};
ghost use Rattle.yew_make.specs.Knapsacks.{item_of, items_from, instance_of, knapsack_text};
ghost use Rattle.yew_knap.specs.Rows.{row_line, row_lines};
ghost use Rattle.yew_knap.specs.declared.form.Form.TheVariants.{Pairs};
ghost use Rattle.yew_knap.specs.Files.{item_numbers};

use crate::draws::Draws;
use std::alloc::Global;
use yew_laws::Memory;
use yew_lines::{push_line_end, push_number, push_spaced};

/// An item that was drawn.
#[derive(Clone, Copy)]
struct MadeItem {
    profit: u32,
    weight: u32,
}

/// Draws the items. They are kept, since the capacity, which is written before them, is half their weight.
fn draw_items(alloc: Global, draws: &mut Draws, size: u32) -> Result<Vec<MadeItem>, Memory>
    ensures { IfOk result (λ items. map item_of items.items ≡ items_from draws.old size) }
{
    let mut items = Vec::with_capacity(alloc, size as usize)?;
    for _ in 0..size {
        let profit = draws.weight();
        let weight = draws.weight();
        items.push(MadeItem { profit, weight })?;
    }
    Ok(items)
}

/// The weight of all items.
fn total_weight(items: &[MadeItem]) -> u64
    requires { length items.now ≤ 256 }
    ensures { result ≡ sum_by (λ item. item.weight) items.now }
{
    items.iter().map(|item| item.weight as u64).sum()
}

/// Appends a line of two numbers.
fn push_pair(out: &mut Vec<u8>, first: u64, second: u64) -> Result<(), Memory>
    ensures { OnOk result (out.new.items ≡ out.old.items ++ row_line (first ∷ second ∷ [])) }
{
    push_number(out, first)?;
    push_spaced(out, second)?;
    push_line_end(out)
}

/// Appends a line for each item, of its profit and its weight.
fn push_items(out: &mut Vec<u8>, items: &[MadeItem]) -> Result<(), Memory>
    ensures { OnOk result (out.new.items ≡ out.old.items ++ row_lines (map (item_numbers Pairs) (map item_of items.now))) }
{
    for item in items {
        push_pair(out, item.profit as u64, item.weight as u64)?;
    }
    Ok(())
}

/// Appends the text of the knapsack instance of so many items, whose numbers are drawn here.
pub fn push_knapsack(
    alloc: Global,
    out: &mut Vec<u8>,
    draws: &mut Draws,
    size: u32,
) -> Result<(), Memory>
    requires { size ≤ 256 }
    ensures { OnOk result (out.new.items ≡ out.old.items ++ knapsack_text (instance_of (items_from draws.old size))) }
{
    let items = draw_items(alloc, draws, size)?;
    let capacity = total_weight(items.as_slice()) / 2;
    push_pair(out, size as u64, capacity)?;
    push_items(out, items.as_slice())
}
