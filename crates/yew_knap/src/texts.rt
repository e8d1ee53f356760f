//! The texts of answers, and the text of a problem.

ghost use Rattle.std.specs.Prelude.{◌≡◌, ℕ, ◌+◌, ◌-◌, ◌<◌, ◌≤◌, ◌⊎◌, ◌++◌, sum_by, flat_map, map, replicate, if◌then◌else◌, IfOk, OnOk, MatchOption};
ghost use Rattle.std.specs.List.{AllByRecursion};
ghost use Rattle.std.specs.Option.{ForSome};
ghost use Rattle.yew_laws.specs.Greatest.{greatest, Reach};
ghost use Rattle.yew_knap.specs.Answers.{knapsack_tree};
ghost use Rattle.yew_lines.specs.Spelling.{spaced};
ghost use Rattle.yew_knap.specs.declared.form.Form.TheVariants.{Triples};
ghost use Rattle.yew_knap.specs.Files.{item_numbers, IsKnapsackFile};
ghost use Rattle.yew_knap.specs.Instance.{IsWithinLimits};
ghost use Rattle.yew_knap.specs.Nodes.{amount_in, one_of, chosen_of, root_of, worth_of, IsNode};
ghost use Rattle.yew_knap.specs.Rows.{row_line, row_lines};
ghost use Rattle.yew_knap.specs.Texts.{items_line, best_lines, near_lines, yes_lines, no_line, triples_text};
ghost use Rattle.yew_knap.specs.Texts.{IsBestText, IsNearText, IsYesText, IsNoText};

use crate::copies::ItemCopy;
use crate::item_sets::ItemSet;
use crate::knapsack::{Item, Knapsack};
use crate::nodes::KnapNode;
use std::alloc::Global;
use yew_laws::Memory;
use yew_lines::{push_line_end, push_number, push_numbers_line, push_spaced, push_text};

/// Whether a copy of an item is in a set.
fn is_chosen(copy: &ItemCopy, chosen: &ItemSet, item: u32) -> bool
    requires { copy.now.index < 256 }
    ensures { amount_in (one_of item) chosen.now copy.now ≡ (if result then 1 else 0) }
{
    copy.item == item && chosen.has(copy.index)
}

/// Appends an item's number once for each of its copies in a set.
fn push_item(
    out: &mut Vec<u8>,
    copies: &[ItemCopy],
    chosen: &ItemSet,
    item: u32,
) -> Result<(), Memory>
    requires indexes { AllByRecursion (λ copy. copy.index < 256) copies.now }
    requires item { item < 256 }
    ensures { OnOk result (out.new.items ≡ out.old.items ++ flat_map spaced (replicate (sum_by (amount_in (one_of item) chosen.now) copies.now) (item + 1))) }
{
    for copy in copies {
        if !is_chosen(copy, chosen, item) {
            continue;
        }
        push_spaced(out, item as u64 + 1)?;
    }
    Ok(())
}

impl Knapsack {
    ghost use Rattle.yew_knap.specs.Nodes.{counts_in};

    /// Appends the line of the numbers of the items in the order of the file, each once for each of its copies in a set.
    fn push_items(&self, out: &mut Vec<u8>, chosen: &ItemSet) -> Result<(), Memory>
        requires { IsWithinLimits self.now }
        ensures { OnOk result (out.new.items ≡ out.old.items ++ items_line (counts_in self.now chosen.now)) }
    {
        push_text(out, b"items")?;
        for item in 0..self.items().len() {
            push_item(out, self.copies(), chosen, item as u32)?;
        }
        push_line_end(out)
    }
}

/// Appends a row of an item's profit, its weight and the number of its copies.
fn push_triple(out: &mut Vec<u8>, item: &Item) -> Result<(), Memory>
    ensures { OnOk result (out.new.items ≡ out.old.items ++ row_line (item_numbers Triples item.now)) }
{
    push_number(out, item.profit as u64)?;
    push_spaced(out, item.weight as u64)?;
    push_spaced(out, item.copies as u64)?;
    push_line_end(out)
}

/// Appends a row for each item.
fn push_triples(out: &mut Vec<u8>, items: &[Item]) -> Result<(), Memory>
    ensures { OnOk result (out.new.items ≡ out.old.items ++ row_lines (map (item_numbers Triples) items.now)) }
{
    for item in items {
        push_triple(out, item)?;
    }
    Ok(())
}

impl Knapsack {
    /// The text of the problem as a file of the second form: the line `knapsack 2`, a line with the number of items and the
    /// capacity, and for each item a line with its profit, its weight and the number of its copies.
    ///
    /// # Errors
    ///
    /// `Memory` where memory ran out.
    pub fn file_text(&self) -> Result<Vec<u8>, Memory>
        requires { IsWithinLimits self.now }
        ensures text { IfOk result (λ text. text.items ≡ triples_text self.now) }
        ensures file { IfOk result (λ text. IsKnapsackFile text.items self.now) }
    {
        self.spelled()
    }

    /// The text of [`Knapsack::file_text`].
    fn spelled(&self) -> Result<Vec<u8>, Memory>
        ensures { IfOk result (λ text. text.items ≡ triples_text self.now) }
    {
        let mut text = Vec::new(self.allocator());
        push_text(&mut text, b"knapsack 2\n")?;
        push_number(&mut text, self.items().len() as u64)?;
        push_spaced(&mut text, self.capacity())?;
        push_line_end(&mut text)?;
        push_triples(&mut text, self.items())?;
        Ok(text)
    }

    /// The text of the best profit: the line `best P` and the line `items` with the number of each item, rising,
    /// once for each of its chosen copies.
    ///
    /// It takes a node with its worth, which is 1 more than its profit P.
    ///
    /// # Errors
    ///
    /// `Memory` where memory ran out.
    pub fn best_text(&self, alloc: Global, worth: u64, node: &KnapNode) -> Result<Vec<u8>, Memory>
        requires root { IsNode self.now (root_of self.now) }
        requires node { IsNode self.now node.now }
        requires worth { worth ≡ worth_of self.now node.now }
        ensures text { IfOk result (λ text. text.items ≡ best_lines (worth - 1) (chosen_of self.now node.now)) }
        ensures right { IfOk result (λ text. worth ≡ greatest (knapsack_tree self.now) → IsBestText self.now text.items) }
    {
        let mut text = Vec::new(alloc);
        push_numbers_line(&mut text, b"best", &[worth - 1])?;
        self.push_items(&mut text, &node.items())?;
        Ok(text)
    }

    /// The text of a profit with a permitted gap: the line `found P`, the line `within` with the gap, and the line `items` with the
    /// number of each item, rising, once for each of its chosen copies.
    ///
    /// It takes a node with its worth, which is 1 more than its profit P, and by how much the best profit may exceed it.
    ///
    /// # Errors
    ///
    /// `Memory` where the text finds no room.
    pub fn near_text(
        &self,
        alloc: Global,
        worth: u64,
        gap: u64,
        node: &KnapNode,
    ) -> Result<Vec<u8>, Memory>
        requires root { IsNode self.now (root_of self.now) }
        requires node { IsNode self.now node.now }
        requires worth { worth ≡ worth_of self.now node.now }
        ensures text { IfOk result (λ text. text.items ≡ near_lines (worth - 1) gap (chosen_of self.now node.now)) }
        ensures right { IfOk result (λ text. greatest (knapsack_tree self.now) ≤ worth + gap → IsNearText self.now gap text.items) }
    {
        let mut text = Vec::new(alloc);
        push_numbers_line(&mut text, b"found", &[worth - 1])?;
        push_numbers_line(&mut text, b"within", &[gap])?;
        self.push_items(&mut text, &node.items())?;
        Ok(text)
    }

    /// The text of a decision: the line `yes` and the line `items` with the number of each item, rising, once for each of its
    /// chosen copies, where a node is given, and the line `no` where none is.
    ///
    /// # Errors
    ///
    /// `Memory` where memory ran out.
    pub fn reach_text(&self, alloc: Global, node: Option<&KnapNode>) -> Result<Vec<u8>, Memory>
        requires root { IsNode self.now (root_of self.now) }
        requires node { ForSome node (λ n. IsNode self.now n.now) }
        ensures text { IfOk result (λ text. MatchOption node.entry (text.items ≡ no_line) (λ n. text.items ≡ yes_lines (chosen_of self.now n.now))) }
        ensures right { IfOk result (λ text. (target : ℕ) → MatchOption node.entry (¬ Reach (knapsack_tree self.now) (target + 1)) (λ n. target + 1 ≤ worth_of self.now n.now)
            → IsYesText self.now target text.items ⊎ IsNoText self.now target text.items) }
    {
        let mut text = Vec::new(alloc);
        match node {
            None => push_text(&mut text, b"no\n")?,
            Some(node) => {
                push_text(&mut text, b"yes\n")?;
                self.push_items(&mut text, &node.items())?;
            }
        }
        Ok(text)
    }
}
