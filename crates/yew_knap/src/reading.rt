//! The reader of knapsack files.
//!
//! A file of the first form is the number of items and the capacity, then a profit and a weight for each item, then the
//! end. One of the second form is the word `knapsack` and the number 2, then the number of items and the capacity, then a
//! profit, a weight and a number of copies for each item, then the end. Line breaks have no meaning, and items are
//! numbered from 1 in the order of the file.

ghost use Rattle.std.specs.Prelude.{◌≡◌, ◌≤◌, ◌^◌, ◌<◌, IfOk, IfErr, OnOk, MatchResult};
ghost use Rattle.std.specs.Option.{option_map};
ghost use Rattle.yew_text.specs.Grammar.{first_past};
ghost use Rattle.yew_text.specs.Position.{SameText, words_left};
ghost use Rattle.yew_knap.specs.Files.{head_limits, item_limits, IsBody, IsTriplesFile, IsKnapsackFile, EndsReading};
ghost use Rattle.yew_knap.specs.Instance.{IsWithinLimits};
ghost use Rattle.yew_knap.specs.Nodes.{root_of, IsNode};
ghost use Rattle.yew_knap.specs.Reading.{limited, TakesCopies, KeepsItem, ItemsRead, EndsItems, EndsBody, EndsTriples, TakesForm};

use crate::form::Form;
use crate::knapsack::{Item, Knapsack};
use std::alloc::Global;
use yew_laws::Memory;
use yew_text::{Cursor, FileEnd, TextFault, TextKind};

/// The first word of a file of the second form.
const NAME: &[u8] = b"knapsack";

/// The number of that form.
const FORM: u64 = 2;

/// The greatest number of items, and of copies of all items.
const MOST_ITEMS: u64 = 256;

/// The greatest capacity, 2^40 - 1.
const MOST_CAPACITY: u64 = 1_099_511_627_775;

/// The greatest profit and the greatest weight, 2^31 - 1.
const MOST_AMOUNT: u64 = 2_147_483_647;

/// A number past its limit.
#[derive(Clone, Copy, Debug)]
struct Past {
    number: u64,
    limit: u64,
}

/// The first of the two numbers at the head of a file that is past its limit.
fn past_head(n: u64, capacity: u64) -> Option<Past>
    ensures { option_map limited result ≡ first_past (head_limits n capacity) }
{
    if n > MOST_ITEMS {
        return Some(Past {
            number: n,
            limit: MOST_ITEMS,
        });
    }
    if capacity > MOST_CAPACITY {
        return Some(Past {
            number: capacity,
            limit: MOST_CAPACITY,
        });
    }
    None
}

/// The items of a file, kept while no number is past its limit, with the sum of their copies, and the first number that is
/// past its limit.
#[derive(Drop)]
struct ReadItems {
    items: Vec<Item>,
    total: u64,
    past: Option<Past>,
}

/// The first number of an item that is past its limit, where so many copies stand before it.
fn past_item(total: u64, profit: u64, weight: u64, copies: u64) -> Option<Past>
    requires few { total ≤ 256 }
    requires small { copies < 2 ^ 63 }
    ensures { option_map limited result ≡ first_past (item_limits total (record { profit = profit; weight = weight; copies = copies })) }
{
    if profit > MOST_AMOUNT {
        return Some(Past {
            number: profit,
            limit: MOST_AMOUNT,
        });
    }
    if weight > MOST_AMOUNT {
        return Some(Past {
            number: weight,
            limit: MOST_AMOUNT,
        });
    }
    if total + copies > MOST_ITEMS {
        return Some(Past {
            number: total + copies,
            limit: MOST_ITEMS,
        });
    }
    None
}

/// Keeps an item, while no number of the file is past its limit.
fn keep_item(kept: &mut ReadItems, profit: u64, weight: u64, copies: u64) -> Result<(), Memory>
    requires few { kept.old.total ≤ 256 }
    requires small { copies < 2 ^ 63 }
    ensures { OnOk result (KeepsItem kept.old.items.items kept.old.total kept.old.past (record { profit = profit; weight = weight; copies = copies }) kept.new.items.items kept.new.total kept.new.past) }
{
    if kept.past.is_some() {
        return Ok(());
    }
    kept.past = past_item(kept.total, profit, weight, copies);
    if kept.past.is_some() {
        return Ok(());
    }
    kept.total += copies;
    kept.items.push(Item {
        profit: profit as u32,
        weight: weight as u32,
        copies: copies as u32,
    })?;
    Ok(())
}

/// Reads the number of an item's copies, which in a file of pairs is 1 and does not stand there.
fn read_copies(cursor: &mut Cursor<'_>, form: Form) -> Result<u64, TextFault>
    ensures taken { TakesCopies form cursor.old result cursor.new }
    ensures same { SameText cursor.old cursor.new }
{
    match form {
        Form::Pairs => Ok(1),
        Form::Triples => cursor.number(),
    }
}

/// Reads `n` items, where `head` is the first number of the file past its limit so far.
fn read_items(
    alloc: Global,
    cursor: &mut Cursor<'_>,
    form: Form,
    n: u64,
    capacity: u64,
    head: Option<Past>,
) -> Result<ReadItems, FileEnd>
    requires { option_map limited head ≡ first_past (head_limits n capacity) }
    ensures read { MatchResult result (λ r. ItemsRead form cursor.old n capacity n r.items.items r.total r.past cursor.new) (λ end. EndsItems form cursor.old n capacity end) }
    ensures same { SameText cursor.old cursor.new }
{
    let mut kept = ReadItems {
        items: Vec::new(alloc),
        total: 0,
        past: head,
    };
    for k in 0..n {
        let profit = match cursor.number() {
            Ok(number) => number,
            Err(fault) => return Err(FileEnd::Refused(fault)),
        };
        let weight = match cursor.number() {
            Ok(number) => number,
            Err(fault) => return Err(FileEnd::Refused(fault)),
        };
        let copies = match read_copies(cursor, form) {
            Ok(number) => number,
            Err(fault) => return Err(FileEnd::Refused(fault)),
        };
        match keep_item(&mut kept, profit, weight, copies) {
            Ok(()) => {}
            Err(_) => return Err(FileEnd::Memory),
        }
    }
    Ok(kept)
}

/// The problem of the number of items, the capacity and the items, which stand from here on to the end.
fn read_body(alloc: Global, cursor: &mut Cursor<'_>, form: Form) -> Result<Knapsack, FileEnd>
    ensures file { IfOk result (λ problem. IsBody form (words_left cursor.old) problem) }
    ensures limits { IfOk result (λ problem. IsWithinLimits problem) }
    ensures end { IfErr result (λ end. EndsBody form cursor.old end) }
{
    let n = match cursor.number() {
        Ok(number) => number,
        Err(fault) => return Err(FileEnd::Refused(fault)),
    };
    let capacity = match cursor.number() {
        Ok(number) => number,
        Err(fault) => return Err(FileEnd::Refused(fault)),
    };
    let head = past_head(n, capacity);
    let ReadItems { items, past, .. } = match read_items(alloc, cursor, form, n, capacity, head) {
        Ok(read) => read,
        Err(end) => return Err(end),
    };
    match cursor.end() {
        Ok(()) => {}
        Err(fault) => return Err(FileEnd::Refused(fault)),
    }
    if let Some(past) = past {
        return Err(FileEnd::TooLarge {
            number: past.number,
            limit: past.limit,
        });
    }
    match Knapsack::new(capacity, items) {
        Ok(problem) => Ok(problem),
        Err(_) => Err(FileEnd::Memory),
    }
}

/// Reads the first word where it is that of the second form, and gives the form.
fn read_form(cursor: &mut Cursor<'_>) -> Form
    ensures form { TakesForm cursor.old result cursor.new }
    ensures same { SameText cursor.old cursor.new }
{
    match cursor.word() {
        Some(word) => {
            if NAME == word.text {
                Form::Triples
            } else {
                Form::Pairs
            }
        }
        None => Form::Pairs,
    }
}

/// The problem of what stands behind the word of the second form.
fn read_triples(alloc: Global, cursor: &mut Cursor<'_>) -> Result<Knapsack, FileEnd>
    ensures file { IfOk result (λ problem. IsTriplesFile (words_left cursor.old) problem) }
    ensures limits { IfOk result (λ problem. IsWithinLimits problem) }
    ensures end { IfErr result (λ end. EndsTriples cursor.old end) }
{
    let form = match cursor.number() {
        Ok(number) => number,
        Err(fault) => return Err(FileEnd::Refused(fault)),
    };
    if form != FORM {
        return Err(FileEnd::Refused(TextFault {
            kind: TextKind::BadLine,
            line: cursor.line(),
        }));
    }
    read_body(alloc, cursor, Form::Triples)
}

/// The problem of a knapsack file.
///
/// # Errors
///
/// `Refused` with the first offence of a file that is not in its grammar, and of one that is, `TooLarge` with
/// the first number past its limit: 256 items, a profit and a weight of 2^31 - 1, a capacity of 2^40 - 1, and a sum of 256
/// copies of the items up to one. `Memory` where memory ran out.
pub fn read(alloc: Global, bytes: &[u8]) -> Result<Knapsack, FileEnd>
    ensures file { IfOk result (λ problem. IsKnapsackFile bytes.now problem) }
    ensures limits { IfOk result (λ problem. IsWithinLimits problem) }
    ensures root { IfOk result (λ problem. IsNode problem (root_of problem)) }
    ensures end { IfErr result (λ end. EndsReading bytes.now end) }
{
    let mut cursor = Cursor::new(bytes);
    match read_form(&mut cursor) {
        Form::Triples => read_triples(alloc, &mut cursor),
        Form::Pairs => {
            let mut cursor = Cursor::new(bytes);
            read_body(alloc, &mut cursor, Form::Pairs)
        }
    }
}
