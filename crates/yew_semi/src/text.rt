//! The text of the counts by genus.

ghost use Rattle.std.specs.Prelude.{◌≡◌, IfOk};
ghost use Rattle.yew_semi.specs.CountText.{count_lines};

use std::alloc::Global;
use yew_laws::Memory;
use yew_lines::{push_count, push_line_end, push_number, push_text};

/// The counts by genus, from genus 0 on: a line for each, of the genus, a space and the count. A count of 2^64 - 1 has
/// `>=` in front, since it may be more.
///
/// # Errors
///
/// `Memory` where memory ran out.
pub fn count_text(alloc: Global, sum: &[u64]) -> Result<Vec<u8>, Memory>
    ensures { IfOk result (λ text. text.items ≡ count_lines 0 sum.now) }
{
    let mut text = Vec::new(alloc);
    for (genus, count) in sum.iter().enumerate() {
        push_number(&mut text, genus as u64)?;
        push_text(&mut text, b" ")?;
        push_count(&mut text, *count)?;
        push_line_end(&mut text)?;
    }
    Ok(text)
}
