//! Lines of numbers that are drawn as they are written.

ghost use Rattle.std.specs.Prelude.{◌≡◌, ◌++◌, ◌≤◌, OnOk};
ghost use Rattle.yew_make.specs.Draws.{state_after, weights_from};
ghost use Rattle.yew_knap.specs.Rows.{spaced_apart, row_line};

use crate::draws::Draws;
use yew_laws::Memory;
use yew_lines::{push_line_end, push_number, push_spaced};

/// Appends a line of `count` weights, each of one draw, with one space between. There is at least one.
pub fn push_weights(out: &mut Vec<u8>, draws: &mut Draws, count: u32) -> Result<(), Memory>
    requires { 1 ≤ count }
    ensures text { OnOk result (out.new.items ≡ out.old.items ++ row_line (weights_from draws.old 0 count)) }
    ensures next { OnOk result (draws.new ≡ state_after draws.old count) }
{
    push_number(out, draws.weight() as u64)?;
    for _ in 1..count {
        push_spaced(out, draws.weight() as u64)?;
    }
    push_line_end(out)
}
