//! Tour instances: a file of TSPLIB 95 (Reinelt 1995) with the weights above the diagonal.

ghost use Rattle.std.specs.Prelude.{◌≡◌, ◌++◌, ◌≤◌, OnOk};
ghost use Rattle.yew_knap.specs.Rows.{row_lines};
ghost use Rattle.yew_make.specs.Tours.{triangle_from, tour_head, tour_text};

use crate::draws::Draws;
use crate::rows::push_weights;
use yew_laws::Memory;
use yew_lines::{push_number, push_text};

/// Appends the specification part.
fn push_head(out: &mut Vec<u8>, size: u32) -> Result<(), Memory>
    ensures { OnOk result (out.new.items ≡ out.old.items ++ tour_head size) }
{
    push_text(out, b"NAME: made\nTYPE: TSP\nDIMENSION: ")?;
    push_number(out, size as u64)?;
    push_text(
        out,
        b"\nEDGE_WEIGHT_TYPE: EXPLICIT\nEDGE_WEIGHT_FORMAT: UPPER_ROW\nEDGE_WEIGHT_SECTION\n",
    )
}

/// Appends a line for each city but the last, of its weights to the cities after it.
fn push_triangle(out: &mut Vec<u8>, draws: &mut Draws, size: u32) -> Result<(), Memory>
    requires { 1 ≤ size }
    ensures { OnOk result (out.new.items ≡ out.old.items ++ row_lines (triangle_from draws.old size)) }
{
    for row in 0..size - 1 {
        push_weights(out, draws, size - 1 - row)?;
    }
    Ok(())
}

/// Appends the text of the tour instance of so many cities, whose weights are drawn as they are written.
pub fn push_tour(out: &mut Vec<u8>, draws: &mut Draws, size: u32) -> Result<(), Memory>
    requires { 1 ≤ size }
    ensures { OnOk result (out.new.items ≡ out.old.items ++ tour_text size (triangle_from draws.old size)) }
{
    push_head(out, size)?;
    push_triangle(out, draws, size)?;
    push_text(out, b"EOF\n")
}
