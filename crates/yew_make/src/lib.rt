//! Made workloads: the text of an instance that a kind, a seed and a size determine.
//!
//! [`make_text`] draws the numbers of a knapsack instance, a matrix of city distances or a graph from the generator PCG
//! XSH RR 64/32 (O'Neill, "PCG: a family of simple fast space-efficient statistically good algorithms for random number
//! generation", 2014) in its stream 54, and spells them as a file of their kind. The same arguments give the same text.
#![tactic(auto)]

ghost use Rattle.std.specs.Prelude.{◌≡◌, IfOk};
ghost use Rattle.yew_make.specs.Texts.{IsSizeFor, made_text};

mod draws;
mod graph;
mod knapsack;
pub mod laws;
mod rows;
#[cfg(test)]
mod tests;
mod tour;

use crate::draws::Draws;
use std::alloc::Global;
use yew_laws::Memory;
use yew_words::Made;

/// The text of the instance of this kind, seed and size. The size is the number of items, from 1 to 256, the number of
/// cities, from 2 to 60, or the number of vertices, from 0 to 1024.
///
/// # Errors
///
/// `Memory` where memory ran out.
pub fn make_text(alloc: Global, made: Made, seed: u64, size: u32) -> Result<Vec<u8>, Memory>
    requires { IsSizeFor made size }
    ensures { IfOk result (λ text. text.items ≡ made_text made seed size) }
{
    let mut text = Vec::new(alloc);
    let mut draws = Draws::new(seed);
    match made {
        Made::Knapsack => knapsack::push_knapsack(alloc, &mut text, &mut draws, size)?,
        Made::Tsp => tour::push_tour(&mut text, &mut draws, size)?,
        Made::Lad => graph::push_graph(alloc, &mut text, &mut draws, size)?,
    }
    Ok(text)
}
