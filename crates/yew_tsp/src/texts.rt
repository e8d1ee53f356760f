//! The texts of answers.

ghost use Rattle.std.specs.Prelude.{◌≡◌, ◌+◌, ◌-◌, ◌≤◌, ◌^◌, ◌++◌, ◌∷◌, [], codes, IfOk, OnOk};
ghost use Rattle.yew_laws.specs.Greatest.{greatest};
ghost use Rattle.yew_lines.specs.Spelling.{numbers_line};
ghost use Rattle.yew_tsp.specs.Answers.{tours_tree};
ghost use Rattle.yew_tsp.specs.Nodes.{cities_of, root_of, worth_of, IsNode};
ghost use Rattle.yew_tsp.specs.Texts.{best_lines, near_lines, IsBestText, IsNearText};

use crate::nodes::TourNode;
use crate::problem::WHOLE;
use crate::tours::Tours;
use std::alloc::Global;
use yew_laws::Memory;
use yew_lines::{push_line_end, push_numbers_line, push_spaced, push_text};

/// Appends the line of the cities of a tour in order, of which the last one is given apart.
fn push_cities(out: &mut Vec<u8>, cities: &[u8], last: u8) -> Result<(), Memory>
    ensures { OnOk result (out.new.items ≡ out.old.items ++ numbers_line (codes "tour") (cities.now ++ last ∷ [])) }
{
    push_text(out, b"tour")?;
    for city in cities {
        push_spaced(out, *city as u64)?;
    }
    push_spaced(out, last as u64)?;
    push_line_end(out)
}

impl Tours {
    /// The text of the shortest tour: the line `best L`, and the line `tour` with the cities in order from city 1 on.
    ///
    /// It takes a node with its worth, which is at least 1: that of a list of all cities, 2^37 less the length L.
    ///
    /// # Errors
    ///
    /// `Memory` where memory ran out.
    pub fn best_text(&self, alloc: Global, worth: u64, node: &TourNode) -> Result<Vec<u8>, Memory>
        requires root { IsNode self.now (root_of self.now) }
        requires node { IsNode self.now node.now }
        requires worth { worth ≡ worth_of self.now node.now }
        requires some { 1 ≤ worth }
        ensures text { IfOk result (λ text. text.items ≡ best_lines (2 ^ 37 - worth) (cities_of node.now)) }
        ensures right { IfOk result (λ text. worth ≡ greatest (tours_tree self.now) → IsBestText self.now text.items) }
    {
        let mut text = Vec::new(alloc);
        push_numbers_line(&mut text, b"best", &[WHOLE - worth])?;
        push_cities(&mut text, &node.cities[..node.steps as usize], node.last)?;
        Ok(text)
    }

    /// The text of a tour with a permitted gap: the line `found L`, the line `within` with the gap, and the line `tour` with the cities
    /// in order from city 1 on.
    ///
    /// It takes a node with its worth, which is at least 1: that of a list of all cities, 2^37 less the length L. The gap is by how
    /// much this length may exceed the least.
    ///
    /// # Errors
    ///
    /// `Memory` where the text finds no room.
    pub fn near_text(
        &self,
        alloc: Global,
        worth: u64,
        gap: u64,
        node: &TourNode,
    ) -> Result<Vec<u8>, Memory>
        requires root { IsNode self.now (root_of self.now) }
        requires node { IsNode self.now node.now }
        requires worth { worth ≡ worth_of self.now node.now }
        requires some { 1 ≤ worth }
        ensures text { IfOk result (λ text. text.items ≡ near_lines (2 ^ 37 - worth) gap (cities_of node.now)) }
        ensures right { IfOk result (λ text. greatest (tours_tree self.now) ≤ worth + gap → IsNearText self.now gap text.items) }
    {
        let mut text = Vec::new(alloc);
        push_numbers_line(&mut text, b"found", &[WHOLE - worth])?;
        push_numbers_line(&mut text, b"within", &[gap])?;
        push_cities(&mut text, &node.cities[..node.steps as usize], node.last)?;
        Ok(text)
    }
}
