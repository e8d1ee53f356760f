//! The texts of answers.

ghost use Rattle.std.specs.Prelude.{◌≡◌, ◌<◌, ◌≤◌, ◌⊎◌, ◌++◌, IfOk, OnOk, MatchOption};
ghost use Rattle.std.specs.Option.{ForSome};
ghost use Rattle.yew_laws.specs.Greatest.{Reach};
ghost use Rattle.yew_lad.specs.Digraphs.{vertex_count};
ghost use Rattle.yew_lad.specs.Nodes.{place_of, images_of, maps_tree, root_of, worth_of, IsNode};
ghost use Rattle.yew_lad.specs.Texts.{map_line, yes_lines, no_line, IsYesText, IsNoText};

use crate::nodes::MapNode;
use crate::subgraph::Subgraph;
use std::alloc::Global;
use yew_laws::Memory;
use yew_lines::{push_line_end, push_spaced, push_text};

impl Subgraph {
    /// The place of a pattern vertex in the order.
    fn place_of(&self, v: usize) -> usize
        requires { v < vertex_count self.now.pattern }
        ensures { result ≡ place_of self.now v }
    {
        for place in 0..self.places() {
            if self.vertex(place) == v {
                return place;
            }
        }
        self.places()
    }

    /// Appends the line of the images of the pattern's vertices, by their numbers.
    fn push_map(&self, out: &mut Vec<u8>, node: &MapNode) -> Result<(), Memory>
        requires node { IsNode self.now node.now }
        requires whole { 1 ≤ worth_of self.now node.now }
        ensures { OnOk result (out.new.items ≡ out.old.items ++ map_line (images_of self.now node.now)) }
    {
        push_text(out, b"map")?;
        for v in 0..self.places() {
            push_spaced(out, node.image(self.place_of(v)) as u64)?;
        }
        push_line_end(out)
    }

    /// The text of the decision: the line `yes` and the line `map` with the images of the pattern's vertices 0, 1, 2 and so
    /// on, where a node of worth 1 is given, and the line `no` where none is.
    ///
    /// # Errors
    ///
    /// `Memory` where memory ran out.
    pub fn reach_text(&self, alloc: Global, node: Option<&MapNode>) -> Result<Vec<u8>, Memory>
        requires root { IsNode self.now (root_of self.now) }
        requires node { ForSome node (λ n. IsNode self.now n.now) }
        requires whole { ForSome node (λ n. 1 ≤ worth_of self.now n.now) }
        ensures text { IfOk result (λ text. MatchOption node.entry (text.items ≡ no_line) (λ n. text.items ≡ yes_lines (images_of self.now n.now))) }
        ensures right { IfOk result (λ text. MatchOption node.entry (¬ Reach (maps_tree self.now) 1) (λ n. 1 ≤ worth_of self.now n.now)
            → IsYesText self.now text.items ⊎ IsNoText self.now text.items) }
    {
        let mut text = Vec::new(alloc);
        match node {
            None => push_text(&mut text, b"no\n")?,
            Some(node) => {
                push_text(&mut text, b"yes\n")?;
                self.push_map(&mut text, node)?;
            }
        }
        Ok(text)
    }
}
