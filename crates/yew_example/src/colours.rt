//! The nodes of the tree: the colours of the first vertices.

ghost use Rattle.std.specs.Prelude.{◌≡◌, ◌<◌, [], length};
ghost use Rattle.yew_example.specs.Graphs.{colours_used};
ghost use Rattle.yew_example.specs.Nodes.{with_colour};

use std::marker::Model;

/// The colours of the vertices from 0 on, as far as they have one. Contracts see the list of these colours.
#[derive(Drop)]
pub struct Colours {
    /// The colours, of which the first `count` have a meaning.
    colours: [u32; 16],
    count: usize,
    /// How many colours all of these are among.
    used: u32,
}

impl Model for Colours {
    ghost use Rattle.std.specs.Prelude.{◌≡◌, ◌≤◌, List, ℕ, take};
    ghost use Rattle.yew_example.specs.Graphs.{colours_used};

    ghost Value = { List ℕ };

    ghost view = { λ a. take a.count a.colours };

    ghost invariant = { λ a. (a.count ≤ 16) × (a.used ≡ colours_used (take a.count a.colours)) };
}

impl Colours {
    /// No vertex has a colour.
    pub(crate) fn none() -> Colours
        ensures { result ≡ [] }
    {
        Colours {
            colours: [0; 16],
            count: 0,
            used: 0,
        }
    }

    /// The next vertex has this colour too.
    pub(crate) fn with(&self, colour: u32) -> Colours
        requires room { length self.now < 16 }
        requires colour { colour < 16 }
        ensures { result ≡ with_colour self.now colour }
    {
        let mut colours = self.colours;
        colours[self.count] = colour;
        Colours {
            colours,
            count: self.count + 1,
            used: self.used.max(colour + 1),
        }
    }

    /// The colours, that of vertex 0 first.
    pub fn as_slice(&self) -> &[u32]
        ensures { result.now ≡ self.now }
    {
        &self.colours[..self.count]
    }

    /// How many colours all of these are among.
    pub fn used(&self) -> u32
        ensures { result ≡ colours_used self.now }
    {
        self.used
    }
}
