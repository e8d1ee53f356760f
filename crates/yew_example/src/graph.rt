//! Graphs, and when the colours of their vertices are proper.

ghost use Rattle.std.specs.Prelude.{◌≡◌};
ghost use Rattle.yew_example.specs.Graphs.{clashes, is_proper};

/// A graph: so many vertices, numbered from 0, and the pairs of them that an edge joins. A pair with another number counts
/// for nothing.
#[derive(Clone, Copy)]
pub struct Graph<'a> {
    pub vertices: u32,
    pub edges: &'a [(u32, u32)],
}

impl<'a> Graph<'a> {
    /// Whether no edge has two ends of one colour. The colours are those of the vertices from 0 on; a vertex past them has
    /// none yet.
    pub fn is_proper(&self, colours: &[u32]) -> bool
        ensures { result ≡ is_proper self.now colours.now }
    {
        self.edges.iter().all(|edge| !clash(colours, *edge))
    }
}

/// Whether both ends of an edge have a colour, and it is the same.
fn clash(colours: &[u32], edge: (u32, u32)) -> bool
    ensures { result ≡ clashes colours.now edge }
{
    let (one, other) = (edge.0 as usize, edge.1 as usize);
    one < colours.len() && other < colours.len() && colours[one] == colours[other]
}
