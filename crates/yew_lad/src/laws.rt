//! What the tree of a pair of graphs says of them, and the laws of graph files. Each function does nothing: its contract
//! is the law.

ghost use Rattle.yew_lad.specs.Answers.{TreeMaps};
ghost use Rattle.yew_lad.specs.Digraphs.{Digraph, IsWithinLimits};
ghost use Rattle.yew_lad.specs.Files.{FileLaws};
ghost use Rattle.yew_lad.specs.SearchedOrder.{searched_profiles, IsSearchedOrder};

use crate::subgraph::Subgraph;

/// The whole maps of the tree are the maps of the pattern into the target, each once. So a worth of 1 is reached exactly
/// where there is a map.
pub fn tree_maps(problem: &Subgraph)
    requires { IsWithinLimits problem.now }
    ensures { TreeMaps problem.now }
{
    let _ = problem;
}

/// A graph file has one graph or one first offence, and never both.
pub fn file_laws()
    ensures { FileLaws }
{}

/// The order in which a pattern's vertices are mapped is its vertices, and none stands before one that is in front of it.
pub fn order_law()
    ensures { (graph : Digraph) → IsSearchedOrder graph (searched_profiles graph) }
{}
