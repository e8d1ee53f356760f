//! Subgraph isomorphism: whether there is a map of the pattern into the target, with the first one where there is.

ghost use Rattle.std.specs.Prelude.{◌≤◌, refl};
ghost use Rattle.yew_lad.specs.Digraphs.{vertex_count};
ghost use Rattle.yew_lad.specs.Files.{IsGraphOffence, IsPastLimit};
ghost use Rattle.yew_app.specs.Subgraphs.{IsGoodGraph, maps_meaning};

use crate::job::{ReadJob, SearchJob};
use crate::reading::{FileKind, read_file};
use crate::refusal::Refusal;
use crate::solution::Solution;
use std::alloc::Global;
use yew_io::Shelf;
use yew_kinds::{Kind, NoTally};
use yew_lad::{Graph, MapNode, Subgraph, pair};
use yew_laws::Memory;
use yew_text::FileEnd;

/// Files of graphs of at most so many vertices, which are at most 1,024.
struct GraphFile {
    most: u64,
    ghost limit: { most ≤ 1024 },
}

impl FileKind for GraphFile {
    type Value = Graph;

    ghost is_good = { λ kind. IsGoodGraph kind.most };

    ghost is_offence = { λ _. IsGraphOffence };

    ghost is_past = { λ kind. IsPastLimit kind.most };

    ghost fits = { λ kind graph. vertex_count graph ≤ kind.most };

    fn parse(&self, alloc: Global, bytes: &[u8]) -> Result<Graph, FileEnd> {
        yew_lad::read(alloc, bytes, self.most)
    }
}

/// A map of the graph of the first file into that of the second.
#[derive(Drop)]
pub(crate) struct SubgraphJob<'a> {
    pub pattern: &'a str,
    pub target: &'a str,
}

impl<'a> SearchJob for SubgraphJob<'a> {
    type Instance = Subgraph;

    type Tally = NoTally;

    ghost meaning = { λ job. maps_meaning job.pattern.now job.target.now };

    ghost counts = { λ _. record {} };

    ghost fit = { λ _ _. Unit {0} };

    ghost tree_is = { λ _ _. refl };

    fn kind(&self) -> Kind {
        Kind::Reach(1)
    }

    fn tally(&self) -> NoTally {
        NoTally
    }

    fn lines(
        &self,
        alloc: Global,
        problem: &Subgraph,
        solution: &Solution<MapNode, ()>,
    ) -> Result<Vec<u8>, Memory> {
        match solution {
            Solution::Reach(Some(node)) => problem.reach_text(alloc, Some(node)),
            Solution::Reach(None) => problem.reach_text(alloc, None),
            Solution::Count(_) | Solution::Best { .. } => unreachable!(),
        }
    }
}

impl<'a, S: Shelf<'a>> ReadJob<'a, S> for SubgraphJob<'a> {
    fn read(&self, alloc: Global, shelf: &mut S) -> Result<Subgraph, Refusal<'a>> {
        let pattern = match read_file(alloc, shelf, &GraphFile { most: 64 }, self.pattern) {
            Ok(graph) => graph,
            Err(refusal) => return Err(refusal),
        };
        let target = match read_file(alloc, shelf, &GraphFile { most: 1024 }, self.target) {
            Ok(graph) => graph,
            Err(refusal) => return Err(refusal),
        };
        match pair(alloc, pattern, target) {
            Ok(problem) => Ok(problem),
            Err(Memory) => Err(Refusal::Memory),
        }
    }
}
