//! The counts of numerical semigroups.

ghost use Rattle.std.specs.Prelude.{◌≡◌, ◌≤◌, refl};
ghost use Rattle.yew_app.specs.Semigroups.{semigroups_meaning};

use crate::job::{ReadJob, SearchJob};
use crate::refusal::Refusal;
use crate::solution::Solution;
use std::alloc::Global;
use yew_io::Shelf;
use yew_kinds::{ByDepth, Depths, Kind};
use yew_laws::Memory;
use yew_semi::laws::nodes_by_genus;
use yew_semi::{Semigroup, Semigroups, count_text};

/// How many numerical semigroups there are of each genus from 0 to the last, at most 40.
#[derive(Drop)]
pub(crate) struct SemigroupsJob {
    /// Counts by genus, which is the depth of a node, up to the last.
    pub counts: ByDepth,
    ghost few: { counts.depths ≤ 40 },
}

impl SearchJob for SemigroupsJob {
    type Instance = Semigroups;

    type Tally = ByDepth;

    ghost meaning = { λ job. semigroups_meaning job.counts.depths };

    ghost counts = { λ job. job.counts };

    ghost fit = { λ job problem. problem.genus ≡ job.counts.depths };

    ghost tree_is = { λ _ _. refl };

    fn kind(&self) -> Kind {
        Kind::Count
    }

    fn tally(&self) -> ByDepth {
        self.counts
    }

    fn lines(
        &self,
        alloc: Global,
        _problem: &Semigroups,
        solution: &Solution<Semigroup, Depths>,
    ) -> Result<Vec<u8>, Memory> {
        nodes_by_genus(self.counts.depths);
        match solution {
            Solution::Count(sum) => count_text(alloc, sum.counts()),
            Solution::Best { .. } | Solution::Reach(_) => unreachable!(),
        }
    }
}

impl<'a, S: Shelf<'a>> ReadJob<'a, S> for SemigroupsJob {
    fn read(&self, _alloc: Global, _shelf: &mut S) -> Result<Semigroups, Refusal<'a>> {
        Ok(Semigroups::new(self.counts.depths))
    }
}
