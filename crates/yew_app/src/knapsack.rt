//! Knapsacks: the best profit, one within a gap of it, or whether some set's profit meets a target.

ghost use Rattle.std.specs.Prelude.{◌≡◌, ◌∷◌, [], ◌≤◌, refl};
ghost use Rattle.yew_kinds.specs.Kinds.{IsExact};
ghost use Rattle.yew_knap.specs.Files.{IsKnapsackOffence, IsPastLimit};
ghost use Rattle.yew_knap.specs.Instance.{IsWithinLimits};
ghost use Rattle.yew_knap.specs.Nodes.{IsNode, root_of};
ghost use Rattle.yew_words.specs.declared.plan.Job.TheVariants as jobs;
ghost use Rattle.yew_words.specs.Plans.{planned};
ghost use Rattle.yew_words.specs.Ranges.{IsWithin};
ghost use Rattle.yew_words.specs.Word.{texts};
ghost use Rattle.yew_app.specs.Asks.{IsOrdered};
ghost use Rattle.yew_app.specs.Knapsacks.{IsGoodKnapsack, goal_of as asked_goal, goal_number, knapsack_kind, knapsack_meaning};

use crate::job::{ReadJob, SearchJob};
use crate::plan::only_file;
use crate::reading::{FileKind, read_file};
use crate::refusal::Refusal;
use crate::solution::Solution;
use std::alloc::Global;
use yew_io::Shelf;
use yew_kinds::{Kind, NoTally};
use yew_knap::laws::tree_packs;
use yew_knap::{KnapNode, Knapsack};
use yew_laws::Memory;
use yew_text::FileEnd;
use yew_words::Plan;

/// Files of knapsacks.
struct KnapsackFile;

impl FileKind for KnapsackFile {
    type Value = Knapsack;

    ghost is_good = { λ _. IsGoodKnapsack };

    ghost is_offence = { λ _. IsKnapsackOffence };

    ghost is_past = { λ _. IsPastLimit };

    ghost fits = { λ _ problem. IsNode problem (root_of problem) × IsWithinLimits problem };

    fn parse(&self, alloc: Global, bytes: &[u8]) -> Result<Knapsack, FileEnd> {
        yew_knap::read(alloc, bytes)
    }
}

/// What is asked of a profit.
#[derive(Clone, Copy, Debug)]
pub(crate) enum Goal {
    /// The best one.
    Best,
    /// One that the best is greater than by no more than this gap.
    Near(u64),
    /// Whether some set's profit is at least this target.
    Meets(u64),
}

/// What is asked of the profits of the knapsack file of a name, with a target or a gap of at most 2^40 - 2.
#[derive(Drop)]
pub(crate) struct KnapsackJob<'a> {
    pub name: &'a str,
    pub goal: Goal,
    ghost small: { goal_number goal ≤ 1099511627774 },
}

/// What a target and a gap ask of a profit, each where it is given. No words give both.
fn goal_of(target: Option<u64>, gap: Option<u64>) -> Goal
    ensures { result ≡ asked_goal target gap }
{
    match target {
        Some(least) => Goal::Meets(least),
        None => match gap {
            Some(most) => Goal::Near(most),
            None => Goal::Best,
        },
    }
}

/// What a plan asks of the profits of its knapsack file.
pub(crate) fn knapsack_of<'a>(plan: &Plan<'a>) -> KnapsackJob<'a>
    requires job { plan.now.job ≡ jobs.Knapsack }
    requires within { IsWithin (planned plan.now) }
    ensures name { texts plan.now.files.now ≡ result.name.now ∷ [] }
    ensures goal { result.goal ≡ asked_goal plan.now.target plan.now.gap }
    ensures exact { IsOrdered plan.now.skeleton → IsExact (knapsack_kind result.goal) }
{
    KnapsackJob {
        name: only_file(plan),
        goal: goal_of(plan.target, plan.gap),
    }
}

impl<'a> SearchJob for KnapsackJob<'a> {
    type Instance = Knapsack;

    type Tally = NoTally;

    ghost meaning = { λ job. knapsack_meaning job.name.now job.goal };

    ghost counts = { λ _. record {} };

    ghost fit = { λ _ problem. IsWithinLimits problem };

    ghost tree_is = { λ _ _. refl };

    fn kind(&self) -> Kind {
        match self.goal {
            Goal::Best => Kind::Best,
            Goal::Near(gap) => Kind::Near(gap),
            Goal::Meets(least) => Kind::Reach(least + 1),
        }
    }

    fn tally(&self) -> NoTally {
        NoTally
    }

    fn lines(
        &self,
        alloc: Global,
        problem: &Knapsack,
        solution: &Solution<KnapNode, ()>,
    ) -> Result<Vec<u8>, Memory> {
        tree_packs(problem);
        match self.goal {
            Goal::Best => match solution {
                Solution::Best { worth, node } => match node {
                    Some(node) => problem.best_text(alloc, *worth, node),
                    None => unreachable!(),
                },
                Solution::Count(_) | Solution::Reach(_) => unreachable!(),
            },
            Goal::Near(gap) => match solution {
                Solution::Best { worth, node } => match node {
                    Some(node) => problem.near_text(alloc, *worth, gap, node),
                    None => unreachable!(),
                },
                Solution::Count(_) | Solution::Reach(_) => unreachable!(),
            },
            Goal::Meets(_) => match solution {
                Solution::Reach(node) => match node {
                    Some(node) => problem.reach_text(alloc, Some(node)),
                    None => problem.reach_text(alloc, None),
                },
                Solution::Count(_) | Solution::Best { .. } => unreachable!(),
            },
        }
    }
}

impl<'a, S: Shelf<'a>> ReadJob<'a, S> for KnapsackJob<'a> {
    fn read(&self, alloc: Global, shelf: &mut S) -> Result<Knapsack, Refusal<'a>> {
        read_file(alloc, shelf, &KnapsackFile, self.name)
    }
}
