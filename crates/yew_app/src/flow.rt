//! Flow shops: the least makespan, or one within a gap of it, with an order that has it.

ghost use Rattle.std.specs.Prelude.{◌≡◌, ◌∷◌, [], ◌≤◌, IfSome, refl};
ghost use Rattle.std.proofs.Props.{props};
ghost use Rattle.yew_kinds.specs.Kinds.{IsExact};
ghost use Rattle.yew_flow.specs.Files.{IsFlowOffence, IsPastLimit};
ghost use Rattle.yew_flow.specs.Instance.{IsWithinLimits};
ghost use Rattle.yew_flow.specs.Nodes.{IsNode, root_of};
ghost use Rattle.yew_words.specs.declared.plan.Job.TheVariants as jobs;
ghost use Rattle.yew_words.specs.Plans.{planned};
ghost use Rattle.yew_words.specs.Ranges.{IsWithin};
ghost use Rattle.yew_words.specs.Word.{texts};
ghost use Rattle.yew_app.specs.Asks.{IsOrdered};
ghost use Rattle.yew_app.specs.FlowShops.{IsGoodFlow, flow_kind, flow_meaning};

use crate::job::{ReadJob, SearchJob};
use crate::plan::only_file;
use crate::reading::{FileKind, read_file};
use crate::refusal::Refusal;
use crate::solution::Solution;
use std::alloc::Global;
use yew_flow::laws::tree_orders;
use yew_flow::{Flow, FlowNode};
use yew_io::Shelf;
use yew_kinds::{Kind, NoTally};
use yew_laws::Memory;
use yew_text::FileEnd;
use yew_words::Plan;

/// Files of flow shops.
struct FlowFile;

impl FileKind for FlowFile {
    type Value = Flow;

    ghost is_good = { λ _. IsGoodFlow };

    ghost is_offence = { λ _. IsFlowOffence };

    ghost is_past = { λ _. IsPastLimit };

    ghost fits = { λ _ problem. IsNode problem (root_of problem) × IsWithinLimits problem };

    fn parse(&self, alloc: Global, bytes: &[u8]) -> Result<Flow, FileEnd> {
        yew_flow::read(alloc, bytes)
    }
}

/// The order of the file of a name with the least makespan, or one whose makespan exceeds it by no more than a gap of at most
/// 2^40 - 2.
#[derive(Drop)]
pub(crate) struct FlowJob<'a> {
    pub name: &'a str,
    pub gap: Option<u64>,
    ghost small: { IfSome gap (λ most. most ≤ 1099511627774) } by { Prim.hlevel props },
}

/// What a plan asks of the flow shop of its file.
pub(crate) fn flow_of<'a>(plan: &Plan<'a>) -> FlowJob<'a>
    requires job { plan.now.job ≡ jobs.Flow }
    requires within { IsWithin (planned plan.now) }
    ensures name { texts plan.now.files.now ≡ result.name.now ∷ [] }
    ensures gap { result.gap ≡ plan.now.gap }
    ensures exact { IsOrdered plan.now.skeleton → IsExact (flow_kind result.gap) }
{
    FlowJob {
        name: only_file(plan),
        gap: plan.gap,
    }
}

impl<'a> SearchJob for FlowJob<'a> {
    type Instance = Flow;

    type Tally = NoTally;

    ghost meaning = { λ job. flow_meaning job.name.now job.gap };

    ghost counts = { λ _. record {} };

    ghost fit = { λ _ problem. IsWithinLimits problem };

    ghost tree_is = { λ _ _. refl };

    fn kind(&self) -> Kind {
        match self.gap {
            None => Kind::Best,
            Some(gap) => Kind::Near(gap),
        }
    }

    fn tally(&self) -> NoTally {
        NoTally
    }

    fn lines(
        &self,
        alloc: Global,
        problem: &Flow,
        solution: &Solution<FlowNode, ()>,
    ) -> Result<Vec<u8>, Memory> {
        tree_orders(problem);
        match solution {
            Solution::Best {
                worth,
                node: Some(node),
            } => match self.gap {
                None => problem.best_text(alloc, *worth, node),
                Some(gap) => problem.near_text(alloc, *worth, gap, node),
            },
            Solution::Count(_) | Solution::Best { .. } | Solution::Reach(_) => unreachable!(),
        }
    }
}

impl<'a, S: Shelf<'a>> ReadJob<'a, S> for FlowJob<'a> {
    fn read(&self, alloc: Global, shelf: &mut S) -> Result<Flow, Refusal<'a>> {
        read_file(alloc, shelf, &FlowFile, self.name)
    }
}
