//! What a plan asks for: a search over its files, or what is made.

ghost use Rattle.std.specs.Prelude.{◌≡◌, ◌≤◌, true, List, ℕ, IfSome, IfOk, IfErr, IsErrAnd, Some};
ghost use Rattle.yew_io.specs.Faults.{Rose};
ghost use Rattle.yew_words.specs.Plans.{planned};
ghost use Rattle.yew_words.specs.Ranges.{IsWithin};
ghost use Rattle.yew_words.specs.Word.{texts};
ghost use Rattle.yew_app.specs.Asks.{IsSequential};
ghost use Rattle.yew_app.specs.Meanings.{known_files};
ghost use Rattle.yew_app.specs.Reasons.{reason_of};
ghost use Rattle.yew_app.specs.Refusals.{CannotRead};
ghost use Rattle.yew_app.specs.Runs.{AnswersJob, StopsJob};

use crate::asked::{Asked, plan_is_askable};
use crate::crew::Crew;
use crate::flow::flow_of;
use crate::knapsack::knapsack_of;
use crate::made::text_of_made;
use crate::plan::both_files;
use crate::refusal::Refusal;
use crate::search::{solve_alone, solve_together};
use crate::semigroups::SemigroupsJob;
use crate::subgraph::SubgraphJob;
use crate::tours::tours_of;
use crate::tours_text::{solve_tours_alone, solve_tours_together};
use std::alloc::Global;
use std::sync::Wait;
use std::thread::Threads;
use yew_io::{Gate, Shelf};
use yew_kinds::ByDepth;
use yew_laws::Memory;
use yew_words::{Job, Plan};

/// The whole text that a plan for one worker in preorder asks for, or why there is none. Each job that searches is one row.
pub(crate) fn solve_plain<'a, S: Shelf<'a>>(
    alloc: Global,
    shelf: &mut S,
    plan: &Plan<'a>,
) -> Result<Vec<u8>, Refusal<'a>>
    requires within { IsWithin (planned plan.now) }
    requires done { IsSequential plan.now.skeleton }
    ensures answers { IfOk result (λ text. let names = texts plan.now.files.now in
        IfSome (known_files names (S.files shelf.old)) (λ told. AnswersJob plan.now.job names (planned plan.now) told text.items)) }
    ensures cause { IfErr result (λ refusal. let names = texts plan.now.files.now in
        StopsJob plan.now.job names (planned plan.now) (known_files names (S.files shelf.old)) (reason_of refusal)) }
    ensures read_fault { (name : List ℕ) → IsErrAnd result (λ refusal. reason_of refusal ≡ CannotRead name) →
        Rose (S.faults shelf.old) (S.faults shelf.new) × (S.failed shelf.new ≡ true) × (S.name shelf.new ≡ Some name) }
    ensures files { S.files shelf.new ≡ S.files shelf.old }
    ensures counted { S.faults shelf.old ≤ S.faults shelf.new }
{
    plan_is_askable(plan);
    let asked = Asked {
        skeleton: plan.skeleton,
        workers: plan.workers,
        report: plan.report,
        audit: plan.audit,
    };
    match plan.job {
        Job::Knapsack => {
            let job = knapsack_of(plan);
            solve_alone(alloc, shelf, &job, asked)
        }
        Job::Tsp => {
            let job = tours_of(plan);
            solve_tours_alone(alloc, shelf, &job, asked)
        }
        Job::Subgraph => {
            let names = both_files(plan);
            let job = SubgraphJob {
                pattern: names.first,
                target: names.second,
            };
            solve_alone(alloc, shelf, &job, asked)
        }
        Job::Semigroups => {
            let job = SemigroupsJob {
                counts: ByDepth { depths: plan.genus },
            };
            solve_alone(alloc, shelf, &job, asked)
        }
        Job::Flow => {
            let job = flow_of(plan);
            solve_alone(alloc, shelf, &job, asked)
        }
        Job::Make(made) => match text_of_made(alloc, made, plan.seed, plan.size, plan.solve) {
            Ok(text) => Ok(text),
            Err(Memory) => Err(Refusal::Memory),
        },
    }
}

/// The whole text that a plan for a crew asks for, or why there is none. Each job that searches is one row.
pub(crate) fn solve_by_crew<'a, S: Shelf<'a>, G: Gate, H: Threads + Wait + Sync>(
    crew: &Crew<H, G>,
    alloc: Global,
    shelf: &mut S,
    plan: &Plan<'a>,
) -> Result<Vec<u8>, Refusal<'a>>
    requires within { IsWithin (planned plan.now) }
    ensures answers { IfOk result (λ text. let names = texts plan.now.files.now in
        IfSome (known_files names (S.files shelf.old)) (λ told. AnswersJob plan.now.job names (planned plan.now) told text.items)) }
    ensures cause { IfErr result (λ refusal. let names = texts plan.now.files.now in
        StopsJob plan.now.job names (planned plan.now) (known_files names (S.files shelf.old)) (reason_of refusal)) }
    ensures read_fault { (name : List ℕ) → IsErrAnd result (λ refusal. reason_of refusal ≡ CannotRead name) →
        Rose (S.faults shelf.old) (S.faults shelf.new) × (S.failed shelf.new ≡ true) × (S.name shelf.new ≡ Some name) }
    ensures files { S.files shelf.new ≡ S.files shelf.old }
    ensures counted { S.faults shelf.old ≤ S.faults shelf.new }
{
    plan_is_askable(plan);
    let asked = Asked {
        skeleton: plan.skeleton,
        workers: plan.workers,
        report: plan.report,
        audit: plan.audit,
    };
    match plan.job {
        Job::Knapsack => {
            let job = knapsack_of(plan);
            solve_together(crew, alloc, shelf, &job, asked)
        }
        Job::Tsp => {
            let job = tours_of(plan);
            solve_tours_together(crew, alloc, shelf, &job, asked)
        }
        Job::Subgraph => {
            let names = both_files(plan);
            let job = SubgraphJob {
                pattern: names.first,
                target: names.second,
            };
            solve_together(crew, alloc, shelf, &job, asked)
        }
        Job::Semigroups => {
            let job = SemigroupsJob {
                counts: ByDepth { depths: plan.genus },
            };
            solve_together(crew, alloc, shelf, &job, asked)
        }
        Job::Flow => {
            let job = flow_of(plan);
            solve_together(crew, alloc, shelf, &job, asked)
        }
        Job::Make(made) => match text_of_made(alloc, made, plan.seed, plan.size, plan.solve) {
            Ok(text) => Ok(text),
            Err(Memory) => Err(Refusal::Memory),
        },
    }
}
