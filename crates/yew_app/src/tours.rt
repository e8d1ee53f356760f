//! Tours: the least length, or one within a gap of it, with a tour that has it.

ghost use Rattle.std.specs.Prelude.{◌≡◌, ◌∷◌, [], ◌≤◌, true, List, ℕ, IfSome, IfOk, IfErr, IsErrAnd, Some};
ghost use Rattle.std.proofs.Props.{props};
ghost use Rattle.yew_io.specs.Faults.{Rose};
ghost use Rattle.yew_kinds.specs.Kinds.{IsExact};
ghost use Rattle.yew_tsp.specs.Files.{IsTourOffence, IsPastLimit};
ghost use Rattle.yew_tsp.specs.Instance.{IsWithinLimits};
ghost use Rattle.yew_tsp.specs.Nodes.{IsNode, root_of};
ghost use Rattle.yew_words.specs.declared.plan.Job.TheVariants as jobs;
ghost use Rattle.yew_words.specs.Plans.{planned};
ghost use Rattle.yew_words.specs.Ranges.{IsWithin};
ghost use Rattle.yew_words.specs.Word.{texts};
ghost use Rattle.yew_app.specs.Asks.{IsOrdered};
ghost use Rattle.yew_app.specs.Meanings.{known_files, IsUnreadable};
ghost use Rattle.yew_app.specs.Reasons.{reason_of};
ghost use Rattle.yew_app.specs.Refusals.{CannotRead};
ghost use Rattle.yew_app.specs.ShortestTours.{IsGoodTours, tours_kind, tours_meaning, tree_asked};

use crate::plan::only_file;
use crate::reading::{FileKind, read_file};
use crate::refusal::Refusal;
use std::alloc::Global;
use yew_io::Shelf;
use yew_text::FileEnd;
use yew_tsp::Tours;
use yew_words::Plan;

/// Files of tours.
struct ToursFile;

impl FileKind for ToursFile {
    type Value = Tours;

    ghost is_good = { λ _. IsGoodTours };

    ghost is_offence = { λ _. IsTourOffence };

    ghost is_past = { λ _. IsPastLimit };

    ghost fits = { λ _ problem. IsNode problem (root_of problem) × IsWithinLimits problem };

    fn parse(&self, alloc: Global, bytes: &[u8]) -> Result<Tours, FileEnd> {
        yew_tsp::read(alloc, bytes)
    }
}

/// The shortest tour of the file of a name, or one that is longer by no more than a gap of at most 2^40 - 2, and how the tours
/// are searched.
#[derive(Drop)]
pub(crate) struct ToursJob<'a> {
    pub name: &'a str,
    pub gap: Option<u64>,
    /// The lists that append one city are tried by rising weight of the last step.
    pub near: bool,
    /// The bound takes a least spanning tree into account.
    pub span: bool,
    ghost small: { IfSome gap (λ most. most ≤ 1099511627774) } by { Prim.hlevel props },
}

/// What a plan asks of the tours of its file.
pub(crate) fn tours_of<'a>(plan: &Plan<'a>) -> ToursJob<'a>
    requires job { plan.now.job ≡ jobs.Tsp }
    requires within { IsWithin (planned plan.now) }
    ensures name { texts plan.now.files.now ≡ result.name.now ∷ [] }
    ensures gap { result.gap ≡ plan.now.gap }
    ensures near { result.near ≡ plan.now.near }
    ensures span { result.span ≡ plan.now.span }
    ensures exact { IsOrdered plan.now.skeleton → IsExact (tours_kind result.gap) }
{
    ToursJob {
        name: only_file(plan),
        gap: plan.gap,
        near: plan.near,
        span: plan.span,
    }
}

/// The tours of the file.
///
/// # Errors
///
/// The shelf fails at the file, or it is refused, or memory ran out.
pub(crate) fn read_tours<'a, S: Shelf<'a>>(
    alloc: Global,
    shelf: &mut S,
    job: &ToursJob<'a>,
) -> Result<Tours, Refusal<'a>>
    ensures read { let m = tours_meaning job.now.name.now job.now.gap (tree_asked job.now.near job.now.span) in
        IfOk result (λ tours. IfSome (known_files m.names (S.files shelf.old)) (λ told. m.Reads told tours)) }
    ensures root { IfOk result (λ tours. IsNode tours (root_of tours)) }
    ensures refused { let m = tours_meaning job.now.name.now job.now.gap (tree_asked job.now.near job.now.span) in
        IfErr result (λ refusal. IsUnreadable m (known_files m.names (S.files shelf.old)) (reason_of refusal)) }
    ensures read_fault { (name : List ℕ) → IsErrAnd result (λ refusal. reason_of refusal ≡ CannotRead name) →
        Rose (S.faults shelf.old) (S.faults shelf.new) × (S.failed shelf.new ≡ true) × (S.name shelf.new ≡ Some name) }
    ensures files { S.files shelf.new ≡ S.files shelf.old }
    ensures counted { S.faults shelf.old ≤ S.faults shelf.new }
{
    read_file(alloc, shelf, &ToursFile, job.name)
}
