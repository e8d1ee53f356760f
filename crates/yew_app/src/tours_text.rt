//! From tours to the text of the shortest one, or of one within a gap of it, whichever way they are searched.

ghost use Rattle.std.specs.Prelude.{◌≡◌, ◌≤◌, true, List, ℕ, IfSome, IfOk, IfErr, IsErrAnd, Some};
ghost use Rattle.std.proofs.Props.{props};
ghost use Rattle.yew_io.specs.Faults.{Rose};
ghost use Rattle.yew_kinds.specs.Kinds.{IsExact, gap_of};
ghost use Rattle.yew_tsp.specs.Nodes.{cities_of, root_of, IsNode};
ghost use Rattle.yew_tsp.specs.Routes.{last_step};
ghost use Rattle.yew_app.specs.Asks.{IsAskable, IsOrdered, IsSequential};
ghost use Rattle.yew_app.specs.Meanings.{known_files, meaning_by, searched, AnswersFiles, IsJobText, StopsFiles};
ghost use Rattle.yew_app.specs.Reasons.{reason_of};
ghost use Rattle.yew_app.specs.Refusals.{CannotRead};
ghost use Rattle.yew_app.specs.ShortestTours.{near_tree, tours_kind, tours_meaning, tree_asked};
ghost use Rattle.yew_app.specs.Texts.{StopsSearch};

use crate::asked::Asked;
use crate::crew::Crew;
use crate::job::SearchJob;
use crate::refusal::Refusal;
use crate::search::{stopped, text_alone, text_together};
use crate::solution::Solution;
use crate::tours::{ToursJob, read_tours};
use crate::tours_searched::{LastStep, ToursSearch};
use std::alloc::Global;
use std::marker::PhantomData;
use std::sync::Wait;
use std::thread::Threads;
use yew_calls::Reordered;
use yew_io::{Gate, Shelf};
use yew_kinds::{Kind, NoTally};
use yew_laws::Memory;
use yew_span::Spanned;
use yew_tsp::laws::tree_tours;
use yew_tsp::{TourNode, Tours};
use yew_walk::SearchFault;

/// The job of tours where this problem over them is searched.
#[derive(Drop)]
struct ToursBy<'a, P: ToursSearch> {
    name: &'a str,
    gap: Option<u64>,
    searched: PhantomData<P>,
    ghost small: { IfSome gap (λ most. most ≤ 1099511627774) } by { Prim.hlevel props },
}

impl<'a, P: ToursSearch + Drop> SearchJob for ToursBy<'a, P> {
    type Instance = P;

    type Tally = NoTally;

    ghost meaning = { λ job. meaning_by P.instance (tours_meaning job.name.now job.gap P.tree) };

    ghost counts = { λ _. record {} };

    ghost fit = { λ _ problem. IsNode (P.instance problem) (root_of (P.instance problem)) };

    fn kind(&self) -> Kind {
        match self.gap {
            None => Kind::Best,
            Some(gap) => Kind::Near(gap),
        }
    }

    fn tally(&self) -> NoTally {
        NoTally
    }

    fn lines(
        &self,
        alloc: Global,
        problem: &P,
        solution: &Solution<TourNode, ()>,
    ) -> Result<Vec<u8>, Memory> {
        let tours = problem.tours();
        problem.greatest_is();
        tree_tours(tours);
        match solution {
            Solution::Best {
                worth,
                node: Some(node),
            } => {
                problem.node_is_list(node);
                match self.gap {
                    None => tours.best_text(alloc, *worth, node),
                    Some(gap) => tours.near_text(alloc, *worth, gap, node),
                }
            }
            Solution::Count(_) | Solution::Best { .. } | Solution::Reach(_) => unreachable!(),
        }
    }

    ghost tree_is = { λ _ problem. P.tree_is problem };
}

/// The text of the tours where this problem over them is searched in preorder, or why there is none.
fn text_by_alone<'a, P: ToursSearch + Drop>(
    alloc: Global,
    job: &ToursJob<'a>,
    problem: &P,
    asked: Asked,
) -> Result<Vec<u8>, SearchFault>
    requires root { P.sound problem.now (P.root problem.now) }
    requires tours { IsNode (P.instance problem.now) (root_of (P.instance problem.now)) }
    requires askable { IsAskable asked }
    requires done { IsSequential asked.skeleton }
    ensures text { IfOk result (λ text. IsJobText (tours_meaning job.now.name.now job.now.gap P.tree) asked (P.instance problem.now) text.items) }
    ensures fault { let m = tours_meaning job.now.name.now job.now.gap P.tree in
        IfErr result (StopsSearch (searched m (P.instance problem.now)) (gap_of m.kind) asked) }
{
    let by = ToursBy {
        name: job.name,
        gap: job.gap,
        searched: PhantomData,
    };
    text_alone(alloc, &by, problem, asked)
}

/// The text of the tours where this problem over them is searched in preorder, with the lists that append one city by rising weight of
/// the last step, or why there is none.
fn text_near_alone<'a, P: ToursSearch>(
    alloc: Global,
    job: &ToursJob<'a>,
    problem: &P,
    asked: Asked,
) -> Result<Vec<u8>, SearchFault>
    requires root { P.sound problem.now (P.root problem.now) }
    requires tours { IsNode (P.instance problem.now) (root_of (P.instance problem.now)) }
    requires askable { IsAskable asked }
    requires done { IsSequential asked.skeleton }
    ensures text { IfOk result (λ text. IsJobText (tours_meaning job.now.name.now job.now.gap (near_tree P.tree)) asked (P.instance problem.now) text.items) }
    ensures fault { let m = tours_meaning job.now.name.now job.now.gap (near_tree P.tree) in
        IfErr result (StopsSearch (searched m (P.instance problem.now)) (gap_of m.kind) asked) }
{
    let tours = problem.tours();
    let key = |node: &TourNode|
        requires { IsNode tours.now node.now }
        ensures { result ≡ last_step tours.entry.now (cities_of node.now) }
    { tours.last_step(node) };
    let near = Reordered::<P, LastStep, _>::new(problem, key);
    text_by_alone(alloc, job, &near, asked)
}

/// The text of tours that are searched in preorder as the job asks for it, or why there is none.
fn text_of_tours_alone<'a>(
    alloc: Global,
    job: &ToursJob<'a>,
    tours: &Tours,
    asked: Asked,
) -> Result<Vec<u8>, SearchFault>
    requires root { IsNode tours.now (root_of tours.now) }
    requires askable { IsAskable asked }
    requires done { IsSequential asked.skeleton }
    ensures text { let m = tours_meaning job.now.name.now job.now.gap (tree_asked job.now.near job.now.span) in
        IfOk result (λ text. IsJobText m asked tours.now text.items) }
    ensures fault { let m = tours_meaning job.now.name.now job.now.gap (tree_asked job.now.near job.now.span) in
        IfErr result (StopsSearch (searched m tours.now) (gap_of m.kind) asked) }
{
    match (job.near, job.span) {
        (false, false) => text_by_alone(alloc, job, tours, asked),
        (false, true) => text_by_alone(alloc, job, &Spanned::new(tours), asked),
        (true, false) => text_near_alone(alloc, job, tours, asked),
        (true, true) => text_near_alone(alloc, job, &Spanned::new(tours), asked),
    }
}

/// The whole text of the tours of a file that are searched in preorder, or why there is none.
pub(crate) fn solve_tours_alone<'a, S: Shelf<'a>>(
    alloc: Global,
    shelf: &mut S,
    job: &ToursJob<'a>,
    asked: Asked,
) -> Result<Vec<u8>, Refusal<'a>>
    requires askable { IsAskable asked }
    requires done { IsSequential asked.skeleton }
    ensures answers { let m = tours_meaning job.now.name.now job.now.gap (tree_asked job.now.near job.now.span) in
        IfOk result (λ text. IfSome (known_files m.names (S.files shelf.old)) (λ told. AnswersFiles m asked told text.items)) }
    ensures cause { let m = tours_meaning job.now.name.now job.now.gap (tree_asked job.now.near job.now.span) in
        IfErr result (λ refusal. StopsFiles m asked (known_files m.names (S.files shelf.old)) (reason_of refusal)) }
    ensures read_fault { (name : List ℕ) → IsErrAnd result (λ refusal. reason_of refusal ≡ CannotRead name) →
        Rose (S.faults shelf.old) (S.faults shelf.new) × (S.failed shelf.new ≡ true) × (S.name shelf.new ≡ Some name) }
    ensures files { S.files shelf.new ≡ S.files shelf.old }
    ensures counted { S.faults shelf.old ≤ S.faults shelf.new }
{
    let tours = match read_tours(alloc, shelf, job) {
        Ok(tours) => tours,
        Err(refusal) => return Err(refusal),
    };
    match text_of_tours_alone(alloc, job, &tours, asked) {
        Ok(text) => Ok(text),
        Err(fault) => Err(stopped(fault)),
    }
}

/// The text of the tours where this problem over them is searched by a crew, or why there is none.
fn text_by_together<'a, P: ToursSearch + Drop, G: Gate, H: Threads + Wait + Sync>(
    crew: &Crew<H, G>,
    alloc: Global,
    job: &ToursJob<'a>,
    problem: &P,
    asked: Asked,
) -> Result<Vec<u8>, SearchFault>
    requires root { P.sound problem.now (P.root problem.now) }
    requires tours { IsNode (P.instance problem.now) (root_of (P.instance problem.now)) }
    requires askable { IsAskable asked }
    requires exact { IsOrdered asked.skeleton → IsExact (tours_kind job.now.gap) }
    ensures text { IfOk result (λ text. IsJobText (tours_meaning job.now.name.now job.now.gap P.tree) asked (P.instance problem.now) text.items) }
    ensures fault { let m = tours_meaning job.now.name.now job.now.gap P.tree in
        IfErr result (StopsSearch (searched m (P.instance problem.now)) (gap_of m.kind) asked) }
{
    let by = ToursBy {
        name: job.name,
        gap: job.gap,
        searched: PhantomData,
    };
    text_together(crew, alloc, &by, problem, asked)
}

/// The text of the tours where this problem over them is searched by a crew, with the lists that append one city by rising weight of
/// the last step, or why there is none.
fn text_near_together<'a, P: ToursSearch, G: Gate, H: Threads + Wait + Sync>(
    crew: &Crew<H, G>,
    alloc: Global,
    job: &ToursJob<'a>,
    problem: &P,
    asked: Asked,
) -> Result<Vec<u8>, SearchFault>
    requires root { P.sound problem.now (P.root problem.now) }
    requires tours { IsNode (P.instance problem.now) (root_of (P.instance problem.now)) }
    requires askable { IsAskable asked }
    requires exact { IsOrdered asked.skeleton → IsExact (tours_kind job.now.gap) }
    ensures text { IfOk result (λ text. IsJobText (tours_meaning job.now.name.now job.now.gap (near_tree P.tree)) asked (P.instance problem.now) text.items) }
    ensures fault { let m = tours_meaning job.now.name.now job.now.gap (near_tree P.tree) in
        IfErr result (StopsSearch (searched m (P.instance problem.now)) (gap_of m.kind) asked) }
{
    let tours = problem.tours();
    let key = |node: &TourNode|
        requires { IsNode tours.now node.now }
        ensures { result ≡ last_step tours.entry.now (cities_of node.now) }
    { tours.last_step(node) };
    let near = Reordered::<P, LastStep, _>::new(problem, key);
    text_by_together(crew, alloc, job, &near, asked)
}

/// The text of tours that are searched by a crew as the job asks for it, or why there is none.
fn text_of_tours_together<'a, G: Gate, H: Threads + Wait + Sync>(
    crew: &Crew<H, G>,
    alloc: Global,
    job: &ToursJob<'a>,
    tours: &Tours,
    asked: Asked,
) -> Result<Vec<u8>, SearchFault>
    requires root { IsNode tours.now (root_of tours.now) }
    requires askable { IsAskable asked }
    requires exact { IsOrdered asked.skeleton → IsExact (tours_kind job.now.gap) }
    ensures text { let m = tours_meaning job.now.name.now job.now.gap (tree_asked job.now.near job.now.span) in
        IfOk result (λ text. IsJobText m asked tours.now text.items) }
    ensures fault { let m = tours_meaning job.now.name.now job.now.gap (tree_asked job.now.near job.now.span) in
        IfErr result (StopsSearch (searched m tours.now) (gap_of m.kind) asked) }
{
    match (job.near, job.span) {
        (false, false) => text_by_together(crew, alloc, job, tours, asked),
        (false, true) => text_by_together(crew, alloc, job, &Spanned::new(tours), asked),
        (true, false) => text_near_together(crew, alloc, job, tours, asked),
        (true, true) => text_near_together(crew, alloc, job, &Spanned::new(tours), asked),
    }
}

/// The whole text of the tours of a file that are searched by a crew, or why there is none.
pub(crate) fn solve_tours_together<'a, S: Shelf<'a>, G: Gate, H: Threads + Wait + Sync>(
    crew: &Crew<H, G>,
    alloc: Global,
    shelf: &mut S,
    job: &ToursJob<'a>,
    asked: Asked,
) -> Result<Vec<u8>, Refusal<'a>>
    requires askable { IsAskable asked }
    requires exact { IsOrdered asked.skeleton → IsExact (tours_kind job.now.gap) }
    ensures answers { let m = tours_meaning job.now.name.now job.now.gap (tree_asked job.now.near job.now.span) in
        IfOk result (λ text. IfSome (known_files m.names (S.files shelf.old)) (λ told. AnswersFiles m asked told text.items)) }
    ensures cause { let m = tours_meaning job.now.name.now job.now.gap (tree_asked job.now.near job.now.span) in
        IfErr result (λ refusal. StopsFiles m asked (known_files m.names (S.files shelf.old)) (reason_of refusal)) }
    ensures read_fault { (name : List ℕ) → IsErrAnd result (λ refusal. reason_of refusal ≡ CannotRead name) →
        Rose (S.faults shelf.old) (S.faults shelf.new) × (S.failed shelf.new ≡ true) × (S.name shelf.new ≡ Some name) }
    ensures files { S.files shelf.new ≡ S.files shelf.old }
    ensures counted { S.faults shelf.old ≤ S.faults shelf.new }
{
    let tours = match read_tours(alloc, shelf, job) {
        Ok(tours) => tours,
        Err(refusal) => return Err(refusal),
    };
    match text_of_tours_together(crew, alloc, job, &tours, asked) {
        Ok(text) => Ok(text),
        Err(fault) => Err(stopped(fault)),
    }
}
