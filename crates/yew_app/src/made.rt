//! The text of an instance that is made, and of its solution.

ghost use Rattle.std.specs.Prelude.{◌≡◌, ◌≤◌, IfOk, codes};
ghost use Rattle.yew_knap.specs.Nodes.{IsNode, root_of};
ghost use Rattle.yew_laws.specs.Greatest.{greatest};
ghost use Rattle.yew_laws.specs.SearchTree.{search_tree};
ghost use Rattle.yew_make.specs.Knapsacks.{made_knapsack as knapsack_of};
ghost use Rattle.yew_make.specs.Texts.{IsSizeFor};
ghost use Rattle.yew_make.specs.Tours.{made_tours as tours_of};
ghost use Rattle.yew_text.specs.declared.text.FileEnd.TheVariants.{Memory as NoMemory};
ghost use Rattle.yew_tsp.specs.Nodes.{IsNode as IsTourNode, root_of as root_of_tours};
ghost use Rattle.yew_app.specs.MadeTexts.{IsMadeText, IsSolvedKnapsack, IsSolvedTours, sequential_totals, solved_lines as four_lines};

use crate::tail::push_count_line;
use std::alloc::Global;
use yew_kinds::{Answer, Kind, NoTally};
use yew_knap::Knapsack;
use yew_knap::laws::tree_packs;
use yew_laws::{Memory, Problem};
use yew_lines::push_numbers_line;
use yew_log::{Counts, Recorder, Totals};
use yew_make::laws::{made_knapsack, made_tour};
use yew_make::make_text;
use yew_text::FileEnd;
use yew_tsp::Tours;
use yew_tsp::laws::tree_tours;
use yew_walk::{Found, SearchFault, search_plain};
use yew_words::Made;

/// The text of the instance of this kind, seed and size, or of its solution where it is to be solved. No words ask for a
/// graph to be solved, and it is then made alone. `Memory` comes only where memory runs out.
pub(crate) fn text_of_made(
    alloc: Global,
    made: Made,
    seed: u64,
    size: u32,
    solve: bool,
) -> Result<Vec<u8>, Memory>
    requires { IsSizeFor made size }
    ensures { IfOk result (λ text. IsMadeText made solve seed size text.items) }
{
    if !solve {
        return make_text(alloc, made, seed, size);
    }
    match made {
        Made::Knapsack => solved_knapsack(alloc, seed, size),
        Made::Tsp => solved_tours(alloc, seed, size),
        Made::Lad => make_text(alloc, Made::Lad, seed, size),
    }
}

/// The text of the solution of a made knapsack. `Memory` comes only where memory runs out.
fn solved_knapsack(alloc: Global, seed: u64, size: u32) -> Result<Vec<u8>, Memory>
    requires least { 1 ≤ size }
    requires most { size ≤ 256 }
    ensures { IfOk result (λ text. IsSolvedKnapsack seed size text.items) }
{
    made_knapsack();
    let problem = read_made_knapsack(alloc, seed, size)?;
    tree_packs(&problem);
    let Solved { worth, totals } = solve_made(alloc, &problem)?;
    solved_lines(alloc, b"made knapsack", seed, size, worth - 1, &totals)
}

/// The text of the solution of made tours. `Memory` comes only where memory runs out.
fn solved_tours(alloc: Global, seed: u64, size: u32) -> Result<Vec<u8>, Memory>
    requires least { 2 ≤ size }
    requires most { size ≤ 60 }
    ensures { IfOk result (λ text. IsSolvedTours seed size text.items) }
{
    made_tour();
    let problem = read_made_tours(alloc, seed, size)?;
    tree_tours(&problem);
    let Solved { worth, totals } = solve_made(alloc, &problem)?;
    solved_lines(alloc, b"made tsp", seed, size, (1 << 37) - worth, &totals)
}

/// The problem that the text of a made knapsack says. `Memory` comes only where memory runs out.
fn read_made_knapsack(alloc: Global, seed: u64, size: u32) -> Result<Knapsack, Memory>
    requires least { 1 ≤ size }
    requires most { size ≤ 256 }
    ensures is { IfOk result (λ problem. problem ≡ knapsack_of seed size) }
    ensures root { IfOk result (λ problem. IsNode problem (root_of problem)) }
{
    made_knapsack();
    yew_knap::laws::file_laws();
    let text = make_text(alloc, Made::Knapsack, seed, size)?;
    match yew_knap::read(alloc, &text) {
        Ok(problem) => Ok(problem),
        Err(end) => Err(want_of_memory(end)),
    }
}

/// The problem that the text of made tours says. `Memory` comes only where memory runs out.
fn read_made_tours(alloc: Global, seed: u64, size: u32) -> Result<Tours, Memory>
    requires least { 2 ≤ size }
    requires most { size ≤ 60 }
    ensures is { IfOk result (λ problem. problem ≡ tours_of seed size) }
    ensures root { IfOk result (λ problem. IsTourNode problem (root_of_tours problem)) }
{
    made_tour();
    yew_tsp::laws::file_laws();
    let text = make_text(alloc, Made::Tsp, seed, size)?;
    match yew_tsp::read(alloc, &text) {
        Ok(problem) => Ok(problem),
        Err(end) => Err(want_of_memory(end)),
    }
}

/// The want of memory for which a text that was made is not read: it is in its grammar, and no number of it is past its
/// limit.
fn want_of_memory(end: FileEnd) -> Memory
    requires { end ≡ NoMemory }
{
    match end {
        FileEnd::Memory => Memory,
        FileEnd::Refused(_) | FileEnd::TooLarge { .. } => unreachable!(),
    }
}

/// What the search of one worker tells of a tree.
struct Solved {
    /// The greatest worth.
    worth: u64,
    /// How many entries of each kind its log has.
    totals: Totals,
}

/// The greatest worth of a problem's tree, and the totals of the search of one worker. `Memory` comes only where memory
/// runs out.
fn solve_made<P: Problem>(alloc: Global, problem: &P) -> Result<Solved, Memory>
    requires root { P.sound problem.now (P.root problem.now) }
    ensures worth { IfOk result (λ solved. solved.worth ≡ greatest (search_tree P.Problem problem.now)) }
    ensures totals { IfOk result (λ solved. solved.totals ≡ sequential_totals (search_tree P.Problem problem.now)) }
{
    match search_plain::<_, _, Counts>(alloc, problem, Kind::Best, &NoTally) {
        Ok(
            Found {
                answer: Answer::Best { worth, .. },
                logs,
            },
        ) => Ok(Solved {
            worth,
            totals: logs[0].totals(),
        }),
        Ok(
            Found {
                answer: Answer::Count(_) | Answer::Reach(_),
                ..
            },
        ) => unreachable!(),
        Err(SearchFault::Memory) => Err(Memory),
        Err(SearchFault::AuditFull { .. } | SearchFault::TooManyTasks { .. }) => unreachable!(),
    }
}

/// The four lines of what was made and solved.
fn solved_lines(
    alloc: Global,
    made: &[u8],
    seed: u64,
    size: u32,
    best: u64,
    totals: &Totals,
) -> Result<Vec<u8>, Memory>
    ensures { IfOk result (λ text. text.items ≡ four_lines made.now size seed best totals.now) }
{
    let mut text = Vec::new(alloc);
    push_numbers_line(&mut text, made, &[size as u64, seed])?;
    push_numbers_line(&mut text, b"best", &[best])?;
    push_count_line(&mut text, b"visited ", totals.visited)?;
    push_count_line(&mut text, b"cut ", totals.cut)?;
    Ok(text)
}
