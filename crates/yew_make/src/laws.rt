//! What holds of everything that is made. Each function does nothing: its contract is the law.

ghost use Rattle.std.specs.Prelude.{◌≡◌, ℕ, ◌≤◌, ◌<◌, ◌^◌, ◌==◌, false};
ghost use Rattle.yew_make.specs.Graphs.{are_joined};
ghost use Rattle.yew_make.specs.Pairs.{AreInOrder};
ghost use Rattle.yew_make.specs.Laws.{AreGeneratorWords, MadeKnapsack, MadeTour, MadeGraph};

use yew_tsp::laws::file_laws;

/// The draws of a seed are the words of the generator.
pub fn made_draws()
    ensures { (seed count : ℕ) → AreGeneratorWords seed count }
{}

/// The places of the pairs, row by row, are 0, 1, 2 and so on.
pub fn pairs_in_order()
    ensures { (size : ℕ) → AreInOrder size }
{}

/// The text of a made knapsack is a file of the made instance, which is within the limits of knapsack files, and whose
/// profits and weights are from 1 to 1000.
pub fn made_knapsack()
    ensures { (seed size : ℕ) → size ≤ 256 → MadeKnapsack seed size }
{}

/// The text of a made tour instance is a file of the made instance, which is within the limits of tour files. The file has
/// the weights above the diagonal row by row, each from 1 to 1000, in the order in which they are drawn.
pub fn made_tour()
    ensures { (seed size : ℕ) → 2 ≤ size → size ≤ 60 → MadeTour seed size }
{
    file_laws();
}

/// The text of a made graph is a file of that graph: the number of its vertices, and for each vertex the number of its
/// successors and the successors, which are vertices, each named once.
pub fn made_graph()
    ensures { (seed size : ℕ) → size ≤ 1024 → MadeGraph seed size }
{}
