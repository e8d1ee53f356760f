//! What the tree of a knapsack problem says of the problem, and the laws of its files. Each function does nothing: its
//! contract is the law.

ghost use Rattle.yew_knap.specs.Answers.{TreePacks};
ghost use Rattle.yew_knap.specs.Files.{FileLaws};
ghost use Rattle.yew_knap.specs.Instance.{Instance, IsWithinLimits};
ghost use Rattle.yew_knap.specs.SearchedOrder.{searched_order, IsSearchedOrder};

use crate::knapsack::Knapsack;

/// The lists of the nodes' numbers of copies are all lists that can be carried, each once. So the greatest worth is 1 more
/// than the best profit, and a worth is reached exactly where some list's profit meets the target.
pub fn tree_packs(problem: &Knapsack)
    requires { IsWithinLimits problem.now }
    ensures { TreePacks problem.now }
{
    let _ = problem;
}

/// A knapsack file has one instance or one first offence, and never both; and an instance is within its limits exactly
/// where no number of the file is past its limit.
pub fn file_laws()
    ensures { FileLaws }
{}

/// The order in which items are tried is the items of the file, and no item stands before one that is in front of it.
pub fn order_law()
    ensures { (instance : Instance) → IsSearchedOrder instance (searched_order instance) }
{}
