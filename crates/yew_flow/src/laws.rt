//! What the tree of a flow shop says of the problem, and the laws of its files. Each function does nothing: its contract is
//! the law.

ghost use Rattle.yew_flow.specs.Answers.{TreeOrders};
ghost use Rattle.yew_flow.specs.Files.{FileLaws};
ghost use Rattle.yew_flow.specs.Instance.{IsWithinLimits};

use crate::flow::Flow;

/// The nodes with all jobs are the orders, each once, and each is worth 2^37 less its makespan; other nodes have no worth.
/// So the greatest worth is 2^37 less the least makespan of all orders.
pub fn tree_orders(problem: &Flow)
    requires { IsWithinLimits problem.now }
    ensures { TreeOrders problem.now }
{
    let _ = problem;
}

/// A file of a flow shop has one instance or one first offence, and never both. Of a file that has an instance, either one
/// number is the first past its limit, or none is past, and then the instance is within its limits.
pub fn file_laws()
    ensures { FileLaws }
{}
