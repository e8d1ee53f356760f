//! What the tree of a problem of tours says of the problem, and the laws of its files. Each function does nothing: its
//! contract is the law.

ghost use Rattle.yew_tsp.specs.Answers.{TreeTours};
ghost use Rattle.yew_tsp.specs.Files.{FileLaws};
ghost use Rattle.yew_tsp.specs.Instance.{IsWithinLimits};

use crate::tours::Tours;

/// The nodes with all cities are the tours, each once, and each is worth 2^37 less its length; other nodes have no worth.
/// So the greatest worth is 2^37 less the least length of all tours.
pub fn tree_tours(problem: &Tours)
    requires { IsWithinLimits problem.now }
    ensures { TreeTours problem.now }
{
    let _ = problem;
}

/// A file of tours has one instance or one first offence, and never both. Of a file that has an instance, either one number
/// is the first past its limit, or none is past, and then the instance is within its limits.
pub fn file_laws()
    ensures { FileLaws }
{}
