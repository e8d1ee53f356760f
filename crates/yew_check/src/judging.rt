//! The judge of audits.

ghost use Rattle.std.specs.Prelude.{IfOk};
ghost use Rattle.yew_laws.specs.SearchTree.{search_tree};
ghost use Rattle.yew_log.specs.WholeSearch.{joined};
ghost use Rattle.yew_check.specs.Judging.{Judges, JudgesMarks};
ghost use Rattle.yew_check.specs.Marks.{all_seen, mark_paths, InOrder};

use crate::causes::have_causes;
use crate::covering::walk;
use crate::file::AuditFile;
use crate::marks::{Mark, has_double, sorted_marks};
use std::alloc::Global;
use yew_laws::{Memory, Problem};

/// What a judge says of the logs of an audit: the first that holds.
#[derive(Clone, Copy, Debug, PartialEq, Eq)]
pub enum Judged {
    /// None of the others.
    Covers,
    /// A path stands in two of the visits and cuts.
    Double,
    /// A visited or cut path is not in the tree, or the visits and the cuts do not cover the tree.
    Cover,
    /// A worth or a bound is not that of its node, a cut is not permitted by its held value, or a held value is neither 0
    /// nor the worth of a visit.
    Number,
}

/// Judges visits and cuts that are in the order of their paths.
fn judge_marks<P: Problem>(
    alloc: Global,
    problem: &P,
    gap: u64,
    marks: &[Mark<'_>],
) -> Result<Judged, Memory>
    requires root { P.sound problem.now (P.root problem.now) }
    requires order { InOrder (mark_paths (all_seen marks.now)) }
    ensures { IfOk result (λ judged. JudgesMarks (search_tree P.Problem problem.now) gap (all_seen marks.now) judged) }
{
    if has_double(marks) {
        return Ok(Judged::Double);
    }
    let Some(fits) = walk(alloc, problem, marks)? else {
        return Ok(Judged::Cover);
    };
    if !fits {
        return Ok(Judged::Number);
    }
    let caused = have_causes(alloc, gap, marks)?;
    if !caused {
        return Ok(Judged::Number);
    }
    Ok(Judged::Covers)
}

/// Judges the logs of an audit, with this gap, without trust in their maker. The answer is the first that holds: a path
/// stands twice; the visits and the cuts do not cover the tree of the problem; a worth, a bound or a held value is wrong;
/// or none of these. What is taken, sent and ended and the order of the entries are not judged.
///
/// The visits and the cuts are sorted by their paths, and the tree is walked once along them.
///
/// # Errors
///
/// Where memory runs out.
pub fn judge<P: Problem>(
    alloc: Global,
    problem: &P,
    gap: u64,
    file: &AuditFile,
) -> Result<Judged, Memory>
    requires { P.sound problem.now (P.root problem.now) }
    ensures { IfOk result (λ judged. Judges (search_tree P.Problem problem.now) gap (joined file.now.logs) judged) }
{
    let marks = sorted_marks(alloc, file.logs())?;
    let judged = judge_marks(alloc, problem, gap, &marks)?;
    Ok(judged)
}
