//! The laws of audited texts. Each function is a law: it does nothing, and its contract is proved once for all that cite
//! it.

ghost use Rattle.std.specs.Prelude.{◌≡◌, ℕ, List, ◌++◌};
ghost use Rattle.yew_laws.specs.Cover.{Cover};
ghost use Rattle.yew_laws.specs.SearchTree.{search_tree};
ghost use Rattle.yew_log.specs.Attained.{Attained};
ghost use Rattle.yew_log.specs.AuditText.{audit_text};
ghost use Rattle.yew_log.specs.Notes.{Note, visits, cuts, visited_paths, cut_paths};
ghost use Rattle.yew_check.specs.declared.judging.Judged.{Judged};
ghost use Rattle.yew_check.specs.Audits.{IsHeadText, AreWithin, IsAudit};
ghost use Rattle.yew_check.specs.Judging.{Judges};

use crate::judging::Judged;
use yew_laws::Problem;

/// What is written is read back: a head of whole lines, none of them `audit 1`, and behind it the audit of logs of at most 64
/// workers, whose paths have numbers of at most 2^32 - 2, and whose worths, bounds and held values are at most 2^63 - 1.
pub fn audits_are_read_back()
    ensures { (head : List ℕ) (logs : List (List Note)) → IsHeadText head → AreWithin logs → IsAudit (head ++ audit_text logs) head logs }
{}

/// Logs that cover the tree of a problem and whose numbers are right are accepted: none of the judge's other answers holds of
/// them. Of any logs one answer holds at most.
pub fn sound_logs_are_accepted<P: Problem>(problem: &P)
    requires { P.sound problem.now (P.root problem.now) }
    ensures accepted { (gap : ℕ) (notes : List Note) → let t = search_tree P.Problem problem.now in
        Cover t (visited_paths notes) (cut_paths notes) → Attained t gap (visits notes) (cuts notes) → Judges t gap notes Judged.Covers }
    ensures only { (gap : ℕ) (notes : List Note) (first second : Judged) → let t = search_tree P.Problem problem.now in
        Judges t gap notes first → Judges t gap notes second → first ≡ second }
{
    let _ = problem;
}
