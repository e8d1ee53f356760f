//! The plan of the words, where the searcher can do it.

ghost use Rattle.std.specs.Prelude.{◌≡◌, ◌∷◌, [], IfOk, IfErr, IsErrAnd};
ghost use Rattle.yew_words.specs.Word.{texts};
ghost use Rattle.yew_words.specs.Plans.{Planned, planned, PlanOf};
ghost use Rattle.yew_words.specs.Ranges.{IsWithin, file_count_of};
ghost use Rattle.yew_app.specs.Reasons.{reason_of};
ghost use Rattle.yew_app.specs.Refusals.{Reason};
ghost use Rattle.yew_app.specs.Runs.{IsPlanOf, RefusesWords};

use crate::refusal::Refusal;
use crate::searcher::Searcher;
use yew_words::{Plan, Usage, UsageKind, read_words};

/// The plan of the words, or what is wrong with them. A plan with a skeleton that the searcher does not do is refused at its
/// second word.
pub(crate) fn read_plan<'a, W: Searcher>(
    searcher: &W,
    words: &'a [String],
) -> Result<Plan<'a>, Refusal<'a>>
    ensures is_plan { IfOk result (λ plan. IsPlanOf W.does (texts words.now) (planned plan)) }
    ensures within { IfOk result (λ plan. IsWithin (planned plan)) }
    ensures one_plan { IfOk result (λ plan. (other : Planned) → PlanOf (texts words.now) other → planned plan ≡ other) }
    ensures no_plan { IfErr result (λ refusal. (other : Planned) → ¬ IsPlanOf W.does (texts words.now) other) }
    ensures refused { IfErr result (λ refusal. RefusesWords W.does (texts words.now) (reason_of refusal)) }
    ensures each_reason { (reason : Reason) → RefusesWords W.does (texts words.now) reason → IsErrAnd result (λ refusal. reason_of refusal ≡ reason) }
{
    let plan = match read_words(words) {
        Ok(plan) => plan,
        Err(usage) => return Err(Refusal::Usage(usage)),
    };
    if searcher.knows(plan.skeleton) {
        Ok(plan)
    } else {
        Err(Refusal::Usage(Usage {
            place: 2,
            kind: UsageKind::NotHere,
        }))
    }
}

/// The name of the only file of a plan that has one.
pub(crate) fn only_file<'a>(plan: &Plan<'a>) -> &'a str
    requires count { file_count_of plan.now.job ≡ 1 }
    requires within { IsWithin (planned plan.now) }
    ensures { texts plan.now.files.now ≡ result.now ∷ [] }
{
    plan.files[0].as_str()
}

/// The names of the two files of a plan.
#[derive(Clone, Copy)]
pub(crate) struct FilePair<'a> {
    pub first: &'a str,
    pub second: &'a str,
}

/// The names of the files of a plan that has two.
pub(crate) fn both_files<'a>(plan: &Plan<'a>) -> FilePair<'a>
    requires count { file_count_of plan.now.job ≡ 2 }
    requires within { IsWithin (planned plan.now) }
    ensures { texts plan.now.files.now ≡ result.first.now ∷ result.second.now ∷ [] }
{
    FilePair {
        first: plan.files[0].as_str(),
        second: plan.files[1].as_str(),
    }
}
