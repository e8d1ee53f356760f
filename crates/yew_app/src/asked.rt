//! What the words ask of a search.

ghost use Rattle.yew_words.specs.Plans.{planned};
ghost use Rattle.yew_words.specs.Ranges.{IsWithin};
ghost use Rattle.yew_app.specs.Asks.{IsAskable};
ghost use Rattle.yew_app.specs.Runs.{asked_of};

use yew_words::{Plan, Skeleton};

/// What is asked of a search, and what beside the answer.
#[derive(Clone, Copy, Debug)]
pub(crate) struct Asked {
    /// How the tree is searched.
    pub skeleton: Skeleton,
    /// The number of workers.
    pub workers: u32,
    /// The six lines of the report.
    pub report: bool,
    /// The audit.
    pub audit: bool,
}

/// What a plan asks of a search is what words can ask. A law: it does nothing.
pub(crate) fn plan_is_askable<'a>(plan: &Plan<'a>)
    requires within { IsWithin (planned plan.now) }
    ensures { IsAskable (asked_of (planned plan.now)) }
{
    let _ = plan;
}
