//! Who searches: one worker in preorder, or a crew.

ghost use Rattle.std.specs.Prelude.{◌≡◌, true, false, IfOk, IfErr, IsSome};
ghost use Rattle.yew_kinds.specs.Kinds.{IsKindInRange, gap_of};
ghost use Rattle.yew_laws.specs.Fold.{Fold};
ghost use Rattle.yew_laws.specs.SearchTree.{search_tree};
ghost use Rattle.yew_walk.specs.LogViews.{log_view};
ghost use Rattle.yew_walk.specs.PlainSearch.{searched_tree};
ghost use Rattle.yew_words.specs.declared.plan.Skeleton.{Skeleton as SkeletonValue};
ghost use Rattle.yew_app.specs.Asks.{IsSequential, IsAskable};
ghost use Rattle.yew_app.specs.Searches.{IsFound, IsSearchFault};

use crate::asked::Asked;
use std::alloc::Global;
use yew_kinds::{Kind, Tally};
use yew_laws::Problem;
use yew_log::Recorder;
use yew_walk::{Found, SearchFault, search_plain};
use yew_words::Skeleton;

/// Who searches the trees of problems, by some of the skeletons.
pub(crate) trait Searcher {
    /// The skeletons that it does.
    ghost does: { SkeletonValue → Type 0 };

    /// Whether it does a skeleton.
    fn knows(&self, skeleton: Skeleton) -> bool
        ensures known { result ≡ true → does skeleton }
        ensures unknown { result ≡ false → ¬ does skeleton };
}

/// One worker, which goes through each tree in preorder.
#[derive(Drop)]
pub(crate) struct OneWorker;

impl Searcher for OneWorker {
    ghost does = { IsSequential };

    fn knows(&self, skeleton: Skeleton) -> bool {
        match skeleton {
            Skeleton::Sequential => true,
            Skeleton::Depth(_) | Skeleton::Budget(_) => false,
            Skeleton::Steal { .. } | Skeleton::Ordered(_) => false,
        }
    }
}

/// Searches the tree of a problem by one worker in preorder.
///
/// # Errors
///
/// Memory ran out, or the log has no room for its next entry.
pub(crate) fn search_alone<P: Problem, T: Tally<P::Node>, R: Recorder>(
    alloc: Global,
    problem: &P,
    kind: Kind,
    tally: &T,
    asked: Asked,
) -> Result<Found<T::Sum, R>, SearchFault>
    requires root { P.sound problem.now (P.root problem.now) }
    requires range { IsKindInRange kind }
    requires askable { IsAskable asked }
    requires done { IsSequential asked.skeleton }
    ensures found { IfOk result (λ found. let t = search_tree P.Problem problem.now in
        IsFound t (Fold t (T.join tally.now) (T.none tally.now) (T.of tally.now)) kind asked (λ log. log_view (R.told log) (R.totals log) (R.number log)) found) }
    ensures fault { IfErr result (IsSearchFault (searched_tree (search_tree P.Problem problem.now) kind) (gap_of kind) asked ((log : R) × IsSome (R.told log))) }
{
    let _ = asked;
    search_plain(alloc, problem, kind, tally)
}
