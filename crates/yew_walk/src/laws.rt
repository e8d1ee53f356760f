//! The laws of a worker's log. Each function is a law: it does nothing, and its contract is proved once for all that cite it.

ghost use Rattle.std.specs.Prelude.{◌≡◌, ℕ, [], List};
ghost use Rattle.std.specs.List.{AllByRecursion};
ghost use Rattle.yew_best.specs.Seats.{SeatView};
ghost use Rattle.yew_laws.specs.SearchTree.{search_tree};
ghost use Rattle.yew_log.specs.HeldValues.{KeyKind, HeldRises, HeldIsMaximum, IsJudged};
ghost use Rattle.yew_log.specs.Segment.{entries, entries_in};
ghost use Rattle.yew_walk.specs.Keys.{gap_in};
ghost use Rattle.yew_walk.specs.WorkerLogs.{KeyedSegment, segments_of, SeatGoesOn, KeysRise};

use yew_laws::Problem;

/// A worker's walks keep the rules of held values together, since one seat goes along them all: the values never fall, and
/// each visit had to be made also after the earlier walks, under plain keys and for items of rising numbers. Where the seat
/// has the whole share and had offered nothing before, each held value is the greatest worth visited before it.
pub fn walks_join<P: Problem>(problem: &P)
    ensures rises { (walks : List KeyedSegment) (first now : SeatView) → let t = search_tree P.Problem problem.now in
        SeatGoesOn t first walks now → KeysRise walks → AllByRecursion (λ w. HeldRises (entries_in w.segment)) walks → HeldRises (entries (segments_of walks)) }
    ensures judged { (gap : ℕ) (kind : KeyKind) (walks : List KeyedSegment) (first now : SeatView) → AllByRecursion (λ w. gap_in w.keying ≡ gap) walks → let t = search_tree P.Problem problem.now in
        SeatGoesOn t first walks now → KeysRise walks → AllByRecursion (λ w. IsJudged t gap kind (entries_in w.segment)) walks → IsJudged t gap kind (entries (segments_of walks)) }
    ensures exact { (walks : List KeyedSegment) (first now : SeatView) → let t = search_tree P.Problem problem.now in
        SeatGoesOn t first walks now → KeysRise walks → first.offered ≡ [] → first.share ≡ first.best.seats → HeldIsMaximum (entries (segments_of walks)) }
{
    let _ = problem;
}
