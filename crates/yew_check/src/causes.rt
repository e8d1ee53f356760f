//! The held values of visits and cuts.

ghost use Rattle.std.specs.Prelude.{◌<◌, ◌≤◌, IfOk, MatchBool};
ghost use Rattle.std.specs.List.{AllByRecursion, Contains};
ghost use Rattle.std.specs.List.Sorted.{IsPermutation, IsNonDecreasing};
ghost use Rattle.yew_log.specs.Attained.{limit as limit_of};
ghost use Rattle.yew_check.specs.Marks.{seen, all_seen, worths, PermitsCut, IsCaused};

use crate::marks::Mark;
use std::alloc::Global;
use yew_laws::Memory;

/// The worths of the visits, in order.
fn sorted_worths(alloc: Global, marks: &[Mark<'_>]) -> Result<Vec<u64>, Memory>
    ensures same { IfOk result (λ found. IsPermutation (worths (all_seen marks.now)) found.items) }
    ensures order { IfOk result (λ found. IsNonDecreasing found.items) }
{
    let mut found = Vec::new(alloc);
    for mark in marks {
        if mark.is_visit {
            found.push(mark.value)?;
        }
    }
    found.sort_unstable();
    Ok(found)
}

/// Whether a bound may be cut under a held value with a gap; a held value of 0 permits no gap.
fn permits(gap: u64, bound: u64, held: u64) -> bool
    ensures { MatchBool result (bound ≤ limit_of gap held) (limit_of gap held < bound) }
{
    if held == 0 {
        bound == 0
    } else {
        bound <= held.saturating_add(gap)
    }
}

/// Whether a value is one of these, which are in order.
fn is_among(known: &[u64], value: u64) -> bool
    requires { IsNonDecreasing known.now }
    ensures { MatchBool result (Contains known.now value) (¬ Contains known.now value) }
{
    known.binary_search(&value).is_ok()
}

/// Whether this visit or cut has its cause: a cut that its held value permits, and a held value that is 0 or one of these
/// worths, which are in order.
fn has_cause(gap: u64, known: &[u64], mark: &Mark<'_>) -> bool
    requires { IsNonDecreasing known.now }
    ensures { MatchBool result (IsCaused gap known.now (seen mark.now)) (¬ IsCaused gap known.now (seen mark.now)) }
{
    if !mark.is_visit && !permits(gap, mark.value, mark.held) {
        return false;
    }
    if mark.held == 0 {
        return true;
    }
    is_among(known, mark.held)
}

/// Whether each cut is permitted by its held value with this gap, and each held value is 0 or the worth of a visit.
pub fn have_causes(alloc: Global, gap: u64, marks: &[Mark<'_>]) -> Result<bool, Memory>
    ensures { IfOk result (λ caused. MatchBool caused
        (AllByRecursion (IsCaused gap (worths (all_seen marks.now))) (all_seen marks.now))
        (¬ AllByRecursion (IsCaused gap (worths (all_seen marks.now))) (all_seen marks.now))) }
{
    let known = sorted_worths(alloc, marks)?;
    for mark in marks {
        if !has_cause(gap, &known, mark) {
            return Ok(false);
        }
    }
    Ok(true)
}
