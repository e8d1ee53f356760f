//! The start of a pool: its deques, and for each pass a place at each of them.
ghost use Rattle.std.specs.Prelude.{◌≡◌, ◌≢◌, ◌+◌, ◌<◌, ◌≤◌, length, map, IfOk, OnOk, Some};
ghost use Rattle.crossbeam_deque.specs.Handles.{stealer_deque};
ghost use Rattle.yew_pool.specs.Closing.{deques};
ghost use Rattle.yew_pool.specs.Making.{whole_among, AreMade, AreOwners, AreReady, AreRows, IsRow};
ghost use Rattle.yew_pool.specs.Rule.{left_of, right_of, spent};
ghost use Rattle.yew_pool.specs.Tasks.{told_of};

use crate::places::{OwnDeque, Place, Thief};
use crate::pool::{PoolPass, Room};
use std::alloc::Global;
use yew_laws::{Memory, Problem};

/// The deques, each with the whole share of it, and a handle of each for the pool.
pub fn make_deques<N: Drop, P: Problem<Node = N>>(
    alloc: Global,
    problem: &P,
    passes: usize,
) -> Result<(Vec<OwnDeque<N>>, Vec<Thief<N>>), Memory>
    requires { (0 < passes) × (passes ≤ 64) }
    ensures owns { IfOk result (λ r. AreOwners (told_of P.Problem problem.now) (whole_among passes) 0 0 (deques r.0.items) r.0.items) }
    ensures count { IfOk result (λ r. length r.0.items ≡ passes) }
    ensures stealers { IfOk result (λ r. map stealer_deque r.1.items ≡ deques r.0.items) }
{
    let whole = (passes + passes - 1) as u64;
    let mut owns = Vec::new(alloc);
    let mut stealers = Vec::new(alloc);
    for _ in 0..passes {
        let own = OwnDeque::open(alloc, problem, whole)?;
        stealers.push(own.stealer()?)?;
        owns.push(own)?;
    }
    Ok((owns, stealers))
}

// A place at the deque with a number, for the pass with a number: the owner's has no share.
fn make_place<N: Drop>(own: &mut OwnDeque<N>, at: usize, number: usize) -> Result<Place<N>, Memory>
    requires { at ≢ number → 1 < own.old.hand.share }
    ensures own { OnOk result ((at ≡ number → own.new ≡ own.old) × (at ≢ number → own.new ≡ record own.old { hand = left_of own.old.hand })) }
    ensures idle { IfOk result (λ place. at ≡ number → place ≡ record { deque = own.old.deque; hand = spent; found_empty = 0 }) }
    ensures place { IfOk result (λ place. at ≢ number → place ≡ record { deque = own.old.deque; hand = right_of own.old.hand; found_empty = 0 }) }
{
    if at == number {
        own.idle_place()
    } else {
        own.place()
    }
}

// The places of the pass with this number, one at each deque in order.
fn make_row<N: Drop, P: Problem<Node = N>>(
    alloc: Global,
    problem: &P,
    owns: &mut Vec<OwnDeque<N>>,
    number: usize,
) -> Result<Vec<Place<N>>, Memory>
    requires within { number < length owns.old.items }
    requires owners { AreOwners (told_of P.Problem problem.now) (whole_among (length owns.old.items)) number 0 (deques owns.old.items) owns.old.items }
    ensures owners { OnOk result
        (AreOwners (told_of P.Problem problem.now) (whole_among (length owns.old.items)) (number + 1) 0 (deques owns.old.items) owns.new.items) }
    ensures row { IfOk result (λ row. IsRow (told_of P.Problem problem.now) (whole_among (length owns.old.items)) number (deques owns.old.items) row.items) }
    ensures long { IfOk result (λ row. length row.items ≡ length owns.old.items) }
{
    let _ = problem;
    let mut row = Vec::new(alloc);
    for at in 0..owns.len() {
        let place = make_place(&mut owns[at], at, number)?;
        row.push(place)?;
    }
    Ok(row)
}

/// The places of all passes, a row for each.
pub fn make_rows<N: Drop, P: Problem<Node = N>>(
    alloc: Global,
    problem: &P,
    owns: &mut Vec<OwnDeque<N>>,
) -> Result<Vec<Vec<Place<N>>>, Memory>
    requires { AreOwners (told_of P.Problem problem.now) (whole_among (length owns.old.items)) 0 0 (deques owns.old.items) owns.old.items }
    ensures ready { IfOk result (λ rows. AreReady (told_of P.Problem problem.now) (deques owns.old.items) owns.new.items (map (λ row. row.items) rows.items)) }
    ensures same { OnOk result (deques owns.new.items ≡ deques owns.old.items) }
{
    let mut rows = Vec::new(alloc);
    for number in 0..owns.len() {
        rows.push(make_row(alloc, problem, owns, number)?)?;
    }
    Ok(rows)
}

/// The passes, each of an owner and a row of places.
pub fn make_passes<N: Drop, P: Problem<Node = N>>(
    alloc: Global,
    problem: &P,
    mut owns: Vec<OwnDeque<N>>,
    mut rows: Vec<Vec<Place<N>>>,
) -> Result<Vec<PoolPass<N>>, Memory>
    requires { AreReady (told_of P.Problem problem.now) (deques owns.items) owns.items (map (λ row. row.items) rows.items) }
    ensures { IfOk result (λ passes. AreMade (told_of P.Problem problem.now) (deques owns.items) 0 passes.items) }
{
    let _ = problem;
    let count = owns.len();
    let mut passes = Vec::new(alloc);
    while let Some(own) = owns.pop() {
        let Some(places) = rows.pop() else {
            unreachable!()
        };
        let room = Room::new(alloc, count)?;
        let pass = PoolPass::seated(owns.len(), own, places, room);
        passes.insert(0, pass)?;
    }
    Ok(passes)
}
