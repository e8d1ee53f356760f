//! The walk over the tree of a task.

ghost use Rattle.std.specs.Prelude.{◌≡◌, ℕ, ◌<◌, ◌≤◌, List, [], IfOk, IfErr, OnOk, MatchBool};
ghost use Rattle.yew_laws.specs.SearchTree.{IsTask};
ghost use Rattle.yew_stack.specs.ToCome.{turns_left, AllOpen};
ghost use Rattle.yew_walk.specs.Entering.{OpensLevel, Enters, StopsEntering};
ghost use Rattle.yew_walk.specs.Keys.{IsKeying};
ghost use Rattle.yew_walk.specs.LogViews.{log_view, IsWithin};
ghost use Rattle.yew_walk.specs.Scenes.{Scene, scene, IsWalking, IsWalked, IsRefused};

use crate::fault::SearchFault;
use crate::hand::Hand;
use crate::keying::Keying;
use crate::outlet::Outlet;
use crate::policy::{Event, Policy};
use crate::share::{ask, note};
use crate::verdict::{Verdict, judge};
use std::alloc::Global;
use yew_best::{Best, BestSeat};
use yew_kinds::Tally;
use yew_laws::{Memory, Problem, Task};
use yew_log::{Recorder, What};
use yew_stack::{Descent, Step};

/// Opens the level of the node at which the descent stands. It is a function of its own since a generator can be large, and
/// most nodes are cut off and need none.
#[inline(always)]
fn go_down<P: Problem>(
    alloc: Global,
    problem: &P,
    node: P::Node,
    stack: &mut Descent<P>,
) -> Result<(), Memory>
    requires root { P.sound problem.now (P.root problem.now) }
    requires node { P.sound problem.now node }
    ensures { OnOk result (OpensLevel P.Problem problem.now stack.old.path node stack.old.levels stack.new.levels) }
{
    let kids = problem.open(alloc, node)?;
    stack.open(kids)
}

/// Visits the node at which the descent stands or cuts it off, and records it. A visited node is taken into account, and
/// its children are a new level.
#[inline(always)]
fn enter<P: Problem, T: Tally<P::Node>, R: Recorder>(
    alloc: Global,
    problem: &P,
    node: P::Node,
    best: &Best,
    seat: &mut BestSeat,
    keying: Keying,
    tally: &T,
    hand: &mut Hand<T::Sum>,
    log: &mut R,
    stack: &mut Descent<P>,
) -> Result<Event, SearchFault>
    requires root { P.sound problem.now (P.root problem.now) }
    requires task { IsTask P.Problem problem.now stack.old.path node }
    requires seat { seat.old.best ≡ best.now }
    requires keying { IsKeying keying }
    requires space { 65535 ≤ hand.old.path.space }
    requires fits { T.fits tally.now hand.old.sum }
    ensures ok { IfOk result (λ event. Enters P.Problem problem.now keying stack.old.path node (T.join tally.now) (T.of tally.now) event
        seat.old hand.old (log_view (R.told log.old) (R.totals log.old) (R.number log.old)) stack.old.levels
        seat.new hand.new (log_view (R.told log.new) (R.totals log.new) (R.number log.new)) stack.new.levels) }
    ensures within { OnOk result (IsWithin (R.told log.new)) }
    ensures err { IfErr result (λ fault. StopsEntering P.Problem problem.now keying stack.old.path node fault
        seat.old (log_view (R.told log.old) (R.totals log.old) (R.number log.old)) seat.new (log_view (R.told log.new) (R.totals log.new) (R.number log.new))) }
    ensures seat { seat.new.best ≡ seat.old.best }
    ensures share { seat.new.share ≡ seat.old.share }
    ensures levels_open { OnOk result (AllOpen P.Problem problem.now stack.old.levels → AllOpen P.Problem problem.now stack.new.levels) }
    ensures space { hand.new.path.space ≡ hand.old.path.space }
    ensures fits { T.fits tally.now hand.new.sum }
{
    match judge(problem, best, seat, keying, stack.path(), &node) {
        Verdict::Cut { bound, read } => match note(log, What::Cut, stack.path(), bound, read) {
            Ok(()) => Ok(Event::CutOff),
            Err(fault) => Err(fault),
        },
        Verdict::Visit { worth, read } => {
            match note(log, What::Visited, stack.path(), worth, read) {
                Ok(()) => {}
                Err(fault) => return Err(fault),
            }
            let depth = stack.path().numbers().len() as u32;
            tally.note(&mut hand.sum, &node, depth);
            hand.keep(keying, worth, stack.path());
            match go_down(alloc, problem, node, stack) {
                Ok(()) => Ok(Event::Visited),
                Err(Memory) => Err(SearchFault::Memory),
            }
        }
    }
}

/// One turn of a walk: the highest level gives a node, which is visited or cut off, or it ends; and then the policy is
/// asked. Answers whether there was a level.
#[inline(always)]
fn turn<P: Problem, Q: Policy, O: Outlet<P>, T: Tally<P::Node>, R: Recorder>(
    alloc: Global,
    problem: &P,
    best: &Best,
    seat: &mut BestSeat,
    keying: Keying,
    policy: &mut Q,
    outlet: &mut O,
    tally: &T,
    hand: &mut Hand<T::Sum>,
    log: &mut R,
    stack: &mut Descent<P>,
) -> Result<bool, SearchFault>
    requires root { P.sound problem.now (P.root problem.now) }
    requires seat { seat.old.best ≡ best.now }
    requires keying { IsKeying keying }
    requires outlet { O.problem outlet.old ≡ problem.now }
    requires space { 65535 ≤ hand.old.path.space }
    requires fits { T.fits tally.now hand.old.sum }
    requires levels_open { AllOpen P.Problem problem.now stack.old.levels }
    ensures ok { OnOk result ((task : List ℕ) (start : O) (first : Scene P.Node T.Sum Q) →
        IsWalking P.Problem problem.now keying (T.join tally.now) (T.of tally.now) Q.meaning task (λ calls. O.goes start calls outlet.old) first
        (scene seat.old hand.old policy.old (O.sent outlet.old) (O.answers outlet.old) (log_view (R.told log.old) (R.totals log.old) (R.number log.old))) stack.old.levels
        → IsWalking P.Problem problem.now keying (T.join tally.now) (T.of tally.now) Q.meaning task (λ calls. O.goes start calls outlet.new) first
        (scene seat.new hand.new policy.new (O.sent outlet.new) (O.answers outlet.new) (log_view (R.told log.new) (R.totals log.new) (R.number log.new))) stack.new.levels) }
    ensures err { IfErr result (λ fault. (task : List ℕ) (start : O) (first : Scene P.Node T.Sum Q) →
        IsWalking P.Problem problem.now keying (T.join tally.now) (T.of tally.now) Q.meaning task (λ calls. O.goes start calls outlet.old) first
        (scene seat.old hand.old policy.old (O.sent outlet.old) (O.answers outlet.old) (log_view (R.told log.old) (R.totals log.old) (R.number log.old))) stack.old.levels
        → IsRefused P.Problem problem.now keying (T.join tally.now) (T.of tally.now) Q.meaning task first
        (scene seat.new hand.new policy.new (O.sent outlet.new) (O.answers outlet.new) (log_view (R.told log.new) (R.totals log.new) (R.number log.new))) fault) }
    ensures more { IfOk result (λ more. MatchBool more (turns_left P.Problem problem.now stack.new.levels < turns_left P.Problem problem.now stack.old.levels) (stack.new.levels ≡ [])) }
    ensures levels_open { OnOk result (AllOpen P.Problem problem.now stack.new.levels) }
    ensures seat { seat.new.best ≡ seat.old.best }
    ensures share { seat.new.share ≡ seat.old.share }
    ensures space { hand.new.path.space ≡ hand.old.path.space }
    ensures fits { T.fits tally.now hand.new.sum }
    ensures problem { O.problem outlet.new ≡ O.problem outlet.old }
    ensures kept { O.kept outlet.old outlet.new }
    ensures later { OnOk result (O.later outlet.old outlet.new) }
{
    match stack.next(alloc, problem) {
        Ok(Step::Node(node)) => {
            let depth = stack.path().numbers().len() as u32;
            let event = match enter(
                alloc, problem, node, best, seat, keying, tally, hand, log, stack,
            ) {
                Ok(event) => event,
                Err(fault) => return Err(fault),
            };
            match ask(alloc, problem, policy, outlet, log, stack, event, depth) {
                Ok(()) => Ok(true),
                Err(fault) => Err(fault),
            }
        }
        Ok(Step::Ended) => {
            let depth = stack.path().numbers().len() as u32;
            match note(log, What::Ended, stack.path(), 0, 0) {
                Ok(()) => {}
                Err(fault) => return Err(fault),
            }
            match ask(
                alloc,
                problem,
                policy,
                outlet,
                log,
                stack,
                Event::Ended,
                depth,
            ) {
                Ok(()) => Ok(true),
                Err(fault) => Err(fault),
            }
        }
        Ok(Step::Empty) => Ok(false),
        Err(_) => Err(SearchFault::Memory),
    }
}

/// Runs one task to its end. What is told of the keys by the caller is known at each node: where it names one kind of them,
/// no node asks again which it is.
#[inline(always)]
fn walk_by<P: Problem, Q: Policy, O: Outlet<P>, T: Tally<P::Node>, R: Recorder>(
    alloc: Global,
    problem: &P,
    task: Task<P::Node>,
    best: &Best,
    seat: &mut BestSeat,
    keying: Keying,
    policy: &mut Q,
    outlet: &mut O,
    tally: &T,
    hand: &mut Hand<T::Sum>,
    log: &mut R,
) -> Result<(), SearchFault>
    requires root { P.sound problem.now (P.root problem.now) }
    requires task { IsTask P.Problem problem.now task.path.numbers task.node }
    requires seat { seat.old.best ≡ best.now }
    requires keying { IsKeying keying }
    requires outlet { O.problem outlet.old ≡ problem.now }
    requires space { 65535 ≤ hand.old.path.space }
    requires fits { T.fits tally.now hand.old.sum }
    ensures walked { OnOk result (IsWalked P.Problem problem.now keying (T.join tally.now) (T.of tally.now) Q.meaning task.path.numbers (T.none tally.now) (λ calls. O.goes outlet.old calls outlet.new)
        (scene seat.old hand.old policy.old (O.sent outlet.old) (O.answers outlet.old) (log_view (R.told log.old) (R.totals log.old) (R.number log.old)))
        (scene seat.new hand.new policy.new (O.sent outlet.new) (O.answers outlet.new) (log_view (R.told log.new) (R.totals log.new) (R.number log.new)))) }
    ensures refused { IfErr result (IsRefused P.Problem problem.now keying (T.join tally.now) (T.of tally.now) Q.meaning task.path.numbers
        (scene seat.old hand.old policy.old (O.sent outlet.old) (O.answers outlet.old) (log_view (R.told log.old) (R.totals log.old) (R.number log.old)))
        (scene seat.new hand.new policy.new (O.sent outlet.new) (O.answers outlet.new) (log_view (R.told log.new) (R.totals log.new) (R.number log.new)))) }
    ensures seat { seat.new.best ≡ seat.old.best }
    ensures share { seat.new.share ≡ seat.old.share }
    ensures space { hand.new.path.space ≡ hand.old.path.space }
    ensures fits { T.fits tally.now hand.new.sum }
    ensures problem { O.problem outlet.new ≡ O.problem outlet.old }
    ensures kept { O.kept outlet.old outlet.new }
    ensures later { OnOk result (O.later outlet.old outlet.new) }
{
    match note(log, What::Taken, &task.path, 0, 0) {
        Ok(()) => {}
        Err(fault) => return Err(fault),
    }
    policy.start();
    let Task { path, node } = task;
    let depth = path.numbers().len() as u32;
    let mut stack = Descent::new(alloc, path);
    let event = match enter(
        alloc, problem, node, best, seat, keying, tally, hand, log, &mut stack,
    ) {
        Ok(event) => event,
        Err(fault) => return Err(fault),
    };
    match ask(
        alloc, problem, policy, outlet, log, &mut stack, event, depth,
    ) {
        Ok(()) => {}
        Err(fault) => return Err(fault),
    }
    loop {
        match turn(
            alloc, problem, best, seat, keying, policy, outlet, tally, hand, log, &mut stack,
        ) {
            Ok(true) => {}
            Ok(false) => return Ok(()),
            Err(fault) => return Err(fault),
        }
    }
}

/// Runs one task to its end: its node and what lies below it are visited or cut off, or split off where the policy asks
/// for it, and sent to the outlet. Each step is recorded.
///
/// A visited node is noted by the tally, and the hand keeps the greatest key of a visited node that is an answer, with
/// its path.
///
/// The kinds of keys are told apart once, before the first node.
///
/// # Errors
///
/// `Memory` where memory ran out, and `AuditFull` where the log has no room for the next entry. `TooManyTasks` never comes.
pub fn walk<P: Problem, Q: Policy, O: Outlet<P>, T: Tally<P::Node>, R: Recorder>(
    alloc: Global,
    problem: &P,
    task: Task<P::Node>,
    best: &Best,
    seat: &mut BestSeat,
    keying: Keying,
    policy: &mut Q,
    outlet: &mut O,
    tally: &T,
    hand: &mut Hand<T::Sum>,
    log: &mut R,
) -> Result<(), SearchFault>
    requires root { P.sound problem.now (P.root problem.now) }
    requires task { IsTask P.Problem problem.now task.path.numbers task.node }
    requires seat { seat.old.best ≡ best.now }
    requires keying { IsKeying keying }
    requires outlet { O.problem outlet.old ≡ problem.now }
    requires space { 65535 ≤ hand.old.path.space }
    requires fits { T.fits tally.now hand.old.sum }
    ensures walked { OnOk result (IsWalked P.Problem problem.now keying (T.join tally.now) (T.of tally.now) Q.meaning task.path.numbers (T.none tally.now) (λ calls. O.goes outlet.old calls outlet.new)
        (scene seat.old hand.old policy.old (O.sent outlet.old) (O.answers outlet.old) (log_view (R.told log.old) (R.totals log.old) (R.number log.old)))
        (scene seat.new hand.new policy.new (O.sent outlet.new) (O.answers outlet.new) (log_view (R.told log.new) (R.totals log.new) (R.number log.new)))) }
    ensures refused { IfErr result (IsRefused P.Problem problem.now keying (T.join tally.now) (T.of tally.now) Q.meaning task.path.numbers
        (scene seat.old hand.old policy.old (O.sent outlet.old) (O.answers outlet.old) (log_view (R.told log.old) (R.totals log.old) (R.number log.old)))
        (scene seat.new hand.new policy.new (O.sent outlet.new) (O.answers outlet.new) (log_view (R.told log.new) (R.totals log.new) (R.number log.new)))) }
    ensures seat { seat.new.best ≡ seat.old.best }
    ensures share { seat.new.share ≡ seat.old.share }
    ensures space { hand.new.path.space ≡ hand.old.path.space }
    ensures fits { T.fits tally.now hand.new.sum }
    ensures problem { O.problem outlet.new ≡ O.problem outlet.old }
    ensures kept { O.kept outlet.old outlet.new }
    ensures later { OnOk result (O.later outlet.old outlet.new) }
{
    match keying {
        Keying::Plain => walk_by(
            alloc,
            problem,
            task,
            best,
            seat,
            Keying::Plain,
            policy,
            outlet,
            tally,
            hand,
            log,
        ),
        Keying::Ranked(rank) => walk_by(
            alloc,
            problem,
            task,
            best,
            seat,
            Keying::Ranked(rank),
            policy,
            outlet,
            tally,
            hand,
            log,
        ),
        Keying::Gap(gap) => walk_by(
            alloc,
            problem,
            task,
            best,
            seat,
            Keying::Gap(gap),
            policy,
            outlet,
            tally,
            hand,
            log,
        ),
    }
}
