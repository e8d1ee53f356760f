//! A deque's worker, and a place at a deque of another pass.
ghost use Rattle.std.specs.Prelude.{◌≡◌, ◌<◌, ◌≤◌, [], ◌∷◌, ◌++◌, ◌+◌, IfOk, IfErr, IfSome, IfNone, OnOk};
ghost use Rattle.crossbeam_deque.specs.Handles.{worker_view, worker_flavor, stealer_deque, stealer_flavor};
ghost use Rattle.crossbeam_deque.specs.Steals.{MatchSteal};
ghost use Rattle.yew_laws.specs.Bag.{PartOfBag};
ghost use Rattle.yew_laws.specs.Tasks.{IsAmong};
ghost use Rattle.yew_pool.specs.Places.{once_more};
ghost use Rattle.yew_pool.specs.Rule.{Balances, unopened, started, has_put, has_taken, left_of, right_of, both_of, spent};
ghost use Rattle.yew_pool.specs.Tasks.{IsSoundFor, told_of};

use crate::rule::{
    About, Conserves, Hand, Idle, Looks, Members, OneOff, Puts, Starts, Steals, Takes, Together,
    Wholly,
};
use crossbeam_deque::{Pass, Steal, Stealer, Worker};
use std::alloc::Global;
use std::marker::{Brand, Model};
use std::sync::Wait;
use yew_laws::{Memory, Problem, Task};

type Owner<N> = Worker<Task<N>, Global, Hand<Task<N>, Members<N>>, Conserves>;

pub type Thief<N> = Stealer<Task<N>, Global, Hand<Task<N>, Members<N>>, Conserves>;

/// The deque of a pass, which the pass owns. Contracts see which deque it is and what its owner knows. How often the
/// owner finds it empty is counted at the place that the pass has there.
#[derive(Drop)]
pub struct OwnDeque<N> {
    worker: Owner<N>,
}

impl<N> Model for OwnDeque<N> {
    ghost use Rattle.std.specs.Prelude.{◌≡◌, ◌<◌, ℕ, List};
    ghost use Rattle.yew_laws.specs.declared.problem.Task.{Task as TaskValue};
    ghost use Rattle.crossbeam_deque.specs.Handles.{worker_deque, worker_flavor, worker_view};
    ghost use Rattle.yew_pool.specs.Places.{PlaceView};

    ghost Value = { PlaceView (TaskValue N) (List (List ℕ × N)) };

    ghost view = { λ s. record { deque = worker_deque s.worker; hand = worker_view s.worker; found_empty = 0 } };

    ghost invariant = { λ s. (worker_flavor s.worker ≡ 0) × (0 < (worker_view s.worker).share) };
}

/// A place at a deque, from which it steals. Contracts see which deque it is, what the place knows, and how often the
/// deque was found empty from here, up to the end of the type.
#[derive(Drop)]
pub struct Place<N> {
    stealer: Thief<N>,
    pass: Pass<Task<N>, Hand<Task<N>, Members<N>>, Global>,
    // Raised by a step alone that finds the deque empty.
    found_empty: u64,
}

impl<N> Model for Place<N> {
    ghost use Rattle.std.specs.Prelude.{◌≡◌, ℕ, List};
    ghost use Rattle.yew_laws.specs.declared.problem.Task.{Task as TaskValue};
    ghost use Rattle.crossbeam_deque.specs.Handles as handles;
    ghost use Rattle.crossbeam_deque.specs.Handles.{IsPassOf, stealer_deque, stealer_flavor};
    ghost use Rattle.yew_pool.specs.Places.{PlaceView};

    ghost Value = { PlaceView (TaskValue N) (List (List ℕ × N)) };

    ghost view = { λ s. record { deque = stealer_deque s.stealer; hand = handles.view s.pass; found_empty = s.found_empty } };

    ghost invariant = { λ s. IsPassOf (stealer_deque s.stealer) s.pass × (stealer_flavor s.stealer ≡ 0) };
}

// Tells a new deque the members of the problem's tree and the whole share. The call picks both.
fn start<P: Problem, J: About<Members<P::Node>>>(
    worker: &mut Owner<P::Node>,
    problem: &P,
    whole: u64,
)
    requires view { worker_view worker.old ≡ unopened }
    requires about { (J.members ≡ told_of P.Problem problem.now) × (J.whole ≡ whole) }
    ensures view { worker_view worker.new ≡ started whole (told_of P.Problem problem.now) }
    ensures same { worker_flavor worker.new ≡ worker_flavor worker.old }
{
    let _ = problem;
    let _ = whole;
    worker.another::<Starts<J>>();
}

impl<N: Drop> OwnDeque<N> {
    /// Adds a task at the back. A refusal hands the task back and changes nothing.
    pub fn put(&mut self, task: Task<N>) -> Result<(), Task<N>>
        requires { IsSoundFor IsAmong self.old.hand.members task }
        ensures ok { OnOk result (self.new ≡ record self.old { hand = has_put self.old.hand task }) }
        ensures refused { IfErr result (λ back. (back ≡ task) × (self.new ≡ self.old)) }
    {
        self.worker.push_as::<Puts>(task)
    }

    /// Takes the first task.
    pub fn pop(&mut self) -> Option<Task<N>>
        ensures task { IfSome result (λ task. self.new ≡ record self.old { hand = has_taken self.old.hand task }) }
        ensures sound { IfSome result (λ task. IsSoundFor IsAmong self.old.hand.members task) }
        ensures part { IfSome result (λ task. self.old.hand.share ≡ self.old.hand.whole → PartOfBag (self.old.hand.took ++ task ∷ []) self.old.hand.put) }
        ensures none { IfNone result ((self.new ≡ self.old) × Balances self.old.hand []) }
    {
        self.worker.pop_as::<Takes>()
    }

    /// Takes the first task for a pass with a place at this deque, where a deque that is found empty is counted.
    pub fn pop_at(&mut self, place: &mut Place<N>) -> Option<Task<N>>
        requires { place.old.deque ≡ self.old.deque }
        ensures task { IfSome result (λ task. (self.new ≡ record self.old { hand = has_taken self.old.hand task }) × (place.new ≡ place.old)) }
        ensures sound { IfSome result (λ task. IsSoundFor IsAmong self.old.hand.members task) }
        ensures part { IfSome result (λ task. self.old.hand.share ≡ self.old.hand.whole → PartOfBag (self.old.hand.took ++ task ∷ []) self.old.hand.put) }
        ensures none { IfNone result ((self.new ≡ self.old) × Balances self.old.hand []) }
        ensures counted { IfNone result (place.new ≡ record place.old { found_empty = once_more place.old.found_empty }) }
    {
        match self.pop() {
            Some(task) => Some(task),
            None => {
                place.found_empty = place.found_empty.saturating_add(1);
                None
            }
        }
    }

    // Makes a place with a share of 1, which is taken off the deque's own.
    pub fn place(&mut self) -> Result<Place<N>, Memory>
        requires { 1 < self.old.hand.share }
        ensures place { IfOk result (λ place. place ≡ record { deque = self.old.deque; hand = right_of self.old.hand; found_empty = 0 }) }
        ensures own { OnOk result (self.new ≡ record self.old { hand = left_of self.old.hand }) }
    {
        let stealer = self.worker.stealer()?;
        let pass = self.worker.another::<OneOff>();
        Ok(Place {
            stealer,
            pass,
            found_empty: 0,
        })
    }

    // Makes a place with no share.
    pub fn idle_place(&mut self) -> Result<Place<N>, Memory>
        ensures place { IfOk result (λ place. place ≡ record { deque = self.old.deque; hand = spent; found_empty = 0 }) }
        ensures own { OnOk result (self.new ≡ self.old) }
    {
        let stealer = self.worker.stealer()?;
        let pass = self.worker.another::<Idle>();
        Ok(Place {
            stealer,
            pass,
            found_empty: 0,
        })
    }

    // Takes in a place at this deque.
    pub fn absorb(&mut self, place: Place<N>)
        requires { place.deque ≡ self.old.deque }
        ensures { self.new ≡ record self.old { hand = both_of self.old.hand place.hand } }
    {
        let Place {
            stealer: _,
            pass,
            found_empty: _,
        } = place;
        self.worker.absorb::<Together>(pass);
    }

    // Takes in another owner of this deque.
    fn absorb_owner(&mut self, other: OwnDeque<N>)
        requires { other.deque ≡ self.old.deque }
        ensures { self.new ≡ record self.old { hand = both_of self.old.hand other.hand } }
    {
        let OwnDeque { mut worker } = other;
        let pass = worker.another::<Wholly>();
        self.worker.absorb::<Together>(pass);
    }

    /// A deque has no two owners that have more than the whole share together.
    pub fn meet(mut self, other: OwnDeque<N>)
        requires deque { other.deque ≡ self.deque }
        requires more { self.hand.whole < self.hand.share + other.hand.share }
        ensures { ⊥ }
    {
        self.absorb_owner(other);
        self.settle();
    }

    // Looks at the deque, which changes nothing.
    pub fn settle(&mut self)
        ensures same { self.new ≡ self.old }
        ensures most { self.old.hand.share ≤ self.old.hand.whole }
        ensures part { self.old.hand.share ≡ self.old.hand.whole → PartOfBag self.old.hand.took self.old.hand.put }
    {
        self.worker.len_as::<Looks>();
    }

    // A new deque, whose owner has the whole share.
    pub fn open<P: Problem<Node = N>>(
        alloc: Global,
        problem: &P,
        whole: u64,
    ) -> Result<OwnDeque<N>, Memory>
        requires { 0 < whole }
        ensures { IfOk result (λ own. (own.hand ≡ started whole (told_of P.Problem problem.now)) × (own.found_empty ≡ 0)) }
    {
        let mut worker = Owner::<N>::fifo_as(alloc, 4)?;
        start::<P, Brand>(&mut worker, problem, whole);
        Ok(OwnDeque { worker })
    }

    // A handle for the pool.
    pub fn stealer(&self) -> Result<Thief<N>, Memory>
        ensures { IfOk result (λ stealer. stealer_deque stealer ≡ self.now.deque) }
    {
        Ok(self.worker.stealer()?)
    }
}

impl<N: Drop> Place<N> {
    // One try to take the first task.
    fn try_steal(&mut self) -> Steal<Task<N>>
        requires { 0 < self.old.hand.share }
        ensures { MatchSteal result (self.new ≡ self.old) (self.new ≡ self.old)
            (λ task. (self.new ≡ record self.old { hand = has_taken self.old.hand task }) × IsSoundFor IsAmong self.old.hand.members task) }
    {
        self.stealer.steal_as::<Steals>(&mut self.pass)
    }

    /// Takes the first task. A steal that is to be tried again is tried again, and one that finds the deque empty is
    /// counted.
    pub fn steal<R: Wait>(&mut self, rt: &R) -> Option<Task<N>>
        requires { 0 < self.old.hand.share }
        ensures task { IfSome result (λ task. self.new ≡ record self.old { hand = has_taken self.old.hand task }) }
        ensures sound { IfSome result (λ task. IsSoundFor IsAmong self.old.hand.members task) }
        ensures none { IfNone result (self.new ≡ record self.old { found_empty = once_more self.old.found_empty }) }
    {
        for _ in rt.forever() {
            match self.try_steal() {
                Steal::Success(task) => return Some(task),
                Steal::Empty => {
                    self.found_empty = self.found_empty.saturating_add(1);
                    return None;
                }
                Steal::Retry => {}
            }
        }
        unreachable!()
    }
}
