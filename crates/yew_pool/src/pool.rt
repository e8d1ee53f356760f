//! The pool and its passes.
ghost use Rattle.std.specs.Prelude.{◌≡◌, ◌≢◌, ◌⊎◌, ◌+◌, ◌<◌, ◌≤◌, [], ◌∷◌, ◌++◌, length, map, sum_by, All, slice_index_or, vec_capacity, ℕ};
ghost use Rattle.std.specs.Prelude.{IfErr, IfOk, IfSome, IfNone, OnErr, OnOk, Some};
ghost use Rattle.yew_laws.specs.Bag.{SameBag, PartOfBag};
ghost use Rattle.yew_laws.specs.SearchTree.{search_tree};
ghost use Rattle.yew_laws.specs.Tasks.{IsAmong, members_of};
ghost use Rattle.yew_pool.specs.Passes.{AreSeated, IsSeated, HasTaken, HasLooked, HasLookedRound, IsLeft, IsPartLeft, new_pass, pass_view};
ghost use Rattle.yew_pool.specs.Places.{once_more};
ghost use Rattle.yew_pool.specs.Takes.{IfTask, OnEmpty};
ghost use Rattle.yew_pool.specs.Tasks.{IsSoundFor};

use crate::closing::{empty, look_at_shares, merge, order, settle, take_apart};
use crate::making::{make_deques, make_passes, make_rows};
use crate::places::{OwnDeque, Place, Thief};
use std::alloc::Global;
use std::marker::Model;
use std::sync::Wait;
use yew_laws::{Memory, Problem, Task};

/// The tasks that were put and not taken, in a deque for each pass. Contracts see which deques they are.
#[derive(Drop)]
pub struct Pool<N> {
    stealers: Vec<Thief<N>>,
}

impl<N> Model for Pool<N> {
    ghost use Rattle.std.specs.Prelude.{map};
    ghost use Rattle.crossbeam_deque.specs.Handles.{stealer_deque};
    ghost use Rattle.yew_pool.specs.Passes.{PoolId};

    ghost Value = { PoolId };

    ghost view = { λ p. record { deques = map stealer_deque p.stealers.items } };
}

/// A thread's side of the pool: the deque that it owns, and a place at each deque. Contracts see the pool, the number
/// of the pass, its share, the members of the problem's tree, what it has put and taken, and how often it has found each
/// deque empty.
#[derive(Drop)]
pub struct PoolPass<N> {
    number: usize,
    own: OwnDeque<N>,
    places: Vec<Place<N>>,
    room: Room<N>,
}

impl<N> Model for PoolPass<N> {
    ghost use Rattle.std.specs.Prelude.{ℕ, List};
    ghost use Rattle.yew_laws.specs.declared.problem.Task.{Task as TaskValue};
    ghost use Rattle.yew_pool.specs.Passes.{PassView, pass_view, IsSeated};

    ghost Value = { PassView (TaskValue N) (List (List ℕ × N)) };

    ghost view = { λ s. pass_view s.number s.own s.places.items };

    ghost invariant = { λ s. IsSeated s.number s.own s.places.items s.room };
}

/// Room for the deques and the places of all passes, so that `close` takes no memory to take the passes apart.
/// Contracts see for how many passes it is.
#[derive(Drop)]
pub(crate) struct Room<N> {
    owns: Vec<OwnDeque<N>>,
    rows: Vec<Vec<Place<N>>>,
}

impl<N> Model for Room<N> {
    ghost use Rattle.std.specs.Prelude.{◌≡◌, ℕ, [], min};
    ghost use Rattle.std.specs.Vec.{vec_capacity};

    ghost Value = { ℕ };

    ghost view = { λ s. min (vec_capacity s.owns) (vec_capacity s.rows) };

    ghost invariant = { λ s. (s.owns.items ≡ []) × (s.rows.items ≡ []) };
}

impl<N: Drop> Room<N> {
    pub(crate) fn new(alloc: Global, passes: usize) -> Result<Room<N>, Memory>
        ensures { IfOk result (λ room. room ≡ passes) }
    {
        let owns = Vec::with_capacity(alloc, passes)?;
        let rows = Vec::with_capacity(alloc, passes)?;
        Ok(Room { owns, rows })
    }

    pub(crate) fn into_vecs(self) -> (Vec<OwnDeque<N>>, Vec<Vec<Place<N>>>)
        ensures empty { (result.0.items ≡ []) × (result.1.items ≡ []) }
        ensures room { (self ≤ vec_capacity result.0) × (self ≤ vec_capacity result.1) }
    {
        let Room { owns, rows } = self;
        (owns, rows)
    }
}

/// There was no memory. The task comes back.
#[derive(Drop)]
pub struct Refused<N> {
    pub task: Task<N>,
}

/// A task, or the answer that each deque was found empty.
#[derive(Drop)]
pub enum Take<N> {
    Task(Task<N>),
    Empty,
}

impl<N: Drop> PoolPass<N> {
    // A new pass, of a deque and the places at all deques.
    pub(crate) fn seated(
        number: usize,
        own: OwnDeque<N>,
        places: Vec<Place<N>>,
        room: Room<N>,
    ) -> PoolPass<N>
        requires seated { AreSeated number own places.items }
        requires room { length places.items ≤ room }
        ensures { result ≡ pass_view number own places.items }
    {
        PoolPass {
            number,
            own,
            places,
            room,
        }
    }

    // The number of the pass, from 0.
    pub(crate) fn number(&self) -> usize
        ensures number { (result ≡ self.now.number) × (result < length self.now.pool.deques) }
        ensures share { self.now.share ≡ 1 }
    {
        self.number
    }

    // Its place among all passes, where the last comes first.
    pub(crate) fn place(&self) -> usize
        ensures { self.now.number + result + 1 ≡ length self.now.pool.deques }
    {
        self.places.len() - 1 - self.number
    }

    // Two passes with one number would be two owners of one deque.
    pub(crate) fn meet(self, other: PoolPass<N>)
        requires pool { other.pool ≡ self.pool }
        requires number { other.number ≡ self.number }
        ensures { ⊥ }
    {
        let PoolPass {
            number: _,
            own,
            places: _,
            room: _,
        } = self;
        let PoolPass {
            number: _,
            own: second,
            places: _,
            room: _,
        } = other;
        own.meet(second);
    }

    // The deque, the places at all deques, and the room.
    pub(crate) fn into_parts(self) -> (OwnDeque<N>, Vec<Place<N>>, Room<N>)
        ensures seated { IsSeated self.number result.0 result.1.items result.2 }
        ensures view { pass_view self.number result.0 result.1.items ≡ self }
    {
        let PoolPass {
            number: _,
            own,
            places,
            room,
        } = self;
        (own, places, room)
    }

    // Pops the own deque.
    fn pop(&mut self) -> Option<Task<N>>
        ensures task { IfSome result (λ task. HasTaken self.old task self.new × IsSoundFor IsAmong self.old.members task) }
        ensures none { IfNone result (HasLooked self.old.number (self.old.number + 1) self.old self.new) }
        ensures counts { length self.old.found_empty ≡ length self.old.pool.deques }
        ensures none_left { IfNone result (length self.old.pool.deques ≡ 1 → SameBag self.old.put self.old.took) }
        ensures one_left { IfSome result (λ task. length self.old.pool.deques ≡ 1 → PartOfBag (task ∷ self.old.took) self.old.put) }
    {
        let number = self.number;
        self.own.pop_at(&mut self.places[number])
    }

    // Steals from the deque with another number.
    fn steal<R: Wait>(&mut self, rt: &R, number: usize) -> Option<Task<N>>
        requires within { number < length self.old.pool.deques }
        requires other { number ≢ self.old.number }
        ensures task { IfSome result (λ task. HasTaken self.old task self.new × IsSoundFor IsAmong self.old.members task) }
        ensures none { IfNone result (HasLooked number (number + 1) self.old self.new) }
    {
        self.places[number].steal(rt)
    }

    // Steals from the deques with these numbers, in turn.
    fn steal_among<R: Wait>(&mut self, rt: &R, first: usize, end: usize) -> Take<N>
        requires within { end ≤ length self.old.pool.deques }
        requires other { (self.old.number < first) ⊎ (end ≤ self.old.number) }
        requires order { first ≤ end }
        ensures task { IfTask result (λ task. (first < end) × HasTaken self.old task self.new × IsSoundFor IsAmong self.old.members task) }
        ensures empty { OnEmpty result (HasLooked first end self.old self.new) }
    {
        for number in first..end {
            if let Some(task) = self.steal(rt, number) {
                return Take::Task(task);
            }
        }
        Take::Empty
    }
}

impl<N: Drop> Pool<N> {
    /// Makes a pool for a problem and its passes, 1 to 64, of which pass k stands at place k-1.
    ///
    /// # Errors
    /// `Memory` where memory ran out.
    pub fn new<P: Problem<Node = N>>(
        alloc: Global,
        problem: &P,
        passes: u32,
    ) -> Result<(Pool<N>, Vec<PoolPass<N>>), Memory>
        requires { (0 < passes) × (passes ≤ 64) }
        ensures pool { IfOk result (λ r. length r.0.deques ≡ passes) }
        ensures count { IfOk result (λ r. length r.1.items ≡ passes) }
        ensures passes { IfOk result (λ r. (number : ℕ) (other : _) → number < passes
            → slice_index_or r.1.items number other ≡ new_pass r.0 (Some (members_of (search_tree P.Problem problem.now))) number) }
    {
        let (mut owns, stealers) = make_deques(alloc, problem, passes as usize)?;
        let rows = make_rows(alloc, problem, &mut owns)?;
        let passes = make_passes(alloc, problem, owns, rows)?;
        Ok((Pool { stealers }, passes))
    }

    /// Adds a task to the deque of the pass. A refusal hands the task back and changes nothing.
    ///
    /// # Errors
    ///
    /// `Refused`, with the task, where memory ran out.
    pub fn put(&self, pass: &mut PoolPass<N>, task: Task<N>) -> Result<(), Refused<N>>
        requires pool { pass.old.pool ≡ self.now }
        requires sound { IsSoundFor IsAmong pass.old.members task }
        ensures ok { OnOk result (pass.new ≡ record pass.old { put = pass.old.put ++ task ∷ [] }) }
        ensures refused { IfErr result (λ r. (r.task ≡ task) × (pass.new ≡ pass.old)) }
    {
        match pass.own.put(task) {
            Ok(()) => Ok(()),
            Err(task) => Err(Refused { task }),
        }
    }

    /// Takes the first task of the pass's own deque, or else of another: it tries each other deque by rising number,
    /// from the next one and round, and tries again where another thread came first. `Empty` comes only where each
    /// deque was empty at a step of this call, which the pass counts.
    pub fn take<R: Wait>(&self, rt: &R, pass: &mut PoolPass<N>) -> Take<N>
        requires { pass.old.pool ≡ self.now }
        ensures task { IfTask result (λ task. HasTaken pass.old task pass.new × IsSoundFor IsAmong pass.old.members task) }
        ensures empty { OnEmpty result (pass.new ≡ record pass.old { found_empty = map once_more pass.old.found_empty }) }
        ensures counts { length pass.new.found_empty ≡ length self.now.deques }

        // With one pass, `Empty` comes exactly where its put and its took are the same bag.
        ensures none_left { OnEmpty result (length self.now.deques ≡ 1 → SameBag pass.old.put pass.old.took) }
        ensures one_left { IfTask result (λ task. length self.now.deques ≡ 1 → PartOfBag (task ∷ pass.old.took) pass.old.put) }
    {
        match pass.pop() {
            Some(task) => Take::Task(task),
            None => self.steal(rt, pass),
        }
    }

    // Tries each other deque in turn.
    fn steal<R: Wait>(&self, rt: &R, pass: &mut PoolPass<N>) -> Take<N>
        requires { pass.old.pool ≡ self.now }
        ensures task { IfTask result (λ task. (1 < length self.now.deques) × HasTaken pass.old task pass.new × IsSoundFor IsAmong pass.old.members task) }
        ensures empty { OnEmpty result (HasLookedRound pass.old pass.new) }
    {
        let passes = self.stealers.len();
        let own = pass.number();
        match pass.steal_among(rt, own + 1, passes) {
            Take::Task(task) => Take::Task(task),
            Take::Empty => pass.steal_among(rt, 0, own),
        }
    }

    /// Ends the pool with all its passes, in any order, and appends the tasks that were put and not taken.
    ///
    /// # Errors
    /// `Memory` where `left` could not grow. It has some of the tasks then, and the others are dropped.
    pub fn close(self, mut passes: Vec<PoolPass<N>>, left: &mut Vec<Task<N>>) -> Result<(), Memory>
        requires pool { All (λ pass. pass.pool ≡ self) passes.items }
        requires all { sum_by (λ pass. pass.share) passes.items ≡ length self.deques }
        ensures ok { OnOk result (IsLeft IsAmong passes.items left.old.items left.new.items) }
        ensures memory { OnErr result (IsPartLeft IsAmong passes.items left.old.items left.new.items) }
    {
        if passes.is_empty() {
            return Ok(());
        }
        look_at_shares(&passes);
        order(&self, &mut passes);
        let (mut owns, rows) = take_apart(&self, passes);
        merge(&mut owns, rows);
        settle(&mut owns);
        empty(owns, left)
    }
}
