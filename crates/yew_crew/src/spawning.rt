//! A worker's outlet where tasks go to the pool.
ghost use Rattle.std.specs.Prelude.{◌≡◌, ◌+◌, ◌++◌, true, false, ◌||◌, length, Some, None, OnOk, OnErr};
ghost use Rattle.std.specs.List.{AllByRecursion};
ghost use Rattle.yew_laws.specs.Bag.{SameBag};
ghost use Rattle.yew_laws.specs.SearchTree.{IsTask};
ghost use Rattle.yew_laws.specs.Tasks.{IsAmong};
ghost use Rattle.yew_pool.specs.Passes.{HasTaken};
ghost use Rattle.yew_pool.specs.Takes.{IfTask, OnEmpty};
ghost use Rattle.yew_pool.specs.Tasks.{IsSoundFor};
ghost use Rattle.yew_walk.specs.Outlets.{IsSentPart};
ghost use Rattle.yew_crew.specs.OpenSeats.{IsExact};
ghost use Rattle.yew_crew.specs.Outlets.{KeepsSpawning, IsLaterSpawning};

use crate::open_tasks::{Open, OpenSeat};
use std::marker::Model;
use std::sync::Wait;
use yew_laws::{Memory, Problem, Task};
use yew_pool::{Pool, PoolPass, Refused, Take};
use yew_walk::Outlet;

/// The side of a worker that spawns: its pass at the pool, and its seat at the open tasks. Each task is counted as made
/// before the pool has it. No tasks are ever wanted.
#[derive(Drop)]
pub struct Spawning<'a, P: Problem> {
    pub problem: &'a P,
    pub pool: &'a Pool<P::Node>,
    pub open: &'a Open,
    pub pass: PoolPass<P::Node>,
    pub tasks: OpenSeat,
}

impl<'a, P: Problem> Model for Spawning<'a, P> {
    ghost use Rattle.std.specs.Prelude.{◌≡◌, Some};
    ghost use Rattle.yew_crew.specs.Outlets.{SpawningView};
    ghost use Rattle.yew_laws.specs.SearchTree.{search_tree};
    ghost use Rattle.yew_laws.specs.Tasks.{members_of};

    ghost Value = { SpawningView P P.Node };

    ghost view = { λ o. record { problem = o.problem.now; pass = o.pass; tasks = o.tasks } };

    ghost invariant = { λ o. (o.pass.pool ≡ o.pool.now) × (o.tasks.tasks ≡ o.open.now) × (o.pass.members ≡ Some (members_of (search_tree P.Problem o.problem.now)))
        × P.sound o.problem.now (P.root o.problem.now) };
}

impl<'a, P: Problem> Spawning<'a, P> {
    /// Takes a task from the pool.
    pub fn take<R: Wait>(&mut self, rt: &R) -> Take<P::Node>
        ensures task { IfTask result (λ task. (self.new ≡ record self.old { pass = self.new.pass }) × HasTaken self.old.pass task self.new.pass × IsTask P.Problem self.old.problem task.path.numbers task.node) }
        ensures empty { OnEmpty result (self.new ≡ record self.old { pass = record self.old.pass { found_empty = self.new.pass.found_empty } }) }
    {
        self.pool.take(rt, &mut self.pass)
    }

    /// Counts a task as ended.
    pub fn ended(&mut self)
        ensures { self.new ≡ record self.old { tasks = record self.old.tasks { ended = self.old.tasks.ended + 1 } } }
    {
        self.open.ended(&mut self.tasks);
    }

    /// Loads the count of open tasks.
    pub fn load(&mut self) -> u64
        ensures loaded { self.new ≡ record self.old { tasks = record self.old.tasks { last = Some result; knew = self.old.tasks.knows } } }
        ensures whole { self.old.tasks.share ≡ self.old.tasks.tasks.seats → IsExact self.old.tasks result }
    {
        self.open.load(&mut self.tasks)
    }

    /// Tells all to stop.
    pub fn stop(&mut self)
        ensures { self.new ≡ record self.old { tasks = record self.old.tasks { stops = self.old.tasks.stops + 1 } } }
    {
        self.open.stop(&mut self.tasks);
    }

    /// Whether somebody has told all to stop.
    pub fn stopped(&mut self) -> bool
        ensures { self.new ≡ record self.old { tasks = record self.old.tasks { saw = self.old.tasks.saw || result } } }
    {
        self.open.stopped(&mut self.tasks)
    }
}

impl<'a, P: Problem> Outlet<P> for Spawning<'a, P> {
    ghost use Rattle.yew_crew.specs.OutletLaws.{keeps_spawning_same, keeps_spawning_twice, later_spawning_same, later_spawning_twice};

    ghost problem = { λ o. o.problem };

    ghost sent = { λ o. o.pass.put };

    ghost answers = { λ _. None };

    ghost kept = { KeepsSpawning };

    ghost later = { IsLaterSpawning };

    ghost goes = { λ _ _ _. Unit {0} };

    ghost kept_same = { keeps_spawning_same };

    ghost kept_twice = { keeps_spawning_twice };

    ghost later_same = { later_spawning_same };

    ghost later_twice = { later_spawning_twice };

    ghost goes_none = { λ _. tt };

    ghost goes_on = { λ _ _ _ _ _ _ _. tt };

    #[tactic(auto, using(crate::specs::OutletLaws::keeps_spawning_same, crate::specs::OutletLaws::later_spawning_same))]
    fn wanted(&mut self) -> bool {
        false
    }

    fn send(&mut self, tasks: Vec<Task<P::Node>>) -> Result<(), Memory>
        requires { AllByRecursion (λ task. IsTask P.Problem self.old.problem task.path.numbers task.node) tasks.items }
        ensures ok { OnOk result (SameBag self.new.pass.put (self.old.pass.put ++ tasks.items)) }
        ensures err { OnErr result (IsSentPart (λ task. IsTask P.Problem self.old.problem task.path.numbers task.node) self.old.pass.put tasks.items self.new.pass.put) }
        ensures answers { Unit {0} }
        ensures problem { self.new.problem ≡ self.old.problem }
        ensures kept { KeepsSpawning self.old self.new }
        ensures later { OnOk result (IsLaterSpawning self.old self.new) }
        ensures goes { OnOk result (Unit {0}) }
    {
        self.open.made(&mut self.tasks, tasks.len() as u64);
        put_all(self.pool, &mut self.pass, tasks)
    }
}

// Puts tasks into the pool, in order, until one is refused.
fn put_all<N: Drop>(
    pool: &Pool<N>,
    pass: &mut PoolPass<N>,
    tasks: Vec<Task<N>>,
) -> Result<(), Memory>
    requires pool { pass.old.pool ≡ pool.now }
    requires sound { AllByRecursion (IsSoundFor IsAmong pass.old.members) tasks.items }
    ensures ok { OnOk result (SameBag pass.new.put (pass.old.put ++ tasks.items)) }
    ensures err { OnErr result (IsSentPart (IsSoundFor IsAmong pass.old.members) pass.old.put tasks.items pass.new.put) }
    ensures same { pass.new ≡ record pass.old { put = pass.new.put } }
{
    let mut rest = tasks;
    rest.reverse();
    while let Some(task) = rest.pop() {
        match pool.put(pass, task) {
            Ok(()) => {}
            Err(Refused { task: _ }) => return Err(Memory),
        }
    }
    Ok(())
}
