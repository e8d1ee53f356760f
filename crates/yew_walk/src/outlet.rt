//! Where tasks go that a walk splits off.

ghost use Rattle.std.specs.Prelude.{◌≡◌, ◌∷◌, [], ◌++◌, List, Bool, Option, OnOk, OnErr};
ghost use Rattle.std.specs.List.{AllByRecursion};
ghost use Rattle.std.specs.Option.{option_map};
ghost use Rattle.yew_laws.specs.declared.problem.Task.{Task as TaskValue};
ghost use Rattle.yew_laws.specs.Bag.{SameBag};
ghost use Rattle.yew_laws.specs.SearchTree.{IsTask};
ghost use Rattle.yew_stack.specs.Splits.{paths_of};
ghost use Rattle.yew_walk.specs.Outlets.{OutletCall, was_asked, was_given, IsSentPart};

use std::alloc::Global;
use yew_laws::{Memory, Problem, Task};

/// Where a walk sends the tasks that it splits off, and where it learns whether tasks are wanted.
///
/// Contracts see the problem of its tasks, the tasks that were sent, as a bag, and, where the outlet tells them, the
/// answers of `wanted` so far, in order. Of two values of an outlet, `kept` says what every call keeps, and `later`
/// what every call keeps that is not refused. `goes` says what calls that are not refused make of it, one after another:
/// so an outlet can say of each list that it was given what it was asked before, also where the list is empty.
pub trait Outlet<P: Problem> {
    /// The problem of the tasks.
    ghost problem: { Self → P };

    /// The tasks that were sent.
    ghost sent: { Self → List (TaskValue P.Node) };

    /// The answers of `wanted`, where the outlet tells them.
    ghost answers: { Self → Option (List Bool) };

    /// What every call keeps.
    ghost kept: { Self → Self → Type 0 };

    /// What every call keeps that is not refused.
    ghost later: { Self → Self → Type 0 };

    /// What calls make of the outlet, in order, of which none is refused.
    ghost goes: { Self → List OutletCall → Self → Type 0 };

    /// A value keeps itself.
    ghost kept_same: { (a : Self) → kept a a };

    /// What is kept twice is kept.
    ghost kept_twice: { (a b c : Self) → kept a b → kept b c → kept a c };

    /// A value is later than itself.
    ghost later_same: { (a : Self) → later a a };

    /// What is later than a later one is later.
    ghost later_twice: { (a b c : Self) → later a b → later b c → later a c };

    /// No call makes no change.
    ghost goes_none: { (a : Self) → goes a [] a };

    /// Calls follow on calls.
    ghost goes_on: { (a b c : Self) (xs ys : List OutletCall) → goes a xs b → goes b ys c → goes a (xs ++ ys) c };

    /// Whether tasks are wanted.
    fn wanted(&mut self) -> bool
        ensures answers { answers self.new ≡ option_map (λ given. given ++ result ∷ []) (answers self.old) }
        ensures sent { sent self.new ≡ sent self.old }
        ensures problem { problem self.new ≡ problem self.old }
        ensures kept { kept self.old self.new }
        ensures later { later self.old self.new }
        ensures goes { goes self.old (was_asked result ∷ []) self.new };

    /// Sends tasks, of which there may be none.
    ///
    /// # Errors
    ///
    /// `Memory` where memory ran out. A part of the tasks was then sent.
    fn send(&mut self, tasks: Vec<Task<P::Node>>) -> Result<(), Memory>
        requires { AllByRecursion (λ task. IsTask P.Problem (problem self.old) task.path.numbers task.node) tasks.items }
        ensures ok { OnOk result (SameBag (sent self.new) (sent self.old ++ tasks.items)) }
        ensures err { OnErr result (IsSentPart (λ task. IsTask P.Problem (problem self.old) task.path.numbers task.node) (sent self.old) tasks.items (sent self.new)) }
        ensures answers { answers self.new ≡ answers self.old }
        ensures problem { problem self.new ≡ problem self.old }
        ensures kept { kept self.old self.new }
        ensures later { OnOk result (later self.old self.new) }
        ensures goes { OnOk result (goes self.old (was_given (paths_of tasks.items) ∷ []) self.new) };
}

/// An outlet that keeps the tasks in a list, and never wants any.
#[derive(Drop)]
pub struct Outbox<'a, P: Problem> {
    /// The problem of the tasks.
    pub problem: &'a P,
    /// The tasks that were sent, in order.
    pub tasks: Vec<Task<P::Node>>,
}

impl<'a, P: Problem> Outbox<'a, P> {
    /// An outlet to which nothing was sent.
    pub fn new(alloc: Global, problem: &'a P) -> Outbox<'a, P>
        ensures problem { result.problem.now ≡ problem.now }
        ensures tasks { result.tasks.items ≡ [] }
    {
        Outbox {
            problem,
            tasks: Vec::new(alloc),
        }
    }
}

impl<'a, P: Problem> Outlet<P> for Outbox<'a, P> {
    ghost use Rattle.std.specs.Prelude.{None, refl, false};
    ghost use Rattle.yew_laws.proofs.Members.{AllByRecursion-append};
    ghost use Rattle.yew_walk.specs.Outlets.{IsUnwanted};

    ghost problem = { λ outbox. outbox.problem.now };

    ghost sent = { λ outbox. outbox.tasks.items };

    ghost answers = { λ _. None };

    ghost kept = { λ _ _. Unit {0} };

    ghost later = { λ _ _. Unit {0} };

    ghost goes = { λ _ calls _. AllByRecursion IsUnwanted calls };

    ghost kept_same = { λ _. tt };

    ghost kept_twice = { λ _ _ _ _ _. tt };

    ghost later_same = { λ _. tt };

    ghost later_twice = { λ _ _ _ _ _. tt };

    ghost goes_none = { λ _. tt };

    ghost goes_on = { λ _ _ _ xs ys a b. AllByRecursion-append IsUnwanted xs ys a b };

    fn wanted(&mut self) -> bool
        ensures never { result ≡ false }
        ensures same { self.new ≡ self.old }
        ensures goes { AllByRecursion IsUnwanted (was_asked result ∷ []) }
    {
        false
    }

    #[tactic(auto, using(crate::proofs::Parts::sent_none))]
    fn send(&mut self, tasks: Vec<Task<P::Node>>) -> Result<(), Memory>
        requires { AllByRecursion (λ task. IsTask P.Problem self.old.problem.now task.path.numbers task.node) tasks.items }
        ensures ok { OnOk result (SameBag self.new.tasks.items (self.old.tasks.items ++ tasks.items)) }
        ensures err { OnErr result (IsSentPart (λ task. IsTask P.Problem self.old.problem.now task.path.numbers task.node) self.old.tasks.items tasks.items self.new.tasks.items) }
        ensures answers { Unit {0} }
        ensures problem { self.new.problem.now ≡ self.old.problem.now }
        ensures kept { Unit {0} }
        ensures later { OnOk result (Unit {0}) }
        ensures goes { OnOk result (AllByRecursion IsUnwanted (was_given (paths_of tasks.items) ∷ [])) }
    {
        let mut tasks = tasks;
        self.tasks.append(&mut tasks)?;
        Ok(())
    }
}
