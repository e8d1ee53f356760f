//! The rule of a deque, what a place at it knows, and what each step tells.
ghost use Rattle.std.specs.Prelude.{◌≡◌, ◌++◌, ⊤};

use crossbeam_deque::protocol::{Join, Lesson, Outcome, Protocol, Split};
use std::collections::LinkedList;
use std::marker::{Brand, PhantomData};
use yew_laws::Task;

/// What a place knows: its share of the deque, what it has put and taken, and the members of the problem's tree, once
/// it is told them. No value of it is made.
pub struct Hand<T, Q> {
    /// Nothing was told yet.
    pub fresh: bool,
    /// The whole share, which is the same for all places at the deque.
    pub whole: u64,
    pub share: u64,
    pub members: Option<Q>,
    pub put: LinkedList<T>,
    pub took: LinkedList<T>,
}

/// What a hand knows of a problem: the paths and the nodes of its tree, in preorder.
pub type Members<N> = LinkedList<(LinkedList<u32>, N)>;

/// The rule of a deque of tasks.
pub struct Conserves;

impl<N> Protocol<Task<N>, Hand<Task<N>, Members<N>>> for Conserves {
    ghost use Rattle.yew_laws.specs.Tasks.{IsAmong};
    ghost use Rattle.yew_pool.specs.Rule.{Conserved, unopened, spent};

    ghost holds = { Conserved IsAmong };

    ghost first = { unopened };

    ghost guest = { spent };
}

/// A push.
pub struct Puts;

impl<T, Q> Outcome<T, Hand<T, Q>> for Puts {
    ghost use Rattle.yew_pool.specs.Rule.{hand};

    ghost then = { λ v xs w. w ≡ hand v.fresh v.whole v.share v.members (v.put ++ xs) v.took };
}

/// A pop by the owner.
pub struct Takes;

impl<N> Outcome<Task<N>, Hand<Task<N>, Members<N>>> for Takes {
    ghost use Rattle.yew_laws.specs.Tasks.{IsAmong};
    ghost use Rattle.yew_pool.specs.Rule as rule;
    ghost use Rattle.yew_pool.specs.Rule.{Balances};
    ghost use Rattle.std.specs.Prelude.{[]};

    ghost then = { rule.Takes IsAmong };

    ghost empty = { λ v. Balances v [] };
}

/// A steal, which tells nothing where it finds no task.
pub struct Steals;

impl<N> Outcome<Task<N>, Hand<Task<N>, Members<N>>> for Steals {
    ghost use Rattle.yew_laws.specs.Tasks.{IsAmong};
    ghost use Rattle.yew_pool.specs.Rule as rule;

    ghost then = { rule.Takes IsAmong };
}

/// A look that changes nothing.
pub struct Looks;

impl<T, Q> Lesson<T, Hand<T, Q>> for Looks {
    ghost use Rattle.yew_pool.specs.Rule.{Settles};

    ghost fact = { λ v items. Settles v };
}

/// A place with a share of 1 is made.
pub struct OneOff;

impl<T, Q> Split<Hand<T, Q>> for OneOff {
    ghost use Rattle.yew_pool.specs.Rule.{left_of, right_of};

    ghost left = { left_of };

    ghost right = { right_of };
}

/// A place with no share is made.
pub struct Idle;

impl<T, Q> Split<Hand<T, Q>> for Idle {
    ghost use Rattle.yew_pool.specs.Rule.{spent};

    ghost left = { λ v. v };

    ghost right = { λ v. spent };
}

/// All that a place knows goes to a new one.
pub struct Wholly;

impl<T, Q> Split<Hand<T, Q>> for Wholly {
    ghost use Rattle.yew_pool.specs.Rule.{spent};

    ghost left = { λ v. spent };

    ghost right = { λ v. v };
}

/// Two places become one.
pub struct Together;

impl<T, Q> Join<Hand<T, Q>> for Together {
    ghost use Rattle.yew_pool.specs.Rule.{both_of, spent};

    ghost both = { both_of };

    ghost spent = { spent };
}

/// Members and a whole share, which a call picks.
pub trait About<Q> {
    ghost use Rattle.std.specs.Prelude.{ℕ, Option};

    ghost members: { Option Q };

    ghost whole: { ℕ };
}

impl<Q> About<Q> for Brand {
    ghost use Rattle.std.specs.Prelude.{None};

    ghost members = { None };

    ghost whole = { 0 };
}

/// A new deque is told the members and the whole share.
pub struct Starts<J> {
    about: PhantomData<J>,
}

impl<T, Q, J: About<Q>> Split<Hand<T, Q>> for Starts<J> {
    ghost use Rattle.yew_pool.specs.Rule.{started, spent};

    ghost left = { λ _. started J.whole J.members };

    ghost right = { λ _. spent };
}
