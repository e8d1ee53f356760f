//! When a walk shares its tasks out.

ghost use Rattle.std.specs.Prelude.{◌≡◌, ◌≤◌};
ghost use Rattle.yew_log.specs.Policies.{PolicyMeaning};
ghost use Rattle.yew_walk.specs.Asking.{act_of, input_of};
ghost use Rattle.yew_walk.specs.Dealt.{part_of_chunk};

use std::marker::Model;
use yew_stack::Chunk;

/// What has just happened in a walk.
#[derive(Clone, Copy, Debug, PartialEq, Eq)]
pub enum Event {
    /// A node was visited.
    Visited,
    /// A node was cut off.
    CutOff,
    /// All below a visited node was dealt with: a backtrack.
    Ended,
}

/// What a walk does next.
#[derive(Clone, Copy, Debug, PartialEq, Eq)]
pub enum Act {
    /// It goes on.
    On,
    /// It splits tasks off its lowest level, for the pool.
    Spawn(Chunk),
    /// It splits tasks off its lowest level, for another worker.
    Hand(Chunk),
}

/// When tasks are split off a walk: a state machine, which is told of each visit, each cut and each end.
pub trait Policy {
    /// The state that `start` leaves, the act after an event, and the state after it.
    ghost meaning: { PolicyMeaning Self };

    /// Begins a task.
    fn start(&mut self)
        ensures { self.new ≡ meaning.start self.old };

    /// What to do after an event at a depth, where tasks are `wanted` or not.
    fn after(&mut self, event: Event, depth: u32, wanted: bool) -> Act
        ensures act { act_of result ≡ meaning.act self.old (input_of event depth wanted) }
        ensures state { self.new ≡ meaning.after self.old (input_of event depth wanted) };
}

/// Nothing is ever shared out.
#[derive(Drop)]
pub struct Plain;

impl Model for Plain {
    ghost Value = { Unit {0} };

    ghost view = { λ _. tt };
}

impl Plain {
    /// The policy.
    pub fn new() -> Plain {
        Plain
    }
}

impl Policy for Plain {
    ghost use Rattle.yew_log.specs.Policies.{plain_policy};

    ghost meaning = { plain_policy };

    fn start(&mut self) {}

    #[inline]
    fn after(&mut self, _event: Event, _depth: u32, _wanted: bool) -> Act {
        Act::On
    }
}

/// After each visit above a depth, all children that are left of the lowest level are spawned. The depth of the root
/// is 0.
#[derive(Drop)]
pub struct Depth {
    depth: u32,
}

impl Model for Depth {
    ghost use Rattle.std.specs.Prelude.{ℕ};

    ghost Value = { ℕ };

    ghost view = { λ p. p.depth };
}

impl Depth {
    /// The policy with this depth.
    pub fn new(depth: u32) -> Depth
        ensures { result ≡ depth }
    {
        Depth { depth }
    }
}

impl Policy for Depth {
    ghost use Rattle.yew_log.specs.Policies.{depth_policy};

    ghost meaning = { depth_policy };

    fn start(&mut self) {}

    #[inline]
    fn after(&mut self, event: Event, depth: u32, _wanted: bool) -> Act {
        if event == Event::Visited && depth < self.depth {
            Act::Spawn(Chunk::All)
        } else {
            Act::On
        }
    }
}

/// After each full count of backtracks of a task, all children that are left of the lowest level are spawned.
#[derive(Drop)]
pub struct Budget {
    every: u64,
    spent: u64,
}

impl Model for Budget {
    ghost use Rattle.std.specs.Prelude.{◌<◌};
    ghost use Rattle.yew_log.specs.Policies.{Spending, spending};

    ghost Value = { Spending };

    ghost view = { λ p. spending p.every p.spent };

    ghost invariant = { λ p. p.spent < p.every };
}

impl Budget {
    ghost use Rattle.yew_log.specs.Policies.{spending};

    /// The policy that counts to this number of backtracks.
    pub fn new(every: u64) -> Budget
        requires { 1 ≤ every }
        ensures { result ≡ spending every 0 }
    {
        Budget { every, spent: 0 }
    }
}

impl Policy for Budget {
    ghost use Rattle.yew_log.specs.Policies.{budget_policy};

    ghost meaning = { budget_policy };

    fn start(&mut self) {
        self.spent = 0;
    }

    #[inline]
    fn after(&mut self, event: Event, _depth: u32, _wanted: bool) -> Act {
        if event != Event::Ended {
            return Act::On;
        }
        if self.spent + 1 == self.every {
            self.spent = 0;
            return Act::Spawn(Chunk::All);
        }
        self.spent += 1;
        Act::On
    }
}

/// Wherever tasks are wanted, a chunk of the lowest level is handed over.
#[derive(Drop)]
pub struct Hungry {
    chunk: Chunk,
}

impl Model for Hungry {
    ghost use Rattle.yew_log.specs.Groups.{Part};
    ghost use Rattle.yew_walk.specs.Dealt.{part_of_chunk};

    ghost Value = { Part };

    ghost view = { λ p. part_of_chunk p.chunk };
}

impl Hungry {
    /// The policy with this chunk.
    pub fn new(chunk: Chunk) -> Hungry
        ensures { result ≡ part_of_chunk chunk }
    {
        Hungry { chunk }
    }
}

impl Policy for Hungry {
    ghost use Rattle.yew_log.specs.Policies.{hungry_policy};

    ghost meaning = { hungry_policy };

    fn start(&mut self) {}

    #[inline]
    fn after(&mut self, _event: Event, _depth: u32, wanted: bool) -> Act {
        if wanted {
            Act::Hand(self.chunk)
        } else {
            Act::On
        }
    }
}
