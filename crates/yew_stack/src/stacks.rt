//! The stack of levels.

ghost use Rattle.std.specs.Prelude.{◌≡◌, ℕ, ◌+◌, ◌<◌, [], ◌∷◌, ◌++◌, length, IfOk, OnOk, OnErr};
ghost use Rattle.std.specs.List.{AllByRecursion, flat_map};
ghost use Rattle.yew_laws.specs.Bag.{SameBag};
ghost use Rattle.yew_laws.specs.SearchTree.{IsTask};
ghost use Rattle.yew_stack.specs.Levels.{levels, AreSound, AreNumbered};
ghost use Rattle.yew_stack.specs.ToCome.{to_come, task_members, AllOpen};

use crate::levels::{Level, keep_spare};
use std::alloc::Global;
use std::marker::Model;
use yew_laws::{Memory, Path, Problem, Task};

/// The levels of a depth first search, the lowest first (nearest to the root).
#[derive(Drop)]
pub struct GenStack<P: Problem> {
    levels: Vec<Level<P>>,
    spares: Vec<Path>,
}

impl<P: Problem> Model for GenStack<P> {
    ghost use Rattle.std.specs.Prelude.{List};
    ghost use Rattle.yew_stack.specs.Levels.{LevelValue};

    ghost Value = { List (LevelValue P.Kids) };

    ghost view = { λ a. a.levels.items };
}

/// What the top level of a stack has next.
#[derive(Drop)]
pub enum Turn<P: Problem> {
    /// Its next node, with its path.
    Node(Task<P::Node>),
    /// It had nothing to come and was taken off; this was the path of its node.
    Ended(Path),
    /// There is no level.
    Empty,
}

/// How much of a level is split off.
#[derive(Clone, Copy, Debug, PartialEq, Eq)]
pub enum Chunk {
    /// Its next node.
    One,
    /// All its nodes that are still to come.
    All,
}

impl<P: Problem> GenStack<P> {
    ghost use Rattle.yew_stack.specs.Splits.{Splits, MovesLowest, appended};
    ghost use Rattle.yew_stack.specs.Turns.{IsTurn, turn_members, GivesTask};

    /// A stack with no levels. It takes no memory.
    pub fn new(alloc: Global) -> GenStack<P>
        ensures { result ≡ [] }
    {
        GenStack {
            levels: Vec::new(alloc),
            spares: Vec::new(alloc),
        }
    }

    /// Adds a level on top, of which nothing is given yet.
    ///
    /// # Errors
    ///
    /// `Memory` where memory ran out. The levels are then unchanged.
    #[inline(always)]
    pub fn push_level(&mut self, path: Path, kids: P::Kids) -> Result<(), Memory>
        ensures ok { OnOk result (self.new ≡ self.old ++ record { parent = path.numbers; given = 0; kids = kids } ∷ []) }
        ensures err { OnErr result (self.new ≡ self.old) }
    {
        let depth = self.levels.len();
        if self.spares.capacity() <= depth {
            self.spares.reserve(depth + 1)?;
        }
        self.levels.push(Level::new(path, kids))?;
        Ok(())
    }

    /// Takes a path that is no longer needed, for a child that is still to come. The levels stay as they are, and no
    /// memory is taken.
    #[inline(always)]
    pub fn reuse(&mut self, path: Path)
        ensures { self.new ≡ self.old }
    {
        keep_spare(&mut self.spares, path);
    }

    /// The next node of the top level, or the end of that level.
    ///
    /// # Errors
    ///
    /// `Memory` where memory ran out. The levels are then unchanged.
    #[inline(always)]
    pub fn next(&mut self, alloc: Global, problem: &P) -> Result<Turn<P>, Memory>
        requires root { P.sound problem.now (P.root problem.now) }
        requires sound { AreSound (P.sound problem.now) (levels (P.remaining problem.now) self.old) }
        requires numbered { AreNumbered (levels (P.remaining problem.now) self.old) }
        ensures ok { IfOk result (λ turn. IsTurn (levels (P.remaining problem.now) self.old) turn (levels (P.remaining problem.now) self.new)) }
        ensures to_come { IfOk result (λ turn. to_come P.Problem problem.now self.old ≡ turn_members P.Problem problem.now turn ++ to_come P.Problem problem.now self.new) }
        ensures levels_open { IfOk result (λ turn. AllOpen P.Problem problem.now self.old → AllOpen P.Problem problem.now self.new × GivesTask P.Problem problem.now turn) }
        ensures err { OnErr result (levels (P.remaining problem.now) self.new ≡ levels (P.remaining problem.now) self.old) }
    {
        if self.levels.is_empty() {
            return Ok(Turn::Empty);
        }
        let top = self.levels.len() - 1;
        if let Some(task) = self.levels[top].advance(alloc, problem, &mut self.spares)? {
            return Ok(Turn::Node(task));
        }
        if let Some(level) = self.levels.pop() {
            return Ok(Turn::Ended(level.into_parent()));
        }
        Ok(Turn::Empty)
    }

    /// Moves nodes of the lowest level that has any to come, to the end of a list of tasks: its next node, or all its
    /// nodes in order. Where no level has any, nothing is moved.
    ///
    /// # Errors
    ///
    /// `Memory` where memory ran out. The list then has the tasks that were moved, and the levels lack exactly these.
    pub fn split_lowest(
        &mut self,
        alloc: Global,
        problem: &P,
        chunk: Chunk,
        into: &mut Vec<Task<P::Node>>,
    ) -> Result<(), Memory>
        requires root { P.sound problem.now (P.root problem.now) }
        requires sound { AreSound (P.sound problem.now) (levels (P.remaining problem.now) self.old) }
        requires numbered { AreNumbered (levels (P.remaining problem.now) self.old) }
        ensures ok { OnOk result (Splits chunk (levels (P.remaining problem.now) self.old) into.old.items into.new.items (levels (P.remaining problem.now) self.new)) }
        ensures err { OnErr result (MovesLowest (levels (P.remaining problem.now) self.old) into.old.items into.new.items (levels (P.remaining problem.now) self.new)) }

        // Whatever the answer: as bags, what was to come is what is to come, and what lies at and below the tasks.
        ensures to_come { SameBag (to_come P.Problem problem.now self.old) (to_come P.Problem problem.now self.new ++ flat_map (task_members P.Problem problem.now) (appended into.old.items into.new.items)) }
        ensures levels_open { AllOpen P.Problem problem.now self.old → AllOpen P.Problem problem.now self.new × AllByRecursion (λ task. IsTask P.Problem problem.now task.path.numbers task.node) (appended into.old.items into.new.items) }
    {
        for place in 0..self.levels.len() {
            if self.levels[place].split(alloc, problem, chunk, &mut self.spares, into)? {
                return Ok(());
            }
        }
        Ok(())
    }
}
