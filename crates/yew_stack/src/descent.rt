//! The levels of a search from one node down.

ghost use Rattle.std.specs.Prelude.{◌≡◌, ℕ, ◌+◌, ◌<◌, ◌≤◌, ◌^◌, [], ◌∷◌, ◌++◌, length, take, IfOk, OnOk, OnErr, MatchOption, MatchBool};
ghost use Rattle.std.specs.List.{AllByRecursion, flat_map};
ghost use Rattle.yew_laws.specs.Bag.{SameBag};
ghost use Rattle.yew_laws.specs.SearchTree.{IsTask};
ghost use Rattle.yew_stack.specs.Descents.{RungValue, DescentValue, level_at, turn_of};
ghost use Rattle.yew_stack.specs.Levels.{levels, level_of, AreSound, AreNumbered};
ghost use Rattle.yew_stack.specs.ToCome.{to_come, task_members, AllOpen};

use crate::stacks::Chunk;
use std::alloc::Global;
use std::marker::Model;
use yew_laws::{Memory, Path, Problem, Task};

/// A level without its path: how many children of its node were given, and the generator of the others.
#[derive(Drop)]
struct Rung<P: Problem> {
    given: u32,
    kids: P::Kids,
}

impl<P: Problem> Model for Rung<P> {
    ghost use Rattle.yew_stack.specs.Descents.{RungValue};

    ghost Value = { RungValue P.Kids };

    ghost view = { λ a. record { given = a.given; kids = a.kids } };
}

impl<P: Problem> Rung<P> {
    ghost use Rattle.yew_stack.specs.Splits.{GivesTo, MovesTo, IsChunk};

    /// The next child.
    #[inline(always)]
    fn advance(&mut self, alloc: Global, problem: &P) -> Result<Option<P::Node>, Memory>
        requires root { P.sound problem.now (P.root problem.now) }
        requires sound { AllByRecursion (P.sound problem.now) (P.remaining problem.now self.old.kids) }
        requires numbered { self.old.given + length (P.remaining problem.now self.old.kids) + 1 < 2 ^ 32 }
        ensures ok { IfOk result (λ found. MatchOption found
            ((P.remaining problem.now self.old.kids ≡ []) × (P.remaining problem.now self.new.kids ≡ []) × (self.new.given ≡ self.old.given))
            (λ node. (P.remaining problem.now self.old.kids ≡ node ∷ P.remaining problem.now self.new.kids) × (self.new.given ≡ self.old.given + 1))) }
        ensures err { OnErr result ((P.remaining problem.now self.new.kids ≡ P.remaining problem.now self.old.kids) × (self.new.given ≡ self.old.given)) }
    {
        match problem.next(alloc, &mut self.kids)? {
            Some(node) => {
                self.given += 1;
                Ok(Some(node))
            }
            None => Ok(None),
        }
    }

    /// Moves the next child to the end of a list of tasks, and answers whether there was one. The level's node stands at
    /// the first `depth` steps of the path. Room for the child is made before it is taken.
    fn move_next(
        &mut self,
        alloc: Global,
        problem: &P,
        path: &Path,
        depth: usize,
        into: &mut Vec<Task<P::Node>>,
    ) -> Result<bool, Memory>
        requires root { P.sound problem.now (P.root problem.now) }
        requires sound { AllByRecursion (P.sound problem.now) (P.remaining problem.now self.old.kids) }
        requires numbered { self.old.given + length (P.remaining problem.now self.old.kids) + 1 < 2 ^ 32 }
        requires depth { depth ≤ length path.now.numbers }
        ensures ok { IfOk result (λ found. MatchBool found
            (GivesTo (level_of (P.remaining problem.now) (level_at (take depth path.now.numbers) self.old)) into.old.items into.new.items (level_of (P.remaining problem.now) (level_at (take depth path.now.numbers) self.new)))
            ((P.remaining problem.now self.old.kids ≡ []) × (into.new.items ≡ into.old.items) × (level_of (P.remaining problem.now) (level_at (take depth path.now.numbers) self.new) ≡ level_of (P.remaining problem.now) (level_at (take depth path.now.numbers) self.old)))) }
        ensures err { OnErr result ((into.new.items ≡ into.old.items) × (level_of (P.remaining problem.now) (level_at (take depth path.now.numbers) self.new) ≡ level_of (P.remaining problem.now) (level_at (take depth path.now.numbers) self.old))) }
    {
        into.reserve(1)?;
        let path = path.child_of_prefix(depth, self.given)?;
        match self.advance(alloc, problem)? {
            Some(node) => {
                into.push(Task { path, node }).unwrap();
                Ok(true)
            }
            None => Ok(false),
        }
    }

    /// Moves a chunk of the children to the end of a list of tasks, and answers whether there was any child. After
    /// `Memory` the list has the children that were moved, and the level lacks exactly these.
    fn split(
        &mut self,
        alloc: Global,
        problem: &P,
        chunk: Chunk,
        path: &Path,
        depth: usize,
        into: &mut Vec<Task<P::Node>>,
    ) -> Result<bool, Memory>
        requires root { P.sound problem.now (P.root problem.now) }
        requires sound { AllByRecursion (P.sound problem.now) (P.remaining problem.now self.old.kids) }
        requires numbered { self.old.given + length (P.remaining problem.now self.old.kids) + 1 < 2 ^ 32 }
        requires depth { depth ≤ length path.now.numbers }
        ensures ok { IfOk result (λ found. MatchBool found
            ((m : MovesTo (level_of (P.remaining problem.now) (level_at (take depth path.now.numbers) self.old)) into.old.items into.new.items (level_of (P.remaining problem.now) (level_at (take depth path.now.numbers) self.new))) × IsChunk chunk (length m.moved) (level_of (P.remaining problem.now) (level_at (take depth path.now.numbers) self.new)))
            ((P.remaining problem.now self.old.kids ≡ []) × (into.new.items ≡ into.old.items) × (level_of (P.remaining problem.now) (level_at (take depth path.now.numbers) self.new) ≡ level_of (P.remaining problem.now) (level_at (take depth path.now.numbers) self.old)))) }
        ensures err { OnErr result (MovesTo (level_of (P.remaining problem.now) (level_at (take depth path.now.numbers) self.old)) into.old.items into.new.items (level_of (P.remaining problem.now) (level_at (take depth path.now.numbers) self.new))) }
    {
        if !self.move_next(alloc, problem, path, depth, into)? {
            return Ok(false);
        }
        if let Chunk::One = chunk {
            return Ok(true);
        }
        'others: while self.move_next(alloc, problem, path, depth, into)? {}
        Ok(true)
    }
}

/// What the highest level of a descent has next.
#[derive(Drop)]
pub enum Step<N> {
    /// Its next node, at whose path the descent stands.
    Node(N),
    /// It had nothing to come and was taken off; the descent stands at the path of its node.
    Ended,
    /// There is no level.
    Empty,
}

/// The levels of nodes on one path: that of the node from which the search goes down, of a child of it, of a child of
/// that, and so on. It is a [`GenStack`](crate::GenStack) whose levels share the one path on which they stand, so a step
/// from node to node neither copies a path nor takes memory for one.
///
/// The path has one step more than that of the highest level's node: a step from child to child writes that step alone.
#[derive(Drop)]
pub struct Descent<P: Problem> {
    path: Path,
    first: usize,
    rungs: Vec<Rung<P>>,
}

impl<P: Problem> Model for Descent<P> {
    ghost use Rattle.std.specs.Prelude.{◌≡◌, ◌+◌, length};
    ghost use Rattle.yew_stack.specs.Descents.{DescentValue, levels_along};

    ghost Value = { DescentValue P.Kids };

    ghost view = { λ a. record { path = a.path.numbers; first = a.first; levels = levels_along a.path.numbers a.first a.rungs.items } };

    ghost invariant = { λ a. length a.path.numbers ≡ a.first + length a.rungs.items };
}

impl<P: Problem> Descent<P> {
    ghost use Rattle.yew_stack.specs.Splits.{Splits, MovesLowest, appended};
    ghost use Rattle.yew_stack.specs.Turns.{IsTurn, GivesTask};

    /// The descent from the node at a path, which has no level yet. It takes no memory.
    pub fn new(alloc: Global, path: Path) -> Descent<P>
        ensures { result ≡ record { path = path.numbers; first = length path.numbers; levels = [] } }
    {
        Descent {
            first: path.numbers().len(),
            path,
            rungs: Vec::new(alloc),
        }
    }

    /// Where the descent stands: the path of the node that was given last, or of the node whose level ended last. Where a
    /// level was opened since, it has one step more, which says nothing.
    #[inline(always)]
    pub fn path(&self) -> &Path
        ensures { result.now.numbers ≡ self.now.path }
    {
        &self.path
    }

    /// Adds the level of the node at which the descent stands, of which nothing is given yet.
    ///
    /// # Errors
    ///
    /// `Memory` where memory ran out. The levels are then unchanged.
    #[inline(always)]
    pub fn open(&mut self, kids: P::Kids) -> Result<(), Memory>
        ensures ok { OnOk result (self.new.levels ≡ self.old.levels ++ record { parent = self.old.path; given = 0; kids = kids } ∷ []) }
        ensures err { OnErr result (self.new.levels ≡ self.old.levels) }
    {
        self.path.make_room()?;
        self.rungs.reserve(1)?;
        self.rungs.push_reserved(Rung { given: 0, kids });
        self.path.push(0);
        Ok(())
    }

    /// The next node of the highest level, or the end of that level.
    ///
    /// # Errors
    ///
    /// `Memory` where memory ran out. The levels are then unchanged.
    #[inline(always)]
    pub fn next(&mut self, alloc: Global, problem: &P) -> Result<Step<P::Node>, Memory>
        requires root { P.sound problem.now (P.root problem.now) }
        requires sound { AreSound (P.sound problem.now) (levels (P.remaining problem.now) self.old.levels) }
        requires numbered { AreNumbered (levels (P.remaining problem.now) self.old.levels) }
        ensures ok { IfOk result (λ step. IsTurn {S = P} {K = P.Kids} (levels (P.remaining problem.now) self.old.levels) (turn_of self.new.path step) (levels (P.remaining problem.now) self.new.levels)) }
        ensures levels_open { IfOk result (λ step. AllOpen P.Problem problem.now self.old.levels → AllOpen P.Problem problem.now self.new.levels × GivesTask P.Problem problem.now (turn_of self.new.path step)) }
        ensures err { OnErr result (levels (P.remaining problem.now) self.new.levels ≡ levels (P.remaining problem.now) self.old.levels) }
    {
        if self.rungs.is_empty() {
            return Ok(Step::Empty);
        }
        let top = self.rungs.len() - 1;
        self.path.set_last(self.rungs[top].given);
        match self.rungs[top].advance(alloc, problem)? {
            Some(node) => Ok(Step::Node(node)),
            None => {
                let depth = self.path.numbers().len() - 1;
                self.path.truncate(depth);
                self.rungs.truncate(top);
                Ok(Step::Ended)
            }
        }
    }

    /// Moves nodes of the lowest level that has any to come, to the end of a list of tasks: its next node, or all its
    /// nodes in order. Where no level has any, nothing is moved. The descent stays at its path.
    ///
    /// # Errors
    ///
    /// `Memory` where memory ran out. The list then has the tasks that were moved, and the levels lack exactly these.
    pub fn split_lowest(
        &mut self,
        alloc: Global,
        problem: &P,
        chunk: Chunk,
        into: &mut Vec<Task<P::Node>>,
    ) -> Result<(), Memory>
        requires root { P.sound problem.now (P.root problem.now) }
        requires sound { AreSound (P.sound problem.now) (levels (P.remaining problem.now) self.old.levels) }
        requires numbered { AreNumbered (levels (P.remaining problem.now) self.old.levels) }
        ensures ok { OnOk result (Splits chunk (levels (P.remaining problem.now) self.old.levels) into.old.items into.new.items (levels (P.remaining problem.now) self.new.levels)) }
        ensures err { OnErr result (MovesLowest (levels (P.remaining problem.now) self.old.levels) into.old.items into.new.items (levels (P.remaining problem.now) self.new.levels)) }
        // Whatever the answer: as bags, what was to come is what is to come, and what lies at and below the tasks.
        ensures to_come { SameBag (to_come P.Problem problem.now self.old.levels) (to_come P.Problem problem.now self.new.levels ++ flat_map (task_members P.Problem problem.now) (appended into.old.items into.new.items)) }
        ensures levels_open { AllOpen P.Problem problem.now self.old.levels → AllOpen P.Problem problem.now self.new.levels × AllByRecursion (λ task. IsTask P.Problem problem.now task.path.numbers task.node) (appended into.old.items into.new.items) }
        // The descent stands where it stood.
        ensures path { (self.new.path ≡ self.old.path) × (self.new.first ≡ self.old.first) }
    {
        // A path has fewer than 2^64 steps.
        let _steps = self.path.numbers().len();
        for place in 0..self.rungs.len() {
            if self.rungs[place].split(
                alloc,
                problem,
                chunk,
                &self.path,
                self.first + place,
                into,
            )? {
                return Ok(());
            }
        }
        Ok(())
    }
}
