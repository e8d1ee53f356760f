//! One level of a stack: a visited node whose children are still to come.

ghost use Rattle.std.specs.Prelude.{◌≡◌, ℕ, ◌+◌, ◌<◌, [], ◌∷◌, ◌++◌, length, vec_len, vec_capacity, nat_lt, if◌then◌else◌, IfOk, OnErr, MatchOption, MatchBool};
ghost use Rattle.std.specs.List.{AllByRecursion};
ghost use Rattle.yew_stack.specs.Levels.{LevelValue, level_of, IsNumbered, Gives};

use crate::stacks::Chunk;
use std::alloc::Global;
use std::marker::Model;
use yew_laws::{Memory, Path, Problem, Task};

/// A visited node: its path, how many of its children were given, and the generator of the others.
#[derive(Drop)]
pub struct Level<P: Problem> {
    parent: Path,
    given: u32,
    kids: P::Kids,
}

impl<P: Problem> Model for Level<P> {
    ghost use Rattle.yew_stack.specs.Levels.{LevelValue};

    ghost Value = { LevelValue P.Kids };

    ghost view = { λ a. record { parent = a.parent.numbers; given = a.given; kids = a.kids } };
}

/// A path with room for a child of the node at `parent`: a spare one where its space serves, else a new one.
#[inline(always)]
fn path_for_child(spares: &mut Vec<Path>, parent: &Path, number: u32) -> Result<Path, Memory>
    ensures { IfOk result (λ path. length parent.now.numbers < path.space) }
{
    if let Some(path) = spares.pop() {
        if parent.numbers().len() < path.space() {
            return Ok(path);
        }
    }
    let path = parent.child(number)?;
    // The space of a path is at least the length of its numbers.
    let _ = path.numbers();
    Ok(path)
}

/// Keeps a path as a spare, where the list has room for it.
#[inline(always)]
pub fn keep_spare(spares: &mut Vec<Path>, path: Path)
    ensures { spares.new.items ≡ (if nat_lt (vec_len spares.old) (vec_capacity spares.old) then spares.old.items ++ path ∷ [] else spares.old.items) }
{
    if spares.len() < spares.capacity() {
        spares.push(path).unwrap();
    }
}

impl<P: Problem> Level<P> {
    ghost use Rattle.yew_stack.specs.Splits.{GivesTo, MovesTo, IsChunk};

    /// A level of which nothing is given yet.
    #[inline(always)]
    pub fn new(parent: Path, kids: P::Kids) -> Level<P>
        ensures { result ≡ record { parent = parent.numbers; given = 0; kids = kids } }
    {
        Level {
            parent,
            given: 0,
            kids,
        }
    }

    /// The path of the level's node.
    #[inline(always)]
    pub fn into_parent(self) -> Path
        ensures { result.numbers ≡ self.parent }
    {
        let Level {
            parent,
            given: _,
            kids: _,
        } = self;
        parent
    }

    /// The next child, as a task. Its path is made before the generator is asked, so that no child is lost.
    #[inline(always)]
    pub fn advance(
        &mut self,
        alloc: Global,
        problem: &P,
        spares: &mut Vec<Path>,
    ) -> Result<Option<Task<P::Node>>, Memory>
        requires root { P.sound problem.now (P.root problem.now) }
        requires sound { AllByRecursion (P.sound problem.now) (P.remaining problem.now self.old.kids) }
        requires numbered { IsNumbered (level_of (P.remaining problem.now) self.old) }
        ensures ok { IfOk result (λ found. MatchOption found
            ((P.remaining problem.now self.old.kids ≡ []) × (level_of (P.remaining problem.now) self.new ≡ level_of (P.remaining problem.now) self.old))
            (λ task. Gives (level_of (P.remaining problem.now) self.old) task.path.numbers task.node (level_of (P.remaining problem.now) self.new))) }
        ensures err { OnErr result (level_of (P.remaining problem.now) self.new ≡ level_of (P.remaining problem.now) self.old) }
    {
        let mut path = path_for_child(spares, &self.parent, self.given)?;
        match problem.next(alloc, &mut self.kids)? {
            Some(node) => {
                path.set_child(&self.parent, self.given);
                self.given += 1;
                Ok(Some(Task { path, node }))
            }
            None => {
                keep_spare(spares, path);
                Ok(None)
            }
        }
    }

    /// Moves the next child to the end of a list of tasks, and answers whether there was one. Room for it is made
    /// before it is taken.
    fn move_next(
        &mut self,
        alloc: Global,
        problem: &P,
        spares: &mut Vec<Path>,
        into: &mut Vec<Task<P::Node>>,
    ) -> Result<bool, Memory>
        requires root { P.sound problem.now (P.root problem.now) }
        requires sound { AllByRecursion (P.sound problem.now) (P.remaining problem.now self.old.kids) }
        requires numbered { IsNumbered (level_of (P.remaining problem.now) self.old) }
        ensures ok { IfOk result (λ found. MatchBool found
            (GivesTo (level_of (P.remaining problem.now) self.old) into.old.items into.new.items (level_of (P.remaining problem.now) self.new))
            ((P.remaining problem.now self.old.kids ≡ []) × (into.new.items ≡ into.old.items) × (level_of (P.remaining problem.now) self.new ≡ level_of (P.remaining problem.now) self.old))) }
        ensures err { OnErr result ((into.new.items ≡ into.old.items) × (level_of (P.remaining problem.now) self.new ≡ level_of (P.remaining problem.now) self.old)) }
    {
        into.reserve(1)?;
        match self.advance(alloc, problem, spares)? {
            Some(task) => {
                into.push(task).unwrap();
                Ok(true)
            }
            None => Ok(false),
        }
    }

    /// Moves a chunk of the children to the end of a list of tasks, and answers whether there was any child. After
    /// `Memory` the list has the children that were moved, and the level lacks exactly these.
    pub fn split(
        &mut self,
        alloc: Global,
        problem: &P,
        chunk: Chunk,
        spares: &mut Vec<Path>,
        into: &mut Vec<Task<P::Node>>,
    ) -> Result<bool, Memory>
        requires root { P.sound problem.now (P.root problem.now) }
        requires sound { AllByRecursion (P.sound problem.now) (P.remaining problem.now self.old.kids) }
        requires numbered { IsNumbered (level_of (P.remaining problem.now) self.old) }
        ensures ok { IfOk result (λ found. MatchBool found
            ((m : MovesTo (level_of (P.remaining problem.now) self.old) into.old.items into.new.items (level_of (P.remaining problem.now) self.new)) × IsChunk chunk (length m.moved) (level_of (P.remaining problem.now) self.new))
            ((P.remaining problem.now self.old.kids ≡ []) × (into.new.items ≡ into.old.items) × (level_of (P.remaining problem.now) self.new ≡ level_of (P.remaining problem.now) self.old))) }
        ensures err { OnErr result (MovesTo (level_of (P.remaining problem.now) self.old) into.old.items into.new.items (level_of (P.remaining problem.now) self.new)) }
    {
        if !self.move_next(alloc, problem, spares, into)? {
            return Ok(false);
        }
        if let Chunk::One = chunk {
            return Ok(true);
        }
        'others: while self.move_next(alloc, problem, spares, into)? {}
        Ok(true)
    }
}
