//! The path of a node: the number of a child at each step from the root.

ghost use Rattle.std.specs.Prelude.{◌≡◌, ◌+◌, ◌-◌, ◌<◌, ◌≤◌, ◌^◌, List, [], ◌∷◌, ◌++◌, length, take, IfOk, OnOk};

use crate::memory::Memory;
use std::alloc::Global;
use std::marker::Model;

/// The way from the root of a tree to a node: the number of a child at each step, counted from 0. The root has the
/// empty path.
///
/// A path has a space, a number of steps that it can hold without taking memory. Paths are compared by their numbers
/// alone: a prefix comes first, and otherwise the first number that differs decides.
#[derive(Drop)]
pub struct Path {
    steps: Vec<u32>,
    room: usize,
}

impl Model for Path {
    ghost use Rattle.std.specs.Prelude.{length, vec_capacity, ◌≤◌};
    ghost use Rattle.yew_laws.specs.PathValue.{PathValue};

    ghost Value = { PathValue };

    ghost view = { λ a. record { numbers = a.steps.items; space = a.room } };

    ghost invariant = { λ a. (length a.steps.items ≤ a.room) × (a.room ≤ vec_capacity a.steps) };
}

impl Path {
    /// The path of the root, with a space of at least `space`.
    ///
    /// # Errors
    ///
    /// `Memory` where memory ran out.
    pub fn empty(alloc: Global, space: u32) -> Result<Path, Memory>
        ensures numbers { IfOk result (λ path. path.numbers ≡ []) }
        ensures space { IfOk result (λ path. space ≤ path.space) }
    {
        let room = space as usize;
        Ok(Path {
            steps: Vec::with_capacity(alloc, room)?,
            room,
        })
    }

    /// The path of child `number` of the node at this path. It has this path's space, or one more where that is full.
    ///
    /// # Errors
    ///
    /// `Memory` where memory ran out.
    pub fn child(&self, number: u32) -> Result<Path, Memory>
        ensures numbers { IfOk result (λ path. path.numbers ≡ self.now.numbers ++ number ∷ []) }
        ensures space { IfOk result (λ path. self.now.space ≤ path.space) }
    {
        let needed = self.steps.len() + 1;
        let room = if needed <= self.room {
            self.room
        } else {
            needed
        };
        let mut steps = Vec::with_capacity(*self.steps.allocator(), room)?;
        steps.extend_from_slice(self.steps.as_slice())?;
        steps.push(number)?;
        Ok(Path { steps, room })
    }

    /// Makes the numbers of this path those of `other`. The space stays, and no memory is taken.
    #[inline(always)]
    pub fn set(&mut self, other: &Path)
        requires { length other.now.numbers ≤ self.old.space }
        ensures numbers { self.new.numbers ≡ other.now.numbers }
        ensures space { self.new.space ≡ self.old.space }
    {
        self.steps.clear();
        self.steps
            .extend_from_slice(other.steps.as_slice())
            .unwrap();
    }

    /// Makes this path that of child `number` of the node at `parent`. The space stays, and no memory is taken.
    #[inline(always)]
    pub fn set_child(&mut self, parent: &Path, number: u32)
        requires { length parent.now.numbers < self.old.space }
        ensures numbers { self.new.numbers ≡ parent.now.numbers ++ number ∷ [] }
        ensures space { self.new.space ≡ self.old.space }
    {
        self.set(parent);
        self.push(number);
    }

    /// The path of child `number` of the node at the first `depth` steps of this path.
    ///
    /// # Errors
    ///
    /// `Memory` where memory ran out.
    pub fn child_of_prefix(&self, depth: usize, number: u32) -> Result<Path, Memory>
        requires { depth ≤ length self.now.numbers }
        ensures { IfOk result (λ path. path.numbers ≡ take depth self.now.numbers ++ number ∷ []) }
    {
        let prefix = &self.steps[..depth];
        let room = prefix.len() + 1;
        let mut steps = Vec::with_capacity(*self.steps.allocator(), room)?;
        steps.extend_from_slice(prefix)?;
        steps.push(number)?;
        Ok(Path { steps, room })
    }

    /// Makes room for one more step. The numbers stay.
    ///
    /// # Errors
    ///
    /// `Memory` where memory ran out. The space is then unchanged.
    #[inline(always)]
    pub fn make_room(&mut self) -> Result<(), Memory>
        ensures numbers { self.new.numbers ≡ self.old.numbers }
        ensures room { OnOk result (length self.new.numbers < self.new.space) }
        ensures space { self.old.space ≤ self.new.space }
    {
        let needed = self.steps.len() + 1;
        if self.room < needed {
            self.steps.reserve(1)?;
            self.room = needed;
        }
        Ok(())
    }

    /// Takes one more step, for which there is room. The space stays, and no memory is taken.
    #[inline(always)]
    pub fn push(&mut self, number: u32)
        requires { length self.old.numbers < self.old.space }
        ensures numbers { self.new.numbers ≡ self.old.numbers ++ number ∷ [] }
        ensures space { self.new.space ≡ self.old.space }
    {
        self.steps.push_reserved(number);
    }

    /// Puts `number` in place of the last step: this path becomes that of another child of the same node. The space stays,
    /// and no memory is taken.
    #[inline(always)]
    pub fn set_last(&mut self, number: u32)
        requires { 1 ≤ length self.old.numbers }
        ensures numbers { self.new.numbers ≡ take (length self.old.numbers - 1) self.old.numbers ++ number ∷ [] }
        ensures space { self.new.space ≡ self.old.space }
    {
        let last = self.steps.len() - 1;
        self.steps[last] = number;
    }

    /// Keeps the first `depth` steps alone. The space stays.
    #[inline(always)]
    pub fn truncate(&mut self, depth: usize)
        ensures numbers { self.new.numbers ≡ take depth self.old.numbers }
        ensures space { self.new.space ≡ self.old.space }
    {
        self.steps.truncate(depth);
    }

    /// The numbers of the steps, that of the root's child first.
    #[inline(always)]
    pub fn numbers(&self) -> &[u32]
        ensures value { result.now ≡ self.now.numbers }
        ensures within { length self.now.numbers ≤ self.now.space }
    {
        self.steps.as_slice()
    }

    /// How many steps this path can hold without taking memory.
    #[inline(always)]
    pub fn space(&self) -> usize
        ensures { result ≡ self.now.space }
    {
        self.room
    }
}
