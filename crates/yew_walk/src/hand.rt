//! What a worker has found so far.

ghost use Rattle.std.specs.Prelude.{◌≡◌, ◌<◌, ◌≤◌, ◌^◌, false, length, IfOk};
ghost use Rattle.yew_laws.specs.Incumbent.{improved};
ghost use Rattle.yew_walk.specs.Hands.{incumbent_of, numbers_of};
ghost use Rattle.yew_walk.specs.Keys.{IsKeying, answer_key};

use crate::keying::Keying;
use std::alloc::Global;
use yew_kinds::Tally;
use yew_laws::{Memory, Path};

// No path of a tree has more numbers.
const LONGEST_PATH: u32 = 65_535;

/// The sum of the nodes that were visited, and the greatest key of a visited node that is an answer, with the path of
/// the first one that had it. Where nothing is held, no such node was visited: the hand then has no key and no path,
/// whatever its fields say, and every key counts as greater.
#[derive(Drop)]
pub struct Hand<S> {
    pub sum: S,
    pub key: u64,
    pub path: Path,
    pub holds: bool,
}

/// A hand with nothing in it, whose path has room for any path of a tree.
///
/// # Errors
///
/// `Memory` where memory ran out.
pub fn empty_hand<N, T: Tally<N>>(alloc: Global, tally: &T) -> Result<Hand<T::Sum>, Memory>
    ensures holds { IfOk result (λ hand. hand.holds ≡ false) }
    ensures sum { IfOk result (λ hand. hand.sum ≡ T.none tally.now) }
    ensures space { IfOk result (λ hand. 65535 ≤ hand.path.space) }
{
    Ok(Hand {
        sum: tally.none(alloc)?,
        key: 0,
        path: Path::empty(alloc, LONGEST_PATH)?,
        holds: false,
    })
}

impl<S: Drop> Hand<S> {
    /// Takes the worth of a visited node into account. The path is copied only where the key is greater.
    #[inline(always)]
    pub fn keep(&mut self, keying: Keying, worth: u64, path: &Path)
        requires keying { IsKeying keying }
        requires worth { worth < 2 ^ 40 }
        requires space { length path.now.numbers ≤ self.old.path.space }
        ensures incumbent { incumbent_of self.new ≡ improved (incumbent_of self.old) (answer_key keying worth) path.now.numbers }
        ensures sum { self.new.sum ≡ self.old.sum }
        ensures space { self.new.path.space ≡ self.old.path.space }
    {
        if worth == 0 {
            return;
        }
        let key = keying.key(worth);
        if self.holds && key <= self.key {
            return;
        }
        self.key = key;
        self.path.set(path);
        self.holds = true;
    }

    /// The key of the best node, and 0 if no visited node was an answer. With plain keys it is the worth of that node.
    pub fn best_key(&self) -> u64
        ensures { result ≡ (incumbent_of self.now).worth }
    {
        if self.holds { self.key } else { 0 }
    }

    /// The path of the best node, if any visited node was an answer.
    pub fn into_path(self) -> Option<Path>
        ensures { numbers_of result ≡ (incumbent_of self).path }
    {
        let Hand {
            sum: _,
            key: _,
            path,
            holds,
        } = self;
        if holds { Some(path) } else { None }
    }
}
