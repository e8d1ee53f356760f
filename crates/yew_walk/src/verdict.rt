//! Whether a node is visited or cut off.

ghost use Rattle.std.specs.Prelude.{◌≡◌};
ghost use Rattle.yew_laws.specs.SearchTree.{IsTask};
ghost use Rattle.yew_walk.specs.Keys.{IsKeying};
ghost use Rattle.yew_walk.specs.Verdicts.{IsVerdict};

use crate::keying::Keying;
use yew_best::{Best, BestSeat};
use yew_laws::{Path, Problem, Task};

/// What becomes of a node. `read` is the worth that was held when its fate was decided.
#[derive(Clone, Copy, Debug, PartialEq, Eq)]
pub enum Verdict {
    /// It is visited, and its key was offered to the incumbent word.
    Visit { worth: u64, read: u64 },
    /// It is cut off with all that lies below it.
    Cut { bound: u64, read: u64 },
}

/// Decides whether a node is visited or cut off, by one load of the incumbent word: it is cut off exactly where the key
/// of its bound is at most the word, or with a gap at most the word and the gap together where the word is not 0. But the
/// root, which has the empty path, is always visited. A visit offers the key of its worth. It takes no memory.
#[inline(always)]
pub fn consider<P: Problem>(
    problem: &P,
    best: &Best,
    seat: &mut BestSeat,
    keying: Keying,
    task: &Task<P::Node>,
) -> Verdict
    requires root { P.sound problem.now (P.root problem.now) }
    requires task { IsTask P.Problem problem.now task.now.path.numbers task.now.node }
    requires seat { seat.old.best ≡ best.now }
    requires keying { IsKeying keying }
    ensures { IsVerdict P.Problem problem.now keying task.now.path.numbers task.now.node result seat.old seat.new }
{
    judge(problem, best, seat, keying, &task.path, &task.node)
}

/// Decides of the node at a path as [`consider`] does of a task. The node need not stand in a task, nor the path be its own.
#[inline(always)]
pub fn judge<P: Problem>(
    problem: &P,
    best: &Best,
    seat: &mut BestSeat,
    keying: Keying,
    path: &Path,
    node: &P::Node,
) -> Verdict
    requires root { P.sound problem.now (P.root problem.now) }
    requires task { IsTask P.Problem problem.now path.now.numbers node.now }
    requires seat { seat.old.best ≡ best.now }
    requires keying { IsKeying keying }
    ensures { IsVerdict P.Problem problem.now keying path.now.numbers node.now result seat.old seat.new }
{
    let word = best.read(seat);
    let read = keying.held(word);
    if !path.numbers().is_empty() {
        let bound = problem.bound(node);
        if keying.key(bound) <= keying.limit(word) {
            return Verdict::Cut { bound, read };
        }
    }
    let worth = problem.worth(node);
    let _ = best.raise(seat, keying.key(worth));
    Verdict::Visit { worth, read }
}
