//! The tree of placements, and the functions that answer it.

ghost use Rattle.std.specs.Prelude.{ℕ, ◌≡◌, ◌≤◌, [], length, IfOk};
ghost use Rattle.std.proofs.Common.{arith};
ghost use Rattle.yew_queens.specs.BoardTree.{children_of, rows_left, worth_of};
ghost use Rattle.yew_queens.specs.BoardLaws.{HasRoom, board-ranked, board-root_rank, board-bounded, board-countable};

use crate::placement::Placement;
use std::alloc::Global;
use std::marker::{Brand, PhantomData};
use yew_calls::Shape;
use yew_laws::Memory;

/// How many rows and columns a board has. A search picks it.
pub trait Size: Sync {
    ghost size: { ℕ };

    /// A board has at most 65,535 rows.
    ghost few: { size ≤ 65535 };
}

impl Size for Brand {
    ghost size = { 8 };

    ghost few = { Prim.omega arith };
}

/// The tree of placements on a board: the root has no queen, and a child has one more in the next row, where none attacks
/// it. A node with a queen in each row has worth 1, every other one worth 0.
pub struct Board<K: Size> {
    size: PhantomData<K>,
}

impl<K: Size> Shape for Board<K> {
    type Node = Placement;

    ghost root = { [] };

    ghost children = { children_of K.size };

    ghost rank = { rows_left K.size };

    ghost sound = { HasRoom K.size };

    ghost worth = { worth_of K.size };

    ghost bound = { λ _. 1 };

    ghost rooted = { Prim.omega arith };

    ghost ranked = { board-ranked K.size };

    ghost root_rank = { board-root_rank K.size K.few };

    ghost bounded = { board-bounded K.size };

    ghost countable = { board-countable K.size K.few };
}

/// The root: no queen.
pub fn no_queen(alloc: Global) -> Result<Placement, Memory>
    ensures { IfOk result (λ placement. placement ≡ []) }
{
    Ok(Placement::empty(alloc))
}

/// The children of a node: one queen more in the next row, in each column that is free, by rising column.
pub fn one_queen_more(
    alloc: Global,
    size: u32,
    placed: &Placement,
) -> Result<Vec<Placement>, Memory>
    ensures { IfOk result (λ nodes. nodes.items ≡ children_of size placed.now) }
{
    let mut nodes = Vec::new(alloc);
    if placed.columns().len() < size as usize {
        for column in 0..size {
            if placed.is_free(column) {
                nodes.push(placed.with(alloc, column)?)?;
            }
        }
    }
    Ok(nodes)
}

/// The worth of a node: 1 where each row has its queen.
pub fn is_whole(size: u32, placed: &Placement) -> u64
    ensures { result ≡ worth_of size placed.now }
{
    u64::from(placed.columns().len() == size as usize)
}
