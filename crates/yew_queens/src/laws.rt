//! What the tree of placements is of. The function is a law: it does nothing, and its contract is proved once for all that
//! cite it.

ghost use Rattle.std.specs.Prelude.{ℕ, ◌≡◌, ◌≤◌, count_by};
ghost use Rattle.yew_kinds.specs.DepthCounts.{members_at};
ghost use Rattle.yew_laws.specs.SearchTree.{preorder};
ghost use Rattle.yew_queens.specs.Boards.{is_peaceful, all_placements};
ghost use Rattle.yew_queens.specs.BoardTree.{board_tree};

/// The tree has as many nodes with so many queens as there are placements of so many, one in each of the first rows, of
/// which no two attack each other.
pub fn nodes_by_row(size: u32)
    ensures { (rows : ℕ) → rows ≤ size → members_at rows (preorder (board_tree size)) ≡ count_by is_peaceful (all_placements size rows) }
{
    let _ = size;
}
