//! Placements of queens.

ghost use Rattle.std.specs.Prelude.{◌≡◌, ◌+◌, ◌≤◌, [], ◌∷◌, ◌++◌, length, IfOk};
ghost use Rattle.yew_queens.specs.BoardTree.{is_free, worth_of};

use std::alloc::Global;
use std::marker::Model;
use yew_laws::Memory;

/// Queens in the first rows of a board, one in each row. Contracts see it as the list of their columns.
#[derive(Drop)]
pub struct Placement {
    columns: Vec<u32>,
}

impl Model for Placement {
    ghost use Rattle.std.specs.Prelude.{List, ℕ};

    ghost Value = { List ℕ };

    ghost view = { λ placement. placement.columns.items };
}

impl Placement {
    /// The columns of the queens, that of row 0 first.
    pub fn columns(&self) -> &[u32]
        ensures { result.now ≡ self.now }
    {
        self.columns.as_slice()
    }

    /// No queen.
    pub fn empty(alloc: Global) -> Placement
        ensures { result ≡ [] }
    {
        Placement {
            columns: Vec::new(alloc),
        }
    }

    /// One queen more, in this column of the next row.
    pub fn with(&self, alloc: Global, column: u32) -> Result<Placement, Memory>
        ensures { IfOk result (λ placement. placement ≡ self.now ++ column ∷ []) }
    {
        let mut columns = Vec::from_slice(alloc, self.columns.as_slice())?;
        columns.push(column)?;
        Ok(Placement { columns })
    }

    /// Whether a queen in this column of the next row is attacked by none.
    pub fn is_free(&self, column: u32) -> bool
        ensures { result ≡ is_free self.now column }
    {
        let mut rest = self.columns.as_slice();
        while let Some((first, later)) = rest.split_first() {
            let apart = first.abs_diff(column) as usize;
            if apart == 0 || apart == rest.len() {
                return false;
            }
            rest = later;
        }
        true
    }
}
