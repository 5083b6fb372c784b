//! The insertion tableau and the recording tableau of a permutation, read from two edges of its
//! growth grid.
ghost use Rattle.std.specs.Prelude.{◌≡◌, IfOk};
ghost use Rattle.sym_model.specs.Insertion.{insertion_pair};
ghost use Rattle.row_insertion.specs.RowLists.{straight};

use crate::Grid;
use crate::corner::first_longer;
use calc_base::NoMemory;
use row_insertion::{push_at, standard_of};
use skew_shapes::Standard;
use std::alloc::Global;

/// The insertion tableau of the permutation of the grid, read from the chain of shapes in the last
/// line: each number k is in the cell that the shape at index k of the chain, counted from 0, has
/// in addition to the shape before it.
pub(crate) fn line_tableau(alloc: Global, grid: &Grid) -> Result<Standard, NoMemory>
    ensures { IfOk result (λ p. p ≡ straight (insertion_pair grid.now).0) }
{
    let side = grid.side();
    let mut rows = Vec::new(alloc);
    for at in 0..side {
        let row = first_longer(grid.shape_at(side, at + 1), grid.shape_at(side, at));
        push_at(&mut rows, usize::from(row), at + 1)?;
    }
    standard_of(alloc, &rows)
}

/// The recording tableau of the permutation of the grid, read from the chain of shapes in the last
/// column: each number k is in the cell that the shape at index k of the chain, counted from 0, has
/// in addition to the shape before it.
pub(crate) fn column_tableau(alloc: Global, grid: &Grid) -> Result<Standard, NoMemory>
    ensures { IfOk result (λ q. q ≡ straight (insertion_pair grid.now).1) }
{
    let side = grid.side();
    let mut rows = Vec::new(alloc);
    for at in 0..side {
        let row = first_longer(grid.shape_at(at + 1, side), grid.shape_at(at, side));
        push_at(&mut rows, usize::from(row), at + 1)?;
    }
    standard_of(alloc, &rows)
}
