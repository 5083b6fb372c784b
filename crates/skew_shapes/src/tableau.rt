//! The type of a semistandard tableau.
ghost use Rattle.std.specs.Prelude.{◌≡◌, ◌≢◌, ◌≤◌, ◌↔◌, false, length, IfOk, OnOk, IsErrOf, ◌⊎◌};
ghost use Rattle.sym_model.specs.GoodTableau.{column_reading};
ghost use Rattle.sym_model.specs.Partition.{cells, rows};
ghost use Rattle.skew_shapes.specs.CellFillings.{IsTableauWithin, entry_at, filled_with};
ghost use Rattle.skew_shapes.specs.CellFillings.{is_tableau, row_of};

use crate::{Filled, Skew, TableauFault, Word, filling_with_reading};
use calc_base::NoMemory;
use std::alloc::Global;
use std::marker::Model;

/// A semistandard tableau of a skew shape, with entries at least 1. Memory for one number for each
/// cell of the outer partition is allocated when the tableau is made.
#[derive(Debug, Drop)]
pub struct Tableau {
    filled: Filled,
}

impl Model for Tableau {
    ghost use Rattle.sym_model.specs.Tableau.{SkewFilling};
    ghost use Rattle.skew_shapes.specs.CellFillings.{IsTableauWithin};

    ghost Value = { SkewFilling };

    ghost view = { λ t. t.filled };

    ghost invariant = { λ t. IsTableauWithin t.filled };
}

impl Tableau {
    /// The tableau of `shape` whose column reading is `reading`: the entries of the columns from
    /// the rightmost to the leftmost, each column from top to bottom.
    ///
    /// Fails with `Length` if and only if the number of entries differs from the number of cells.
    /// Otherwise, if there is memory for the filling, it fails with `Order` if and only if the
    /// filling with this column reading is not semistandard with entries at least 1.
    pub fn from_reading(
        alloc: Global,
        shape: Skew,
        reading: &[u16],
    ) -> Result<Tableau, TableauFault>
        ensures ok { IfOk result (λ t. t ≡ filled_with shape.0 shape.1 reading.now) }
        ensures tableau { OnOk result (IsTableauWithin (filled_with shape.0 shape.1 reading.now)) }
        ensures length { IsErrOf result TableauFault.Length
            ↔ (length reading.now ≢ length (cells shape.0 shape.1)) }
        ensures order_only_there { IsErrOf result TableauFault.Order
            → (length reading.now ≡ length (cells shape.0 shape.1))
            × (is_tableau (filled_with shape.0 shape.1 reading.now) ≡ false) }
        ensures order { (length reading.now ≡ length (cells shape.0 shape.1))
            → is_tableau (filled_with shape.0 shape.1 reading.now) ≡ false
            → IsErrOf result TableauFault.Order ⊎ IsErrOf result TableauFault.NoMemory }
    {
        if reading.len() != usize::from(shape.cells()) {
            return Err(TableauFault::Length);
        }
        let filled = filling_with_reading(alloc, shape, reading)?;
        match filled.into_tableau() {
            Ok(tableau) => Ok(tableau),
            Err(_) => Err(TableauFault::Order),
        }
    }

    /// A filling that is semistandard with entries at least 1, as a tableau.
    pub(crate) fn of(filled: Filled) -> Tableau
        requires { IsTableauWithin filled }
        ensures { result ≡ filled }
    {
        Tableau { filled }
    }

    /// The skew shape of the tableau.
    pub fn shape(&self) -> &Skew
        ensures value { result.now ≡ (self.now.outer, self.now.inner) }
        ensures tableau { IsTableauWithin self.now }
    {
        self.filled.shape()
    }

    /// The entries of row `row`, counted from 1, from left to right.
    pub fn row(&self, row: u16) -> &[u16]
        requires { (1 ≤ row) × (row ≤ rows self.now.outer) }
        ensures { result.now ≡ row_of self.now.rows row }
    {
        self.filled.row(row)
    }

    /// The entry in the cell (row, column), both counted from 1; None if the shape has no such
    /// cell.
    pub fn entry(&self, row: u16, column: u16) -> Option<u16>
        ensures { result ≡ entry_at self.now row column }
    {
        self.filled.entry(row, column)
    }

    /// A copy of this tableau.
    pub fn copy(&self) -> Result<Tableau, NoMemory>
        ensures { IfOk result (λ t. t ≡ self.now) }
    {
        Ok(Tableau {
            filled: self.filled.copy()?,
        })
    }

    /// The column reading: the entries of the columns from the rightmost to the leftmost, each
    /// column from top to bottom.
    pub fn column_reading(&self) -> Result<Word, NoMemory>
        ensures { IfOk result (λ w. w
            ≡ column_reading self.now.outer self.now.inner self.now.rows) }
    {
        self.filled.column_reading()
    }

    /// The filling with the shape and the entries of this tableau.
    pub fn into_filled(self) -> Filled
        ensures { result ≡ self }
    {
        self.filled
    }
}
