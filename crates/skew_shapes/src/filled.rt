//! Fillings: skew shapes with an arbitrary number in each cell.
ghost use Rattle.std.specs.Prelude.{◌≡◌, ◌<◌, ◌≤◌, ◌↔◌, nat_lt, length, true, if◌then◌else◌, IsOk};
ghost use Rattle.std.specs.Prelude.{IfOk, IfErr};
ghost use Rattle.sym_model.specs.Partition.{IsCell, part, rows};
ghost use Rattle.sym_model.specs.Slide.{HasInnerCorner};
ghost use Rattle.sym_model.specs.GoodTableau.{column_reading};
ghost use Rattle.skew_shapes.specs.CellFillings.{IsFilling, entry_at, filled_with, is_tableau};
ghost use Rattle.skew_shapes.specs.CellFillings.{row_of, with_entry, with_inner_cell};
ghost use Rattle.skew_shapes.specs.CellFillings.{without_outer_cell};
ghost use Rattle.skew_shapes.specs.RowTests.{row_passes, stands_below};

use crate::order::{all_positive, rises, stands_on};
use crate::places::{between, place, push_columns, put_columns, row_starts, without_first};
use crate::{Skew, Tableau, Word};
use calc_base::NoMemory;
use std::alloc::Global;
use std::marker::Model;

/// A skew shape with an arbitrary number in each of its cells. The list `numbers` has a place for
/// each cell of the outer partition, allocated when the filling is made; no public method allocates
/// memory.
#[derive(Debug, Drop)]
pub struct Filled {
    shape: Skew,
    /// For each row of the outer partition, the index in `numbers` at which the row begins;
    /// `numbers` has a place for each cell of the outer partition, also for those of the inner one.
    starts: Vec<u16>,
    numbers: Vec<u16>,
}

impl Model for Filled {
    ghost use Rattle.sym_model.specs.Tableau.{SkewFilling};
    ghost use Rattle.skew_shapes.specs.Rows.{IsKept, filling_in};

    ghost Value = { SkewFilling };

    ghost view = { λ f. filling_in f.shape f.starts.items f.numbers.items };

    ghost invariant = { λ f. IsKept f.shape f.starts.items f.numbers.items };
}

impl Filled {
    /// A copy of this filling.
    pub(crate) fn copy(&self) -> Result<Filled, NoMemory>
        ensures { IfOk result (λ f. f ≡ self.now) }
    {
        Ok(Filled {
            shape: self.shape.copy()?,
            starts: self.starts.clone()?,
            numbers: self.numbers.clone()?,
        })
    }

    /// The column reading: the numbers of the columns from the rightmost to the leftmost, each
    /// column from top to bottom.
    pub(crate) fn column_reading(&self) -> Result<Word, NoMemory>
        ensures { IfOk result (λ w. w
            ≡ column_reading self.now.outer self.now.inner self.now.rows) }
    {
        let mut letters = Vec::new(*self.numbers.allocator());
        push_columns(
            &mut letters,
            &self.starts,
            &self.numbers,
            self.shape.outer().parts(),
            self.shape.inner().parts(),
        )?;
        Word::from_slice(*self.numbers.allocator(), &letters)
    }

    /// The skew shape of the filling.
    pub fn shape(&self) -> &Skew
        ensures value { result.now ≡ (self.now.outer, self.now.inner) }
        ensures filling { IsFilling self.now }
    {
        &self.shape
    }

    /// The numbers of row `row`, counted from 1, from left to right.
    pub fn row(&self, row: u16) -> &[u16]
        requires { (1 ≤ row) × (row ≤ rows self.now.outer) }
        ensures { result.now ≡ row_of self.now.rows row }
    {
        let from = place(&self.starts, row, self.shape.inner().part(row) + 1);
        let to = place(&self.starts, row, self.shape.outer().part(row) + 1);
        between(&self.numbers, from, to)
    }

    /// The number in the cell (row, column), both counted from 1; None if the shape has no such
    /// cell.
    pub fn entry(&self, row: u16, column: u16) -> Option<u16>
        ensures { result ≡ entry_at self.now row column }
    {
        if !self.shape.has_cell(row, column) {
            return None;
        }
        Some(self.numbers[place(&self.starts, row, column)])
    }

    /// Writes `value` into the cell (row, column), both counted from 1, which must be a cell of the
    /// shape; all other cells keep their numbers.
    pub fn set(&mut self, row: u16, column: u16, value: u16)
        requires { IsCell self.old.outer self.old.inner row column }
        ensures { self.new ≡ with_entry self.old row column value }
    {
        let place = place(&self.starts, row, column);
        self.numbers[place] = value;
    }

    /// Moves the last cell of row `row` of the inner partition into the shape; rows are counted
    /// from 1. The new cell has the number 0, and everything else is unchanged. In the inner
    /// partition, row `row` must be longer than the next row.
    pub fn add_inner_cell(&mut self, row: u16)
        requires { HasInnerCorner row self.old.inner }
        ensures { self.new ≡ with_inner_cell self.old row }
    {
        let place = place(&self.starts, row, self.shape.inner().part(row));
        self.numbers[place] = 0;
        self.shape.remove_inner_corner(row);
    }

    /// Removes the last cell of row `row`, counted from 1, from the shape; everything else is
    /// unchanged. In the outer partition, row `row` must be longer than the next row, and longer
    /// than row `row` of the inner partition.
    pub fn drop_outer_cell(&mut self, row: u16)
        requires corner { HasInnerCorner row self.old.outer }
        requires cell { part self.old.inner row < part self.old.outer row }
        ensures { self.new ≡ without_outer_cell self.old row }
    {
        self.shape.remove_outer_corner(row);
    }

    /// The filling as a tableau, if it is semistandard with entries at least 1; otherwise the
    /// filling is returned unchanged as the error.
    pub fn into_tableau(self) -> Result<Tableau, Filled>
        ensures tableau { IsOk result ↔ (is_tableau self ≡ true) }
        ensures ok { IfOk result (λ t. t ≡ self) }
        ensures err { IfErr result (λ f. f ≡ self) }
    {
        if self.is_tableau() {
            Ok(Tableau::of(self))
        } else {
            Err(self)
        }
    }

    /// Whether the filling is semistandard with entries at least 1.
    pub fn is_tableau(&self) -> bool
        ensures value { result ≡ is_tableau self.now }
        ensures filling { IsFilling self.now }
    {
        for row in 0..self.shape.outer().rows() {
            if !self.row_passes(row + 1) {
                return false;
            }
        }
        true
    }

    /// Whether the numbers of row `row` are positive and weakly increasing, and smaller than those
    /// directly below them.
    fn row_passes(&self, row: u16) -> bool
        requires { (1 ≤ row) × (row ≤ rows self.now.outer) }
        ensures { result ≡ row_passes self.now.inner self.now.rows row }
    {
        let numbers = self.row(row);
        all_positive(numbers) && (rises(numbers) && self.stands_on_next(row))
    }

    /// Whether each number of row `row` + 1 is greater than the one directly above it in row `row`;
    /// true if `row` is the last row.
    fn stands_on_next(&self, row: u16) -> bool
        requires { (1 ≤ row) × (row ≤ rows self.now.outer) }
        ensures { result ≡ (if nat_lt row
            (length self.now.rows) then stands_below self.now.inner self.now.rows row else true) }
    {
        if row == self.shape.outer().rows() {
            return true;
        }
        let shift = self
            .shape
            .inner()
            .part(row)
            .saturating_sub(self.shape.inner().part(row + 1));
        stands_on(
            self.row(row),
            without_first(self.row(row + 1), usize::from(shift)),
        )
    }
}

/// The filling of `shape` with the column reading `reading`: letters in excess of the cells are
/// ignored, and if there are fewer letters than cells, the last cells in the order of the reading
/// have the number 0.
pub fn filling_with_reading(alloc: Global, shape: Skew, reading: &[u16]) -> Result<Filled, NoMemory>
    ensures { IfOk result (λ f. f ≡ filled_with shape.0 shape.1 reading.now) }
{
    let starts = row_starts(alloc, shape.outer().parts())?;
    let mut numbers = vec![in alloc; 0u16; usize::from(shape.outer().size())]?;
    put_columns(
        &mut numbers,
        &starts,
        shape.outer().parts(),
        shape.inner().parts(),
        reading,
    );
    Ok(Filled {
        shape,
        starts,
        numbers,
    })
}
