//! The type of a skew shape.
ghost use Rattle.std.specs.Prelude.{◌≡◌, ◌+◌, ◌<◌, ◌≤◌, ◌↔◌, ℕ, List, length, nat_lt, nat_le};
ghost use Rattle.std.specs.Prelude.{IsTrue, IsSome, IfOk, IfSome};
ghost use Rattle.sym_model.specs.Partition.{Holds, cells, columns, part, size, without_last_zeros};
ghost use Rattle.sym_model.specs.Slide.{HasInnerCorner, lowered_at};
ghost use Rattle.skew_shapes.specs.CellFillings.{is_cell};
ghost use Rattle.skew_shapes.specs.Shapes.{IsSkew};

use calc_base::NoMemory;
use partitions::Partition;
use std::marker::Model;

/// A skew shape: the cells of an outer partition that are not cells of an inner one,
/// which lies inside it.
#[derive(Debug, Drop)]
pub struct Skew {
    outer: Partition,
    inner: Partition,
}

impl Model for Skew {
    ghost use Rattle.std.specs.Prelude.{ℕ, List};
    ghost use Rattle.skew_shapes.specs.Shapes.{IsSkew};

    ghost Value = { List ℕ × List ℕ };

    ghost view = { λ s. (s.outer, s.inner) };

    ghost invariant = { λ s. IsSkew s.outer s.inner };
}

impl Skew {
    /// The skew shape outer/inner; None if `inner` is not contained in `outer`.
    pub fn new(outer: Partition, inner: Partition) -> Option<Skew>
        ensures some { IsSome result ↔ Holds outer inner }
        ensures value { IfSome result (λ s. s ≡ (outer, inner)) }
    {
        if outer.contains(&inner) {
            Some(Skew { outer, inner })
        } else {
            None
        }
    }

    /// The outer partition.
    pub fn outer(&self) -> &Partition
        ensures value { result.now ≡ self.now.0 }
        ensures limits { IsSkew self.now.0 self.now.1 }
    {
        &self.outer
    }

    /// The inner partition.
    pub fn inner(&self) -> &Partition
        ensures value { result.now ≡ self.now.1 }
        ensures limits { IsSkew self.now.0 self.now.1 }
    {
        &self.inner
    }

    /// The number of cells of outer/inner.
    pub fn cells(&self) -> u16
        ensures value { result ≡ length (cells self.now.0 self.now.1) }
        ensures sizes { result + size self.now.1 ≡ size self.now.0 }
        ensures limits { IsSkew self.now.0 self.now.1 }
    {
        self.outer.size() - self.inner.size()
    }

    /// The number of columns of the outer partition.
    pub fn columns(&self) -> u16
        ensures value { result ≡ columns self.now.0 }
        ensures limits { IsSkew self.now.0 self.now.1 }
    {
        self.outer.part(1)
    }

    /// Whether outer/inner has the cell (row, column), both counted from 1.
    pub fn has_cell(&self, row: u16, column: u16) -> bool
        ensures { result ≡ is_cell self.now.0 self.now.1 row column }
    {
        row >= 1 && self.inner.part(row) < column && column <= self.outer.part(row)
    }

    /// Removes the last cell of row `row`, counted from 1, from the inner partition, so that this
    /// cell becomes a cell of the shape. In the inner partition, row `row` must be longer than the
    /// next row.
    pub(crate) fn remove_inner_corner(&mut self, row: u16)
        requires { HasInnerCorner row self.old.1 }
        ensures { self.new ≡ (self.old.0, without_last_zeros (lowered_at row self.old.1)) }
    {
        self.inner.remove_corner(row);
    }

    /// Removes the last cell of row `row`, counted from 1, from the outer partition. This cell must
    /// be a cell of the shape, and in the outer partition row `row` must be longer than the next
    /// row.
    pub(crate) fn remove_outer_corner(&mut self, row: u16)
        requires corner { HasInnerCorner row self.old.0 }
        requires cell { part self.old.1 row < part self.old.0 row }
        ensures { self.new ≡ (without_last_zeros (lowered_at row self.old.0), self.old.1) }
    {
        self.outer.remove_corner(row);
    }

    /// A copy of this shape.
    pub fn copy(&self) -> Result<Skew, NoMemory>
        ensures { IfOk result (λ s. s ≡ self.now) }
    {
        Ok(Skew {
            outer: self.outer.copy()?,
            inner: self.inner.copy()?,
        })
    }
}
