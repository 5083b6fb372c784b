//! Fillings of skew shapes that are given by their column readings.
ghost use Rattle.std.specs.Prelude.{◌≡◌, ◌≤◌, ◌<◌, ℕ, List, slice_index, IfOk};
ghost use Rattle.sym_model.specs.Partition.{IsCell};
ghost use Rattle.sym_model.specs.TableauList.{filling_of, letter_of_cell, reading_cells};
ghost use Rattle.expansion_printer.specs.ReadingPlaces.{before_in_row};

use crate::rows::Entries;
use calc_base::NoMemory;
use partitions::Partition;
use skew_shapes::{Filled, Skew, filling_with_reading};
use std::alloc::{AllocError, Global};
use std::marker::Model;

/// A skew shape and, for each of its cells, the index of the cell's letter in a column reading. It
/// is computed once for all fillings of the shape that are printed by their readings.
#[derive(Drop)]
pub struct ReadingOrder {
    places: Filled,
}

impl Model for ReadingOrder {
    ghost use Rattle.std.specs.Prelude.{ℕ, List};
    ghost use Rattle.expansion_printer.specs.ReadingPlaces.{HasReadingPlaces};

    ghost Value = { List ℕ × List ℕ };

    ghost view = { λ o. (o.places.outer, o.places.inner) };

    ghost invariant = { λ o. HasReadingPlaces o.places };
}

impl ReadingOrder {
    /// The indices, in a column reading, of the letters of the cells of a shape. Fails only if
    /// memory runs out.
    pub fn new(alloc: Global, shape: Skew) -> Result<ReadingOrder, NoMemory>
        ensures { IfOk result (λ order. order ≡ shape) }
    {
        let numbers = numbers_below(alloc, shape.outer().size() + 1)?;
        let places = filling_with_reading(alloc, shape, &numbers)?;
        Ok(ReadingOrder { places })
    }

    fn outer(&self) -> &Partition
        ensures { result.now ≡ self.now.0 }
    {
        self.places.shape().outer()
    }

    fn inner(&self) -> &Partition
        ensures { result.now ≡ self.now.1 }
    {
        self.places.shape().inner()
    }

    /// The index of a cell's letter in a column reading.
    fn place(&self, row: u16, column: u16) -> usize
        requires { IsCell self.now.0 self.now.1 row column }
        ensures { (w : List ℕ) → slice_index w result
            ≡ letter_of_cell row column (reading_cells self.now.0 self.now.1) w }
    {
        usize::from(self.places.entry(row, column).unwrap_or(0))
    }
}

/// The numbers from 0 to `count` - 1.
fn numbers_below(alloc: Global, count: u16) -> Result<Vec<u16>, AllocError>
    ensures { IfOk result (λ numbers. (i : ℕ) → i < count → slice_index numbers.items i ≡ i) }
{
    let mut numbers = Vec::with_capacity(alloc, usize::from(count))?;
    for number in 0..count {
        numbers.push(number)?;
    }
    Ok(numbers)
}

/// A filling of a shape, given by its column reading: the letters of the columns from the rightmost
/// to the leftmost, each from top to bottom. The indices of the cells are stored in `order`.
#[derive(Drop)]
pub(crate) struct Reading<'a> {
    pub(crate) order: &'a ReadingOrder,
    pub(crate) letters: &'a [u16],
}

impl Entries for Reading<'_> {
    ghost outer = { λ r. r.order.now.0 };

    ghost inner = { λ r. r.order.now.1 };

    ghost entry = { λ r row column. letter_of_cell row column
        (reading_cells r.order.now.0 r.order.now.1) r.letters.now };

    ghost rows = { λ r. filling_of r.order.now.0 r.order.now.1 r.letters.now };

    fn outer(&self) -> &Partition {
        self.order.outer()
    }

    fn inner(&self) -> &Partition {
        self.order.inner()
    }

    fn entry(&self, row: u16, column: u16) -> u16 {
        let place = self.order.place(row, column);
        self.letters.get(place).copied().unwrap_or(0)
    }
}

/// A filling of a shape, given by its column reading. The index of a cell's letter is computed when
/// it is needed. No memory is allocated.
#[derive(Drop)]
pub(crate) struct CountedReading<'a> {
    pub(crate) shape: &'a Skew,
    pub(crate) letters: &'a [u16],
}

impl Entries for CountedReading<'_> {
    ghost outer = { λ r. r.shape.now.0 };

    ghost inner = { λ r. r.shape.now.1 };

    ghost entry = { λ r row column. letter_of_cell row column
        (reading_cells r.shape.now.0 r.shape.now.1) r.letters.now };

    ghost rows = { λ r. filling_of r.shape.now.0 r.shape.now.1 r.letters.now };

    fn outer(&self) -> &Partition {
        self.shape.outer()
    }

    fn inner(&self) -> &Partition {
        self.shape.inner()
    }

    fn entry(&self, row: u16, column: u16) -> u16 {
        let place = place_of(self.shape, row, column);
        self.letters.get(place).copied().unwrap_or(0)
    }
}

/// The index of a cell's letter in a column reading: the number of cells in columns further right,
/// plus the number of cells above the cell in its column.
fn place_of(shape: &Skew, row: u16, column: u16) -> usize
    requires { IsCell shape.now.0 shape.now.1 row column }
    ensures { (w : List ℕ) → slice_index w result
        ≡ letter_of_cell row column (reading_cells shape.now.0 shape.now.1) w }
{
    let mut before = 0;
    for at in 0..shape.outer().rows() {
        let left = shape.inner().part(at + 1);
        let right = shape.outer().part(at + 1);
        before += usize::from(cells_before(left, right, column, at + 1 < row));
    }
    before
}

/// The number of cells of a row that come, in a column reading, before a given cell in the column
/// `column`. The row has cells in columns `left + 1` to `right`; `is_above` says whether the row is
/// above the given cell.
fn cells_before(left: u16, right: u16, column: u16, is_above: bool) -> u16
    ensures { result ≡ before_in_row left right column is_above }
{
    let further_right = right.saturating_sub(left.max(column));
    if is_above && left < column && column <= right {
        return further_right + 1;
    }
    further_right
}
