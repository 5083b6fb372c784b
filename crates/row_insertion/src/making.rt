//! Tableaux from rows, and rows from tableaux.
ghost use Rattle.std.specs.Prelude.{◌≡◌, ◌≤◌, [], length, IfOk};
ghost use Rattle.sym_model.specs.Partition.{part, rows, size};
ghost use Rattle.sym_model.specs.Schur.{row_lengths};
ghost use Rattle.sym_model.specs.StandardTableau.{IsStandard};
ghost use Rattle.sym_model.specs.Tableau.{shape_of};
ghost use Rattle.insertion_laws.specs.Rows.{AreRows};
ghost use Rattle.row_insertion.specs.RowLists.{rows_in, straight, with_row};

use calc_base::NoMemory;
use partitions::Partition;
use skew_shapes::{Filled, Skew, Standard, Tableau, filling_with_reading};
use std::alloc::Global;

/// The tableau of straight shape with these rows, which must be those of a semistandard tableau of
/// at most 512 cells.
pub(crate) fn tableau_of(alloc: Global, rows: &[Vec<u16>]) -> Result<Tableau, NoMemory>
    requires tableau { AreRows 1 (rows_in rows.now) }
    requires few { size (shape_of (rows_in rows.now)) ≤ 512 }
    ensures { IfOk result (λ t. t ≡ straight (rows_in rows.now)) }
{
    let mut filled = filling_with_reading(alloc, straight_shape(alloc, rows)?, &[])?;
    for at in 0..filled.shape().outer().rows() {
        put_row(&mut filled, at + 1, &rows[usize::from(at)]);
    }
    match filled.into_tableau() {
        Ok(tableau) => Ok(tableau),
        Err(_) => unreachable!(),
    }
}

/// The straight shape whose parts are the lengths of these rows.
fn straight_shape(alloc: Global, rows: &[Vec<u16>]) -> Result<Skew, NoMemory>
    requires tableau { AreRows 1 (rows_in rows.now) }
    requires few { size (shape_of (rows_in rows.now)) ≤ 512 }
    ensures { IfOk result (λ shape. shape ≡ (shape_of (rows_in rows.now), [])) }
{
    let mut parts = Vec::with_capacity(alloc, rows.len())?;
    for row in rows {
        parts.push(row.len() as u16)?;
    }
    let outer = Partition::from_valid_parts(alloc, &parts)?;
    let inner = Partition::from_valid_parts(alloc, &[])?;
    match Skew::new(outer, inner) {
        Some(shape) => Ok(shape),
        None => unreachable!(),
    }
}

/// Replaces the numbers of row `row`, counted from 1, of a filling of straight shape with
/// `numbers`.
fn put_row(filled: &mut Filled, row: u16, numbers: &[u16])
    requires straight { filled.old.inner ≡ [] }
    requires shape { shape_of filled.old.rows ≡ filled.old.outer }
    requires row { (1 ≤ row) × (row ≤ rows filled.old.outer) }
    requires all { length numbers.now ≡ part filled.old.outer row }
    ensures { filled.new ≡ with_row filled.old row numbers.now }
{
    for at in 0..filled.shape().outer().part(row) {
        filled.set(row, at + 1, numbers[usize::from(at)]);
    }
}

/// The standard tableau with these rows, which must be those of a standard tableau of at most 512
/// cells. Fails only if memory runs out.
pub fn standard_of(alloc: Global, rows: &[Vec<u16>]) -> Result<Standard, NoMemory>
    requires standard { IsStandard (rows_in rows.now) }
    requires tableau { AreRows 1 (rows_in rows.now) }
    requires few { size (shape_of (rows_in rows.now)) ≤ 512 }
    ensures { IfOk result (λ t. t ≡ straight (rows_in rows.now)) }
{
    match Standard::new(tableau_of(alloc, rows)?) {
        Ok(standard) => Ok(standard),
        Err(_) => unreachable!(),
    }
}

/// A copy of the rows of a tableau.
pub(crate) fn rows_of(alloc: Global, t: &Tableau) -> Result<Vec<Vec<u16>>, NoMemory>
    ensures rows { IfOk result (λ list. rows_in list.items ≡ t.now.rows) }
    ensures lengths { IfOk result
        (λ list. shape_of (rows_in list.items) ≡ row_lengths t.now.outer t.now.inner) }
{
    let mut list = Vec::new(alloc);
    for at in 0..t.shape().outer().rows() {
        list.push(Vec::from_slice(alloc, t.row(at + 1))?)?;
    }
    Ok(list)
}
