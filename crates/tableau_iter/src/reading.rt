//! The column reading of a filling given by its rows.
ghost use Rattle.std.specs.Prelude.{◌≡◌, ◌<◌, ◌+◌, ◌++◌, ℕ, OnOk, IfOk, map, length};
ghost use Rattle.sym_model.specs.GoodTableau.{column_reading};
ghost use Rattle.sym_model.specs.Partition.{part};
ghost use Rattle.sym_model.specs.Schur.{row_lengths};
ghost use Rattle.sym_model.specs.TableauList.{column_cells, reading_cells};
ghost use Rattle.tableau_iter.specs.ReadRows.{letter_in_rows};

use calc_base::NoMemory;
use partitions::number_at;
use skew_shapes::has_cell;
use std::alloc::{AllocError, Global};

/// The part at the index `place`, counted from 0; 0 after the last part.
pub(crate) fn part_at(parts: &[u16], place: usize) -> u16
    ensures { result ≡ part parts.now (place + 1) }
{
    parts.get(place).copied().unwrap_or(0)
}

/// The number in column `column`, counted from 1, of row `row`, counted from 0, if the rows are
/// those of a filling with the inner partition `inner`.
fn cell(rows: &[Vec<u16>], inner: &[u16], row: usize, column: u16) -> u16
    requires { row < length rows.now }
    ensures { result ≡ letter_in_rows inner.now (map (λ r. r.items) rows.now) (row + 1) column }
{
    let start = usize::from(part_at(inner, row)) + 1;
    number_at(
        rows[row].as_slice(),
        usize::from(column).saturating_sub(start),
    )
}

/// Appends to `letters` the numbers of one column of the filling of outer/inner with these rows,
/// from top to bottom.
fn push_column(
    letters: &mut Vec<u16>,
    rows: &[Vec<u16>],
    outer: &[u16],
    inner: &[u16],
    column: u16,
) -> Result<(), AllocError>
    requires { length rows.now ≡ length outer.now }
    ensures { OnOk result (letters.new.items
        ≡ letters.old.items ++ map
        (λ (c : ℕ × ℕ). letter_in_rows inner.now (map (λ r. r.items) rows.now) c.0 c.1)
        (column_cells outer.now inner.now column)) }
{
    for row in 0..outer.len() {
        if !has_cell(outer, inner, row, column) {
            continue;
        }
        letters.push(cell(rows, inner, row, column))?;
    }
    Ok(())
}

/// Appends to `letters` the numbers of the filling of outer/inner with these rows, in the order of
/// the column reading.
fn push_columns(
    letters: &mut Vec<u16>,
    rows: &[Vec<u16>],
    outer: &[u16],
    inner: &[u16],
) -> Result<(), AllocError>
    requires { length rows.now ≡ length outer.now }
    ensures { OnOk result (letters.new.items
        ≡ letters.old.items ++ map
        (λ (c : ℕ × ℕ). letter_in_rows inner.now (map (λ r. r.items) rows.now) c.0 c.1)
        (reading_cells outer.now inner.now)) }
{
    let mut column = outer.first().copied().unwrap_or(0);
    while column > 0 {
        push_column(letters, rows, outer, inner, column)?;
        column -= 1;
    }
    Ok(())
}

/// The column reading of the filling of outer/inner with these rows: the numbers of the columns
/// from the rightmost to the leftmost, each column from top to bottom. The rows must have the
/// lengths of the rows of outer/inner. Fails only if memory runs out.
pub fn reading_of_rows(
    alloc: Global,
    outer: &[u16],
    inner: &[u16],
    rows: &[Vec<u16>],
) -> Result<Vec<u16>, NoMemory>
    requires { map length (map (λ r. r.items) rows.now) ≡ row_lengths outer.now inner.now }
    ensures { IfOk result (λ w. w.items
        ≡ column_reading outer.now inner.now (map (λ r. r.items) rows.now)) }
{
    let mut letters = Vec::new(alloc);
    push_columns(&mut letters, rows, outer, inner)?;
    Ok(letters)
}
