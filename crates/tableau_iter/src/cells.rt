//! The row numbers and the column numbers of the cells of a skew shape, in the order of the column
//! reading.
ghost use Rattle.std.specs.Prelude.{◌≡◌, ℕ, ◌+◌, ◌<◌, ◌≤◌, ◌++◌, cond, map, length, IfOk, OnOk};
ghost use Rattle.sym_model.specs.TableauList.{column_cells, reading_cells};

use skew_shapes::{Skew, has_cell};
use std::alloc::{AllocError, Global};

/// For each cell in the order of the column reading, the number of its row if `of_row` is true, and
/// otherwise the number of its column.
pub(crate) fn cell_numbers(
    alloc: Global,
    shape: &Skew,
    of_row: bool,
) -> Result<Vec<u16>, AllocError>
    ensures value { IfOk result (λ v. v.items
        ≡ map (λ (c : ℕ × ℕ). cond of_row c.0 c.1) (reading_cells shape.now.0 shape.now.1)) }
    ensures few { IfOk result (λ v. length v.items ≤ 4096) }
{
    let mut numbers = Vec::with_capacity(alloc, usize::from(shape.cells()))?;
    push_columns(
        &mut numbers,
        shape.outer().parts(),
        shape.inner().parts(),
        of_row,
    )?;
    Ok(numbers)
}

fn push_columns(
    numbers: &mut Vec<u16>,
    outer: &[u16],
    inner: &[u16],
    of_row: bool,
) -> Result<(), AllocError>
    requires few { length outer.now ≤ 512 }
    ensures { OnOk result (numbers.new.items
        ≡ numbers.old.items ++ map (λ (c : ℕ × ℕ). cond of_row c.0 c.1)
        (reading_cells outer.now inner.now)) }
{
    let mut column = outer.first().copied().unwrap_or(0);
    while column > 0 {
        push_column(numbers, outer, inner, column, of_row)?;
        column -= 1;
    }
    Ok(())
}

fn push_column(
    numbers: &mut Vec<u16>,
    outer: &[u16],
    inner: &[u16],
    column: u16,
    of_row: bool,
) -> Result<(), AllocError>
    requires few { length outer.now ≤ 512 }
    requires column { 1 ≤ column }
    ensures { OnOk result (numbers.new.items
        ≡ numbers.old.items ++ map (λ (c : ℕ × ℕ). cond of_row c.0 c.1)
        (column_cells outer.now inner.now column)) }
{
    for row in 0..outer.len() {
        if !has_cell(outer, inner, row, column) {
            continue;
        }
        numbers.push(chosen(of_row, row as u16 + 1, column))?;
    }
    Ok(())
}

/// `first` if `is_first` is true, otherwise `second`.
fn chosen(is_first: bool, first: u16, second: u16) -> u16
    ensures { result ≡ cond is_first first second }
{
    if is_first { first } else { second }
}
