//! Slow programs that follow the definitions, for the column readings of fillings of skew shapes.

ghost use Rattle.std.specs.Prelude.{◌≡◌, ◌++◌, ◌+◌, ◌<◌, ◌≤◌, ◌^◌, IfOk, OnOk, length, reverse};
ghost use Rattle.std.specs.Prelude.{flat_map};
ghost use Rattle.sym_model.specs.Partition.{after};
ghost use Rattle.sym_model.specs.GoodTableau.{column, reading_right_of, column_reading};
ghost use Rattle.plain_programs.specs.Words.{words_of};

use crate::numbers::{number_at, without_first};
use std::alloc::{AllocError, Global};

/// The column reading of a filling of the shape outer/inner, given by its rows: the columns from
/// the rightmost to the leftmost, each from top to bottom. Fails only if memory runs out.
pub fn plain_column_reading(
    alloc: Global,
    outer: &[u64],
    inner: &[u64],
    filling: &[Vec<u64>],
) -> Result<Vec<u64>, AllocError>
    ensures { IfOk result (λ reading. reading.items
        ≡ column_reading outer.now inner.now (words_of filling.now)) }
{
    plain_reading_right_of(alloc, 0, outer, inner, filling)
}

/// The column reading of the columns of a filling to the right of column j: the columns from the
/// rightmost on, each from top to bottom. Fails only if memory runs out.
pub fn plain_reading_right_of(
    alloc: Global,
    j: u64,
    outer: &[u64],
    inner: &[u64],
    filling: &[Vec<u64>],
) -> Result<Vec<u64>, AllocError>
    ensures { IfOk result (λ reading. reading.items
        ≡ reading_right_of j outer.now inner.now (words_of filling.now)) }
{
    let mut reading = Vec::new(alloc);
    let columns = number_at(outer, 0);
    push_columns(&mut reading, inner, filling, j, columns.saturating_sub(j))?;
    Ok(reading)
}

/// Appends the columns j + count, .., j + 1 of the filling to the reading, each from top to bottom.
fn push_columns(
    reading: &mut Vec<u64>,
    inner: &[u64],
    filling: &[Vec<u64>],
    j: u64,
    count: u64,
) -> Result<(), AllocError>
    requires { j + count < 2 ^ 64 }
    ensures { OnOk result (reading.new.items
        ≡ reading.old.items ++ flat_map (column inner.now (words_of filling.now))
        (reverse (after j count))) }
{
    if count == 0 {
        return Ok(());
    }
    push_column(reading, inner, filling, j + count)?;
    push_columns(reading, inner, filling, j, count - 1)
}

fn push_column(
    reading: &mut Vec<u64>,
    inner: &[u64],
    filling: &[Vec<u64>],
    j: u64,
) -> Result<(), AllocError>
    ensures { OnOk result (reading.new.items
        ≡ reading.old.items ++ column inner.now (words_of filling.now) j) }
{
    let [row, below @ ..] = filling else {
        return Ok(());
    };
    let first = number_at(inner, 0);
    if first < j {
        if let [letter, ..] = without_first(row, j - (first + 1)) {
            reading.push(*letter)?;
        }
    }
    push_column(reading, without_first(inner, 1), below, j)
}
