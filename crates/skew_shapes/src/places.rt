//! The numbers of the cells of a skew shape in one list: `starts` has, for each row of the outer
//! partition, the index in the list `numbers` at which the row begins.
ghost use Rattle.std.specs.Prelude.{◌≡◌, ℕ, ◌+◌, ◌-◌, ◌<◌, ◌≤◌, [], ◌++◌, map, length, take, drop};
ghost use Rattle.std.specs.Prelude.{slice_index, IfOk, OnOk};
ghost use Rattle.sym_model.specs.Partition.{columns, size};
ghost use Rattle.sym_model.specs.TableauList.{column_cells, reading_cells};
ghost use Rattle.skew_shapes.specs.Rows.{HasPlaces, HoldsLetters, cells_above, cells_right_of};
ghost use Rattle.skew_shapes.specs.Rows.{number_in, place_of, reaches};

use crate::lengths::has_cell;
use std::alloc::{AllocError, Global};

/// For rows of the given lengths, one after another in one list, the index at which each row
/// begins.
pub(crate) fn row_starts(alloc: Global, lengths: &[u16]) -> Result<Vec<u16>, AllocError>
    requires { size lengths.now ≤ 4096 }
    ensures { IfOk result (λ starts. HasPlaces starts.items lengths.now (size lengths.now)) }
{
    let mut starts = Vec::with_capacity(alloc, lengths.len())?;
    let mut start: u16 = 0;
    for length in lengths {
        starts.push(start)?;
        start += *length;
    }
    Ok(starts)
}

/// The index of the cell (row, column), both counted from 1, in the list of numbers, if row i
/// begins at the index `starts[i - 1]`.
pub(crate) fn place(starts: &[u16], row: u16, column: u16) -> usize
    requires row { (1 ≤ row) × (row - 1 < length starts.now) }
    requires column { 1 ≤ column }
    ensures { result ≡ place_of starts.now row column }
{
    usize::from(starts[usize::from(row) - 1]) + (usize::from(column) - 1)
}

/// Writes the letters of `word` into the cells of outer/inner in the order of the column reading.
/// All cells must have the number 0 before; those to which no letter is written keep it.
pub(crate) fn put_columns(
    numbers: &mut [u16],
    starts: &[u16],
    outer: &[u16],
    inner: &[u16],
    word: &[u16],
)
    requires few { length outer.now ≤ 512 }
    requires places { HasPlaces starts.now outer.now (length numbers.old) }
    requires empty { HoldsLetters starts.now numbers.old outer.now inner.now [] word.now }
    ensures { HoldsLetters starts.now numbers.new outer.now inner.now
        (reading_cells outer.now inner.now) word.now }
{
    let mut rest = word;
    let mut column = outer.first().copied().unwrap_or(0);
    while column > 0 {
        rest = put_column(numbers, starts, outer, inner, column, rest, word);
        column -= 1;
    }
}

/// Writes the next letters of `word` into the cells of column `column`, from top to bottom. `rest`
/// is the suffix of `word` left after the columns further right, and the result is the suffix left
/// after this column.
fn put_column<'a>(
    numbers: &mut [u16],
    starts: &[u16],
    outer: &[u16],
    inner: &[u16],
    column: u16,
    rest: &'a [u16],
    word: &[u16],
) -> &'a [u16]
    requires few { length outer.now ≤ 512 }
    requires places { HasPlaces starts.now outer.now (length numbers.old) }
    requires column { (1 ≤ column) × (column ≤ columns outer.now) }
    requires rest { rest.now ≡ drop (length (cells_right_of outer.now inner.now column)) word.now }
    requires letters { HoldsLetters starts.now numbers.old outer.now inner.now
        (cells_right_of outer.now inner.now column) word.now }
    ensures rest { result.now ≡ drop
        (length (cells_right_of outer.now inner.now (column - 1))) word.now }
    ensures letters { HoldsLetters starts.now numbers.new outer.now inner.now
        (cells_right_of outer.now inner.now (column - 1)) word.now }
{
    let mut rest = rest;
    for row in 0..outer.len() {
        if !has_cell(outer, inner, row, column) {
            continue;
        }
        let Some(letter) = rest.first().copied() else {
            continue;
        };
        numbers[place(starts, row as u16 + 1, column)] = letter;
        rest = without_first(rest, 1);
    }
    rest
}

/// Appends to `letters` the numbers of the cells of outer/inner, in the order of the column
/// reading.
pub(crate) fn push_columns(
    letters: &mut Vec<u16>,
    starts: &[u16],
    numbers: &[u16],
    outer: &[u16],
    inner: &[u16],
) -> Result<(), AllocError>
    requires few { length outer.now ≤ 512 }
    requires places { HasPlaces starts.now outer.now (length numbers.now) }
    ensures { OnOk result (letters.new.items
        ≡ letters.old.items ++ map (λ (c : ℕ × ℕ). number_in starts.now numbers.now c.0 c.1)
        (reading_cells outer.now inner.now)) }
{
    let mut column = outer.first().copied().unwrap_or(0);
    while column > 0 {
        push_column(letters, starts, numbers, outer, inner, column)?;
        column -= 1;
    }
    Ok(())
}

fn push_column(
    letters: &mut Vec<u16>,
    starts: &[u16],
    numbers: &[u16],
    outer: &[u16],
    inner: &[u16],
    column: u16,
) -> Result<(), AllocError>
    requires few { length outer.now ≤ 512 }
    requires places { HasPlaces starts.now outer.now (length numbers.now) }
    requires column { 1 ≤ column }
    ensures { OnOk result (letters.new.items
        ≡ letters.old.items ++ map (λ (c : ℕ × ℕ). number_in starts.now numbers.now c.0 c.1)
        (column_cells outer.now inner.now column)) }
{
    for row in 0..outer.len() {
        if !has_cell(outer, inner, row, column) {
            continue;
        }
        letters.push(numbers[place(starts, row as u16 + 1, column)])?;
    }
    Ok(())
}

/// The list without its first `count` numbers.
pub(crate) fn without_first(numbers: &[u16], count: usize) -> &[u16]
    ensures { result.now ≡ drop count numbers.now }
{
    if count < numbers.len() {
        &numbers[count..]
    } else {
        &[]
    }
}

/// The numbers at the indices `from` to `to` - 1.
pub(crate) fn between(numbers: &[u16], from: usize, to: usize) -> &[u16]
    requires { (from ≤ to) × (to ≤ length numbers.now) }
    ensures { result.now ≡ take (to - from) (drop from numbers.now) }
{
    &numbers[from..to]
}
