//! The rows of a shape added one by one to the states of a table, from the first to the last, and
//! the choice between filling a shape by rows and by columns. A state begins with the sum reached,
//! a list of numbers; its count is the number of ways to reach it.
ghost use Rattle.std.specs.Prelude.{◌≡◌, ℕ, ◌+◌, ◌-◌, ◌≤◌, true, List, [], length, drop, IfOk, OnOk, IfSome};
ghost use Rattle.sym_model.specs.Partition.{IsPartition, ArePositive, size};
ghost use Rattle.sym_model.specs.Polynomial.{resize};
ghost use Rattle.sym_model.specs.Schur.{contains};
ghost use Rattle.tableau_laws.specs.ColumnFold.{column_lines};
ghost use Rattle.lr_product.specs.WeighedSum.{weighed, over_states, unreached, comes_to};
ghost use Rattle.lr_product.specs.WeighedSum.{VanishesOutside};
ghost use Rattle.lr_product.specs.Capped.{Agree};
ghost use Rattle.lr_product.specs.RowExtension.{over_rows, begun, cell_count, VanishesBelow};

use crate::columns::{first_table, with_columns};
use crate::last_rows::{LastRows, completed_count};
use crate::letter_room::part_at;
use crate::letters::rest_of;
use crate::row_step::with_row;
use crate::states::States;
use calc_base::NoMemory;
use partitions::Partition;
use std::alloc::Global;

/// The table of the states reached from those of `starts` by filling the shape outer/inner with
/// letters up to `letters`. Its counts, capped at 2^127, are correct for the sums that begin with
/// the numbers of `bound`. The shape is filled by rows if `letters` is positive and
/// `is_faster_by_rows` holds, otherwise by columns. Fails only if memory runs out.
pub(crate) fn with_shape(
    alloc: Global,
    starts: States,
    outer: &Partition,
    inner: &[u16],
    letters: u16,
    bound: &[u16],
) -> Result<States, NoMemory>
    requires letters { letters ≤ 512 }
    requires inside { contains outer.now inner.now ≡ true }
    requires size { size outer.now ≤ 4096 }
    requires fresh { weighed letters begun starts.entries ≡ 0 }
    requires reached { weighed letters (unreached letters (4096 - size outer.now)) starts.entries
        ≡ 0 }
    requires bound { length bound.now ≤ letters }
    ensures ways { IfOk result (λ table. (f : List ℕ → ℕ)
        → VanishesOutside bound.now (λ ν right. f ν)
        → VanishesBelow letters 0 bound.now (λ ν right. f ν)
        → Agree (weighed letters (λ ν right. f ν) table.entries)
        (weighed letters (over_states letters (column_lines outer.now inner.now) (λ ν right. f ν))
        starts.entries)) }
    ensures reached { IfOk result
        (λ table. weighed letters (unreached letters 4096) table.entries ≡ 0) }
    ensures shape { OnOk result (IsPartition outer.now) }
{
    let has_one_start = starts.len() <= 1;
    if letters > 0 && is_faster_by_rows(outer, letters, has_one_start) {
        let rows = outer.parts().len();
        let all = with_rows(
            alloc,
            starts,
            outer,
            inner,
            letters,
            bound,
            rows,
            usize::MAX,
        )?;
        // No count exceeds `usize::MAX`.
        let Some(table) = all else {
            return Err(NoMemory);
        };
        return Ok(table);
    }
    with_columns(alloc, starts, outer, inner, letters, bound)
}

/// Whether a shape is probably filled faster by rows than by columns. Three conditions must hold:
/// the shape has one row, or there is one start, which nearly determines the row added last; the
/// number of columns is at least three times the number of rows; and either rows and letters
/// together are at most six, or there are at most four rows, all of the same length. For other
/// shapes the table by rows usually has more states.
fn is_faster_by_rows(outer: &Partition, letters: u16, has_one_start: bool) -> bool
    ensures shape { IsPartition outer.now }
{
    let rows = outer.rows();
    let columns = outer.part(1);
    if columns / 3 < rows || rows > 1 && !has_one_start {
        return false;
    }
    if rows.saturating_add(letters) <= 6 {
        return true;
    }
    rows <= 4 && u32::from(outer.size()) == u32::from(rows) * u32::from(columns)
}

/// The table of the states reached from those of `starts` by adding the first `rows` rows of
/// outer/inner, with letters up to `letters`. Its counts, capped at 2^127, are correct for the sums
/// from which sums that begin with the numbers of `bound` are reached by the other rows. `None` if a
/// row can be added to the states before it in more than `most` ways. Fails only if memory runs out.
fn with_rows(
    alloc: Global,
    starts: States,
    outer: &Partition,
    inner: &[u16],
    letters: u16,
    bound: &[u16],
    rows: usize,
    most: usize,
) -> Result<Option<States>, NoMemory>
    requires letters { letters ≤ 512 }
    requires inside { contains outer.now inner.now ≡ true }
    requires size { size outer.now ≤ 4096 }
    requires reached { weighed letters (unreached letters (4096 - size outer.now)) starts.entries
        ≡ 0 }
    requires bound { length bound.now ≤ letters }
    requires rows { rows ≤ length outer.now }
    ensures ways { IfOk result (λ o. IfSome o (λ table. (f : List ℕ → ℕ)
        → VanishesOutside bound.now (λ ν right. f ν)
        → VanishesBelow letters 0 bound.now (λ ν right. f ν)
        → Agree (weighed letters (over_rows letters (drop rows outer.now) (drop rows inner.now)
        (λ ν right. f ν)) table.entries)
        (weighed letters (over_rows letters outer.now inner.now (λ ν right. f ν))
        starts.entries))) }
    ensures reached { IfOk result (λ o. IfSome o
        (λ table. weighed letters (unreached letters 4096) table.entries ≡ 0)) }
    ensures shape { OnOk result (IsPartition outer.now) }
{
    let parts = outer.parts();
    let mut table = starts;
    let mut later = number_of_cells(parts, inner);
    for row in 0..rows {
        let outside = part_at(inner, row);
        let end = parts[row];
        later = later.saturating_sub(end.saturating_sub(outside));
        let is_kept = row + 1 < parts.len();
        let next = with_row(
            alloc, &table, letters, outside, end, later, bound, is_kept, most,
        )?;
        let Some(next) = next else {
            return Ok(None);
        };
        table = next;
    }
    Ok(Some(table))
}

/// The number of ways to fill outer/inner with the content `content`, or 2^127 if it is greater. The
/// shape is filled by rows, and the last two rows are counted together. `None` if a row can be added
/// to the states before it in more than `most` ways, if there is no letter, if there are fewer than
/// two rows, or if a sum exceeds 2^128 - 1. Fails only if memory runs out.
pub(crate) fn count_by_rows(
    alloc: Global,
    outer: &Partition,
    inner: &[u16],
    content: &[u16],
    most: usize,
) -> Result<Option<u128>, NoMemory>
    requires letters { length content.now ≤ 512 }
    requires content { ArePositive content.now }
    requires inside { contains outer.now inner.now ≡ true }
    requires size { size outer.now ≤ 4096 }
    ensures agrees { IfOk result (λ o. IfSome o (λ count. Agree count
        (over_states (length content.now) (column_lines outer.now inner.now)
        (comes_to content.now) (resize (length content.now) []) []))) }
{
    let parts = outer.parts();
    if parts.len() < 2 || content.is_empty() {
        return Ok(None);
    }
    let letters = content.len() as u16;
    let upper = parts.len() - 2;
    let starts = first_table(alloc, &[], letters)?;
    let table = with_rows(alloc, starts, outer, inner, letters, content, upper, most)?;
    let Some(table) = table else {
        return Ok(None);
    };
    let rows = LastRows {
        upper_outside: part_at(inner, upper),
        upper_end: parts[upper],
        lower_outside: part_at(inner, upper + 1),
        lower_end: parts[upper + 1],
    };
    completed_count(alloc, &table, content, rows)
}

/// The number of states that are reached by all rows of outer/inner but the last three, filled for
/// the content `content`; 2^64 - 1 if one of them can be added in more than `most` ways. The next
/// row, the last one that `count_by_rows` adds to a table, can often be added in about a hundred
/// times as many ways. Fails only if memory runs out.
pub(crate) fn first_states(
    alloc: Global,
    outer: &Partition,
    inner: &[u16],
    content: &[u16],
    most: usize,
) -> Result<usize, NoMemory>
    requires letters { length content.now ≤ 512 }
    requires inside { contains outer.now inner.now ≡ true }
    requires size { size outer.now ≤ 4096 }
{
    let letters = content.len() as u16;
    let starts = first_table(alloc, &[], letters)?;
    let rows = outer.parts().len().saturating_sub(3);
    let table = with_rows(alloc, starts, outer, inner, letters, content, rows, most)?;
    match table {
        Some(states) => Ok(states.len()),
        None => Ok(usize::MAX),
    }
}

/// The number of cells of outer/inner.
fn number_of_cells(outer: &[u16], inner: &[u16]) -> u16
    requires { size outer.now ≤ 4096 }
    ensures count { result ≡ cell_count outer.now inner.now }
    ensures small { result ≤ size outer.now }
{
    let Some((end, below)) = outer.split_first() else {
        return 0;
    };
    number_of_cells(below, rest_of(inner)) + end.saturating_sub(part_at(inner, 0))
}
