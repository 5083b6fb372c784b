//! The columns of a shape added one by one to the states of a table, from the rightmost column to
//! the leftmost. A state is a sum, that is, a start partition plus the content of the columns added
//! so far, followed by the column added last; its count is the number of ways to reach it. A
//! tableau is good for the start if the sum is a partition after each of its columns.
ghost use Rattle.std.specs.Prelude.{◌≡◌, ℕ, ◌+◌, ◌-◌, ◌*◌, ◌^◌, ◌≤◌, true, List, [], length, IfOk};
ghost use Rattle.std.specs.Prelude.{OnOk};
ghost use Rattle.sym_model.specs.Partition.{IsPartition, size, rows};
ghost use Rattle.sym_model.specs.Polynomial.{resize};
ghost use Rattle.sym_model.specs.Schur.{contains};
ghost use Rattle.tableau_laws.specs.ColumnFold.{column_lines};
ghost use Rattle.lr_product.specs.WeighedSum.{weighed, over_states, unreached, VanishesOutside};
ghost use Rattle.lr_product.specs.Capped.{Agree};
ghost use Rattle.lr_product.specs.RowExtension.{VanishesBelow};
ghost use Rattle.lr_product.specs.ColumnLine.{column_line};

use crate::rows::with_shape;
use crate::states::States;
use crate::step::with_column;
use crate::table::Table;
use calc_base::NoMemory;
use partitions::Partition;
use std::alloc::Global;

/// For each partition ν, the number of good tableaux T of outer/inner for `start`, with entries up
/// to `letters`, such that start + content(T) = ν; 2^127 if the number is greater. If `bound` is
/// not empty, this holds for those ν that begin with the numbers of `bound`; other ν may be missing
/// or have smaller numbers.
pub(crate) fn ways_by_columns(
    alloc: Global,
    start: &[u16],
    outer: &Partition,
    inner: &[u16],
    letters: u16,
    bound: &[u16],
) -> Result<States, NoMemory>
    requires letters { letters ≤ 512 }
    requires start { IsPartition start.now }
    requires rows { rows start.now ≤ letters }
    requires inside { contains outer.now inner.now ≡ true }
    requires size { size start.now + size outer.now ≤ 4096 }
    requires bound { length bound.now ≤ letters }
    ensures ways { IfOk result (λ table. (f : List ℕ → ℕ)
        → VanishesOutside bound.now (λ ν right. f ν)
        → VanishesBelow letters 0 bound.now (λ ν right. f ν)
        → Agree (weighed letters (λ ν right. f ν) table.entries)
        (over_states letters (column_lines outer.now inner.now) (λ ν right. f ν)
        (resize letters start.now) [])) }
    ensures reached { IfOk result
        (λ table. weighed letters (unreached letters 4096) table.entries ≡ 0) }
    ensures shape { OnOk result (IsPartition outer.now) }
{
    let starts = first_table(alloc, start, letters)?;
    with_shape(alloc, starts, outer, inner, letters, bound)
}

/// The table of the states reached from those of `starts` by adding all columns of outer/inner,
/// with letters from 1 to `letters`. Its counts, capped at 2^127, are correct for the sums in which
/// each number is at most the number of `bound` at the same index, if there is one.
pub(crate) fn with_columns(
    alloc: Global,
    starts: States,
    outer: &Partition,
    inner: &[u16],
    letters: u16,
    bound: &[u16],
) -> Result<States, NoMemory>
    requires letters { letters ≤ 512 }
    requires inside { contains outer.now inner.now ≡ true }
    requires size { size outer.now ≤ 4096 }
    requires reached { weighed letters (unreached letters (4096 - size outer.now)) starts.entries
        ≡ 0 }
    requires bound { length bound.now ≤ letters }
    ensures ways { IfOk result (λ table. (f : List ℕ → ℕ)
        → VanishesOutside bound.now (λ ν right. f ν)
        → Agree (weighed letters (λ ν right. f ν) table.entries)
        (weighed letters (over_states letters (column_lines outer.now inner.now) (λ ν right. f ν))
        starts.entries)) }
    ensures reached { IfOk result
        (λ table. weighed letters (unreached letters 4096) table.entries ≡ 0) }
    ensures shape { OnOk result (IsPartition outer.now) }
{
    let mut line: Vec<bool> = Vec::new(alloc);
    let mut reached: Vec<u16> = Vec::new(alloc);
    let mut table = starts;
    let mut at = outer.part(1);
    while at > 0 {
        write_line(&mut line, outer.parts(), inner, at)?;
        table = with_column(alloc, &mut reached, &table, letters, &line, bound, at > 1)?;
        at -= 1;
    }
    Ok(table)
}

/// Sets `line` to the places of a column: for each row of `outer` that has at least `column` cells,
/// whether outer/inner has a cell in that row and column.
fn write_line(
    line: &mut Vec<bool>,
    outer: &[u16],
    inner: &[u16],
    column: u16,
) -> Result<(), NoMemory>
    ensures { OnOk result (line.new.items ≡ column_line column outer.now inner.now) }
{
    line.clear();
    for row in 0..outer.len() {
        if outer[row] < column {
            continue;
        }
        line.push(inner.get(row).copied().unwrap_or(0) < column)?;
    }
    Ok(())
}

/// The table with a single state, whose count is 1. Its sum is `start` followed by zeros, `letters`
/// numbers in all, and no column has been added to it.
pub(crate) fn first_table(alloc: Global, start: &[u16], letters: u16) -> Result<States, NoMemory>
    requires { rows start.now ≤ letters }
    ensures { IfOk result (λ table. (f : List ℕ → List ℕ → ℕ)
        → Agree (weighed letters f table.entries) (f (resize letters start.now) [])) }
{
    let state = padded(alloc, start, letters)?;
    States::single(alloc, state)
}

/// Adds `count` to the count of one state of the table. The sum of this state is `start` followed
/// by zeros, `letters` numbers in all, and no column has been added to it.
pub(crate) fn add_start(
    alloc: Global,
    table: &mut Table,
    start: &[u16],
    letters: u16,
    count: u128,
) -> Result<(), NoMemory>
    requires rows { rows start.now ≤ letters }
    requires count { count ≤ 2 ^ 127 }
    requires width { table.old.width ≡ letters }
    ensures width { OnOk result (table.new.width ≡ table.old.width) }
    ensures adds { OnOk result ((f : List ℕ → List ℕ → ℕ)
        → Agree (weighed letters f table.new.entries)
        (weighed letters f table.old.entries + count * f (resize letters start.now) [])) }
{
    let state = padded(alloc, start, letters)?;
    table.add(&state, count)
}

/// The list `numbers` followed by zeros, `len` numbers in all.
fn padded(alloc: Global, numbers: &[u16], len: u16) -> Result<Vec<u16>, NoMemory>
    requires { length numbers.now ≤ len }
    ensures { IfOk result (λ state. state.items ≡ resize len numbers.now) }
{
    let mut state: Vec<u16> = Vec::with_capacity(alloc, usize::from(len))?;
    state.extend_from_slice(numbers)?;
    while state.len() < usize::from(len) {
        state.push(0)?;
    }
    Ok(state)
}
