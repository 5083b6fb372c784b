//! One more column added to each state of a table. A state is the sum reached, a list of numbers,
//! followed by the column added last.
ghost use Rattle.std.specs.Prelude.{◌≡◌, ℕ, ◌+◌, ◌-◌, ◌*◌, ◌^◌, ◌<◌, ◌≤◌, List, length, take};
ghost use Rattle.std.specs.Prelude.{cond, true, OnOk, IfOk};
ghost use Rattle.sym_model.specs.GoodTableau.{is_falling};
ghost use Rattle.sym_model.specs.Partition.{size};
ghost use Rattle.lr_product.specs.WeighedSum.{at_state, weighed, next_states, seen, unreached};
ghost use Rattle.lr_product.specs.WeighedSum.{VanishesOutside};
ghost use Rattle.lr_product.specs.Capped.{Agree};

use crate::extension::{Column, extend_first};
use crate::states::States;
use crate::table::{Table, capped};
use calc_base::NoMemory;
use std::alloc::Global;

/// The table of the states reached from those of `table` by adding one column with letters from 1
/// to `letters`; `line` says which of its places are cells. Its counts, capped at 2^127, are
/// correct for the sums in which each number is at most the number of `bound` at the same index, if
/// there is one. The new states are made in the buffer `reached`.
pub(crate) fn with_column(
    alloc: Global,
    reached: &mut Vec<u16>,
    table: &States,
    letters: u16,
    line: &[bool],
    bound: &[u16],
    is_kept: bool,
) -> Result<States, NoMemory>
    requires letters { letters ≤ 512 }
    requires bound { length bound.now ≤ letters }
    requires reached { weighed letters
        (unreached letters (4096 - length line.now)) table.now.entries ≡ 0 }
    requires short { length line.now ≤ 4096 }
    ensures counts { IfOk result (λ next. (f : List ℕ → List ℕ → ℕ) → VanishesOutside bound.now f
        → Agree (weighed letters f next.entries)
        (weighed letters (next_states letters line.now (seen is_kept f)) table.now.entries)) }
    ensures reached { IfOk result
        (λ next. (m : ℕ) → weighed letters (unreached letters m) table.now.entries ≡ 0
        → weighed letters (unreached letters (m + length line.now)) next.entries ≡ 0) }
{
    let width = width_of(letters, line, is_kept);
    // If each table is made with room for a number of states that is a power of two, it can mostly
    // reuse the memory of the last table but one.
    let room = table.len().next_power_of_two();
    let mut next = Table::with_room(alloc, width, room)?;
    for at in 0..table.len() {
        let (state, ways) = table.entry(at);
        let column = Column {
            letters,
            is_kept,
            ways: capped(ways),
        };
        add_columns(reached, &mut next, state, line, bound, column)?;
    }
    Ok(next.into_states())
}

/// The length of a state to which a column with the places of `line` has been added: `letters`
/// numbers for the sum, and one number for each place if the column is kept.
fn width_of(letters: u16, line: &[bool], is_kept: bool) -> usize
    requires { length line.now ≤ 4096 }
    ensures { result ≡ letters + cond is_kept (length line.now) 0 }
{
    if is_kept {
        return usize::from(letters) + line.len();
    }
    usize::from(letters)
}

/// Adds to `next` the states reached from `state` by adding a column in all ways, each with the
/// number of ways to reach it. The new states are made in the buffer `reached`.
fn add_columns(
    reached: &mut Vec<u16>,
    next: &mut Table,
    state: &[u16],
    line: &[bool],
    bound: &[u16],
    column: Column,
) -> Result<(), NoMemory>
    requires letters { column.letters ≤ 512 }
    requires bound { length bound.now ≤ column.letters }
    requires ways { column.ways ≤ 2 ^ 127 }
    requires width { column.letters + cond column.is_kept (length line.now) 0 ≡ next.old.width }
    requires long { 0 < column.ways → column.letters ≤ length state.now }
    requires falls { 0 < column.ways → is_falling (take column.letters state.now) ≡ true }
    requires size { 0 < column.ways
        → size (take column.letters state.now) + length line.now ≤ 4096 }
    ensures width { OnOk result (next.new.width ≡ next.old.width) }
    ensures adds { OnOk result ((f : List ℕ → List ℕ → ℕ) → VanishesOutside bound.now f
        → Agree (weighed column.letters f next.new.entries)
        (weighed column.letters f next.old.entries
        + column.ways * at_state column.letters
        (next_states column.letters line.now (seen column.is_kept f)) state.now)) }
    ensures reached { OnOk result
        ((m : ℕ) → (0 < column.ways → size (take column.letters state.now) + length line.now ≤ m)
        → weighed column.letters (unreached column.letters m) next.old.entries ≡ 0
        → weighed column.letters (unreached column.letters m) next.new.entries ≡ 0) }
{
    if column.ways == 0 {
        return Ok(());
    }
    let (sum, right) = state.split_at(usize::from(column.letters));
    reached.clear();
    reached.extend_from_slice(sum)?;
    extend_first(next, reached, line, right, 0, bound, &column)
}
