//! A row of a tableau filled letter by letter, from the greatest letter to the least. A state
//! begins with the sum, which is the start partition plus the content of the letters so far: the
//! letter b adds 1 to the entry b of the sum, counted from 1.
ghost use Rattle.std.specs.Prelude.{◌≡◌, ℕ, ◌+◌, ◌-◌, ◌*◌, ◌^◌, ◌≤◌, List, length, take, cond, true};
ghost use Rattle.std.specs.Prelude.{OnOk};
ghost use Rattle.sym_model.specs.GoodTableau.{is_falling};
ghost use Rattle.sym_model.specs.Partition.{size};
ghost use Rattle.lr_product.specs.WeighedSum.{weighed, unreached, VanishesOutside};
ghost use Rattle.lr_product.specs.Capped.{Agree};
ghost use Rattle.lr_product.specs.RowExtension.{filled, VanishesBelow};

use crate::letters::rest_of;
use crate::row_letters::{end_by_bound, least_left, most_left, put_letters, take_letters};
use crate::table::Table;
use calc_base::NoMemory;

/// The parameters that do not change while a row is filled.
#[derive(Clone, Copy)]
pub(crate) struct Row {
    /// The number n of letters 1, .., n.
    pub(crate) letters: u16,
    /// The number of places of the row outside the shape. They come first and have the letter 0.
    pub(crate) outside: u16,
    /// The number of cells in all rows below this one, which is the most by which these rows can
    /// raise a number of the sum.
    pub(crate) later: u16,
    /// Whether the new states have, after the sum, the numbers that describe this row, since one
    /// more row is to be added below it: its numbers of places with a letter at most n - 1, n - 2,
    /// .., 0.
    pub(crate) is_kept: bool,
    /// The number of ways to reach the state to which the row is added.
    pub(crate) ways: u128,
}

/// Fills the first `placed` places of a row with letters up to `up_to` in all ways, and adds each
/// state reached to the table with the count `row.ways`. `state` is the sum with the greater
/// letters of the row added, followed by the numbers kept for these letters; it is restored at the
/// end. Fails only if memory runs out.
///
/// A letter must be greater than the letter above it: `above` has the numbers of places of the row
/// above with a letter less than `up_to - 1`, less than `up_to - 2`, and so on, and is empty for
/// the first row. No number of the sum may exceed the one before it or its number in `bound`, and
/// each must be able to reach its number in `bound` by the cells of the rows below.
pub(crate) fn fill(
    table: &mut Table,
    state: &mut Vec<u16>,
    up_to: u16,
    placed: u16,
    above: &[u16],
    bound: &[u16],
    row: &Row,
) -> Result<(), NoMemory>
    requires ways { row.now.ways ≤ 2 ^ 127 }
    requires letters { up_to ≤ row.now.letters }
    requires bound { length bound.now ≤ row.now.letters }
    requires long { row.now.letters ≤ length state.old.items }
    requires placed { row.now.outside ≤ placed }
    requires width { length state.old.items + cond row.now.is_kept up_to 0 ≡ table.old.width }
    requires falls { is_falling (take row.now.letters state.old.items) ≡ true }
    requires size { size (take row.now.letters state.old.items) + (placed - row.now.outside) ≤ 4096 }
    requires cells { placed ≤ 4096 }
    ensures same { OnOk result (state.new.items ≡ state.old.items) }
    ensures width { OnOk result (table.new.width ≡ table.old.width) }
    ensures adds { OnOk result ((f : List ℕ → List ℕ → ℕ) → VanishesOutside bound.now f
        → VanishesBelow row.now.letters row.now.later bound.now f
        → Agree (weighed row.now.letters f table.new.entries)
        (weighed row.now.letters f table.old.entries
        + row.now.ways * filled row.now.is_kept row.now.letters row.now.outside up_to placed above.now f
        state.old.items)) }
    ensures reached { OnOk result
        ((m : ℕ) → size (take row.now.letters state.old.items) + (placed - row.now.outside) ≤ m
        → weighed row.now.letters (unreached row.now.letters m) table.old.entries ≡ 0
        → weighed row.now.letters (unreached row.now.letters m) table.new.entries ≡ 0) }
{
    if up_to == 0 {
        return table.add(state, row.ways);
    }
    let at = up_to - 1;
    let low = least_left(state, at, placed, row.outside, bound);
    let most = most_left(at, placed, row.outside, above);
    let end = end_by_bound(state, at, placed, row.later, bound).min(most + 1);
    for left in low..end {
        let count = placed - left;
        let len = put_letters(state, at, count, left, row.is_kept)?;
        fill(table, state, at, left, rest_of(above), bound, row)?;
        take_letters(state, len, at, count);
    }
    Ok(())
}
