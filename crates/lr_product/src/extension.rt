//! A column of a tableau filled letter by letter, from top to bottom. A state begins with the sum,
//! which is the start partition plus the content of the letters so far: the letter b adds 1 to the
//! entry b of the sum, counted from 1.
ghost use Rattle.std.specs.Prelude.{◌≡◌, ℕ, ◌+◌, ◌*◌, ◌^◌, ◌≤◌, List, ◌∷◌, length, take};
ghost use Rattle.std.specs.Prelude.{cond, true};
ghost use Rattle.std.specs.Prelude.{OnOk};
ghost use Rattle.sym_model.specs.GoodTableau.{is_falling};
ghost use Rattle.sym_model.specs.Partition.{size};
ghost use Rattle.lr_product.specs.WeighedSum.{weighed, unreached, VanishesOutside};
ghost use Rattle.lr_product.specs.Capped.{Agree};
ghost use Rattle.lr_product.specs.Extension.{extended};
ghost use Rattle.lr_product.specs.MarksFree.{MarksFree};

use crate::letters::{
    end_of_letters, free_after, free_letters, has_room, least_letter, left_of_letter, next_letter,
    place, rest_of, take_back,
};
use crate::table::Table;
use calc_base::NoMemory;

/// The parameters that do not change while a column is filled.
#[derive(Clone, Copy)]
pub(crate) struct Column {
    /// The number n of letters 1, .., n.
    pub(crate) letters: u16,
    /// Whether the new states have the letters of this column after the sum, since one more column
    /// is to be added left of it.
    pub(crate) is_kept: bool,
    /// The number of ways to reach the state to which the column is added.
    pub(crate) ways: u128,
}

/// Adds to the table the states reached by completing a column in all ways: `line` has the
/// remaining places of the column, below the letter `above` and left of the column `right`. If the
/// first place of `line` is a cell and the letter at the right of it is `above` + 1, then this is
/// the only letter possible there, and it is placed at once. Otherwise the function calls `extend`
/// with the set of the letters that can be added to the sum. `state` is not restored at the end.
pub(crate) fn extend_first(
    table: &mut Table,
    state: &mut Vec<u16>,
    line: &[bool],
    right: &[u16],
    above: u16,
    bound: &[u16],
    column: &Column,
) -> Result<(), NoMemory>
    requires ways { column.now.ways ≤ 2 ^ 127 }
    requires letters { column.now.letters ≤ 512 }
    requires bound { length bound.now ≤ column.now.letters }
    requires above { above ≤ column.now.letters }
    requires long { column.now.letters ≤ length state.old.items }
    requires width { length state.old.items + cond column.now.is_kept (length line.now) 0
        ≡ table.old.width }
    requires falls { is_falling (take column.now.letters state.old.items) ≡ true }
    requires size { size (take column.now.letters state.old.items) + length line.now ≤ 4096 }
    ensures width { OnOk result (table.new.width ≡ table.old.width) }
    ensures adds { OnOk result ((f : List ℕ → List ℕ → ℕ) → VanishesOutside bound.now f
        → Agree (weighed column.now.letters f table.new.entries)
        (weighed column.now.letters f table.old.entries
        + column.now.ways * extended column.now.is_kept column.now.letters line.now right.now above f
        state.old.items)) }
    ensures reached { OnOk result
        ((m : ℕ) → size (take column.now.letters state.old.items) + length line.now ≤ m
        → weighed column.now.letters (unreached column.now.letters m) table.old.entries ≡ 0
        → weighed column.now.letters (unreached column.now.letters m) table.new.entries ≡ 0) }
{
    if above < column.letters && has_room(state, above + 1, bound) {
        if let Some((rest, others)) = left_of_letter(line, right, above + 1) {
            place(state, above + 1, column.is_kept)?;
            return extend_first(table, state, rest, others, above + 1, bound, column);
        }
    }
    let free = free_letters(state, above, column.letters, bound);
    extend(table, state, free, line, right, above, bound, column)
}

/// Adds to the table, with the count `column.ways`, the states reached by completing a column in
/// all ways: `line` has the remaining places of the column (true for a cell), below the letter
/// `above` and left of the column `right`. `state` is the sum so far, followed by the letters of
/// the column so far if they are kept; `free` is the set of the letters b, greater than `above` and
/// at most 64, for which the sum stays weakly decreasing and within `bound` if its entry b, counted
/// from 1, is increased by 1.
///
/// `bound` has a greatest value for each of the first numbers of the sum. A letter is skipped if
/// with it the sum would not be weakly decreasing or would exceed the bound, since no later letter
/// of the column repairs this.
#[cycle(columns)]
fn extend(
    table: &mut Table,
    state: &mut Vec<u16>,
    free: u64,
    line: &[bool],
    right: &[u16],
    above: u16,
    bound: &[u16],
    column: &Column,
) -> Result<(), NoMemory>
    requires ways { column.now.ways ≤ 2 ^ 127 }
    requires letters { column.now.letters ≤ 512 }
    requires bound { length bound.now ≤ column.now.letters }
    requires above { above ≤ column.now.letters }
    requires long { column.now.letters ≤ length state.old.items }
    requires width { length state.old.items + cond column.now.is_kept (length line.now) 0
        ≡ table.old.width }
    requires falls { is_falling (take column.now.letters state.old.items) ≡ true }
    requires free { MarksFree column.now.letters above bound.now state.old.items free }
    requires size { size (take column.now.letters state.old.items) + length line.now ≤ 4096 }
    ensures same { OnOk result (state.new.items ≡ state.old.items) }
    ensures width { OnOk result (table.new.width ≡ table.old.width) }
    ensures adds { OnOk result ((f : List ℕ → List ℕ → ℕ) → VanishesOutside bound.now f
        → Agree (weighed column.now.letters f table.new.entries)
        (weighed column.now.letters f table.old.entries
        + column.now.ways * extended column.now.is_kept column.now.letters line.now right.now above f
        state.old.items)) }
    ensures reached { OnOk result
        ((m : ℕ) → size (take column.now.letters state.old.items) + length line.now ≤ m
        → weighed column.now.letters (unreached column.now.letters m) table.old.entries ≡ 0
        → weighed column.now.letters (unreached column.now.letters m) table.new.entries ≡ 0) }
{
    let Some((cell, rest)) = line.split_first() else {
        return table.add(state, column.ways);
    };
    place_letters(table, state, free, *cell, rest, right, above, bound, column)
}

/// Does the work of `extend` for at least one remaining place: `cell` says whether the first one is
/// a cell, and `rest` has the places below it. All these places are below the letter `above` and
/// left of the column `right`. `free` is as in `extend`.
#[cycle(columns)]
#[inline(never)]
fn place_letters(
    table: &mut Table,
    state: &mut Vec<u16>,
    free: u64,
    cell: bool,
    rest: &[bool],
    right: &[u16],
    above: u16,
    bound: &[u16],
    column: &Column,
) -> Result<(), NoMemory>
    requires ways { column.now.ways ≤ 2 ^ 127 }
    requires letters { column.now.letters ≤ 512 }
    requires bound { length bound.now ≤ column.now.letters }
    requires above { above ≤ column.now.letters }
    requires long { column.now.letters ≤ length state.old.items }
    requires width { length state.old.items + cond column.now.is_kept (length rest.now + 1) 0
        ≡ table.old.width }
    requires falls { is_falling (take column.now.letters state.old.items) ≡ true }
    requires free { MarksFree column.now.letters above bound.now state.old.items free }
    requires size { size (take column.now.letters state.old.items) + (length rest.now + 1) ≤ 4096 }
    ensures same { OnOk result (state.new.items ≡ state.old.items) }
    ensures width { OnOk result (table.new.width ≡ table.old.width) }
    ensures adds { OnOk result ((f : List ℕ → List ℕ → ℕ) → VanishesOutside bound.now f
        → Agree (weighed column.now.letters f table.new.entries)
        (weighed column.now.letters f table.old.entries
        + column.now.ways * extended column.now.is_kept column.now.letters (cell ∷ rest.now) right.now above f
        state.old.items)) }
    ensures reached { OnOk result
        ((m : ℕ) → size (take column.now.letters state.old.items) + (length rest.now + 1) ≤ m
        → weighed column.now.letters (unreached column.now.letters m) table.old.entries ≡ 0
        → weighed column.now.letters (unreached column.now.letters m) table.new.entries ≡ 0) }
{
    let end = end_of_letters(column.letters, cell, rest.len(), right, above);
    let mut letter = next_letter(state, free, least_letter(cell, above), end, bound);
    while letter < end {
        let len = place(state, letter, column.is_kept)?;
        let later = free_after(free, state, letter, bound);
        extend(
            table,
            state,
            later,
            rest,
            rest_of(right),
            letter,
            bound,
            column,
        )?;
        take_back(state, len, letter);
        letter = next_letter(state, free, letter + 1, end, bound);
    }
    Ok(())
}
