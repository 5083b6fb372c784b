//! One more row added to each state of a table. A state is the sum reached, a list of numbers,
//! followed by numbers that describe the row added last.
ghost use Rattle.std.specs.Prelude.{◌≡◌, ℕ, ◌+◌, ◌-◌, ◌*◌, ◌^◌, ◌<◌, ◌≤◌, List, length, take};
ghost use Rattle.std.specs.Prelude.{cond, true, nat_le, OnOk, IfOk, IfSome};
ghost use Rattle.sym_model.specs.GoodTableau.{is_falling};
ghost use Rattle.sym_model.specs.Partition.{size};
ghost use Rattle.tableau_laws.specs.Grid.{may_precede};
ghost use Rattle.lr_product.specs.WeighedSum.{at_state, weighed, unreached, VanishesOutside};
ghost use Rattle.lr_product.specs.Capped.{Agree};
ghost use Rattle.lr_product.specs.RowExtension.{next_row, VanishesBelow};

use crate::letters::rest_of;
use crate::row_extension::{Row, fill};
use crate::states::States;
use crate::table::{Table, capped};
use calc_base::NoMemory;
use std::alloc::Global;

/// The table of the states reached from those of `table` by adding one row with letters up to
/// `letters`. The row ends in column `end`, its first `outside` places are outside the shape, and
/// the rows below it have `later` cells. New states keep the row if `is_kept`. The counts, capped
/// at 2^127, are correct for the sums in which, at each index of `bound`, the number is at most the
/// number b of `bound` and at least b - `later`. `None` if the row can be added to the states in
/// more than `most` ways. Fails only if memory runs out.
pub(crate) fn with_row(
    alloc: Global,
    table: &States,
    letters: u16,
    outside: u16,
    end: u16,
    later: u16,
    bound: &[u16],
    is_kept: bool,
    most: usize,
) -> Result<Option<States>, NoMemory>
    requires letters { letters ≤ 512 }
    requires bound { length bound.now ≤ letters }
    requires cells { outside ≤ end }
    requires short { end ≤ 4096 }
    requires reached { weighed letters (unreached letters (4096 - (end - outside))) table.now.entries
        ≡ 0 }
    ensures counts { IfOk result (λ o. IfSome o (λ next. (f : List ℕ → List ℕ → ℕ)
        → VanishesOutside bound.now f → VanishesBelow letters later bound.now f
        → Agree (weighed letters f next.entries)
        (weighed letters (next_row letters is_kept outside end f) table.now.entries))) }
    ensures reached { IfOk result (λ o. IfSome o
        (λ next. (m : ℕ) → weighed letters (unreached letters m) table.now.entries ≡ 0
        → weighed letters (unreached letters (m + (end - outside))) next.entries ≡ 0)) }
{
    let width = width_of(letters, is_kept);
    let room = table.len().next_power_of_two();
    let mut next = Table::with_room(alloc, width, room)?;
    let mut reached: Vec<u16> = Vec::with_capacity(alloc, width)?;
    for at in 0..table.len() {
        let (state, ways) = table.entry(at);
        let row = Row {
            letters,
            outside,
            later,
            is_kept,
            ways: capped(ways),
        };
        add_rows(&mut reached, &mut next, state, end, bound, row)?;
        if next.additions() > most {
            return Ok(None);
        }
    }
    Ok(Some(next.into_states()))
}

/// The length of a state: `letters` numbers for the sum, and `letters` more for the row if it is
/// kept.
fn width_of(letters: u16, is_kept: bool) -> usize
    requires { letters ≤ 512 }
    ensures { result ≡ letters + cond is_kept letters 0 }
{
    if is_kept {
        return usize::from(letters) * 2;
    }
    usize::from(letters)
}

/// Adds to `next`, with the count `row.ways`, the states reached from `state` by adding one more
/// row in all ways. The new states are made in the buffer `reached`. Fails only if memory runs out.
fn add_rows(
    reached: &mut Vec<u16>,
    next: &mut Table,
    state: &[u16],
    end: u16,
    bound: &[u16],
    row: Row,
) -> Result<(), NoMemory>
    requires letters { row.letters ≤ 512 }
    requires bound { length bound.now ≤ row.letters }
    requires ways { row.ways ≤ 2 ^ 127 }
    requires cells { row.outside ≤ end }
    requires short { end ≤ 4096 }
    requires width { row.letters + cond row.is_kept row.letters 0 ≡ next.old.width }
    requires long { 0 < row.ways → row.letters ≤ length state.now }
    requires falls { 0 < row.ways → is_falling (take row.letters state.now) ≡ true }
    requires size { 0 < row.ways
        → size (take row.letters state.now) + (end - row.outside) ≤ 4096 }
    ensures width { OnOk result (next.new.width ≡ next.old.width) }
    ensures adds { OnOk result ((f : List ℕ → List ℕ → ℕ) → VanishesOutside bound.now f
        → VanishesBelow row.letters row.later bound.now f
        → Agree (weighed row.letters f next.new.entries)
        (weighed row.letters f next.old.entries
        + row.ways * at_state row.letters
        (next_row row.letters row.is_kept row.outside end f) state.now)) }
    ensures reached { OnOk result
        ((m : ℕ) → (0 < row.ways → size (take row.letters state.now) + (end - row.outside) ≤ m)
        → weighed row.letters (unreached row.letters m) next.old.entries ≡ 0
        → weighed row.letters (unreached row.letters m) next.new.entries ≡ 0) }
{
    if row.ways == 0 {
        return Ok(());
    }
    let (sum, above) = state.split_at(usize::from(row.letters));
    if !may_stand_below(above, end) {
        return Ok(());
    }
    reached.clear();
    reached.extend_from_slice(sum)?;
    fill(next, reached, row.letters, end, rest_of(above), bound, &row)
}

/// Whether a row of `end` places is allowed below the row that `above` describes: at least `end`
/// places of that row have a letter less than the greatest letter. Always true if `above` is empty.
pub(crate) fn may_stand_below(above: &[u16], end: u16) -> bool
    ensures { result ≡ may_precede nat_le end above.now }
{
    match above.first() {
        Some(most) => end <= *most,
        None => true,
    }
}
