//! The last two rows of a tableau of a given content, counted without listing them. If the sum
//! before these rows is known, so are the letters of both rows together, and the row ends E_t of
//! the letters up to t in the last row but one determine the last row, too. Only neighbours E_t and
//! E_(t+1) restrict each other, and for a given E_(t+1) the numbers E_t that are allowed are an
//! interval, so sums over intervals, as differences of the sums of the first numbers, count all
//! choices.
ghost use Rattle.std.specs.Prelude.{◌≡◌, ℕ, ◌+◌, ◌-◌, ◌<◌, ◌≤◌, List, ◌∷◌, [], length, take, drop};
ghost use Rattle.std.specs.Prelude.{map, max, true, false, nat_le, slice_index, OnOk, IfOk, IfSome, IsNone};
ghost use Rattle.sym_model.specs.Partition.{ArePositive};
ghost use Rattle.sym_model.specs.GoodTableau.{is_falling};
ghost use Rattle.sym_model.specs.Sum.{sum_by};
ghost use Rattle.tableau_laws.specs.Grid.{pass_by_place};
ghost use Rattle.lr_product.specs.Capped.{Agree};
ghost use Rattle.lr_product.specs.Extension.{numbers_from};
ghost use Rattle.lr_product.specs.RowExtension.{over_rows, least_left as least_left_of};
ghost use Rattle.lr_product.specs.LastRows.{missing, chain_end, chains, sums_from};
ghost use Rattle.lr_product.specs.WeighedSum.{at_state, weighed, unreached, comes_to};

use crate::letter_room::part_at;
use crate::letters::rest_of;
use crate::row_letters::{least_left, most_left};
use crate::row_step::may_stand_below;
use crate::states::States;
use crate::table::capped;
use calc_base::NoMemory;
use std::alloc::Global;

/// The last two rows of a skew shape: for each, the number of its places outside the shape, which
/// come first, and the column in which it ends.
#[derive(Clone, Copy)]
pub(crate) struct LastRows {
    pub(crate) upper_outside: u16,
    pub(crate) upper_end: u16,
    pub(crate) lower_outside: u16,
    pub(crate) lower_end: u16,
}

/// The sum, over the states of the table, of the count times the number of ways to add the last two
/// rows so that the sum becomes `content`; 2^127 if this is greater. `None` if a sum of the first
/// numbers is 2^128 or more. Fails only if memory runs out.
pub(crate) fn completed_count(
    alloc: Global,
    table: &States,
    content: &[u16],
    rows: LastRows,
) -> Result<Option<u128>, NoMemory>
    requires content { ArePositive content.now }
    requires some { 0 < length content.now }
    requires letters { length content.now ≤ 512 }
    requires upper { rows.upper_outside ≤ rows.upper_end }
    requires lower { rows.lower_outside ≤ rows.lower_end }
    requires short { rows.upper_end ≤ 4096 }
    requires below { rows.lower_end ≤ 4096 }
    requires reached { weighed (length content.now) (unreached (length content.now) 4096)
        table.now.entries ≡ 0 }
    ensures agrees { IfOk result (λ o. IfSome o (λ count. Agree count
        (weighed (length content.now) (over_rows (length content.now)
        (rows.upper_end ∷ rows.lower_end ∷ []) (rows.upper_outside ∷ rows.lower_outside ∷ [])
        (comes_to content.now)) table.now.entries))) }
{
    let mut counts: Vec<u128> = Vec::new(alloc);
    let mut sums: Vec<u128> = Vec::new(alloc);
    let mut count: u128 = 0;
    for at in 0..table.len() {
        let (state, ways) = table.entry(at);
        if ways == 0 {
            continue;
        }
        let Some(completions) = completions(&mut counts, &mut sums, state, content, rows)? else {
            return Ok(None);
        };
        count = capped(count.saturating_add(ways.saturating_mul(completions)));
    }
    Ok(Some(count))
}

/// The number of ways to add the last two rows to the state so that its sum becomes `content`;
/// `None` if a sum of the first numbers is 2^128 or more. The contents of `counts` and `sums` do
/// not matter. Fails only if memory runs out.
fn completions(
    counts: &mut Vec<u128>,
    sums: &mut Vec<u128>,
    state: &[u16],
    content: &[u16],
    rows: LastRows,
) -> Result<Option<u128>, NoMemory>
    requires content { ArePositive content.now }
    requires some { 0 < length content.now }
    requires letters { length content.now ≤ 512 }
    requires long { length content.now ≤ length state.now }
    requires falls { is_falling (take (length content.now) state.now) ≡ true }
    requires upper { rows.upper_outside ≤ rows.upper_end }
    requires lower { rows.lower_outside ≤ rows.lower_end }
    requires short { rows.upper_end ≤ 4096 }
    requires below { rows.lower_end ≤ 4096 }
    ensures value { IfOk result (λ o. IfSome o (λ ways. ways ≡ at_state (length content.now)
        (over_rows (length content.now) (rows.upper_end ∷ rows.lower_end ∷ [])
        (rows.upper_outside ∷ rows.lower_outside ∷ []) (comes_to content.now)) state.now)) }
{
    let (numbers, above) = state.split_at(content.len());
    let Some(missing) = missing_letters(numbers, content) else {
        return Ok(Some(0));
    };
    let needed = usize::from(rows.upper_outside) + usize::from(rows.lower_outside) + missing;
    if needed != usize::from(rows.upper_end) + usize::from(rows.lower_end) {
        return Ok(Some(0));
    }
    if !may_stand_below(above, rows.upper_end) {
        return Ok(Some(0));
    }
    let letters = content.len() as u16;
    if !count_chains(
        counts,
        sums,
        letters,
        needed,
        rest_of(above),
        numbers,
        content,
        rows,
    )? {
        return Ok(None);
    }
    Ok(Some(counts[usize::from(rows.upper_end - rows.upper_outside)]))
}

/// The number of letters that are missing from the sum `numbers` for `content`; `None` if a number
/// of the sum exceeds that of `content` at the same index.
fn missing_letters(numbers: &[u16], content: &[u16]) -> Option<usize>
    requires letters { length content.now ≤ 512 }
    requires long { length content.now ≤ length numbers.now }
    ensures count { IfSome result
        (λ m. m ≡ missing (length content.now) content.now numbers.now) }
    ensures inside { IfSome result (λ m. (j : ℕ) → j < length content.now
        → slice_index numbers.now j ≤ slice_index content.now j) }
    ensures small { IfSome result (λ m. m ≤ 33553920) }
    ensures outside { IsNone result → pass_by_place nat_le numbers.now content.now ≡ false }
{
    let mut missing: usize = 0;
    for at in 0..content.len() {
        if content[at] < numbers[at] {
            return None;
        }
        missing += usize::from(content[at] - numbers[at]);
    }
    Some(missing)
}

/// Counts the chains of `up_to` letters: for each end k of the last row but one, from the number of
/// its places outside the shape on, `counts` has the number of chains that end with k. `needed` is
/// the number of places that both rows need up to these letters, and `above` describes the row
/// above them. Returns whether all sums of the first numbers are less than 2^128; if not, `counts`
/// has no meaning. Fails only if memory runs out.
fn count_chains(
    counts: &mut Vec<u128>,
    sums: &mut Vec<u128>,
    up_to: u16,
    needed: usize,
    above: &[u16],
    numbers: &[u16],
    content: &[u16],
    rows: LastRows,
) -> Result<bool, NoMemory>
    requires letters { up_to ≤ length content.now }
    requires long { length content.now ≤ length numbers.now }
    requires needed { needed ≡ rows.upper_outside + rows.lower_outside
        + missing up_to content.now numbers.now }
    requires upper { rows.upper_outside ≤ rows.upper_end }
    requires short { rows.upper_end ≤ 4096 }
    ensures chains { IfOk result (λ exact. exact ≡ true → counts.new.items
        ≡ map (λ k. chains rows.upper_outside rows.lower_outside content.now numbers.now up_to k
        above.now) (numbers_from rows.upper_outside (rows.upper_end + 1 - rows.upper_outside))) }
{
    if up_to == 0 {
        start_chains(counts, rows.upper_outside, rows.upper_end)?;
        return Ok(true);
    }
    let at = up_to - 1;
    let index = usize::from(at);
    let before = needed.saturating_sub(usize::from(content[index].saturating_sub(numbers[index])));
    if !count_chains(
        counts,
        sums,
        at,
        before,
        rest_of(above),
        numbers,
        content,
        rows,
    )? {
        return Ok(false);
    }
    if !add_up(sums, counts)? {
        return Ok(false);
    }
    next_chains(counts, sums, at, needed, above, numbers, content, rows)?;
    Ok(true)
}

/// Sets `counts` to the numbers of chains without letters that end with `first`, .., `last`: there
/// is one, and it ends with `first`.
fn start_chains(counts: &mut Vec<u128>, first: u16, last: u16) -> Result<(), NoMemory>
    requires upper { first ≤ last }
    requires short { last ≤ 4096 }
    ensures { OnOk result ((outside : ℕ) (content numbers above : List ℕ) → counts.new.items
        ≡ map (λ k. chains first outside content numbers 0 k above)
        (numbers_from first (last + 1 - first))) }
{
    counts.clear();
    for end in first..last + 1 {
        counts.push(u128::from(end == first))?;
    }
    Ok(())
}

/// Sets `sums` to the sums of the first 0, 1, 2, .. of the numbers. Returns false if one of them is
/// 2^128 or more, and then `sums` has no meaning.
fn add_up(sums: &mut Vec<u128>, numbers: &[u128]) -> Result<bool, NoMemory>
    ensures { IfOk result (λ exact. exact ≡ true → sums.new.items ≡ sums_from 0 numbers.now) }
{
    sums.clear();
    let mut sum: u128 = 0;
    for number in numbers {
        sums.push(sum)?;
        let Some(next) = sum.checked_add(*number) else {
            return Ok(false);
        };
        sum = next;
    }
    sums.push(sum)?;
    Ok(true)
}

/// Sets `counts` to the numbers of chains with one letter more, `at` + 1; `sums` has the sums of the
/// first 0, 1, 2, .. numbers of chains without it.
fn next_chains(
    counts: &mut Vec<u128>,
    sums: &[u128],
    at: u16,
    needed: usize,
    above: &[u16],
    numbers: &[u16],
    content: &[u16],
    rows: LastRows,
) -> Result<(), NoMemory>
    requires letters { at < length content.now }
    requires long { length content.now ≤ length numbers.now }
    requires needed { needed ≡ rows.upper_outside + rows.lower_outside
        + missing (at + 1) content.now numbers.now }
    requires upper { rows.upper_outside ≤ rows.upper_end }
    requires short { rows.upper_end ≤ 4096 }
    requires sums { sums.now ≡ sums_from 0
        (map (λ k. chains rows.upper_outside rows.lower_outside content.now numbers.now at k
        (drop 1 above.now))
        (numbers_from rows.upper_outside (rows.upper_end + 1 - rows.upper_outside))) }
    ensures { OnOk result (counts.new.items
        ≡ map (λ k. chains rows.upper_outside rows.lower_outside content.now numbers.now (at + 1) k
        above.now) (numbers_from rows.upper_outside (rows.upper_end + 1 - rows.upper_outside))) }
{
    counts.clear();
    for end in rows.upper_outside..rows.upper_end + 1 {
        let low = least_end(numbers, content, at, end, needed, rows.upper_outside);
        let past = past_ends(numbers, content, at, end, above, rows.upper_outside);
        counts.push(window_sum(sums, rows.upper_outside, low, past))?;
    }
    Ok(())
}

/// The least end of the letters up to `at` if the letters up to `at` + 1 end with `end`.
fn least_end(
    numbers: &[u16],
    content: &[u16],
    at: u16,
    end: u16,
    needed: usize,
    outside: u16,
) -> usize
    requires index { at < length numbers.now }
    requires letters { at < length content.now }
    ensures { result ≡ max (max (least_left_of outside at end numbers.now)
        (end - (slice_index content.now at - slice_index numbers.now at))) (needed - end) }
{
    let least = least_left(numbers, at, end, outside, content);
    usize::from(least).max(needed.saturating_sub(usize::from(end)))
}

/// One more than the greatest end of the letters up to `at` if the letters up to `at` + 1 end with
/// `end`.
fn past_ends(
    numbers: &[u16],
    content: &[u16],
    at: u16,
    end: u16,
    above: &[u16],
    outside: u16,
) -> u16
    requires within { at < length numbers.now }
    requires short { end ≤ 4096 }
    requires placed { outside ≤ end }
    ensures { result ≡ chain_end outside content.now numbers.now at end above.now }
{
    let index = usize::from(at);
    let more = part_at(content, index + 1).saturating_sub(numbers[index]);
    (end + 1)
        .saturating_sub(more)
        .min(most_left(at, end, outside, above) + 1)
}

/// The sum of those numbers, the first of which has the index `first`, that have the indices from
/// `low` to `end` - 1; `sums` has the sums of the first 0, 1, 2, .. numbers.
fn window_sum(sums: &[u128], first: u16, low: usize, end: u16) -> u128
    requires low { first ≤ low }
    requires end { end - first < length sums.now }
    ensures { (X : ℕ → ℕ) (count : ℕ) → sums.now ≡ sums_from 0 (map X (numbers_from first count))
        → result ≡ sum_by X (numbers_from low (end - low)) }
{
    let first = usize::from(first);
    let end = usize::from(end);
    if end <= low {
        return 0;
    }
    sums[end - first].saturating_sub(sums[low - first])
}
