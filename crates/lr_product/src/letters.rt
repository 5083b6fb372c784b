//! The letters that can be placed in a column, and their effect on a state. A state begins with a
//! sum, a list of numbers; the letter b adds 1 to the entry b of the sum, counted from 1. A list
//! `bound` has the greatest value that is allowed for each of the first numbers of the sum.
ghost use Rattle.std.specs.Prelude.{◌≡◌, ◌+◌, ◌-◌, ◌^◌, ◌<◌, ◌≤◌, ◌==◌, ◌||◌, List, ℕ, true};
ghost use Rattle.std.specs.Prelude.{◌++◌, ◌∷◌, false, nat_le, nat_lt};
ghost use Rattle.std.specs.Prelude.{length, take, drop, slice_index, OnOk, IfOk, IfSome};
ghost use Rattle.sym_model.specs.GoodTableau.{is_falling};
ghost use Rattle.lr_product.specs.Extension.{raised, mark, can_rise as can_rise_at};
ghost use Rattle.lr_product.specs.MarksFree.{MarksFree};
ghost use Rattle.lr_product.specs.Extension.{least_letter as least_letter_of, letters_end};

use calc_base::NoMemory;

/// The greatest letter that can be in a set of letters, since a set is a number of 64 bits.
const MARKED: u16 = 64;

/// The set of the letters b that are greater than `above`, at most `letters` and at most 64, and
/// for which `numbers` stays weakly decreasing and within `bound` if its entry b, counted from 1,
/// is increased by 1. The set is a number, in which b has the binary digit b - 1.
pub(crate) fn free_letters(numbers: &[u16], above: u16, letters: u16, bound: &[u16]) -> u64
    requires { letters ≤ length numbers.now }
    ensures { MarksFree letters above bound.now numbers.now result }
{
    let mut free: u64 = 0;
    for at in usize::from(above)..usize::from(letters.min(MARKED)) {
        free |= u64::from(can_rise(numbers, at, bound)) << at;
    }
    free
}

/// The set of the letters b, greater than `letter`, for which the sum stays weakly decreasing and
/// within `bound` if its entry b, counted from 1, is increased by 1. In `numbers`, which begins
/// with the sum, the entry `letter` has just been increased by 1; `free` is the set of such letters
/// before that. Only `letter` + 1 can be new in the set. It is added if the bound allows it, since
/// the sum was weakly decreasing before. The digits of smaller letters have no meaning.
pub(crate) fn free_after(free: u64, numbers: &[u16], letter: u16, bound: &[u16]) -> u64
    requires { length bound.now ≤ length numbers.now }
    ensures { (n above : ℕ) (before after : List ℕ) → numbers.now ≡ raised letter before ++ after
        → n ≤ length before → length bound.now ≤ n → is_falling (take n before) ≡ true
        → above ≤ letter → MarksFree n above bound.now before free
        → MarksFree n letter bound.now numbers.now result }
{
    let at = usize::from(letter);
    if letter == 0 {
        return free;
    }
    if letter >= MARKED {
        return free;
    }
    if is_allowed(numbers, at, bound) {
        return free | 1 << letter;
    }
    free
}

/// The least letter b from `from` to `end - 1` for which `numbers` stays weakly decreasing and
/// within `bound` if its entry b, counted from 1, is increased by 1; the letter 0 is always
/// allowed. `end` if there is no such letter. Letters up to 64 are looked up in `free`, the others
/// are tested.
pub(crate) fn next_letter(numbers: &[u16], free: u64, from: u16, end: u16, bound: &[u16]) -> u16
    requires length { end ≤ length numbers.now + 1 }
    requires free { MarksFree (end - 1) (from - 1) bound.now numbers.now free }
    ensures within { result ≤ end }
    ensures least { result < end → from ≤ result }
    ensures skipped { (b : ℕ) → from ≤ b → b < result
        → ((b == 0) || can_rise_at bound.now (b - 1) numbers.now) ≡ false }
    ensures room { result < end
        → ((result == 0) || can_rise_at bound.now (result - 1) numbers.now) ≡ true }
{
    if from == 0 {
        return 0;
    }
    if from > MARKED {
        return first_with_room(numbers, from, end, bound);
    }
    let letter = from + (free >> (from - 1)).trailing_zeros() as u16;
    if letter > MARKED {
        return first_with_room(numbers, MARKED + 1, end, bound);
    }
    letter.min(end)
}

/// The least letter b from `from` to `end - 1` for which `numbers` stays weakly decreasing and
/// within `bound` if its entry b, counted from 1, is increased by 1; `end` if there is no such
/// letter. The letters are tested one after another.
fn first_with_room(numbers: &[u16], from: u16, end: u16, bound: &[u16]) -> u16
    requires { end ≤ length numbers.now + 1 }
    ensures within { result ≤ end }
    ensures least { result < end → from ≤ result }
    ensures skipped { (b : ℕ) → from ≤ b → b < result
        → ((b == 0) || can_rise_at bound.now (b - 1) numbers.now) ≡ false }
    ensures room { result < end
        → ((result == 0) || can_rise_at bound.now (result - 1) numbers.now) ≡ true }
{
    for letter in from..end {
        if has_room(numbers, letter, bound) {
            return letter;
        }
    }
    end
}

/// Whether `numbers` stays weakly decreasing and within `bound` if its entry `letter`, counted from
/// 1, is increased by 1; always true for the letter 0.
pub(crate) fn has_room(numbers: &[u16], letter: u16, bound: &[u16]) -> bool
    requires { letter ≤ length numbers.now }
    ensures { result ≡ ((letter == 0) || can_rise_at bound.now (letter - 1) numbers.now) }
{
    letter == 0 || can_rise(numbers, usize::from(letter) - 1, bound)
}

/// Whether `numbers` stays weakly decreasing and within `bound` if its number at the index `at` is
/// increased by 1.
fn can_rise(numbers: &[u16], at: usize, bound: &[u16]) -> bool
    requires { at < length numbers.now }
    ensures { result ≡ can_rise_at bound.now at numbers.now }
{
    (at == 0 || numbers[at] < numbers[at - 1]) && is_allowed(numbers, at, bound)
}

/// Whether the bound allows the number at the index `at` to be raised by 1; true if `bound` has no
/// number at this index.
fn is_allowed(numbers: &[u16], at: usize, bound: &[u16]) -> bool
    requires { at < length bound.now → at < length numbers.now }
    ensures { result ≡ (nat_le (length bound.now) at
        || nat_lt (slice_index numbers.now at) (slice_index bound.now at)) }
{
    bound.len() <= at || numbers[at] < bound[at]
}

/// The least letter that is allowed below the letter `above` in a column: `above` + 1 at a cell, 0
/// at a place outside the shape.
pub(crate) fn least_letter(cell: bool, above: u16) -> u16
    requires { above ≤ 512 }
    ensures { result ≡ least_letter_of cell above }
{
    if cell { above + 1 } else { 0 }
}

/// The end of the letters at a place of a column: only letters less than the end are allowed there.
/// The column has `below` places under this place, and the letter over it is `above`. At a cell,
/// the end is one more than the greatest letter that is at most the right neighbour and leaves
/// greater letters for the places under the cell. Outside the shape only the letter 0 is allowed,
/// and only if `above` is 0: the end is then 1, otherwise 0.
pub(crate) fn end_of_letters(
    letters: u16,
    cell: bool,
    below: usize,
    right: &[u16],
    above: u16,
) -> u16
    requires { letters ≤ 512 }
    ensures value { result ≡ letters_end (letters - below) cell right.now above }
    ensures within { result ≤ letters + 1 }
{
    if cell {
        let most = usize::from(letters).saturating_sub(below) as u16;
        let greatest = match right.first() {
            Some(neighbour) => most.min(*neighbour),
            None => most,
        };
        greatest + 1
    } else if above == 0 {
        1
    } else {
        0
    }
}

/// If the first place of `line` is a cell and the first letter of `right` is `letter`, the
/// remaining places of `line` and the remaining letters of `right`; otherwise `None`.
pub(crate) fn left_of_letter<'a>(
    line: &'a [bool],
    right: &'a [u16],
    letter: u16,
) -> Option<(&'a [bool], &'a [u16])>
    ensures { IfSome result (λ r. (line.now ≡ true ∷ r.0.now) × (right.now ≡ letter ∷ r.1.now)) }
{
    let Some((cell, rest)) = line.split_first() else {
        return None;
    };
    let Some((neighbour, others)) = right.split_first() else {
        return None;
    };
    if *cell && *neighbour == letter {
        return Some((rest, others));
    }
    None
}

/// The list without its first number.
pub(crate) fn rest_of(right: &[u16]) -> &[u16]
    ensures { result.now ≡ drop 1 right.now }
{
    if right.is_empty() { right } else { &right[1..] }
}

/// Adds 1 to the entry `letter`, counted from 1, of the sum at the beginning of the state (to no
/// entry for the letter 0). Appends the letter to the state if `is_kept`. Returns the length that
/// the state had before.
pub(crate) fn place(state: &mut Vec<u16>, letter: u16, is_kept: bool) -> Result<usize, NoMemory>
    requires within { letter ≤ length state.old.items }
    requires room { 0 < letter → slice_index state.old.items (letter - 1) < 2 ^ 16 - 1 }
    ensures state { OnOk result (state.new.items
        ≡ raised letter state.old.items ++ mark is_kept letter) }
    ensures length { IfOk result (λ len. len ≡ length state.old.items) }
{
    let len = state.len();
    raise(state, letter);
    if is_kept {
        state.push(letter)?;
    }
    Ok(len)
}

/// Adds 1 to the entry `letter`, counted from 1, of the sum at the beginning of the state; does
/// nothing for the letter 0.
fn raise(state: &mut Vec<u16>, letter: u16)
    requires within { letter ≤ length state.old.items }
    requires room { 0 < letter → slice_index state.old.items (letter - 1) < 2 ^ 16 - 1 }
    ensures { state.new.items ≡ raised letter state.old.items }
{
    if letter > 0 {
        let at = usize::from(letter) - 1;
        let number = state[at];
        state[at] = number + 1;
    }
}

/// Undoes `place` for `letter`; `len` is the length of the state before `place`.
pub(crate) fn take_back(state: &mut Vec<u16>, len: usize, letter: u16)
    requires within { letter ≤ length state.old.items }
    ensures { (before after : List ℕ) → state.old.items ≡ raised letter before ++ after
        → length before ≡ len → letter ≤ len
        → state.new.items ≡ before }
{
    if letter > 0 {
        let at = usize::from(letter) - 1;
        let number = state[at];
        state[at] = number.saturating_sub(1);
    }
    state.truncate(len);
}
