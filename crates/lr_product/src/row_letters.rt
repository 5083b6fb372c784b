//! Equal letters added to a row: their effect on a state, and bounds for their number. A state
//! begins with a sum, a list of numbers; a letter b adds 1 to the entry b of the sum, counted from
//! 1.
ghost use Rattle.std.specs.Prelude.{◌≡◌, ◌+◌, ◌-◌, ◌<◌, ◌≤◌, ◌==◌, List, ℕ, ◌++◌, cond, max};
ghost use Rattle.std.specs.Prelude.{length, nat_lt, slice_index, OnOk, IfOk};
ghost use Rattle.lr_product.specs.Extension.{mark};
ghost use Rattle.lr_product.specs.RowExtension.{added, most_left as most_left_of};

use calc_base::NoMemory;

/// If `placed` places have letters up to a = `at` + 1, the least number of them that can have
/// letters less than a. It is at least `outside`. The other places have the letter a. The entry of
/// `numbers` at the index `at`, plus the number of these other places, must not exceed the entry
/// before it or the number of `bound` at the same index.
pub(crate) fn least_left(numbers: &[u16], at: u16, placed: u16, outside: u16, bound: &[u16]) -> u16
    requires { at < length numbers.now }
    ensures { result ≡ max (max outside
        (cond (at == 0) 0 (placed - (slice_index numbers.now (at - 1) - slice_index numbers.now at))))
        (cond (nat_lt at (length bound.now))
        (placed - (slice_index bound.now at - slice_index numbers.now at)) 0) }
{
    outside
        .max(left_by_sum(numbers, at, placed))
        .max(left_by_bound(numbers, at, placed, bound))
}

/// The least x such that the number at the index `at`, raised by `placed` - x, does not exceed the
/// number before it; 0 for the first index.
fn left_by_sum(numbers: &[u16], at: u16, placed: u16) -> u16
    requires { at < length numbers.now }
    ensures { result ≡ cond (at == 0) 0
        (placed - (slice_index numbers.now (at - 1) - slice_index numbers.now at)) }
{
    if at == 0 {
        return 0;
    }
    let index = usize::from(at);
    placed.saturating_sub(numbers[index - 1].saturating_sub(numbers[index]))
}

/// The least x such that the number at the index `at`, raised by `placed` - x, does not exceed its
/// number in `bound`; 0 after the end of `bound`.
fn left_by_bound(numbers: &[u16], at: u16, placed: u16, bound: &[u16]) -> u16
    requires { at < length numbers.now }
    ensures { result ≡ cond (nat_lt at (length bound.now))
        (placed - (slice_index bound.now at - slice_index numbers.now at)) 0 }
{
    let index = usize::from(at);
    if index < bound.len() {
        return placed.saturating_sub(bound[index].saturating_sub(numbers[index]));
    }
    0
}

/// One more than the greatest x ≤ `placed` such that the number at the index `at`, raised by
/// `placed` - x and later by `later`, reaches its number in `bound`; 0 if there is no such x, and
/// `placed` + 1 after the end of `bound`.
pub(crate) fn end_by_bound(numbers: &[u16], at: u16, placed: u16, later: u16, bound: &[u16]) -> u16
    requires within { at < length numbers.now }
    requires placed { placed ≤ 4096 }
    ensures { result ≡ cond (nat_lt at (length bound.now))
        ((placed + 1) - ((slice_index bound.now at - slice_index numbers.now at) - later))
        (placed + 1) }
{
    let index = usize::from(at);
    if index < bound.len() {
        let missing = bound[index].saturating_sub(numbers[index]);
        return (placed + 1).saturating_sub(missing.saturating_sub(later));
    }
    placed + 1
}

/// If `placed` places have letters up to `at` + 1, the greatest number of them that can have
/// letters up to `at`. It is `outside` if `at` is 0. Otherwise it is `placed`, or `above[0]` if
/// `above` is not empty and `above[0]` is less than `placed`. `above[0]` is the number of places of
/// the row above with a letter less than `at`.
pub(crate) fn most_left(at: u16, placed: u16, outside: u16, above: &[u16]) -> u16
    ensures { result ≡ most_left_of outside at placed above.now }
{
    if at == 0 {
        return outside;
    }
    match above.first() {
        Some(most) => placed.min(*most),
        None => placed,
    }
}

/// Adds `count` to the number at the index `at` of the state, and appends `left` to the state if
/// `is_kept`. Returns the length that the state had before. Fails only if memory runs out.
pub(crate) fn put_letters(
    state: &mut Vec<u16>,
    at: u16,
    count: u16,
    left: u16,
    is_kept: bool,
) -> Result<usize, NoMemory>
    requires within { at < length state.old.items }
    requires room { slice_index state.old.items at + count < 65536 }
    ensures state { OnOk result (state.new.items
        ≡ added at count state.old.items ++ mark is_kept left) }
    ensures length { IfOk result (λ len. len ≡ length state.old.items) }
{
    let len = state.len();
    add_at(state, at, count);
    if is_kept {
        state.push(left)?;
    }
    Ok(len)
}

/// Adds `count` to the number at the index `at` of the state.
fn add_at(state: &mut Vec<u16>, at: u16, count: u16)
    requires within { at < length state.old.items }
    requires room { slice_index state.old.items at + count < 65536 }
    ensures { state.new.items ≡ added at count state.old.items }
{
    let index = usize::from(at);
    let number = state[index];
    state[index] = number + count;
}

/// Undoes `put_letters`, which returned `len`: subtracts `count` from the number at the index `at`,
/// and shortens the state to the length `len`.
pub(crate) fn take_letters(state: &mut Vec<u16>, len: usize, at: u16, count: u16)
    requires within { at < length state.old.items }
    ensures { (before after : List ℕ) → state.old.items ≡ added at count before ++ after
        → length before ≡ len → at < len
        → state.new.items ≡ before }
{
    let index = usize::from(at);
    let number = state[index];
    state[index] = number.saturating_sub(count);
    state.truncate(len);
}
