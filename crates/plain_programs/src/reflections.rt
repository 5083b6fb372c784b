//! Slow programs that follow the definitions, for the reduction of partitions into the alcove, by
//! reflections of their beta lists.

ghost use Rattle.std.specs.Prelude.{◌≡◌, ℕ, ◌++◌, ◌+◌, ◌-◌, ◌≤◌, ◌<◌, ◌^◌, IfOk, OnOk, length};
ghost use Rattle.std.specs.Prelude.{slice_index};
ghost use Rattle.sym_model.specs.Partition.{part};
ghost use Rattle.sym_model.specs.AlcoveReduction.{alcove_reduction, reflected_into_alcove, spread};
ghost use Rattle.sym_model.specs.AlcoveReduction.{last_raised, reflected};
ghost use Rattle.plain_programs.specs.Signed.{signed_of};

use crate::beta_lists::{
    has_equal, is_one_odd, is_sorting_odd, plain_beta, plain_from_beta, sorted,
};
use crate::numbers::number_at;
use std::alloc::{AllocError, Global};

/// A list of numbers, with one sign for the whole list.
#[derive(Drop)]
pub struct Signed {
    /// The numbers of the list, without the sign.
    pub numbers: Vec<u64>,
    /// Whether the sign is -1.
    pub is_negative: bool,
}

/// The reduction of a partition with at most k rows into the alcove of level n - k, for n at least
/// 1: a partition with a sign, or None if the reduction is 0. The greatest part plus k is below
/// 2^64. Fails only if memory runs out.
pub fn plain_alcove(
    alloc: Global,
    k: u64,
    n: u64,
    shape: &[u64],
) -> Result<Option<Signed>, AllocError>
    requires positive { 1 ≤ n }
    requires rows { length shape.now ≤ k }
    requires fits { (i : ℕ) → part shape.now i + k < 2 ^ 64 }
    ensures { IfOk result (λ answer. signed_of answer ≡ alcove_reduction k n shape.now) }
{
    let list = plain_beta(alloc, k, shape)?;
    let Some(end) = plain_reflect(alloc, n, &list)? else {
        return Ok(None);
    };
    let numbers = plain_from_beta(alloc, &end.numbers)?;
    Ok(Some(Signed {
        numbers,
        is_negative: end.is_negative,
    }))
}

/// Reflects a list and sorts it in decreasing order, again and again, until its first entry exceeds
/// its last by less than n, which is at least 1. A reflection subtracts n from the first entry and
/// adds n to the last. Returns the list that is reached, with the sign of the sortings. Returns
/// None, for the result 0, if a first entry exceeds the last by exactly n, or if a reflected list
/// has two equal entries. Fails only if memory runs out.
pub fn plain_reflect(alloc: Global, n: u64, list: &[u64]) -> Result<Option<Signed>, AllocError>
    requires { 1 ≤ n }
    ensures { IfOk result (λ answer. signed_of answer ≡ reflected_into_alcove n list.now) }
{
    let gap = spread_of(list);
    if gap < n {
        let numbers = Vec::from_slice(alloc, list)?;
        return Ok(Some(Signed {
            numbers,
            is_negative: false,
        }));
    }
    if gap == n {
        return Ok(None);
    }
    let next = reflection(alloc, n, list)?;
    let is_zero = has_equal(&next);
    if is_zero {
        return Ok(None);
    }
    let turns = is_sorting_odd(&next);
    let falling = sorted(alloc, &next)?;
    let Some(end) = plain_reflect(alloc, n, &falling)? else {
        return Ok(None);
    };
    let is_negative = is_one_odd(turns, end.is_negative);
    Ok(Some(Signed {
        numbers: end.numbers,
        is_negative,
    }))
}

/// The first entry of the list minus the last; 0 if the last entry is greater or the list is empty.
fn spread_of(list: &[u64]) -> u64
    ensures { result ≡ spread list.now }
{
    let last = list.len().saturating_sub(1);
    number_at(list, 0).saturating_sub(number_at(list, last))
}

fn reflection(alloc: Global, n: u64, list: &[u64]) -> Result<Vec<u64>, AllocError>
    requires { n < spread list.now }
    ensures { IfOk result (λ next. next.items ≡ reflected n list.now) }
{
    let mut next = Vec::new(alloc);
    let [first, rest @ ..] = list else {
        return Ok(next);
    };
    next.push(first.saturating_sub(n))?;
    push_last_raised(&mut next, n, rest)?;
    Ok(next)
}

fn push_last_raised(next: &mut Vec<u64>, n: u64, list: &[u64]) -> Result<(), AllocError>
    requires { slice_index list.now (length list.now - 1) + n < 2 ^ 64 }
    ensures { OnOk result (next.new.items ≡ next.old.items ++ last_raised n list.now) }
{
    let [first, rest @ ..] = list else {
        return Ok(());
    };
    if rest.is_empty() {
        next.push(*first + n)?;
        return Ok(());
    }
    next.push(*first)?;
    push_last_raised(next, n, rest)
}
