//! Slow programs that follow the definitions, for the reduction of partitions by removals of rim
//! hooks.

ghost use Rattle.std.specs.Prelude.{◌≡◌, ℕ, ◌+◌, ◌-◌, ◌≤◌, ◌<◌, ◌^◌, IfOk, length, slice_index};
ghost use Rattle.sym_model.specs.Partition.{IsPartition, size};
ghost use Rattle.sym_model.specs.RimHookReduction.{GoesTo};
ghost use Rattle.plain_programs.specs.Signed.{sign_of};
ghost use Rattle.plain_programs.specs.Removed.{IsFound, IsFoundFrom, IsFoundInRows, left_part};

use crate::beta_lists::{count_up_to_last_positive, is_one_odd};
use crate::numbers::number_at;
use std::alloc::{AllocError, Global};

/// The partition that remains after the removal of a rim hook, and the height of that rim hook.
#[derive(Drop)]
pub struct Removal {
    /// The partition that is left.
    pub left: Vec<u64>,
    /// The number of rows of the rim hook.
    pub height: u64,
}

/// The partition with which the removals of rim hooks end, with a sign and the number of removals.
#[derive(Drop)]
pub struct Core {
    /// The partition that is left at the end.
    pub shape: Vec<u64>,
    /// Whether the sign is -1.
    pub is_negative: bool,
    /// The number of removed rim hooks.
    pub power: u64,
}

/// Removes rim hooks of n cells, n at least 1, from a partition with at most k rows and fewer than
/// 2^64 cells, until no such rim hook can be removed; each removal multiplies the sign by (-1)^(k -
/// height). Fails only if memory runs out.
pub fn plain_core(alloc: Global, k: u64, n: u64, shape: &[u64]) -> Result<Core, AllocError>
    requires positive { 1 ≤ n }
    requires partition { IsPartition shape.now }
    requires rows { length shape.now ≤ k }
    requires fits { size shape.now < 2 ^ 64 }
    ensures end { IfOk result (λ core.
        GoesTo k n shape.now core.shape.items (sign_of core.is_negative) core.power) }
    ensures bound { IfOk result (λ core. core.power ≤ size shape.now) }
{
    let Some(removal) = plain_removal(alloc, n, shape)? else {
        let shape = Vec::from_slice(alloc, shape)?;
        return Ok(Core {
            shape,
            is_negative: false,
            power: 0,
        });
    };
    let core = plain_core(alloc, k, n, &removal.left)?;
    let turns = k.saturating_sub(removal.height) % 2 == 1;
    let is_negative = is_one_odd(turns, core.is_negative);
    Ok(Core {
        shape: core.shape,
        is_negative,
        power: core.power + 1,
    })
}

/// A partition that is left when a rim hook of n cells is removed, with the height of this rim
/// hook; None if no rim hook of n cells can be removed. Fails only if memory runs out.
pub fn plain_removal(alloc: Global, n: u64, shape: &[u64]) -> Result<Option<Removal>, AllocError>
    requires { IsPartition shape.now }
    ensures { IfOk result (IsFound n shape.now) }
{
    for first in 0..shape.len() {
        let found = removal_from(alloc, n, shape, first)?;
        if found.is_some() {
            return Ok(found);
        }
    }
    Ok(None)
}

/// A removal of a rim hook of n cells whose first row is `first`, counted from 0; None if no such
/// rim hook can be removed.
fn removal_from(
    alloc: Global,
    n: u64,
    shape: &[u64],
    first: usize,
) -> Result<Option<Removal>, AllocError>
    requires { IsPartition shape.now }
    ensures { IfOk result (IsFoundFrom n shape.now first) }
{
    for last in first..shape.len() {
        let found = removal_between(alloc, n, shape, first, last)?;
        if found.is_some() {
            return Ok(found);
        }
    }
    Ok(None)
}

/// The removal of a rim hook of n cells with the rows `first` to `last`, counted from 0; None if no
/// such rim hook can be removed.
fn removal_between(
    alloc: Global,
    n: u64,
    shape: &[u64],
    first: usize,
    last: usize,
) -> Result<Option<Removal>, AllocError>
    requires partition { IsPartition shape.now }
    requires ordered { first ≤ last }
    requires within { last < length shape.now }
    ensures { IfOk result (IsFoundInRows n shape.now first last) }
{
    let above = (last - first) as u64;
    let top = u128::from(shape[first]) + u128::from(above);
    let least = u128::from(n) + u128::from(number_at(shape, last + 1));
    let bound = u128::from(n) + u128::from(shape[last]);
    if top < least || bound <= top {
        return Ok(None);
    }
    let rest = (top - u128::from(n)) as u64;
    let mut left = left_rows(alloc, shape, first, last, rest)?;
    let rows = count_up_to_last_positive(&left);
    left.truncate(rows);
    Ok(Some(Removal {
        left,
        height: above + 1,
    }))
}

fn left_rows(
    alloc: Global,
    shape: &[u64],
    first: usize,
    last: usize,
    rest: u64,
) -> Result<Vec<u64>, AllocError>
    requires ordered { first ≤ last }
    requires within { last < length shape.now }
    ensures { IfOk result (λ left. (i : ℕ)
        → slice_index left.items i ≡ left_part shape.now first last rest i) }
{
    let mut left = Vec::new(alloc);
    for i in 0..shape.len() {
        left.push(left_row(shape, first, last, rest, i))?;
    }
    Ok(left)
}

fn left_row(shape: &[u64], first: usize, last: usize, rest: u64, i: usize) -> u64
    requires { i < length shape.now }
    ensures { result ≡ left_part shape.now first last rest i }
{
    if i < first {
        number_at(shape, i)
    } else if i < last {
        number_at(shape, i + 1).saturating_sub(1)
    } else if i == last {
        rest
    } else {
        number_at(shape, i)
    }
}
