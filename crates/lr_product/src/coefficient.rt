//! One coefficient of a product of two Schur polynomials, from a table of states with counts. A
//! tableau is good for a partition, the start, if start plus the content of its last k columns is a
//! partition for each k.
ghost use Rattle.std.specs.Prelude.{◌≡◌, ℕ, ◌+◌, ◌^◌, ◌<◌, ◌≤◌, true, List, pos, length, take, nat_eq};
ghost use Rattle.std.specs.Prelude.{IfOk, IfSome, OnOk, IsErrOf};
ghost use Rattle.std.specs.Cmp.Lexicographic.{pointwise};
ghost use Rattle.sym_model.specs.Partition.{IsPartition, ArePositive, size, rows};
ghost use Rattle.sym_model.specs.GoodTableau.{product_count};
ghost use Rattle.sym_model.specs.Schur.{contains};
ghost use Rattle.sym_model.specs.PastLimit.{HasPast};
ghost use Rattle.sym_model.specs.Products.{IsProductCoefficientOf};
ghost use Rattle.lr_product.specs.WeighedSum.{weighed, comes_to};
ghost use Rattle.lr_product.specs.Capped.{Agree};

use crate::columns::ways_by_columns;
use crate::letter_room::has_no_room;
use crate::rows::{count_by_rows, first_states};
use crate::states::{States, coefficient_of};
use crate::table::capped;
use calc_base::{NoMemory, SumFault};
use coeff_rings::Int;
use partitions::Partition;
use std::alloc::Global;

/// The coefficient of the Schur polynomial of `outer` in the product of those of `left` and
/// `right`: the number of good tableaux T of the shape `right` for the start `left` such that
/// `left` + content(T) = `outer`.
///
/// Unless memory runs out, returns `Large` if and only if this coefficient exceeds 2^127 - 1.
pub fn coef(
    alloc: Global,
    outer: &Partition,
    left: &Partition,
    right: &Partition,
) -> Result<Int, SumFault>
    requires { size left.now + size right.now ≤ 4096 }
    ensures count { IfOk result (λ c. c
        ≡ pos (product_count (rows outer.now) left.now right.now outer.now)) }
    ensures meets { IfOk result (λ c. IsProductCoefficientOf outer.now left.now right.now c) }
    ensures large { IsErrOf result SumFault.Large
        → HasPast (IsProductCoefficientOf outer.now left.now right.now) }
    ensures fits { OnOk result (HasPast (IsProductCoefficientOf outer.now left.now right.now)
        → ⊥) }
{
    let count = count_in(alloc, outer, left, right)?;
    Ok(coefficient_of(count)?)
}

/// The coefficient of the Schur polynomial of `outer` in the product of those of `left` and
/// `right`, as `coef` returns it, counted by rows. `None` if a row can be added in more than `most`
/// ways, if the first rows suggest this, or if the tableaux cannot be counted by rows: `outer` has
/// fewer than two rows, a factor is empty, or a sum exceeds 2^128 - 1.
///
/// Returns `Large` only if the coefficient exceeds 2^127 - 1, and the coefficient only if it does
/// not.
pub fn coef_by_rows(
    alloc: Global,
    outer: &Partition,
    left: &Partition,
    right: &Partition,
    most: usize,
) -> Result<Option<Int>, SumFault>
    requires { size left.now + size right.now ≤ 4096 }
    ensures count { IfOk result (λ o. IfSome o (λ c. c
        ≡ pos (product_count (rows outer.now) left.now right.now outer.now))) }
    ensures meets { IfOk result (λ o. IfSome o (λ c.
        IsProductCoefficientOf outer.now left.now right.now c)) }
    ensures large { IsErrOf result SumFault.Large
        → HasPast (IsProductCoefficientOf outer.now left.now right.now) }
    ensures fits { IfOk result (λ o. IfSome o (λ _.
        HasPast (IsProductCoefficientOf outer.now left.now right.now) → ⊥)) }
{
    let Some(count) = count_within(alloc, outer, left, right, most)? else {
        return Ok(None);
    };
    Ok(Some(coefficient_of(count)?))
}

/// The coefficient of `outer` in the product of `left` and `right`, counted by rows; 2^127 if it is
/// greater. The rows are those of outer/left, filled with the content `right`, or those of
/// outer/right: those whose first rows reach fewer states. `None` if a row can be added in more than
/// `most` ways, if one of the first rows can be added in more than a 128th as many, or for the other
/// reasons for which `count_by_rows` does not count. Fails only if memory runs out.
fn count_within(
    alloc: Global,
    outer: &Partition,
    left: &Partition,
    right: &Partition,
    most: usize,
) -> Result<Option<u128>, NoMemory>
    ensures agrees { IfOk result (λ o. IfSome o (λ count. Agree count
        (product_count (rows outer.now) left.now right.now outer.now))) }
    ensures factors { IsPartition outer.now × IsPartition left.now × IsPartition right.now }
{
    if has_no_room(outer, left, right) {
        return Ok(Some(0));
    }
    let by_right = first_states(alloc, outer, left.parts(), right.parts(), most / 128)?;
    let by_left = first_states(alloc, outer, right.parts(), left.parts(), most / 128)?;
    if by_left < by_right {
        return count_in_rows(alloc, outer, right, left, most);
    }
    if by_right == usize::MAX {
        return Ok(None);
    }
    count_in_rows(alloc, outer, left, right, most)
}

/// The coefficient of `outer` in the product of `left` and `right`: the number of lattice tableaux
/// of the skew shape outer/inner with the content μ. Here μ is the factor inside which there are
/// fewer partitions, since the contents of the first columns, or rows, of a tableau are partitions
/// inside μ. A coefficient over 2^127 is replaced by 2^127.
fn count_in(
    alloc: Global,
    outer: &Partition,
    left: &Partition,
    right: &Partition,
) -> Result<u128, NoMemory>
    ensures agrees { IfOk result (λ count. Agree count
        (product_count (rows outer.now) left.now right.now outer.now)) }
    ensures factors { OnOk result
        (IsPartition outer.now × IsPartition left.now × IsPartition right.now) }
{
    let in_left = number_inside(alloc, left.parts())?;
    let in_right = number_inside(alloc, right.parts())?;
    if in_left < in_right {
        return count_inside(alloc, outer, right, left, in_left);
    }
    count_inside(alloc, outer, left, right, in_right)
}

/// The number of partitions inside the partition `shape`, or 2^64 - 1 if it is greater.
fn number_inside(alloc: Global, shape: &[u16]) -> Result<u64, NoMemory> {
    // From the last row up: for each x up to the part of this row, the number of choices of this
    // row and the rows below it in which this row has at most x cells.
    let mut choices: Vec<u64> = vec![in alloc; 1; 1]?;
    for part in shape.iter().rev() {
        let most = last_of(&choices);
        choices.resize(usize::from(*part) + 1, most)?;
        add_up(&mut choices);
    }
    Ok(last_of(&choices))
}

/// The last number; 1 if there is none.
fn last_of(numbers: &[u64]) -> u64 {
    numbers.last().copied().unwrap_or(1)
}

/// Replaces each number by the sum of the numbers up to it.
fn add_up(numbers: &mut [u64]) {
    let mut sum: u64 = 0;
    for number in numbers {
        sum = sum.saturating_add(*number);
        *number = sum;
    }
}

/// The number of lattice tableaux of the skew shape outer/inner with the content `content`, or 2^127
/// if it is greater. Their letters are at most the number of parts of `content`, so only these
/// letters are tried. `inside` is the number of partitions inside `content`.
fn count_inside(
    alloc: Global,
    outer: &Partition,
    inner: &Partition,
    content: &Partition,
    inside: u64,
) -> Result<u128, NoMemory>
    ensures agrees { IfOk result (λ count. Agree count
        (product_count (rows outer.now) inner.now content.now outer.now)) }
    ensures factors { IsPartition outer.now × IsPartition inner.now × IsPartition content.now }
{
    if has_no_room(outer, inner, content) {
        return Ok(0);
    }
    let most = most_additions(outer, inner.rows().min(content.rows()), inside);
    if let Some(count) = count_in_few_letters(alloc, outer, inner, content, most)? {
        return Ok(count);
    }
    let letters = content.rows();
    let parts = content.parts();
    let table = ways_by_columns(alloc, &[], outer, inner.parts(), letters, parts)?;
    Ok(count_of(&table, parts))
}

/// The number of lattice tableaux of the skew shape outer/inner with the content `content`, counted
/// by rows; 2^127 if it is greater. `inner` and `content` are exchanged if that makes the letters
/// fewer, since the ways to add a row grow with them. `None` for the reasons for which
/// `count_by_rows` does not count. Fails only if memory runs out.
fn count_in_few_letters(
    alloc: Global,
    outer: &Partition,
    inner: &Partition,
    content: &Partition,
    most: usize,
) -> Result<Option<u128>, NoMemory>
    requires shape { IsPartition outer.now }
    requires size { size outer.now ≤ 4096 }
    requires inside { contains outer.now inner.now ≡ true }
    requires content { contains outer.now content.now ≡ true }
    ensures agrees { IfOk result (λ o. IfSome o (λ count. Agree count
        (product_count (rows outer.now) inner.now content.now outer.now))) }
{
    if inner.rows() < content.rows() {
        return count_in_rows(alloc, outer, content, inner, most);
    }
    count_in_rows(alloc, outer, inner, content, most)
}

/// The number of lattice tableaux of the skew shape outer/inner with the content `content`, counted
/// by rows; 2^127 if it is greater. `None` for the reasons for which `count_by_rows` does not count.
/// Fails only if memory runs out.
fn count_in_rows(
    alloc: Global,
    outer: &Partition,
    inner: &Partition,
    content: &Partition,
    most: usize,
) -> Result<Option<u128>, NoMemory>
    requires shape { IsPartition outer.now }
    requires size { size outer.now ≤ 4096 }
    requires inside { contains outer.now inner.now ≡ true }
    ensures agrees { IfOk result (λ o. IfSome o (λ count. Agree count
        (product_count (rows outer.now) inner.now content.now outer.now))) }
{
    count_by_rows(alloc, outer, inner.parts(), content.parts(), most)
}

/// The number of ways to add a row up to which the tableaux are counted by rows; beyond it the
/// columns are usually faster. `parts` is the smaller number of parts of the two factors. Up to five
/// rows there is no limit. Six rows are added only if both factors have at least five parts: columns
/// of at most four letters have few states. From seven rows on, the columns have at most about as
/// many states as there are partitions inside the content, `inside`, but if these are many, often
/// far fewer: so no more than 2^20 ways are tried in vain, or a small part of `inside`.
fn most_additions(outer: &Partition, parts: u16, inside: u64) -> usize {
    let rows = outer.rows();
    if rows <= 5 || rows == 6 && parts >= 5 {
        return usize::MAX;
    }
    if rows == 6 {
        return 0;
    }
    (inside / 5).min((inside / 1024).max(1 << 20)) as usize
}

/// The total count of those states of the table that begin with the numbers of `parts`, or 2^127 if
/// it is greater.
fn count_of(table: &States, parts: &[u16]) -> u128
    requires { ArePositive parts.now }
    ensures agrees { Agree result
        (weighed (length parts.now) (comes_to parts.now) table.now.entries) }
    ensures within { result ≤ 2 ^ 127 }
{
    let mut count: u128 = 0;
    for at in 0..table.len() {
        let (state, ways) = table.entry(at);
        if !begins_with(state, parts) {
            continue;
        }
        count = capped(count.saturating_add(ways));
    }
    count
}

/// Whether the first numbers of `numbers` are `parts`.
fn begins_with(numbers: &[u16], parts: &[u16]) -> bool
    ensures { result ≡ pointwise nat_eq (take (length parts.now) numbers.now) parts.now }
{
    &numbers[..parts.len().min(numbers.len())] == parts
}
