//! Stanley polynomials of permutations of several blocks. A block of w ends at place n if the first
//! n letters of w are 1, .., n in some order. Then the Stanley polynomial of w is the product of
//! those of u and 1^n × v: here u are the first n letters of w, and v are the others, each
//! decreased by n.
ghost use Rattle.std.specs.Prelude.{◌<◌, ◌≤◌, length, take, IfOk, OnOk, IsErrOf};
ghost use Rattle.perm_codes.specs.Limits.{IsWithinLimits};
ghost use Rattle.sym_model.specs.PastLimit.{HasPast, IsCoefficientOfStanley};
ghost use Rattle.sym_model.specs.Stanley.{stanley_in};
ghost use Rattle.stanley_expand.specs.Blocks.{IsEnd, IsSumFor, between};

use crate::behind::block_behind;
use crate::products::product;
use crate::walk::{Schurs, by_transitions};
use calc_base::SumFault;
use perm_codes::Perm;
use std::alloc::Global;

/// The end of the first block of at least two letters that ends after place `from`. If there is
/// none, the number of letters.
fn next_end(perm: &Perm, from: u16) -> u16
    ensures later { from < length perm.now → from < result }
    ensures end { IsEnd perm.now result }
    ensures limits { IsWithinLimits perm.now }
{
    let letters = perm.letters();
    let mut greatest: u8 = 0;
    for (at, letter) in letters.iter().enumerate() {
        greatest = greatest.max(*letter);
        if at >= usize::from(from) && *letter < greatest && usize::from(greatest) == at + 1 {
            return u16::from(greatest);
        }
    }
    perm.len()
}

/// The Stanley polynomial of a permutation of at most 16 letters, in `rows` variables, as a sum of
/// Schur polynomials. If the permutation has several blocks, the Stanley polynomials of the blocks
/// are multiplied. If a number is too large there, or if there is only one block, the permutation
/// is expanded as a whole.
///
/// Returns `Large` only if a coefficient exceeds 2^127 - 1.
pub(crate) fn in_schurs(alloc: Global, perm: &Perm, rows: u16) -> Result<Schurs, SumFault>
    requires variables { (1 ≤ rows) × (rows ≤ 64) }
    requires letters { length perm.now ≤ 16 }
    ensures sum { IfOk result (IsSumFor rows (stanley_in perm.now rows)) }
    ensures large { IsErrOf result SumFault.Large
        → HasPast (IsCoefficientOfStanley rows perm.now) }
{
    if next_end(perm, 0) == perm.len() {
        return as_one_block(alloc, perm, rows);
    }
    match by_blocks(alloc, perm, rows) {
        Ok(sum) => Ok(sum),
        Err(SumFault::NoMemory) => Err(SumFault::NoMemory),
        Err(SumFault::Large) => as_one_block(alloc, perm, rows),
    }
}

/// The same sum, by the transition rule for the whole permutation.
fn as_one_block(alloc: Global, perm: &Perm, rows: u16) -> Result<Schurs, SumFault>
    requires variables { (1 ≤ rows) × (rows ≤ 64) }
    requires letters { length perm.now ≤ 16 }
    ensures sum { IfOk result (IsSumFor rows (stanley_in perm.now rows)) }
    ensures large { IsErrOf result SumFault.Large
        → HasPast (IsCoefficientOfStanley rows perm.now) }
{
    let len = perm.len();
    block(alloc, perm, 0, len, rows)
}

/// The Stanley polynomial of a permutation of at most 16 letters, in `rows` variables, as a sum of
/// Schur polynomials: the product of those of its blocks.
///
/// Returns `Large` if a number is too large, also if it is not a coefficient of the Stanley
/// polynomial.
fn by_blocks(alloc: Global, perm: &Perm, rows: u16) -> Result<Schurs, SumFault>
    requires variables { (1 ≤ rows) × (rows ≤ 64) }
    requires letters { length perm.now ≤ 16 }
    ensures { IfOk result (IsSumFor rows (stanley_in perm.now rows)) }
{
    let len = perm.len();
    let mut from = next_end(perm, 0);
    let mut sum = block(alloc, perm, 0, from, rows)?;
    while from < len {
        let to = next_end(perm, from);
        let longer = times_block(alloc, &sum, perm, from, to, rows)?;
        sum = longer;
        from = to;
    }
    Ok(sum)
}

/// The product of the Stanley polynomial `sum` of the first `from` letters and that of the letters
/// from there to place `to`, in `rows` variables: the Stanley polynomial of the first `to` letters.
fn times_block(
    alloc: Global,
    sum: &Schurs,
    perm: &Perm,
    from: u16,
    to: u16,
    rows: u16,
) -> Result<Schurs, SumFault>
    requires variables { (1 ≤ rows) × (rows ≤ 64) }
    requires letters { length perm.now ≤ 16 }
    requires from { IsEnd perm.now from }
    requires order { from < to }
    requires to { IsEnd perm.now to }
    requires sum { IsSumFor rows (stanley_in (take from perm.now) rows) sum.now }
    ensures { IfOk result (IsSumFor rows (stanley_in (take to perm.now) rows)) }
{
    let next = block(alloc, perm, from, to, rows)?;
    product(alloc, sum, &next, rows)
}

/// The Stanley polynomial, in `rows` variables, of the letters after place `from` and up to place
/// `to`, after `from` fixed letters, as a sum of Schur polynomials.
///
/// Returns `Large` only if a coefficient exceeds 2^127 - 1.
///
/// The transition rule of Lascoux and Schützenberger is applied to these letters after `rows` fixed
/// letters more. A term with a factor x_r is dropped if r is greater than `rows`. At the end only
/// Grassmannian permutations are left, whose Schubert polynomials are Schur polynomials (Macdonald,
/// Notes on Schubert polynomials, IV and VII).
fn block(alloc: Global, perm: &Perm, from: u16, to: u16, rows: u16) -> Result<Schurs, SumFault>
    requires variables { (1 ≤ rows) × (rows ≤ 64) }
    requires letters { length perm.now ≤ 16 }
    requires from { IsEnd perm.now from }
    requires order { from < to }
    requires to { IsEnd perm.now to }
    ensures sum { IfOk result (IsSumFor rows (stanley_in (between from to perm.now) rows)) }
    ensures large { IsErrOf result SumFault.Large
        → HasPast (IsCoefficientOfStanley rows (between from to perm.now)) }
    ensures limits { OnOk result (IsWithinLimits perm.now) }
{
    by_transitions(alloc, block_behind(alloc, perm, from, to, rows)?, rows)
}
