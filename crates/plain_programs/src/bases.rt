//! Slow programs that follow the definitions, for the bases m, e, h and p in few variables.
//!
//! Each returns the polynomial, a formal sum in which all coefficients are 1, as a list of the
//! exponent lists of its monomials, one for each term. A monomial that the sum has twice is listed
//! twice.

ghost use Rattle.std.specs.Prelude.{◌≡◌, ◌+◌, ◌^◌, ◌<◌, ◌++◌, ℕ, List, map, IfOk, OnOk, flat_map};
ghost use Rattle.plain_programs.specs.PlainLists.{lists, sum_of, CanMultiply, keeps};
ghost use Rattle.plain_programs.specs.PlainLists.{part_polynomial, product_polynomial};
ghost use Rattle.sym_model.specs.Sum.{Among};
ghost use Rattle.sym_model.specs.Polynomial.{same, join, one};
ghost use Rattle.sym_model.specs.Partition.{size, sorted_parts};
ghost use Rattle.sym_model.specs.Bases.{at_most_one, has, monomial};

use crate::exponent_lists::{plain_exponent_lists, plain_join, plain_sorted_parts};
use crate::printed_order::plain_size;
use std::alloc::{AllocError, Global};

/// The bases in which the polynomial of a partition is the product of the polynomials of its parts.
#[derive(Clone, Copy)]
pub enum PlainBasis {
    /// Elementary symmetric polynomials.
    Elementary,
    /// Complete homogeneous symmetric polynomials.
    Complete,
    /// Power sums.
    PowerSum,
}

/// The monomial symmetric polynomial m of the parts in `n` variables. The sum of the parts is below
/// 2^64. Fails only if memory runs out.
pub fn plain_monomial(alloc: Global, parts: &[u64], n: usize) -> Result<Vec<Vec<u64>>, AllocError>
    requires { size parts.now < 2 ^ 64 }
    ensures { IfOk result (λ all. sum_of (lists all) ≡ monomial parts.now n) }
{
    let mut kept = Vec::new(alloc);
    for exponents in plain_exponent_lists(alloc, n, plain_size(parts))? {
        if sorts_to(alloc, &exponents, parts)? {
            kept.push(exponents)?;
        }
    }
    Ok(kept)
}

pub(crate) fn sorts_to(alloc: Global, exponents: &[u64], parts: &[u64]) -> Result<bool, AllocError>
    ensures { IfOk result (λ sorts. sorts ≡ same (sorted_parts exponents.now) parts.now) }
{
    let sorted = plain_sorted_parts(alloc, exponents)?;
    Ok(sorted.as_slice() == parts)
}

/// The polynomial e_λ, h_λ or p_λ in `n` variables, for the partition λ with the given parts: the
/// product of the polynomials of its parts. `basis` says which of the three it is. The sum of the
/// parts is below 2^64. Fails only if memory runs out.
pub fn plain_product(
    alloc: Global,
    basis: PlainBasis,
    parts: &[u64],
    n: usize,
) -> Result<Vec<Vec<u64>>, AllocError>
    requires { size parts.now < 2 ^ 64 }
    ensures { IfOk result (λ all. sum_of (lists all) ≡ product_polynomial basis parts.now n) }
{
    let [first, rest @ ..] = parts else {
        return one(alloc, n);
    };
    let front = plain_part_polynomial(alloc, basis, *first, n)?;
    let back = plain_product(alloc, basis, rest, n)?;
    times(alloc, &front, &back)
}

/// The polynomial e_k, h_k or p_k in `n` variables, for the part k = `part`. `basis` says which of
/// the three it is. Fails only if memory runs out.
pub fn plain_part_polynomial(
    alloc: Global,
    basis: PlainBasis,
    part: u64,
    n: usize,
) -> Result<Vec<Vec<u64>>, AllocError>
    ensures { IfOk result (λ all. sum_of (lists all) ≡ part_polynomial basis part n) }
{
    let mut kept = Vec::new(alloc);
    for exponents in plain_exponent_lists(alloc, n, part)? {
        if is_kept(basis, part, &exponents) {
            kept.push(exponents)?;
        }
    }
    Ok(kept)
}

fn is_kept(basis: PlainBasis, part: u64, exponents: &[u64]) -> bool
    ensures { result ≡ keeps basis part exponents.now }
{
    match basis {
        PlainBasis::Elementary => is_at_most_one(exponents),
        PlainBasis::Complete => true,
        PlainBasis::PowerSum => has_exponent(part, exponents),
    }
}

fn is_at_most_one(exponents: &[u64]) -> bool
    ensures { result ≡ at_most_one exponents.now }
{
    for exponent in exponents {
        if *exponent > 1 {
            return false;
        }
    }
    true
}

fn has_exponent(wanted: u64, exponents: &[u64]) -> bool
    ensures { result ≡ has wanted exponents.now }
{
    for exponent in exponents {
        if *exponent == wanted {
            return true;
        }
    }
    false
}

fn one(alloc: Global, n: usize) -> Result<Vec<Vec<u64>>, AllocError>
    ensures { IfOk result (λ all. sum_of (lists all) ≡ one n) }
{
    let mut all = Vec::new(alloc);
    all.push(vec![in alloc; 0; n]?)?;
    Ok(all)
}

/// The products of each monomial of `first` and each monomial of `second`. The exponents of the
/// products must fit 64 bits. Fails only if memory runs out.
fn times(
    alloc: Global,
    first: &[Vec<u64>],
    second: &[Vec<u64>],
) -> Result<Vec<Vec<u64>>, AllocError>
    requires { CanMultiply (map (λ α. α.items) first.now) (map (λ β. β.items) second.now) }
    ensures { IfOk result
        (λ all.
        lists all
        ≡ flat_map (λ α. map (λ β. join α β) (map (λ β. β.items) second.now))
        (map (λ α. α.items) first.now)) }
{
    let mut all = Vec::new(alloc);
    for exponents in first {
        append_products(alloc, &mut all, exponents, second)?;
    }
    Ok(all)
}

fn append_products(
    alloc: Global,
    all: &mut Vec<Vec<u64>>,
    first: &[u64],
    second: &[Vec<u64>],
) -> Result<(), AllocError>
    requires { (β : List ℕ) → Among β (map (λ β. β.items) second.now)
        → size first.now + size β < 2 ^ 64 }
    ensures { OnOk result
        (lists all.new
        ≡ lists all.old ++ map (λ β. join first.now β) (map (λ β. β.items) second.now)) }
{
    for exponents in second {
        all.push(plain_join(alloc, first, exponents)?)?;
    }
    Ok(())
}
