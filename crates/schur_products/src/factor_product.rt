//! The product of several Schur polynomials, expanded in Schur polynomials.
ghost use Rattle.std.specs.Prelude.{◌≡◌, ℕ, ◌+◌, ◌∷◌, ◌^◌, ◌≤◌, ◌<◌, [], length, slice_get, Some, None, IfOk};
ghost use Rattle.std.specs.Prelude.{IfSome, OnOk, IsErrOf, List};
ghost use Rattle.std.specs.Option.{ForSome};
ghost use Rattle.sym_model.specs.Partition.{IsPartition, size, rows as number_of_rows};
ghost use Rattle.sym_model.specs.Polynomial.{Same};
ghost use Rattle.sym_model.specs.WholeTerms.{as_fractions};
ghost use Rattle.sym_model.specs.GoodTableau.{product_count};
ghost use Rattle.sym_model.specs.Products.{ExpandsInSchurs, schur_product, classical_product};
ghost use Rattle.sym_model.specs.PastLimit.{HasPast, IsCoefficientOfProduct};
ghost use Rattle.lr_product.specs.Counts.{HasCounts, IsPastSomewhere};

use crate::estimate::are_rows_faster;
use calc_base::SumFault;
use coeff_rings::Int;
use lattice_rows::product;
use linear_combinations::Terms;
use partitions::{Factors, Partition};
use std::alloc::Global;

/// The product of the Schur polynomials of all factors, expanded in Schur polynomials. If `rows` is
/// `None`, the expansion holds in every number of variables; if `rows` is K, it holds in K
/// variables, and its labels have at most K rows.
///
/// Unless memory runs out, returns `Large` if and only if a coefficient exceeds 2^127 - 1.
pub fn mult_all(
    alloc: Global,
    factors: &Factors,
    rows: Option<u16>,
) -> Result<Terms<Partition, Int>, SumFault>
    requires { ForSome rows (λ k. (1 ≤ k) × (k ≤ 512)) }
    ensures meets { IfOk result (λ terms.
        ExpandsInSchurs rows (schur_product factors.now) (as_fractions terms)) }
    ensures large { IsErrOf result SumFault.Large
        → HasPast (IsCoefficientOfProduct rows factors.now) }
    ensures fits { OnOk result (HasPast (IsCoefficientOfProduct rows factors.now) → ⊥) }

    // If `rows` is k, the list has the Schur coefficients of the product in k variables
    // (`classical_product`).
    ensures classical { IfOk result (λ terms. IfSome rows (λ k.
        Same terms (classical_product k factors.now))) }
{
    match rows {
        None => mult_everywhere(alloc, factors),
        Some(_) => lr_product::mult_all(alloc, factors, rows),
    }
}

/// The product of the Schur polynomials of all factors in every number of variables, as in
/// `mult_all`.
fn mult_everywhere(alloc: Global, factors: &Factors) -> Result<Terms<Partition, Int>, SumFault>
    ensures meets { IfOk result (λ terms.
        ExpandsInSchurs None (schur_product factors.now) (as_fractions terms)) }
    ensures large { IsErrOf result SumFault.Large
        → HasPast (IsCoefficientOfProduct None factors.now) }
    ensures fits { OnOk result (HasPast (IsCoefficientOfProduct None factors.now) → ⊥) }
{
    if factors.len() == 2 {
        if let Some(terms) = by_rows(alloc, factor_at(factors, 0), factor_at(factors, 1))? {
            return Ok(terms);
        }
    }
    lr_product::mult_all(alloc, factors, None)
}

/// The factor at the index `at`.
pub(crate) fn factor_at(factors: &Factors, at: usize) -> &Partition
    requires { at < length factors.now }
    ensures { slice_get factors.now at ≡ Some result.now }
{
    factors.get(at).unwrap()
}

/// The product of the Schur polynomials of `left` and `right` by the rows of its labels, expanded in
/// Schur polynomials, in every number of variables. The product does not change if the factors are
/// exchanged; the one with fewer parts is taken as the content. `None` if columns are expected to be
/// faster, or if the rule by rows does not apply.
///
/// Returns `Large` only if a coefficient exceeds 2^127 - 1.
fn by_rows(
    alloc: Global,
    left: &Partition,
    right: &Partition,
) -> Result<Option<Terms<Partition, Int>>, SumFault>
    requires sizes { size left.now + size right.now ≤ 4096 }
    requires lengths { number_of_rows left.now + number_of_rows right.now ≤ 512 }
    ensures counts { IfOk result (λ o. IfSome o (HasCounts
        (number_of_rows left.now + number_of_rows right.now)
        (product_count (number_of_rows left.now + number_of_rows right.now)
        left.now right.now))) }
    ensures fits { IfOk result (λ o. IfSome o (λ terms. (parts : List ℕ) → IsPartition parts
        → number_of_rows parts ≤ number_of_rows left.now + number_of_rows right.now
        → product_count (number_of_rows left.now + number_of_rows right.now)
        left.now right.now parts < 2 ^ 127)) }
    ensures large { IsErrOf result SumFault.Large
        → IsPastSomewhere (number_of_rows left.now + number_of_rows right.now)
        (product_count (number_of_rows left.now + number_of_rows right.now)
        left.now right.now) }
{
    if left.rows() < right.rows() {
        return with_content(alloc, right, left);
    }
    with_content(alloc, left, right)
}

/// The product of the Schur polynomials of `inner` and `content` by the rows of its labels, as in
/// `by_rows`.
fn with_content(
    alloc: Global,
    inner: &Partition,
    content: &Partition,
) -> Result<Option<Terms<Partition, Int>>, SumFault>
    requires sizes { size inner.now + size content.now ≤ 4096 }
    requires lengths { number_of_rows inner.now + number_of_rows content.now ≤ 512 }
    ensures counts { IfOk result (λ o. IfSome o (HasCounts
        (number_of_rows inner.now + number_of_rows content.now)
        (product_count (number_of_rows inner.now + number_of_rows content.now)
        inner.now content.now))) }
    ensures fits { IfOk result (λ o. IfSome o (λ terms. (parts : List ℕ) → IsPartition parts
        → number_of_rows parts ≤ number_of_rows inner.now + number_of_rows content.now
        → product_count (number_of_rows inner.now + number_of_rows content.now)
        inner.now content.now parts < 2 ^ 127)) }
    ensures large { IsErrOf result SumFault.Large
        → IsPastSomewhere (number_of_rows inner.now + number_of_rows content.now)
        (product_count (number_of_rows inner.now + number_of_rows content.now)
        inner.now content.now) }
{
    if !are_rows_faster(inner, content) {
        return Ok(None);
    }
    product(alloc, inner, content)
}
