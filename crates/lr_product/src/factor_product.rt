//! The product of several Schur polynomials, expanded in Schur polynomials.
ghost use Rattle.std.specs.Prelude.{◌≡◌, ℕ, false, ◌+◌, List, Option, [], ◌∷◌, ◌^◌, ◌≤◌, ◌<◌, ◌↔◌};
ghost use Rattle.std.specs.Prelude.{length, map, slice_get, Some, IsTrue, IfOk, IfSome, OnOk, IsErrOf};
ghost use Rattle.std.specs.Option.{ForSome};
ghost use Rattle.sym_model.specs.Partition.{size, rows as number_of_rows};
ghost use Rattle.sym_model.specs.Polynomial.{Same};
ghost use Rattle.sym_model.specs.Sum.{Among};
ghost use Rattle.sym_model.specs.WholeTerms.{as_fractions};
ghost use Rattle.sym_model.specs.Products.{ExpandsInSchurs, schur_product, classical_product};
ghost use Rattle.sym_model.specs.PastLimit.{HasPast, IsCoefficientOfProduct};
ghost use Rattle.product_laws.specs.CountedProducts.{IsShownIn, Reaches};
ghost use Rattle.lr_product.specs.ProductOfFactors.{AreSmallCounts};

use crate::counts::no_terms;
use crate::next_factor::times_factor;
use crate::product::counts_in;
use calc_base::SumFault;
use coeff_rings::Int;
use linear_combinations::Terms;
use partitions::{Factors, Partition};
use std::alloc::Global;

/// The product of the Schur polynomials of all factors, expanded in Schur polynomials. If `rows` is
/// `None`, the expansion holds in every number of variables; if `rows` is K, it holds in K
/// variables, and its labels have at most K rows.
///
/// Unless memory runs out, returns `Large` if and only if a coefficient exceeds 2^127 - 1.
pub fn mult_all(
    alloc: Global,
    factors: &Factors,
    rows: Option<u16>,
) -> Result<Terms<Partition, Int>, SumFault>
    requires { ForSome rows (λ k. (1 ≤ k) × (k ≤ 512)) }
    ensures meets { IfOk result (λ terms.
        ExpandsInSchurs rows (schur_product factors.now) (as_fractions terms)) }
    ensures large { IsErrOf result SumFault.Large
        → HasPast (IsCoefficientOfProduct rows factors.now) }
    ensures fits { OnOk result (HasPast (IsCoefficientOfProduct rows factors.now) → ⊥) }

    // If `rows` is k, the list has the Schur coefficients of the product in k variables
    // (`classical_product`).
    ensures classical { IfOk result (λ terms. IfSome rows (λ k.
        Same terms (classical_product k factors.now))) }
{
    let variables = rows.unwrap_or(factors.rows().max(1));
    if has_longer(factors, variables) {
        return no_terms(alloc);
    }
    product_in(alloc, factors, variables)
}

/// The factor at the index `at`.
fn factor_at(factors: &Factors, at: usize) -> &Partition
    requires { at < length factors.now }
    ensures { slice_get factors.now at ≡ Some result.now }
{
    factors.get(at).unwrap()
}

/// Whether some factor has more than `k` rows.
fn has_longer(factors: &Factors, k: u16) -> bool
    ensures { IsTrue result ↔ ((parts : List ℕ) × Among parts factors.now
        × (k < number_of_rows parts)) }
{
    for at in 0..factors.len() {
        if factor_at(factors, at).rows() > k {
            return true;
        }
    }
    false
}

/// The product of the factors in `variables` variables, expanded in Schur polynomials; each factor
/// must have at most `variables` rows.
fn product_in(
    alloc: Global,
    factors: &Factors,
    variables: u16,
) -> Result<Terms<Partition, Int>, SumFault>
    requires variables { (1 ≤ variables) × (variables ≤ 512) }
    requires rows { (parts : List ℕ) → Among parts factors.now → number_of_rows parts ≤ variables }
    ensures meets { IfOk result (λ terms. (given : Option ℕ)
        → IsShownIn given (size (map number_of_rows factors.now)) variables
        → ExpandsInSchurs given (schur_product factors.now) (as_fractions terms)) }
    ensures classical { IfOk result (λ terms.
        Same terms (classical_product variables factors.now)) }
    ensures small { OnOk result (AreSmallCounts (classical_product variables factors.now)) }
    ensures large { IsErrOf result SumFault.Large
        → Reaches variables (2 ^ 127) (classical_product variables factors.now) }
{
    let len = factors.len();
    let mut product = counts_in(
        alloc,
        factor_at(factors, 0),
        factor_at(factors, 1),
        variables,
    )?;
    for at in 2..len {
        let next = times_factor(alloc, &product, factor_at(factors, at), variables)?;
        product = next;
    }
    Ok(product)
}
