//! Products of polynomials.
ghost use Rattle.std.specs.Prelude.{◌≡◌, ℕ, ◌*◌, ◌^◌, ◌<◌, ◌≤◌, ◌*ℤ◌, pos, nat_eq, List, [], ◌∷◌};
ghost use Rattle.std.specs.Prelude.{IfOk, OnOk, IsErrOf};
ghost use Rattle.std.specs.Cmp.Lexicographic.{pointwise};
ghost use Rattle.sym_model.specs.DividedDifference.{variable_in, x_to_in};
ghost use Rattle.sym_model.specs.Expansion.{Fraction, Represents, denominators};
ghost use Rattle.sym_model.specs.LabelLimits.{is_monomial_label};
ghost use Rattle.sym_model.specs.ListWeight.{list_weight};
ghost use Rattle.sym_model.specs.Polynomial.{join, times};
ghost use Rattle.sym_model.specs.Sum.{Among};
ghost use Rattle.monomial_laws.specs.ExpressionTerms.{over};
ghost use Rattle.fraction_laws.specs.Fractions.{scaled, whole};
ghost use Rattle.sparse_polys.specs.Combination.{terms_of, HasMoreAt, IsPolynomialTable};
ghost use Rattle.sparse_polys.specs.Limits.{IsWithinLimits};
ghost use Rattle.sparse_polys.specs.Products.{value_in, coefficient_at, FitTogether, HaveRoomForVariable};
ghost use Rattle.sparse_polys.specs.Products.{IsProductOf};
ghost use Rattle.linear_combinations.specs.Cleared.{AreCleared, IsCommonDenominator, IsDenominator};
ghost use Rattle.linear_combinations.specs.Cleared.{GainsCleared, OverflowsCleared};

use crate::poly::Poly;
use crate::{Lin, Monomial};
use calc_base::{NoMemory, SumFault};
use coeff_rings::Ring;
use std::alloc::Global;

/// Adds to `sum` the product of the terms a·x^`left` and b·x^`right`.
fn add_product<R: Ring>(
    sum: &mut Poly<R>,
    left: &Monomial,
    a: R,
    right: &Monomial,
    b: R,
) -> Result<(), SumFault>
    requires { IsWithinLimits (join left.now right.now) }
    ensures ok { OnOk result ((d e : ℕ) → IsDenominator d (R.value a) × IsDenominator e (R.value b)
        → AreCleared (pointwise nat_eq) (d * e) (terms_of R.value sum.old)
        → GainsCleared (pointwise nat_eq) is_monomial_label (d * e) (terms_of R.value sum.old)
        ((join left.now right.now, scaled d (R.value a) *ℤ scaled e (R.value b)) ∷ [])
        (terms_of R.value sum.new)) }
    ensures large { IsErrOf result SumFault.Large → (d e : ℕ)
        → IsDenominator d (R.value a) × IsDenominator e (R.value b)
        → d * e < 2 ^ 127 → AreCleared (pointwise nat_eq) (d * e) (terms_of R.value sum.old)
        → OverflowsCleared (pointwise nat_eq) (d * e) (terms_of R.value sum.old)
        ((join left.now right.now, scaled d (R.value a) *ℤ scaled e (R.value b)) ∷ []) }
{
    let Some(c) = a.mul(b) else {
        return Err(SumFault::Large);
    };
    sum.add_term(left.times(right)?, c)
}

/// Adds to `sum` the product of the term a·x^`left` and the polynomial `right`.
fn add_row<R: Ring>(
    sum: &mut Poly<R>,
    left: &Monomial,
    a: R,
    right: &Poly<R>,
) -> Result<(), SumFault>
    requires { (t : List ℕ × Fraction) → Among t (terms_of R.value right.now)
        → IsWithinLimits (join left.now t.0) }
    ensures ok { OnOk result ((d e : ℕ) → IsDenominator d (R.value a)
        → IsCommonDenominator e (terms_of R.value right.now)
        → AreCleared (pointwise nat_eq) (d * e) (terms_of R.value sum.old)
        → GainsCleared (pointwise nat_eq) is_monomial_label (d * e) (terms_of R.value sum.old)
        (times ((left.now, scaled d (R.value a)) ∷ []) (over e (terms_of R.value right.now)))
        (terms_of R.value sum.new)) }
    ensures large { IsErrOf result SumFault.Large → (d e : ℕ) → IsDenominator d (R.value a)
        → IsCommonDenominator e (terms_of R.value right.now)
        → d * e < 2 ^ 127 → AreCleared (pointwise nat_eq) (d * e) (terms_of R.value sum.old)
        → OverflowsCleared (pointwise nat_eq) (d * e) (terms_of R.value sum.old)
        (times ((left.now, scaled d (R.value a)) ∷ []) (over e (terms_of R.value right.now))) }
{
    for (monomial, b) in right.iter() {
        add_product(sum, left, a, monomial, *b)?;
    }
    Ok(())
}

/// The product of two polynomials, which are given as lists of terms. Each product of a monomial of
/// `left` and a monomial of `right` must have a degree of at most 32,385.
///
/// Returns `Large` only if the weights of the two lists have a product of 2^127 or more. The weight
/// of a list is max(1, D·A)·D, with D its least common denominator and A the sum of the absolute
/// values of its coefficients.
pub fn times<R: Ring>(alloc: Global, left: &Poly<R>, right: &Poly<R>) -> Result<Poly<R>, SumFault>
    requires { FitTogether (terms_of R.value left.now) (terms_of R.value right.now) }
    ensures value { IfOk result (λ product. IsProductOf (terms_of R.value left.now)
        (terms_of R.value right.now) (terms_of R.value product)) }
    ensures large { IsErrOf result SumFault.Large
        → 2 ^ 127
        ≤ list_weight (terms_of R.value left.now) * list_weight (terms_of R.value right.now) }
{
    if right.len() == 0 {
        return Ok(Lin::new(alloc));
    }
    let mut sum = Lin::new(alloc);
    for (monomial, a) in left.iter() {
        add_row(&mut sum, monomial, *a, right)?;
    }
    Ok(sum)
}

/// The product of the polynomial `list` and the variable x_r, in every number of variables. The
/// index r is from 1 to 255, and each monomial of `list` times x_r must have a degree of at most
/// 32,385. Fails only if out of memory, since no coefficient changes.
pub fn times_var<R: Ring>(alloc: Global, list: Poly<R>, r: u16) -> Result<Poly<R>, NoMemory>
    requires first { 1 ≤ r }
    requires last { r ≤ 255 }
    requires room { HaveRoomForVariable r (terms_of R.value list) }
    ensures { IfOk result (λ product. (n : ℕ) → Represents (λ e. x_to_in e n)
        (terms_of R.value product) (times (variable_in r n) (value_in (terms_of R.value list) n))
        (denominators (terms_of R.value list))) }
{
    let mut product = Lin::new(alloc);
    for (monomial, c) in list.iter() {
        add_new(&mut product, monomial.times_var(r)?, *c)?;
    }
    Ok(product)
}

/// Adds the term c·x^`monomial` to `sum`, in which the coefficient of this monomial must be 0. The
/// only error is that memory runs out, since every ring can compute 0 + c.
fn add_new<R: Ring>(sum: &mut Poly<R>, monomial: Monomial, c: R) -> Result<(), NoMemory>
    requires { coefficient_at (terms_of R.value sum.old) monomial ≡ whole (pos 0) }
    ensures more { OnOk result (HasMoreAt (pointwise nat_eq) (terms_of R.value sum.old) monomial
        (R.value c) (terms_of R.value sum.new)) }
    ensures was { IsPolynomialTable (terms_of R.value sum.old) }
    ensures combination { IsPolynomialTable (terms_of R.value sum.new) }
{
    match sum.add_term(monomial, c) {
        Ok(()) => Ok(()),
        Err(SumFault::NoMemory) => Err(NoMemory),
        Err(SumFault::Large) => unreachable!(),
    }
}
