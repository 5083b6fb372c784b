//! Products of expansions in the monomial symmetric polynomials m_λ.
ghost use Rattle.std.specs.Prelude.{◌≡◌, ℕ, ◌+◌, ◌*◌, ◌^◌, ◌<◌, ◌≤◌, ◌≤ℤ◌, ◌*ℤ◌, ℤ, pos, None};
ghost use Rattle.std.specs.Prelude.{List, [], ◌∷◌, IfOk, IfSome, OnOk, IsErrOf};
ghost use Rattle.std.specs.Int.{◌∣◌};
ghost use Rattle.std.specs.Prelude.{nat_eq};
ghost use Rattle.std.specs.Cmp.Lexicographic.{pointwise};
ghost use Rattle.sym_model.specs.Polynomial.{coefficient};
ghost use Rattle.sym_model.specs.Canonical.{is_label};
ghost use Rattle.linear_combinations.specs.Entries.{IsCombination};
ghost use Rattle.sparse_polys.specs.Combination.{terms_of};
ghost use Rattle.sym_model.specs.Partition.{IsPartition, size};
ghost use Rattle.fraction_laws.specs.Fractions.{scaled, whole};
ghost use Rattle.fraction_laws.specs.Room.{magnitude};
ghost use Rattle.partitions.specs.Limits.{IsWithinLimits};
ghost use Rattle.monomial_laws.specs.MonomialProduct.{product_coefficient};
ghost use Rattle.monomial_laws.specs.ExpressionTerms.{over, absolute};
ghost use Rattle.linear_combinations.specs.Gains.{replaced, scaled as multiple};
ghost use Rattle.sparse_polys.specs.MonomialProducts.{greatest_size, product_terms, products};
ghost use Rattle.sparse_polys.specs.MonomialProducts.{AreSums, IsProductInMonomials, IsTooLarge};
ghost use Rattle.linear_combinations.specs.Cleared.{IsDenominator, IsCommonDenominator};
ghost use Rattle.linear_combinations.specs.Cleared.{AreCleared, GainsCleared, OverflowsCleared};

use crate::Lin;
use crate::counts::exact_product;
use crate::search::Counted;
use calc_base::SumFault;
use coeff_rings::{Int, Ring};
use partitions::Partition;
use std::alloc::Global;

/// The product `left`·`right`·`count` of two scalars and a number below 2^127, or `None` if the
/// ring cannot represent it, or cannot represent `left`·`right`.
fn times_count<R: Ring>(left: R, right: R, count: u128) -> Option<R>
    requires { count < 2 ^ 127 }
    ensures value { IfSome result
        (λ c. (d e : ℕ) → IsDenominator d (R.value left) × IsDenominator e (R.value right)
        → ((R.value c).1 ∣ (d * e))
        × (scaled (d * e) (R.value c)
        ≡ scaled d (R.value left) *ℤ scaled e (R.value right) *ℤ pos count)) }
    ensures none { result ≡ None → (d e : ℕ) → IsDenominator d (R.value left) × IsDenominator e
        (R.value right)
        → d * e < 2 ^ 127
        → 0 < count → 2 ^ 127 ≤ magnitude d (R.value left) * magnitude e (R.value right) * count }
    ensures held { IfSome result R.is_held }
{
    let product = left.mul(right)?;
    product.mul(R::from_whole(count as i128))
}

/// Adds `left`·`right`·c to the coefficient of ν in `sum`, for the entry `term` with the partition
/// ν and the count c.
fn add_count<R: Ring>(
    alloc: Global,
    term: &Counted,
    left: R,
    right: R,
    sum: &mut Lin<Partition, R>,
) -> Result<(), SumFault>
    requires limits { IsWithinLimits term.now.parts.items }
    requires small { term.now.count < 2 ^ 127 }
    ensures ok { OnOk result ((d e : ℕ) → IsDenominator d (R.value left) × IsDenominator e
        (R.value right)
        → AreCleared (pointwise nat_eq) (d * e) (terms_of R.value sum.old)
        → GainsCleared (pointwise nat_eq) is_label (d * e) (terms_of R.value sum.old) ((
          term.now.parts.items,
          scaled d (R.value left)
              *ℤ scaled e (R.value right) *ℤ pos term.now.count,
        ) ∷ []) (terms_of R.value sum.new)) }
    ensures large { IsErrOf result SumFault.Large → (d e : ℕ)
        → IsDenominator d (R.value left) × IsDenominator e (R.value right)
        → d * e < 2 ^ 127 → AreCleared (pointwise nat_eq) (d * e) (terms_of R.value sum.old)
        → OverflowsCleared (pointwise nat_eq) (d * e) (terms_of R.value sum.old) ((
          term.now.parts.items,
          scaled d (R.value left)
              *ℤ scaled e (R.value right) *ℤ pos term.now.count,
        ) ∷ []) }
{
    if term.count == 0 {
        return Ok(());
    }
    let Some(product) = times_count(left, right, term.count) else {
        return Err(SumFault::Large);
    };
    let label = Partition::from_valid_parts(alloc, term.parts.as_slice())?;
    sum.add_term(label, product)
}

/// Adds to `sum` the product of the terms `left`·m_`label` and `right`·m_`other`.
fn add_pair<R: Ring>(
    alloc: Global,
    label: &Partition,
    other: &Partition,
    left: R,
    right: R,
    sum: &mut Lin<Partition, R>,
) -> Result<(), SumFault>
    requires sizes { size label.now + size other.now ≤ 512 }
    ensures ok { OnOk result ((d e : ℕ) → IsDenominator d (R.value left) × IsDenominator e
        (R.value right)
        → AreCleared (pointwise nat_eq) (d * e) (terms_of R.value sum.old)
        → GainsCleared (pointwise nat_eq) is_label (d * e) (terms_of R.value sum.old)
        (multiple (scaled d (R.value left) *ℤ scaled e (R.value right))
        (product_terms label.now other.now)) (terms_of R.value sum.new)) }
    ensures large { IsErrOf result SumFault.Large → (d e : ℕ)
        → IsDenominator d (R.value left) × IsDenominator e (R.value right)
        → d * e < 2 ^ 127 → 0 < magnitude d (R.value left) → 0 < magnitude e (R.value right)
        → AreCleared (pointwise nat_eq) (d * e) (terms_of R.value sum.old)
        → OverflowsCleared (pointwise nat_eq) (d * e) (terms_of R.value sum.old)
        (multiple (scaled d (R.value left) *ℤ scaled e (R.value right))
        (product_terms label.now other.now)) }
{
    let terms = exact_product(alloc, label.parts(), other.parts())?;
    let entries = terms.as_slice();
    for term in entries {
        add_count(alloc, term, left, right, sum)?;
    }
    Ok(())
}

/// Adds to `sum` the product of the term `left`·m_`label` and the expansion `right`.
fn add_row<R: Ring>(
    alloc: Global,
    label: &Partition,
    left: R,
    right: &Lin<Partition, R>,
    sum: &mut Lin<Partition, R>,
) -> Result<(), SumFault>
    requires sizes { size label.now + greatest_size right.now ≤ 512 }
    ensures ok { OnOk result ((d e : ℕ) → IsDenominator d (R.value left)
        → IsCommonDenominator e (terms_of R.value right.now)
        → AreCleared (pointwise nat_eq) (d * e) (terms_of R.value sum.old)
        → GainsCleared (pointwise nat_eq) is_label (d * e) (terms_of R.value sum.old)
        (multiple (scaled d (R.value left))
        (replaced (product_terms label.now) (over e (terms_of R.value right.now))))
        (terms_of R.value sum.new)) }
    ensures large { IsErrOf result SumFault.Large → (d e : ℕ) → IsDenominator d (R.value left)
        → IsCommonDenominator e (terms_of R.value right.now)
        → d * e < 2 ^ 127 → 0 < magnitude d (R.value left)
        → AreCleared (pointwise nat_eq) (d * e) (terms_of R.value sum.old)
        → OverflowsCleared (pointwise nat_eq) (d * e) (terms_of R.value sum.old)
        (multiple (scaled d (R.value left))
        (replaced (product_terms label.now) (over e (terms_of R.value right.now)))) }
{
    for (other, c) in right.iter() {
        add_pair(alloc, label, other, left, *c, sum)?;
    }
    Ok(())
}

/// The product of two expansions in m. The contract gives d·e times its coefficients, for any
/// common denominators d of `left` and e of `right`.
fn cleared_product<R: Ring>(
    alloc: Global,
    left: &Lin<Partition, R>,
    right: &Lin<Partition, R>,
) -> Result<Lin<Partition, R>, SumFault>
    requires sizes { greatest_size left.now + greatest_size right.now ≤ 512 }
    ensures cleared { IfOk result (λ product. (d e : ℕ)
        → IsCommonDenominator d (terms_of R.value left.now)
        → IsCommonDenominator e (terms_of R.value right.now)
        → GainsCleared (pointwise nat_eq) is_label (d * e) []
        (products (over d (terms_of R.value left.now))
        (over e (terms_of R.value right.now))) (terms_of R.value product)) }
    ensures large { IsErrOf result SumFault.Large → (d e : ℕ)
        → IsCommonDenominator d (terms_of R.value left.now)
        → IsCommonDenominator e (terms_of R.value right.now)
        → d * e < 2 ^ 127 → (ν : List ℕ) × IsPartition ν × (pos (2 ^ 127) ≤ℤ product_coefficient
        (absolute (over d (terms_of R.value left.now)))
        (absolute (over e (terms_of R.value right.now))) ν) }
    ensures table { IsCombination (pointwise nat_eq) is_label R.value left.now }
{
    let mut sum = Lin::new(alloc);
    for (label, c) in left.iter() {
        add_row(alloc, label, *c, right, &mut sum)?;
    }
    Ok(sum)
}

/// The product of two expansions in m, in every number of variables. The greatest sizes of their
/// labels must add up to at most 512.
///
/// Let q be the product of the least common denominators of both lists, and replace all
/// coefficients of both lists by their absolute values. Returns `Large` only if q is 2^127 or more,
/// or if the product of the two resulting lists has a coefficient c such that q·c is 2^127 or more.
pub fn times_in_m<R: Ring>(
    alloc: Global,
    left: &Lin<Partition, R>,
    right: &Lin<Partition, R>,
) -> Result<Lin<Partition, R>, SumFault>
    requires sizes { greatest_size left.now + greatest_size right.now ≤ 512 }
    ensures value { IfOk result (λ product. IsProductInMonomials (terms_of R.value left.now)
        (terms_of R.value right.now) (terms_of R.value product)) }
    ensures labels { IfOk result (AreSums left.now right.now) }
    ensures large { IsErrOf result SumFault.Large → IsTooLarge (terms_of R.value left.now)
        (terms_of R.value right.now) }
{
    if right.len() == 0 {
        return Ok(Lin::new(alloc));
    }
    cleared_product(alloc, left, right)
}

/// The product of two expansions in m with integer coefficients. The greatest sizes of their labels
/// must add up to at most 512.
///
/// Replace all coefficients of both lists by their absolute values. Returns `Large` only if some
/// coefficient of the product of the two resulting lists is 2^127 or more.
pub fn times_whole_in_m(
    alloc: Global,
    left: &Lin<Partition, Int>,
    right: &Lin<Partition, Int>,
) -> Result<Lin<Partition, Int>, SumFault>
    requires sizes { greatest_size left.now + greatest_size right.now ≤ 512 }
    ensures coefficients { IfOk result (λ product. (ν : List ℕ) → IsPartition ν
        → coefficient product ν ≡ product_coefficient left.now right.now ν) }
    ensures labels { IfOk result (AreSums left.now right.now) }
    ensures table { IfOk result (IsCombination (pointwise nat_eq) is_label whole) }
    ensures large { IsErrOf result SumFault.Large → (ν : List ℕ) × IsPartition ν
        × (pos (2 ^ 127) ≤ℤ product_coefficient (absolute left.now) (absolute right.now) ν) }
{
    cleared_product(alloc, left, right)
}
