//! Functions that add the terms of a product c·s_λ·h_k, c·s_λ·e_k or c·s_λ·p_k to a table.
ghost use Rattle.std.specs.Prelude.{◌-◌, ◌^◌, ◌≤◌, ℕ, nat_eq, pos, List, IfOk, IfErr, OnOk, IsErrOf};
ghost use Rattle.std.specs.Cmp.Lexicographic.{pointwise};
ghost use Rattle.sym_model.specs.Canonical.{is_label};
ghost use Rattle.sym_model.specs.Partition.{IsPartition};
ghost use Rattle.sym_model.specs.PlaceOrders.{minus_one_to};
ghost use Rattle.sym_model.specs.Strip.{height};
ghost use Rattle.sym_model.specs.Sum.{Among};
ghost use Rattle.fraction_laws.specs.Fractions.{InLowestTerms};
ghost use Rattle.fraction_laws.specs.Room.{magnitude};
ghost use Rattle.partitions.specs.Limits.{IsWithinLimits};
ghost use Rattle.sparse_polys.specs.Combination.{terms_of};
ghost use Rattle.linear_combinations.specs.Cleared.{IsDenominator, GainsMultiple};
ghost use Rattle.linear_combinations.specs.Cleared.{OverflowsMultiple};
ghost use Rattle.strip_rules.specs.Adding.{IsSigned};
ghost use Rattle.linear_combinations.specs.Gains.{each_by};

use calc_base::{Large, Lister, SumFault};
use coeff_rings::Ring;
use linear_combinations::Lin;
use partitions::Partition;
use skew_shapes::HooksAdded;
use std::alloc::Global;

/// Adds c to the coefficient in `sum` of each of `shapes`.
pub(crate) fn add_shapes<R: Ring>(
    sum: &mut Lin<Partition, R>,
    shapes: Vec<Partition>,
    c: R,
) -> Result<(), SumFault>
    requires lowest { InLowestTerms (R.value c) }
    requires partitions { (ν : List ℕ) → Among ν shapes.items → IsPartition ν }
    ensures ok { OnOk result (GainsMultiple (pointwise nat_eq) is_label (R.value c)
        (each_by (λ ν. pos 1) shapes.items)
        (terms_of R.value sum.old) (terms_of R.value sum.new)) }
    ensures large { IsErrOf result SumFault.Large
        → OverflowsMultiple (pointwise nat_eq) (R.value c) (each_by (λ ν. pos 1) shapes.items)
        (terms_of R.value sum.old) }
{
    for shape in shapes {
        sum.add_term(shape, c)?;
    }
    Ok(())
}

/// The coefficient c times the sign (-1)^(height - 1) of a rim hook of the given height.
fn signed<R: Ring>(c: R, height: u16) -> Result<R, Large>
    requires height { 1 ≤ height }
    requires lowest { InLowestTerms (R.value c) }
    ensures value { IfOk result (λ d.
        IsSigned (R.value c) (minus_one_to (height - 1)) (R.value d)) }
    ensures lowest { IfOk result (λ d. InLowestTerms (R.value d)) }
    ensures large { IfErr result (λ _. (q : ℕ) → IsDenominator q (R.value c)
        → 2 ^ 127 ≤ magnitude q (R.value c)) }
{
    if height % 2 == 1 {
        return Ok(c);
    }
    let Some(negated) = c.neg() else {
        return Err(Large);
    };
    Ok(negated)
}

/// For each partition that the iterator `hooks` has not returned yet, adds c, times the sign of the
/// rim hook that was added, to the coefficient of this partition in `sum`.
pub(crate) fn add_signed_shapes<R: Ring>(
    alloc: Global,
    sum: &mut Lin<Partition, R>,
    hooks: &mut HooksAdded,
    c: R,
) -> Result<(), SumFault>
    requires lowest { InLowestTerms (R.value c) }
    requires limits { (ν : List ℕ) → Among ν hooks.old.rest → IsWithinLimits ν }
    requires heights { (ν : List ℕ) → Among ν hooks.old.rest → 1 ≤ height ν hooks.old.base }
    ensures ok { OnOk result (GainsMultiple (pointwise nat_eq) is_label (R.value c)
        (each_by (λ ν. minus_one_to (height ν hooks.old.base - 1)) hooks.old.rest)
        (terms_of R.value sum.old) (terms_of R.value sum.new)) }
    ensures large { IsErrOf result SumFault.Large
        → OverflowsMultiple (pointwise nat_eq) (R.value c) (each_by
        (λ ν. minus_one_to (height ν hooks.old.base - 1)) hooks.old.rest)
        (terms_of R.value sum.old) }
{
    while hooks.advance() {
        let shape = Partition::from_valid_parts(alloc, hooks.current())?;
        sum.add_term(shape, signed(c, hooks.height())?)?;
    }
    Ok(())
}
