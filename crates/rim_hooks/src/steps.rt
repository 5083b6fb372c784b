//! Products computed by multiplying by one factor after another and reducing after each factor.
ghost use Rattle.std.specs.Prelude.{◌≡◌, ◌+◌, ◌*◌, ◌^◌, ◌<◌, ◌≤◌, [], ◌∷◌, nat_abs, length};
ghost use Rattle.std.specs.Prelude.{slice_get, Some, IfOk, OnOk, IsErrOf};
ghost use Rattle.fraction_laws.specs.Fractions.{whole};
ghost use Rattle.partitions.specs.FactorList.{AreFactors};
ghost use Rattle.sym_model.specs.Canonical.{is_label};
ghost use Rattle.sym_model.specs.Partition.{rows, size};
ghost use Rattle.sym_model.specs.PrintedOrder.{printed_order};
ghost use Rattle.sym_model.specs.ReductionSteps.{LeadsTo, classical_weight, step_weight};
ghost use Rattle.linear_combinations.specs.Entries.{IsCanonicalList, IsCombination};
ghost use Rattle.linear_combinations.specs.Gains.{HaveLabels, Gains, Overflows, replaced, scaled};
ghost use Rattle.rim_hooks.specs.FactorRows.{AreFew};
ghost use Rattle.reduction_laws.specs.Reductions.{products, multiplied, HaveRoom, IsHeavyFrom};
ghost use Rattle.reduction_laws.specs.Reductions.{OverflowsWithin};

use crate::reduction::Reduction;
use calc_base::SumFault;
use coeff_rings::{Int, Scalar};
use linear_combinations::{Label, Lin, Terms};
use lr_product::mult;
use partitions::{Factors, Partition};
use std::alloc::Global;

/// Adds to `sums`, for each term d·μ of `terms`, c·d times the reduced term for `label` and μ.
fn add_reductions<L: Label, R: Reduction<L>>(
    alloc: Global,
    rule: &R,
    label: &L,
    terms: &Terms<Partition, Int>,
    c: Int,
    sums: &mut Lin<L, Int>,
) -> Result<(), SumFault>
    requires rule { R.is_rule rule.now }
    requires rows { HaveLabels (λ shape. rows shape ≤ R.variables rule.now) terms.now }
    requires cells { R.cells label.now ≤ 4096 }
    requires table { IsCombination L.eq L.is_label whole sums.old }
    ensures gains { OnOk result (Gains sums.old
        (scaled c (replaced (R.reduced rule.now label.now) terms.now)) sums.new) }
    ensures table { OnOk result (IsCombination L.eq L.is_label whole sums.new) }
    ensures large { IsErrOf result SumFault.Large
        → Overflows L.eq sums.old (scaled c (replaced (R.reduced rule.now label.now) terms.now)) }
    ensures canonical { IsCanonicalList printed_order is_label whole terms.now }
{
    for (shape, d) in terms.iter() {
        rule.add_reduced(alloc, label, shape, c, *d, sums)?;
    }
    Ok(())
}

/// For each term d·μ of the classical product of `factor` and the partition of `label`, adds c·d
/// times the reduced term for `label` and μ to `sums`.
///
/// Returns `Large` only if adding `c` times the coefficients of the classical product overflows.
fn add_reduced_product<L: Label, R: Reduction<L>>(
    alloc: Global,
    rule: &R,
    label: &L,
    c: Int,
    factor: &Partition,
    sums: &mut Lin<L, Int>,
) -> Result<(), SumFault>
    requires rule { R.is_rule rule.now }
    requires cells { R.cells label.now + size factor.now ≤ 4096 }
    requires few { (rows (R.shape label.now) ≤ R.variables rule.now)
        × (rows factor.now ≤ R.variables rule.now) }
    requires nonzero { 1 ≤ nat_abs c }
    requires table { IsCombination L.eq L.is_label whole sums.old }
    ensures gains { OnOk result (Gains sums.old
        (scaled c (products (R.variables rule.now) R.shape
        (R.reduced rule.now) factor.now label.now)) sums.new) }
    ensures table { OnOk result (IsCombination L.eq L.is_label whole sums.new) }
    ensures large { IsErrOf result SumFault.Large → OverflowsWithin L.eq sums.old
        (nat_abs c * classical_weight (R.variables rule.now)
        (R.shape label.now ∷ factor.now ∷ [])) }
{
    let classical = mult(alloc, R::shape(label), factor, Some(rule.variables()))?;
    add_reductions(alloc, rule, label, &classical, c, sums)
}

/// The product of the linear combination `terms` and `factor`, with each partition of the product
/// reduced.
fn times_factor<L: Label, R: Reduction<L>>(
    alloc: Global,
    rule: &R,
    terms: &Lin<L, Int>,
    factor: &Partition,
) -> Result<Lin<L, Int>, SumFault>
    requires rule { R.is_rule rule.now }
    requires room { HaveRoom (R.variables rule.now) R.shape R.cells (size factor.now) terms.now }
    requires few { rows factor.now ≤ R.variables rule.now }
    ensures gains { IfOk result (Gains []
        (multiplied (R.variables rule.now) R.shape (R.reduced rule.now) factor.now terms.now)) }
    ensures table { IfOk result (IsCombination L.eq L.is_label whole) }
    ensures large { IsErrOf result SumFault.Large
        → 2 ^ 127 ≤ step_weight R.shape (R.variables rule.now) factor.now terms.now }
{
    let mut sums = Lin::new(alloc);
    for (label, c) in terms.iter() {
        add_reduced_product(alloc, rule, label, *c, factor, &mut sums)?;
    }
    Ok(sums)
}

/// The factor at the index `at`.
pub(crate) fn factor_at(factors: &Factors, at: usize) -> &Partition
    requires { at < length factors.now }
    ensures { slice_get factors.now at ≡ Some result.now }
{
    factors.get(at).unwrap()
}

/// The product of the factors, reduced after each factor, as a list in the order in which terms are
/// printed. Each factor must have at most as many rows as there are variables.
pub(crate) fn product_in_steps<L: Label, R: Reduction<L>>(
    alloc: Global,
    rule: &R,
    factors: &Factors,
) -> Result<Terms<L, Int>, SumFault>
    requires rule { R.is_rule rule.now }
    requires few { AreFew (R.variables rule.now) factors.now }
    ensures steps { IfOk result (LeadsTo (R.step rule.now) R.start factors.now) }
    ensures large { IsErrOf result SumFault.Large
        → IsHeavyFrom R.shape (R.step rule.now) R.start (R.variables rule.now) factors.now }
{
    let len = factors.len();
    let start = R::start(factor_at(factors, 0))?;
    let mut terms = Lin::new(alloc);
    add_reduced_product(
        alloc,
        rule,
        &start,
        Int::one(),
        factor_at(factors, 1),
        &mut terms,
    )?;
    for at in 2..len {
        let next = times_factor(alloc, rule, &terms, factor_at(factors, at))?;
        terms = next;
    }
    Ok(terms.sorted_terms()?)
}

/// The list without terms.
pub(crate) fn no_terms<L: Label>(alloc: Global) -> Result<Terms<L, Int>, SumFault>
    ensures none { IfOk result (λ terms. terms ≡ []) }
    ensures small { ¬ IsErrOf result SumFault.Large }
{
    let terms: Lin<L, Int> = Lin::new(alloc);
    Ok(terms.sorted_terms()?)
}
