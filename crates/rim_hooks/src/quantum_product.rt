//! Quantum products of several Schur functions.
ghost use Rattle.std.specs.Prelude.{◌≡◌, ℕ, ◌+◌, ◌<◌, ◌≤◌, List, length, IfOk, IfSome, IsErrOf};
ghost use Rattle.sym_model.specs.Reductions.{AreReductions, Reduction as TermReduction, reduced_terms};
ghost use Rattle.sym_model.specs.Products.{classical_product};
ghost use Rattle.sym_model.specs.ReductionSteps.{IsReducedInSteps};
ghost use Rattle.sym_model.specs.WholeTerms.{as_fractions};
ghost use Rattle.sym_model.specs.PastLimit.{HasHeavy};
ghost use Rattle.sym_model.specs.ReductionSteps.{IsQuantumWeight};
ghost use Rattle.sym_model.specs.Reductions.{IsRimHookReduction};
ghost use Rattle.partitions.specs.FactorList.{AreFactors};
ghost use Rattle.rotation_laws.specs.Rotation.{AreTurned};
ghost use Rattle.rim_hooks.specs.AnyOrder.{HaveSameSums};
ghost use Rattle.rim_hooks.specs.FactorRows.{AreFew};

use crate::collecting::add_signed;
use crate::core_of;
use crate::long_factors::has_long;
use crate::reduction::Reduction;
use crate::rotated_factors::{Bases, bases_of};
use crate::rotated_labels::rotated_terms;
use crate::steps::{no_terms, product_in_steps};
use calc_base::{NoMemory, SumFault};
use coeff_rings::{Int, Ring};
use linear_combinations::{Lin, Terms};
use partitions::{Factors, FactorsFault, Partition};
use sparse_polys::Power;
use std::alloc::Global;

/// The `Reduction` that removes rim hooks of `n` cells from partitions with at most `k` rows.
#[derive(Drop)]
struct RimHooks {
    k: u16,
    n: u16,
}

impl Reduction<Power> for RimHooks {
    ghost use Rattle.std.specs.Prelude.{◌+◌, ◌<◌, ◌≤◌};
    ghost use Rattle.sym_model.specs.Partition.{size};
    ghost use Rattle.sym_model.specs.ReductionSteps.{shape_of, IsQuantumStep};
    ghost use Rattle.reduction_laws.specs.ReducedLists.{reduced_power};
    ghost use Rattle.reduction_laws.proofs.QuantumLaws.{rule_bounds, start_power, power_within};
    ghost use Rattle.reduction_laws.proofs.QuantumLaws.{power_light, power_room, power_made, power_other};

    ghost is_rule = { λ rule. (1 ≤ rule.k) × (rule.k ≤ 64) × (rule.k < rule.n) × (rule.n ≤ 512) };

    ghost variables = { λ rule. rule.k };

    ghost shape = { shape_of };

    ghost cells = { λ label. label.0 + size label.1 };

    ghost start = { λ first. (0, first) };

    ghost reduced = { λ rule. reduced_power rule.k rule.n };

    ghost step = { λ rule. IsQuantumStep rule.k rule.n };

    fn variables(&self) -> u16 {
        self.k
    }

    fn shape(label: &Power) -> &Partition {
        &label.shape
    }

    fn start(first: &Partition) -> Result<Power, NoMemory> {
        Ok(Power {
            power: 0,
            shape: first.copy()?,
        })
    }

    fn add_reduced(
        &self,
        alloc: Global,
        label: &Power,
        grown: &Partition,
        c: Int,
        d: Int,
        sums: &mut Lin<Power, Int>,
    ) -> Result<(), SumFault> {
        let Some(core) = core_of(alloc, grown, self.k, self.n)? else {
            return Ok(());
        };
        let Some(product) = c.mul(d) else {
            return Err(SumFault::Large);
        };
        let reduced = Power {
            power: label.power + core.power,
            shape: core.shape,
        };
        add_signed(sums, reduced, core.sign, product)
    }

    ghost bounds = { λ rule. rule_bounds rule.k rule.n };

    ghost start_is = { start_power };

    ghost within = { power_within };

    ghost light = { λ rule. power_light rule.k rule.n };

    ghost room = { λ rule. power_room rule.k rule.n };

    ghost made = { λ rule. power_made rule.k rule.n };

    ghost changed = { λ rule. power_other rule.k rule.n };
}

/// The quantum product of the factors, for partitions with at most `rows` rows and `cols` columns:
/// the product of their Schur polynomials in `rows` variables, with each term reduced by removing
/// rim hooks of `rows + cols` cells. `rows` and `cols` are from 1 to 64. Terms are reduced after
/// each factor. The product is 0 if a factor has more than `rows` rows.
///
/// Returns `Large` only if the weight of a step is 2^127 or more. The step multiplies the terms of
/// the product so far by the next factor. Its weight is the sum, over these terms, of the absolute
/// value of the coefficient times the sum of all coefficients of the classical product of the
/// partition of the term and the next factor.
pub fn quantum(
    alloc: Global,
    factors: &Factors,
    rows: u16,
    cols: u16,
) -> Result<Terms<Power, Int>, SumFault>
    requires variables { (1 ≤ rows) × (rows ≤ 64) }
    requires columns { (1 ≤ cols) × (cols ≤ 64) }
    ensures meets { IfOk result (λ terms.
        IsRimHookReduction rows (rows + cols) (classical_product rows factors.now) (as_fractions terms)) }

    // For any list of reductions of the terms of the classical product, whichever rim hooks are
    // removed first, the terms of these reductions have the same total coefficient at each label as
    // the result.
    ensures only { IfOk result (λ terms. (reductions : List TermReduction)
        → AreReductions rows (rows + cols) (classical_product rows factors.now) reductions
        → HaveSameSums terms (reduced_terms (classical_product rows factors.now) reductions)) }

    // The list results from steps (`IsReducedInSteps`), each of which multiplies the terms so far
    // by the next factor, reduces the partitions of the product and adds up the terms with equal
    // labels. If the result is `Large`, a step has a weight of 2^127 or more.
    ensures steps { IfOk result (IsReducedInSteps rows (rows + cols) factors.now) }
    ensures large { IsErrOf result SumFault.Large
        → HasHeavy (IsQuantumWeight rows (rows + cols) factors.now) }
{
    if has_long(factors, rows) {
        return no_terms(alloc);
    }
    reduced_in_steps(alloc, factors, rows, rows + cols)
}

/// The product of the factors, reduced after each factor: of rotated factors if this pays, with the
/// labels rotated back, otherwise of the factors themselves.
fn reduced_in_steps(
    alloc: Global,
    factors: &Factors,
    k: u16,
    n: u16,
) -> Result<Terms<Power, Int>, SumFault>
    requires limits { (1 ≤ k) × (k ≤ 64) × (k < n) × (n ≤ k + 64) }
    requires few { AreFew k factors.now }
    ensures steps { IfOk result (IsReducedInSteps k n factors.now) }
    ensures large { IsErrOf result SumFault.Large → HasHeavy (IsQuantumWeight k n factors.now) }
{
    if let Some(terms) = product_by_rotation(alloc, factors, k, n)? {
        return Ok(terms);
    }
    product_in_steps::<Power, RimHooks>(alloc, &RimHooks { k, n }, factors)
}

/// The product of the factors, reduced after each factor, from that of rotated factors; `None` if
/// rotating does not pay, or a coefficient of that product is too large.
pub(crate) fn product_by_rotation(
    alloc: Global,
    factors: &Factors,
    k: u16,
    n: u16,
) -> Result<Option<Terms<Power, Int>>, NoMemory>
    requires limits { (1 ≤ k) × (k ≤ 64) × (k < n) × (n ≤ k + 64) }
    requires few { AreFew k factors.now }
    ensures steps { IfOk result (λ product. IfSome product (IsReducedInSteps k n factors.now)) }
    ensures limits { AreFactors factors.now }
{
    let bases = match bases_of(alloc, factors, k, n) {
        Ok(Some(bases)) => bases,
        Ok(None) => return Ok(None),
        Err(FactorsFault::NoMemory) => return Err(NoMemory),
        Err(_) => return Ok(None),
    };
    match rotated_back(alloc, &bases, k, n) {
        Ok(product) => Ok(product),
        Err(SumFault::NoMemory) => Err(NoMemory),
        Err(SumFault::Large) => Ok(None),
    }
}

/// The product of the bases, reduced after each of them, with its labels rotated to those of the
/// product of the factors.
fn rotated_back(
    alloc: Global,
    bases: &Bases,
    k: u16,
    n: u16,
) -> Result<Option<Terms<Power, Int>>, SumFault>
    requires limits { (1 ≤ k) × (k ≤ 64) × (k < n) × (n ≤ k + 64) }
    requires few { AreFew k bases.now.factors }
    ensures { (factors : List (List ℕ)) → 2 ≤ length factors
        → AreTurned k n factors bases.now.factors bases.now.turns bases.now.power
        → IfOk result (λ product. IfSome product (IsReducedInSteps k n factors)) }
{
    let terms = product_in_steps::<Power, RimHooks>(alloc, &RimHooks { k, n }, &bases.factors)?;
    rotated_terms(alloc, &terms, bases, k, n)
}
