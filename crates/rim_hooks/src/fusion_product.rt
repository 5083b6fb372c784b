//! Fusion products of several Schur functions.
ghost use Rattle.std.specs.Prelude.{◌≡◌, ◌+◌, ◌<◌, ◌≤◌, IfOk, IfSome, IsErrOf};
ghost use Rattle.rim_hooks.specs.FactorRows.{AreFew};
ghost use Rattle.sym_model.specs.ReductionSteps.{IsReflectedInSteps};
ghost use Rattle.sym_model.specs.WholeTerms.{as_fractions};
ghost use Rattle.sym_model.specs.PastLimit.{HasHeavy};
ghost use Rattle.sym_model.specs.Reductions.{IsAlcoveReductionOf};
ghost use Rattle.sym_model.specs.ReductionSteps.{IsFusionWeight};
ghost use Rattle.sym_model.specs.Products.{classical_product};

use crate::alcove_of;
use crate::collecting::add_signed;
use crate::lifted_labels::lifted_terms;
use crate::long_factors::has_long;
use crate::quantum_product::product_by_rotation;
use crate::reduction::Reduction;
use crate::steps::{no_terms, product_in_steps};
use calc_base::{NoMemory, SumFault};
use coeff_rings::{Int, Ring};
use linear_combinations::{Lin, Terms};
use partitions::{Factors, Partition};
use std::alloc::Global;

/// The `Reduction` that reflects partitions with at most `k` rows into the alcove of level `n - k`.
#[derive(Drop)]
struct Reflections {
    k: u16,
    n: u16,
}

impl Reduction<Partition> for Reflections {
    ghost use Rattle.std.specs.Prelude.{◌<◌, ◌≤◌};
    ghost use Rattle.sym_model.specs.Partition.{size};
    ghost use Rattle.sym_model.specs.ReductionSteps.{IsFusionStep};
    ghost use Rattle.reduction_laws.specs.ReducedLists.{reduced_shape};
    ghost use Rattle.reduction_laws.proofs.QuantumLaws.{rule_bounds};
    ghost use Rattle.reduction_laws.proofs.FusionLaws.{start_shape, shape_within, shape_light};
    ghost use Rattle.reduction_laws.proofs.FusionLaws.{shape_room, shape_made, shape_other};

    ghost is_rule = { λ rule. (1 ≤ rule.k) × (rule.k ≤ 64) × (rule.k < rule.n) × (rule.n ≤ 512) };

    ghost variables = { λ rule. rule.k };

    ghost shape = { λ shape. shape };

    ghost cells = { size };

    ghost start = { λ first. first };

    ghost reduced = { λ rule. reduced_shape rule.k rule.n };

    ghost step = { λ rule. IsFusionStep rule.k rule.n };

    fn variables(&self) -> u16 {
        self.k
    }

    fn shape(label: &Partition) -> &Partition {
        label
    }

    fn start(first: &Partition) -> Result<Partition, NoMemory> {
        first.copy()
    }

    fn add_reduced(
        &self,
        alloc: Global,
        _label: &Partition,
        grown: &Partition,
        c: Int,
        d: Int,
        sums: &mut Lin<Partition, Int>,
    ) -> Result<(), SumFault> {
        let Some(alcove) = alcove_of(alloc, grown, self.k, self.n)? else {
            return Ok(());
        };
        let Some(product) = c.mul(d) else {
            return Err(SumFault::Large);
        };
        add_signed(sums, alcove.shape, alcove.sign, product)
    }

    ghost bounds = { λ rule. rule_bounds rule.k rule.n };

    ghost start_is = { start_shape };

    ghost within = { shape_within };

    ghost light = { λ rule. shape_light rule.k rule.n };

    ghost room = { λ rule. shape_room rule.k rule.n };

    ghost made = { λ rule. shape_made rule.k rule.n };

    ghost changed = { λ rule. shape_other rule.k rule.n };
}

/// The fusion product of the factors, for partitions with at most `rows` rows at the level `level`:
/// the product of their Schur polynomials in `rows` variables, with each term reflected into the
/// alcove of that level. `rows` and `level` are from 1 to 64. Terms are reflected after each
/// factor. The product is 0 if a factor has more than `rows` rows.
///
/// Returns `Large` only if the weight of a step is 2^127 or more. The step multiplies the terms of
/// the product so far by the next factor. Its weight is the sum, over these terms, of the absolute
/// value of the coefficient times the sum of all coefficients of the classical product of the label
/// and the next factor.
pub fn fusion(
    alloc: Global,
    factors: &Factors,
    rows: u16,
    level: u16,
) -> Result<Terms<Partition, Int>, SumFault>
    requires variables { (1 ≤ rows) × (rows ≤ 64) }
    requires levels { (1 ≤ level) × (level ≤ 64) }
    ensures meets { IfOk result (λ terms.
        IsAlcoveReductionOf rows (rows + level) (classical_product rows factors.now) (as_fractions terms)) }

    // The list results from steps (`IsReflectedInSteps`), each of which multiplies the terms so far
    // by the next factor, reflects the partitions of the product and adds up the terms with equal
    // labels. If the result is `Large`, a step has a weight of 2^127 or more.
    ensures steps { IfOk result (IsReflectedInSteps rows (rows + level) factors.now) }
    ensures large { IsErrOf result SumFault.Large
        → HasHeavy (IsFusionWeight rows (rows + level) factors.now) }
{
    if has_long(factors, rows) {
        return no_terms(alloc);
    }
    reflected_in_steps(alloc, factors, rows, rows + level)
}

/// The product of the factors, reflected after each factor: from the quantum product of rotated
/// factors if this pays, otherwise from the factors themselves.
fn reflected_in_steps(
    alloc: Global,
    factors: &Factors,
    k: u16,
    n: u16,
) -> Result<Terms<Partition, Int>, SumFault>
    requires limits { (1 ≤ k) × (k ≤ 64) × (k < n) × (n ≤ k + 64) }
    requires few { AreFew k factors.now }
    ensures steps { IfOk result (IsReflectedInSteps k n factors.now) }
    ensures large { IsErrOf result SumFault.Large → HasHeavy (IsFusionWeight k n factors.now) }
{
    if let Some(terms) = lifted_product(alloc, factors, k, n)? {
        return Ok(terms);
    }
    product_in_steps::<Partition, Reflections>(alloc, &Reflections { k, n }, factors)
}

/// The product of the factors, reflected after each factor, from their quantum product by rotation;
/// `None` if rotating does not pay, or the labels or coefficients are too large.
fn lifted_product(
    alloc: Global,
    factors: &Factors,
    k: u16,
    n: u16,
) -> Result<Option<Terms<Partition, Int>>, NoMemory>
    requires limits { (1 ≤ k) × (k ≤ 64) × (k < n) × (n ≤ k + 64) }
    requires few { AreFew k factors.now }
    ensures { IfOk result (λ product. IfSome product (IsReflectedInSteps k n factors.now)) }
{
    let Some(terms) = product_by_rotation(alloc, factors, k, n)? else {
        return Ok(None);
    };
    match lifted_terms(alloc, &terms, k, n) {
        Ok(product) => Ok(product),
        Err(SumFault::NoMemory) => Err(NoMemory),
        Err(SumFault::Large) => Ok(None),
    }
}
