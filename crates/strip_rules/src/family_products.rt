//! Expands products of several h_k, of several e_k and of several p_k in Schur polynomials (in s),
//! by moving beads in beta sets: there is a bead at the place b for each beta number b.
ghost use Rattle.std.specs.Prelude.{◌+◌, ◌-◌, ◌^◌, ◌≤◌, ℕ, IfOk, IsErrOf};
ghost use Rattle.sym_model.specs.Bases.{complete_of, elementary_of, power_sum_of, product_over};
ghost use Rattle.sym_model.specs.Expansion.{schurs, IsExpansionOf};
ghost use Rattle.sym_model.specs.Partition.{ArePositive, size};
ghost use Rattle.sym_model.specs.Polynomial.{Poly, one as one_of, times as times_of};
ghost use Rattle.linear_combinations.specs.Gains.{mass, HaveLabels};
ghost use Rattle.beta_sets.specs.BetaSets.{IsInRows};
ghost use Rattle.strip_rules.specs.FamilyShapes.{AreShapesOf, polynomial_by};

use crate::bead_hooks::HookAdded;
use crate::bead_strips::{Strip, StripAdded};
use beta_sets::{BetaSet, Shapes, in_partitions};
use calc_base::SumFault;
use coeff_rings::{Frac, Int, Scalar};
use linear_combinations::Lin;
use partitions::Partition;
use std::alloc::Global;

/// The number of rows, and of beta numbers, of each beta set.
const ROWS: u16 = 20;

/// The list with one term: the beta set of the empty partition, with the coefficient 1.
fn one(alloc: Global) -> Result<Shapes, SumFault>
    ensures value { IfOk result (AreShapesOf one_of 0) }
    ensures small { ¬ IsErrOf result SumFault.Large }
{
    let mut list = Lin::new(alloc);
    list.add_owned(BetaSet::staircase(ROWS), Int::one())?;
    Ok(list)
}

/// The product of a list in s with h_k (if `strip` is `Horizontal`) or with e_k (if `strip` is
/// `Vertical`), for k = `cells`, which is at most 20. The shapes of the list have at most 20 - k
/// cells, and the absolute values of its coefficients add up to at most 20^(20 - k), so `Large` is
/// never returned.
fn with_strips(alloc: Global, list: &Shapes, strip: Strip, cells: u16) -> Result<Shapes, SumFault>
    requires few { cells ≤ 20 }
    requires within { HaveLabels (IsInRows 20 (20 - cells)) list.now }
    requires mass { mass list.now ≤ 20 ^ (20 - cells) }
    ensures small { ¬ IsErrOf result SumFault.Large }
    ensures value { (f : ℕ → Poly) (d : ℕ) → AreShapesOf f d list.now → d + cells ≤ 20
        → IfOk result (AreShapesOf (λ n. times_of (polynomial_by strip cells n) (f n)) (d + cells)) }
{
    let mut sum = Lin::new(alloc);
    sum.add_by(&StripAdded { strip, cells }, list)?;
    Ok(sum)
}

/// The product, over the parts k, of h_k (if `strip` is `Horizontal`) or of e_k (if `strip` is
/// `Vertical`), in s, as a table of beta sets. The last part is multiplied last. `Large` is never
/// returned.
fn shapes_of(alloc: Global, strip: Strip, parts: &[u16]) -> Result<Shapes, SumFault>
    requires { size parts.now ≤ 20 }
    ensures value { IfOk result
        (AreShapesOf (product_over (polynomial_by strip) parts.now) (size parts.now)) }
    ensures small { ¬ IsErrOf result SumFault.Large }
{
    let [rest @ .., k] = parts else {
        return one(alloc);
    };
    let others = shapes_of(alloc, strip, rest)?;
    with_strips(alloc, &others, strip, *k)
}

/// The product, over the parts k of a partition of at most 20 cells, of h_k (if `strip` is
/// `Horizontal`) or of e_k (if `strip` is `Vertical`), in s. `Large` is never returned.
fn product_by(
    alloc: Global,
    strip: Strip,
    label: &Partition,
) -> Result<Lin<Partition, Frac>, SumFault>
    requires { size label.now ≤ 20 }
    ensures value { IfOk result (λ list. (n : ℕ)
        → IsExpansionOf schurs list n (product_over (polynomial_by strip) label.now n) 1) }
    ensures small { ¬ IsErrOf result SumFault.Large }
{
    let shapes = shapes_of(alloc, strip, label.parts())?;
    in_partitions(alloc, shapes, 1)
}

/// The product of h_k over the parts k of a partition of at most 20 cells, in s, in every number of
/// variables, by Pieri's rule (Macdonald, I.5). It never returns `Large`.
pub fn rows_product(alloc: Global, label: &Partition) -> Result<Lin<Partition, Frac>, SumFault>
    requires { size label.now ≤ 20 }
    ensures value { IfOk result (λ list. (n : ℕ)
        → IsExpansionOf schurs list n (product_over complete_of label.now n) 1) }
    ensures small { ¬ IsErrOf result SumFault.Large }
{
    product_by(alloc, Strip::Horizontal, label)
}

/// The product of e_k over the parts k of a partition of at most 20 cells, in s, in every number of
/// variables, by Pieri's rule (Macdonald, I.5). It never returns `Large`.
pub fn columns_product(alloc: Global, label: &Partition) -> Result<Lin<Partition, Frac>, SumFault>
    requires { size label.now ≤ 20 }
    ensures value { IfOk result (λ list. (n : ℕ)
        → IsExpansionOf schurs list n (product_over elementary_of label.now n) 1) }
    ensures small { ¬ IsErrOf result SumFault.Large }
{
    product_by(alloc, Strip::Vertical, label)
}

/// The product of a list in s with p_k, for k = `cells` from 1 to 20, by rim hooks. The shapes of
/// the list have at most 20 - k cells, and the absolute values of its coefficients add up to at
/// most 20^(20 - k), so `Large` is never returned.
fn with_hooks(alloc: Global, list: &Shapes, cells: u16) -> Result<Shapes, SumFault>
    requires few { (1 ≤ cells) × (cells ≤ 20) }
    requires within { HaveLabels (IsInRows 20 (20 - cells)) list.now }
    requires mass { mass list.now ≤ 20 ^ (20 - cells) }
    ensures small { ¬ IsErrOf result SumFault.Large }
    ensures value { (f : ℕ → Poly) (d : ℕ) → AreShapesOf f d list.now → d + cells ≤ 20
        → IfOk result (AreShapesOf (λ n. times_of (power_sum_of cells n) (f n)) (d + cells)) }
{
    let mut sum = Lin::new(alloc);
    sum.add_by(&HookAdded { cells }, list)?;
    Ok(sum)
}

/// The product of p_k over the parts k, in s, as a table of beta sets. The first part is multiplied
/// last. It never returns `Large`.
fn power_shapes_of(alloc: Global, parts: &[u16]) -> Result<Shapes, SumFault>
    requires positive { ArePositive parts.now }
    requires low { size parts.now ≤ 20 }
    ensures value { IfOk result
        (AreShapesOf (product_over power_sum_of parts.now) (size parts.now)) }
    ensures small { ¬ IsErrOf result SumFault.Large }
{
    let [k, rest @ ..] = parts else {
        return one(alloc);
    };
    let others = power_shapes_of(alloc, rest)?;
    with_hooks(alloc, &others, *k)
}

/// The product of p_k over the parts k of a partition of at most 20 cells, in s, in every number of
/// variables, by the rule of Murnaghan and Nakayama (Macdonald, I.3). It never returns `Large`.
pub fn hooks_product(alloc: Global, label: &Partition) -> Result<Lin<Partition, Frac>, SumFault>
    requires { size label.now ≤ 20 }
    ensures value { IfOk result (λ list. (n : ℕ)
        → IsExpansionOf schurs list n (product_over power_sum_of label.now n) 1) }
    ensures small { ¬ IsErrOf result SumFault.Large }
{
    let shapes = power_shapes_of(alloc, label.parts())?;
    in_partitions(alloc, shapes, 1)
}
