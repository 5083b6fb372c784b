//! The labels of a quantum product rotated.
ghost use Rattle.std.specs.Prelude.{◌≡◌, ℕ, ◌+◌, ◌<◌, ◌≤◌, List, length, IfOk, IfSome};
ghost use Rattle.sym_model.specs.ReductionSteps.{IsReducedInSteps};
ghost use Rattle.rotation_laws.specs.Rotation.{turned, AreTurned};

use crate::collecting::sorted;
use crate::rotated_factors::Bases;
use crate::rotation::{is_inside, rotate};
use calc_base::{NoMemory, SumFault};
use coeff_rings::Int;
use linear_combinations::{Lin, Terms};
use sparse_polys::Power;
use std::alloc::Global;

/// The terms of the product of the factors, for those of the product of the bases: each label is
/// rotated and divided by the power of q of the bases. `None` if a label cannot be divided, or has
/// more than `k` rows or `n` - `k` columns.
pub(crate) fn rotated_terms(
    alloc: Global,
    terms: &Terms<Power, Int>,
    bases: &Bases,
    k: u16,
    n: u16,
) -> Result<Option<Terms<Power, Int>>, SumFault>
    requires limits { (k ≤ 64) × (k < n) × (n ≤ k + 64) }
    ensures { (factors : List (List ℕ)) → 2 ≤ length factors
        → AreTurned k n factors bases.now.factors bases.now.turns bases.now.power
        → IsReducedInSteps k n bases.now.factors terms.now
        → IfOk result (λ product. IfSome product (IsReducedInSteps k n factors)) }
{
    let mut sums = Lin::new(alloc);
    for (label, c) in terms.iter() {
        let Some(rotated) = rotated_label(alloc, label, bases, k, n)? else {
            return Ok(None);
        };
        sums.add_owned(rotated, *c)?;
    }
    Ok(Some(sorted(sums)?))
}

/// The label of the product of the factors for a label of the product of the bases; `None` if it
/// cannot be divided by the power of q of the bases, or has more than `k` rows or `n` - `k`
/// columns.
fn rotated_label(
    alloc: Global,
    label: &Power,
    bases: &Bases,
    k: u16,
    n: u16,
) -> Result<Option<Power>, NoMemory>
    requires limits { (k ≤ 64) × (k < n) × (n ≤ k + 64) }
    ensures { IfOk result (λ rotated. IfSome rotated (λ l.
        (bases.now.power + l.0, l.1) ≡ turned k n bases.now.turns label.now)) }
{
    if !is_inside(&label.shape, k, n) {
        return Ok(None);
    }
    let rotation = rotate(alloc, &label.shape, k, n, bases.turns % n)?;
    let wraps = u64::from(rotation.wraps) + u64::from(bases.turns / n) * u64::from(k);
    let Some(power) = u64::from(label.power).checked_add(wraps) else {
        return Ok(None);
    };
    let Some(left) = power.checked_sub(u64::from(bases.power)) else {
        return Ok(None);
    };
    let Ok(power) = u32::try_from(left) else {
        return Ok(None);
    };
    Ok(Some(Power {
        power,
        shape: rotation.shape,
    }))
}
