//! Sums of terms that are each the product of a basis polynomial of the target basis e, h or p and
//! an augmented monomial.
ghost use Rattle.std.specs.Prelude.{◌+◌, ◌-◌, ◌<◌, ◌≤◌, ◌*ℤ◌, ◌∷◌, [], neg_ℤ, OnOk, IsErrOf};
ghost use Rattle.sym_model.specs.Partition.{IsPartition, size};
ghost use Rattle.sym_model.specs.RaisedPart.{raise};
ghost use Rattle.partitions.specs.Limits.{IsWithinLimits};
ghost use Rattle.basis_change_laws.specs.JoinedLists.{merged};
ghost use Rattle.linear_combinations.specs.Gains.{Gains, Overflows, HaveLabels, each_with, scaled};
ghost use Rattle.basis_change.specs.AugmentedProducts.{equal, products, raised};

use crate::parts::put_raised;
use calc_base::SumFault;
use coeff_rings::{Int, Ring, product_of};
use family_lists::put_merged;
use linear_combinations::Lin;
use partitions::Partition;
use sparse_polys::{Pair, Whole};
use std::alloc::Global;

/// A sum of terms, each the product of a basis polynomial of the target basis, given by the first
/// partition of the label, and an augmented monomial, given by the second.
pub(crate) type Mixed = Lin<Pair, Int>;

/// Adds to `sum` c·`have` times the product of the polynomials of `label` and `converted` in the
/// target basis and the augmented monomial of `augmented`. The parts of `label` and `converted` are
/// merged in the buffer `room`.
fn add_mixed_term(
    alloc: Global,
    sum: &mut Mixed,
    room: &mut Vec<u16>,
    label: &Partition,
    have: Int,
    converted: &[u16],
    augmented: &[u16],
    c: Int,
) -> Result<(), SumFault>
    requires converted { IsPartition converted.now }
    requires sizes { size converted.now + size label.now ≤ 512 }
    requires augmented { IsWithinLimits augmented.now }
    ensures gains { OnOk result (Gains sum.old
        (((merged converted.now label.now, augmented.now), c *ℤ have) ∷ []) sum.new) }
    ensures large { IsErrOf result SumFault.Large → Overflows equal sum.old
        (((merged converted.now label.now, augmented.now), c *ℤ have) ∷ []) }
{
    let product = product_of(c, have)?;
    put_merged(room, converted, label.parts())?;
    let label = Pair {
        first: Partition::from_valid_parts(alloc, room.as_slice())?,
        second: Partition::from_valid_parts(alloc, augmented)?,
    };
    sum.add_owned(label, product)
}

/// Adds to `sum` c times the product of the list `factor` in the target basis, the polynomial of
/// `converted` in that basis and the augmented monomial of `augmented`.
pub(crate) fn add_mixed(
    alloc: Global,
    sum: &mut Mixed,
    factor: &Whole,
    converted: &[u16],
    augmented: &[u16],
    c: Int,
) -> Result<(), SumFault>
    requires converted { IsPartition converted.now }
    requires sizes { HaveLabels (λ label. size converted.now + size label ≤ 512) factor.now }
    requires augmented { IsWithinLimits augmented.now }
    ensures gains { OnOk result (Gains sum.old
        (scaled c (products factor.now converted.now augmented.now)) sum.new) }
    ensures large { IsErrOf result SumFault.Large → Overflows equal sum.old
        (scaled c (products factor.now converted.now augmented.now)) }
{
    let mut room = Vec::new(alloc);
    for (label, have) in factor.iter() {
        add_mixed_term(alloc, sum, &mut room, label, *have, converted, augmented, c)?;
    }
    Ok(())
}

/// Subtracts from `sum` c times the product of the polynomial of `converted` in the target basis
/// and the augmented monomial of the partition that is `augmented` with one part `part` increased
/// by `by`. The parts of this partition are built in the buffer `room`.
fn take_one(
    alloc: Global,
    sum: &mut Mixed,
    room: &mut Vec<u16>,
    converted: &Partition,
    augmented: &[u16],
    by: u16,
    part: u16,
    c: Int,
) -> Result<(), SumFault>
    requires by { 0 < by }
    requires small { by + part ≤ 4096 }
    requires limits { IsWithinLimits (raise by part augmented.now) }
    ensures gains { OnOk result (Gains sum.old
        (((converted.now, raise by part augmented.now), neg_ℤ c) ∷ []) sum.new) }
    ensures large { IsErrOf result SumFault.Large → Overflows equal sum.old
        (((converted.now, raise by part augmented.now), neg_ℤ c) ∷ []) }
{
    let minus = c.neg().ok_or(SumFault::Large)?;
    put_raised(room, augmented, part, by)?;
    let label = Pair {
        first: converted.copy()?,
        second: Partition::from_valid_parts(alloc, room.as_slice())?,
    };
    sum.add_owned(label, minus)
}

/// Subtracts from `sum`, for each part of `augmented`, c times the product of the polynomial of
/// `converted` in the target basis and the augmented monomial of the partition that is `augmented`
/// with this part increased by `by`.
pub(crate) fn take_raised(
    alloc: Global,
    sum: &mut Mixed,
    converted: &Partition,
    augmented: &[u16],
    by: u16,
    c: Int,
) -> Result<(), SumFault>
    requires by { 0 < by }
    requires partition { IsPartition augmented.now }
    requires small { by + size augmented.now ≤ 512 }
    ensures gains { OnOk result (Gains sum.old (each_with (neg_ℤ c)
        (raised converted.now by augmented.now augmented.now)) sum.new) }
    ensures large { IsErrOf result SumFault.Large → Overflows equal sum.old (each_with (neg_ℤ c)
        (raised converted.now by augmented.now augmented.now)) }
{
    let mut room = Vec::new(alloc);
    for part in augmented {
        take_one(alloc, sum, &mut room, converted, augmented, by, *part, c)?;
    }
    Ok(())
}
