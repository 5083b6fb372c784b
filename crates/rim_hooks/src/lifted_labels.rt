//! Labels of quantum products read as partitions of fusion products.
ghost use Rattle.std.specs.Prelude.{◌≡◌, ℕ, ◌+◌, ◌<◌, ◌≤◌, List, length, IfOk, IfSome};
ghost use Rattle.sym_model.specs.BetaList.{from_beta};
ghost use Rattle.sym_model.specs.Partition.{ArePartitions};
ghost use Rattle.sym_model.specs.ReductionSteps.{IsReducedInSteps, IsReflectedInSteps};
ghost use Rattle.rotation_laws.specs.Lifting.{lifted_label};

use crate::collecting::sorted;
use calc_base::{NoMemory, SumFault};
use coeff_rings::Int;
use linear_combinations::{Lin, Terms};
use partitions::{PartFault, Partition};
use smallvec::SmallVec;
use sparse_polys::Power;
use std::alloc::Global;

/// The terms of a quantum product with each label read as a partition of the fusion product for `k`
/// rows at level `n` - `k`; `None` if such a partition is not within the limits of partitions.
pub(crate) fn lifted_terms(
    alloc: Global,
    terms: &Terms<Power, Int>,
    k: u16,
    n: u16,
) -> Result<Option<Terms<Partition, Int>>, SumFault>
    requires limits { (k ≤ 64) × (k < n) × (n ≤ k + 64) }
    ensures { (factors : List (List ℕ)) → 2 ≤ length factors → ArePartitions factors
        → IsReducedInSteps k n factors terms.now
        → IfOk result (λ product. IfSome product (IsReflectedInSteps k n factors)) }
{
    let mut sums = Lin::new(alloc);
    for (label, c) in terms.iter() {
        let Some(partition) = lift(alloc, label, k, n)? else {
            return Ok(None);
        };
        sums.add_owned(partition, *c)?;
    }
    Ok(Some(sorted(sums)?))
}

/// The partition for the label q^p·ν: p times, `n` is added to the last entry of the beta list of
/// ν, which is then moved to the front. `None` if ν has more than `k` rows, or the partition is not
/// within the limits of partitions.
fn lift(alloc: Global, label: &Power, k: u16, n: u16) -> Result<Option<Partition>, NoMemory>
    requires limits { (k ≤ 64) × (k < n) × (n ≤ k + 64) }
    ensures { IfOk result (λ partition. IfSome partition (λ p. p ≡ lifted_label k n label.now)) }
{
    if label.shape.rows() > k {
        return Ok(None);
    }
    let beta = label.shape.beta(k)?;
    let mut entries = SmallVec::<u16, 16>::from_slice(alloc, beta.as_slice())?;
    for _turn in 0..label.power {
        let Some(last) = entries.pop() else {
            return Ok(None);
        };
        let Some(first) = last.checked_add(n) else {
            return Ok(None);
        };
        entries.insert(0, first)?;
    }
    partition_of(alloc, entries.as_slice())
}

/// The partition with this beta list; `None` if it is not within the limits of partitions, or the
/// list is not strictly decreasing.
fn partition_of(alloc: Global, entries: &[u16]) -> Result<Option<Partition>, NoMemory>
    requires { length entries.now ≤ 512 }
    ensures { IfOk result (λ partition. IfSome partition (λ p. p ≡ from_beta entries.now)) }
{
    let mut parts = SmallVec::<u16, 16>::new(alloc);
    let mut later = entries.len() as u16;
    for entry in entries {
        later -= 1;
        parts.push(entry.saturating_sub(later))?;
    }
    match Partition::from_parts(alloc, parts.as_slice()) {
        Ok(partition) => Ok(Some(partition)),
        Err(PartFault::NoMemory) => Err(NoMemory),
        Err(_) => Ok(None),
    }
}
