//! The complement of a partition in a rectangle.
ghost use Rattle.std.specs.Prelude.{◌≡◌, IfOk, IfSome};
ghost use Rattle.complement_laws.specs.Complement.{complement};
ghost use Rattle.partitions.specs.Limits.{IsWithinLimits};

use calc_base::NoMemory;
use partitions::{PartFault, Partition, number_at};
use smallvec::SmallVec;
use std::alloc::Global;

/// The complement of `shape` in the rectangle with `k` rows and `width` columns, turned by 180
/// degrees. `None` if it has more than 4,096 cells, or `k` is greater than 512. Up to 16 rows
/// allocate no memory.
pub(crate) fn complement(
    alloc: Global,
    k: u16,
    width: u16,
    shape: &Partition,
) -> Result<Option<Partition>, NoMemory>
    ensures value { IfOk result (λ o. IfSome o (λ p. p ≡ complement k width shape.now)) }
{
    let parts = shape.parts();
    let mut numbers: SmallVec<u16, 16> = SmallVec::with_capacity(alloc, usize::from(k))?;
    for at in (0..usize::from(k)).rev() {
        numbers.push(width.saturating_sub(number_at(parts, at)))?;
    }
    match Partition::from_parts(alloc, numbers.as_slice()) {
        Ok(partition) => Ok(Some(partition)),
        Err(PartFault::NoMemory) => Err(NoMemory),
        Err(_) => Ok(None),
    }
}
