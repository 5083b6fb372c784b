//! Rotations of partitions modulo n.
ghost use Rattle.std.specs.Prelude.{◌≡◌, ◌+◌, ◌≤◌, ◌++◌, IsTrue, IfOk, OnOk};
ghost use Rattle.rotation_laws.specs.Rotation.{IsInside, kept, wrapped, wraps};
ghost use Rattle.rotation_laws.specs.Rotation.{rotated};

use calc_base::NoMemory;
use partitions::Partition;
use smallvec::SmallVec;
use std::alloc::Global;

/// A partition rotated modulo n.
#[derive(Drop)]
pub(crate) struct Rotation {
    pub(crate) shape: Partition,
    /// The number of entries of the beta list from which n was subtracted.
    pub(crate) wraps: u16,
}

/// Whether the partition has at most `k` rows and at most `n` - `k` columns.
pub(crate) fn is_inside(shape: &Partition, k: u16, n: u16) -> bool
    ensures { IsTrue result → IsInside k n shape.now }
{
    if shape.rows() > k {
        return false;
    }
    u32::from(k) + u32::from(shape.part(1)) <= u32::from(n)
}

/// The partition rotated by `r`: `r` is added to each entry of its beta list of length `k`, and `n`
/// is subtracted from those sums that are at least `n`.
pub(crate) fn rotate(
    alloc: Global,
    shape: &Partition,
    k: u16,
    n: u16,
    r: u16,
) -> Result<Rotation, NoMemory>
    requires inside { IsInside k n shape.now }
    requires limits { (k ≤ 64) × (n ≤ k + 64) }
    requires once { r ≤ n }
    ensures shape { IfOk result (λ rotation. rotation.shape ≡ rotated k n r shape.now) }
    ensures wraps { IfOk result (λ rotation. rotation.wraps ≡ wraps k n r shape.now) }
{
    let beta = shape.beta(k)?;
    let entries = beta.as_slice();
    let mut numbers = SmallVec::new(alloc);
    push_kept(&mut numbers, entries, n, r)?;
    let kept = numbers.len();
    push_wrapped(&mut numbers, entries, n, r)?;
    let wraps = (numbers.len() - kept) as u16;
    Ok(Rotation {
        shape: Partition::from_beta(alloc, numbers.as_slice())?,
        wraps,
    })
}

/// Appends those sums of an entry and `r` that are less than `n`.
fn push_kept(
    numbers: &mut SmallVec<u16, 16>,
    entries: &[u16],
    n: u16,
    r: u16,
) -> Result<(), NoMemory>
    ensures { OnOk result (numbers.new.items ≡ numbers.old.items ++ kept n r entries.now) }
{
    for entry in entries {
        let sum = u32::from(*entry) + u32::from(r);
        if sum >= u32::from(n) {
            continue;
        }
        numbers.push(sum as u16)?;
    }
    Ok(())
}

/// Appends those sums of an entry and `r` that are at least `n`, each less `n`.
fn push_wrapped(
    numbers: &mut SmallVec<u16, 16>,
    entries: &[u16],
    n: u16,
    r: u16,
) -> Result<(), NoMemory>
    requires { r ≤ n }
    ensures { OnOk result (numbers.new.items ≡ numbers.old.items ++ wrapped n r entries.now) }
{
    for entry in entries {
        let sum = u32::from(*entry) + u32::from(r);
        if sum < u32::from(n) {
            continue;
        }
        numbers.push((sum - u32::from(n)) as u16)?;
    }
    Ok(())
}
