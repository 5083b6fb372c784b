//! The reduction of partitions by removing rim hooks.
ghost use Rattle.std.specs.Prelude.{◌≡◌, ◌+◌, ◌*◌, ◌<◌, ◌≤◌, length, IfOk};
ghost use Rattle.sym_model.specs.Partition.{rows};
ghost use Rattle.sym_model.specs.PlaceOrders.{minus_one_to};
ghost use Rattle.sym_model.specs.RimHookReduction.{ReducesTo};
ghost use Rattle.sym_model.specs.Reductions.{Reduction};
ghost use Rattle.beta_list_laws.specs.StrictFall.{FallsStrictly};
ghost use Rattle.beta_list_laws.specs.LowestList.{lowest, reduction_by_remainders};
ghost use Rattle.rim_hooks.specs.Reduced.{reduction};
ghost use Rattle.rim_hooks.specs.Signs.{sign_of};
ghost use Rattle.rim_hooks.specs.Sorting.{Sorts};

use crate::sorted::{Sorted, is_odd, is_one_odd, sign};
use crate::table::no_counts;
use calc_base::NoMemory;
use partitions::Partition;
use std::alloc::Global;

/// The result of removing rim hooks of n cells from a partition until no more of them can be
/// removed.
#[derive(Debug, Drop)]
pub struct Core {
    /// The partition that is left.
    pub shape: Partition,
    /// The product of the signs of the removed rim hooks, 1 or -1.
    pub sign: i8,
    /// The number of rim hooks removed: the power of q.
    pub power: u32,
}

/// The partition that is left after removing rim hooks of `n` cells from `shape` until no more of
/// them can be removed, with the product of their signs and the number of removals; `None` if and
/// only if the partition that is left has more than `n - k` columns. The order of the removals does
/// not matter. `shape` must have at most `k` rows, and 1 ≤ k < n ≤ 512.
pub fn core_of(alloc: Global, shape: &Partition, k: u16, n: u16) -> Result<Option<Core>, NoMemory>
    requires rows { (rows shape.now ≤ k) × (1 ≤ k) }
    requires cells { (k < n) × (n ≤ 512) }
    ensures reduces { IfOk result (λ core. ReducesTo k n shape.now (reduction core)) }

    // Removing the rim hooks in any other order gives the same result. It is also the result of
    // `reduction_by_remainders`, which uses the remainders of the beta list modulo n.
    ensures only { IfOk result (λ core. (other : Reduction) → ReducesTo k n shape.now other
        → other ≡ reduction core) }
    ensures remainders { IfOk result
        (λ core. reduction core ≡ reduction_by_remainders k n shape.now) }
{
    let cells = shape.size();
    let entries = shape.beta(k)?;
    let lowest = lowest_entries(alloc, entries.as_slice(), n)?;
    let end = Partition::from_beta(alloc, lowest.numbers.as_slice())?;
    if u32::from(k) + u32::from(end.part(1)) > u32::from(n) {
        return Ok(None);
    }
    let power = (cells - end.size()) / n;
    Ok(Some(Core {
        shape: end,
        sign: sign(is_one_odd(turns_the_sign(power, k), lowest.is_odd)),
        power: u32::from(power),
    }))
}

/// Whether (-1)^(power·(k + 1)) is -1. The sign of `power` removals of rim hooks is this power of
/// -1 times the sign of sorting the lowered entries of the beta list.
fn turns_the_sign(power: u16, k: u16) -> bool
    ensures { sign_of result ≡ minus_one_to (power * (k + 1)) }
{
    is_odd(usize::from(power) * (usize::from(k) + 1))
}

/// The least numbers to which the entries can be lowered by multiples of `n` while they stay
/// different and not negative, sorted into decreasing order.
fn lowest_entries(alloc: Global, entries: &[u16], n: u16) -> Result<Sorted, NoMemory>
    requires strict { FallsStrictly entries.now }
    requires cells { (2 ≤ n) × (n ≤ 512) }
    ensures { IfOk result (λ sorted. Sorts sorted (lowest n entries.now)) }
{
    let mut counts = no_counts();
    let mut sorted = Sorted::new(alloc);
    for at in (0..entries.len()).rev() {
        let remainder = entries[at] % n;
        let place = usize::from(remainder);
        let below = counts[place];
        sorted.put(remainder + below * n)?;
        counts[place] = below + 1;
    }
    Ok(sorted)
}
