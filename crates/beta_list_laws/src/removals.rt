//! All ways to remove rim hooks of n cells from a partition, until no more can be removed, have the
//! same end.

ghost use Rattle.std.specs.Prelude.{◌≡◌, ℕ, ◌+◌, ◌*◌, ◌≤◌, ℤ, List, Option};
ghost use Rattle.sym_model.specs.Partition.{IsPartition, size, rows};
ghost use Rattle.sym_model.specs.RimHookReduction.{GoesTo, ReducesTo};
ghost use Rattle.beta_list_laws.specs.LowestList.{end_of, power_of, end_sign};
ghost use Rattle.beta_list_laws.specs.LowestList.{reduction_by_remainders};

/// Rim hooks of n cells are removed from a partition with at most k rows, in any order, until no
/// more can be removed. The partition that remains, the product of the signs (-1)^(k - height) of
/// the removed rim hooks, and the number of removals do not depend on the order. The beta list of
/// the partition that remains is computed from that of the given one: entries of at least n are
/// lowered by n, as long as some of them can be lowered without becoming equal to another entry,
/// and the list is sorted.
pub fn removals_end_law()
    ensures goes { (k n : ℕ) (shape : List ℕ) → 1 ≤ n → IsPartition shape → rows shape ≤ k
        → GoesTo k n shape (end_of k n shape) (end_sign k n shape) (power_of k n shape) }
    ensures end { (k n : ℕ) (shape end : List ℕ) (sign : ℤ) (power : ℕ) → 1 ≤ n → IsPartition shape
        → GoesTo k n shape end sign power → end ≡ end_of k n shape }
    ensures sign { (k n : ℕ) (shape end : List ℕ) (sign : ℤ) (power : ℕ) → 1 ≤ n → IsPartition shape
        → GoesTo k n shape end sign power → sign ≡ end_sign k n shape }
    ensures power { (k n : ℕ) (shape end : List ℕ) (sign : ℤ) (power : ℕ) → 1 ≤ n
        → IsPartition shape
        → GoesTo k n shape end sign power → power ≡ power_of k n shape }
    ensures cells { (k n : ℕ) (shape end : List ℕ) (sign : ℤ) (power : ℕ)
        → GoesTo k n shape end sign power
        → size shape ≡ size end + power * n }
    ensures partition { (k n : ℕ) (shape end : List ℕ) (sign : ℤ) (power : ℕ) → IsPartition shape
        → GoesTo k n shape end sign power → IsPartition end }
    ensures rows { (k n : ℕ) (shape end : List ℕ) (sign : ℤ) (power : ℕ)
        → GoesTo k n shape end sign power
        → rows end ≤ k }
    ensures reduces { (k n : ℕ) (shape : List ℕ) → 1 ≤ n → IsPartition shape → rows shape ≤ k
        → ReducesTo k n shape (reduction_by_remainders k n shape) }
    ensures only { (k n : ℕ) (shape : List ℕ) (answer : Option (List ℕ × ℤ × ℕ)) → 1 ≤ n
        → IsPartition shape
        → ReducesTo k n shape answer → answer ≡ reduction_by_remainders k n shape }
{}
