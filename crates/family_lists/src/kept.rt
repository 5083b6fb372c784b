//! Maps from partitions to lists of terms. Each list is computed once and then kept.
ghost use Rattle.std.specs.Prelude.{◌≡◌, ◌<◌, ℕ, [], ◌∷◌, ◌++◌, length, slice_get, nat_eq, Some};
ghost use Rattle.std.specs.Prelude.{None, IfOk, IfSome, IfNone, OnOk, OnErr};
ghost use Rattle.std.specs.Cmp.Lexicographic.{pointwise};
ghost use Rattle.indexmap.specs.IndexMap.{get};
ghost use Rattle.family_lists.specs.KeptLists.{HasKept, StandsAt};

use indexmap::IndexMap;
use partitions::Partition;
use std::alloc::AllocError;

/// A map from partitions to values, for example lists of terms, with its entries in the order in
/// which they were added.
pub type Lists<V> = IndexMap<Partition, V>;

/// The index of the entry with the partition `label`; None if and only if there is no such entry.
pub fn place_of<V>(lists: &Lists<V>, label: &Partition) -> Option<usize>
    ensures place { IfSome result (StandsAt lists.now.entries label.now) }
    ensures none { IfNone result ((at : ℕ) → ¬ StandsAt lists.now.entries label.now at) }
{
    lists.get_index_of(label)
}

/// The partition and the value of the entry at the index `at`.
pub fn list_at<V>(lists: &Lists<V>, at: usize) -> (&Partition, &V)
    requires { at < length lists.now.entries }
    ensures { slice_get lists.now.entries at ≡ Some (result.0.now, result.1.now) }
{
    lists.get_index(at).unwrap()
}

/// Appends the entry with the partition `label` and the value `list`; `label` must not have an
/// entry yet. On an error the entries are unchanged.
fn put<V: Drop>(lists: &mut Lists<V>, label: Partition, list: V) -> Result<(), AllocError>
    requires { get (pointwise nat_eq) lists.old label ≡ None }
    ensures ok { OnOk result (lists.new.entries ≡ lists.old.entries ++ (label, list) ∷ []) }
    ensures err { OnErr result (lists.new.entries ≡ lists.old.entries) }
{
    lists.insert(label, list)?;
    Ok(())
}

/// Appends the entry with the partition `label` and the value `list`, unless `label` has an entry
/// already, and returns the index of the entry of `label`. On an error the entries are unchanged.
pub fn keep<V: Drop>(lists: &mut Lists<V>, label: Partition, list: V) -> Result<usize, AllocError>
    ensures kept { OnOk result (HasKept label list lists.old.entries lists.new.entries) }
    ensures place { IfOk result (StandsAt lists.new.entries label) }
    ensures err { OnErr result (lists.new.entries ≡ lists.old.entries) }
{
    match lists.get_index_of(&label) {
        Some(at) => Ok(at),
        None => {
            let at = lists.len();
            put(lists, label, list)?;
            Ok(at)
        }
    }
}
