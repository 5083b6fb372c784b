//! Lists of records, steps with counts. Records of equal steps are joined where they are found.
ghost use Rattle.std.specs.Prelude.{◌≡◌, ℕ, ◌+◌, ◌*◌, ◌<◌, ◌++◌, List, [], ◌∷◌, Some, None};
ghost use Rattle.std.specs.Prelude.{OnOk, IfOk, IfSome, IsNone, MatchOption, slice_get, length};
ghost use Rattle.std.specs.List.{All};
ghost use Rattle.std.specs.List.Sorted.{IsPermutation};
ghost use Rattle.std.specs.Map.{keys_of};
ghost use Rattle.prefix_walk.specs.Steps.{if_entry, sum_at};
ghost use Rattle.prefix_walk.specs.Levels.{at_most_cap, weighed_at, Rise, IsStep, IsLast};

use crate::places::Places;
use crate::prefixes::Prefixes;
use calc_base::{LIMIT, NoMemory};

/// A step, an entry with the state that it leads to, and a count.
pub(crate) type Record<S> = ((u16, S), u128);

/// The sum of two counts, capped at 2^127.
pub(crate) fn joined(one: u128, other: u128) -> u128
    ensures { result ≡ at_most_cap (one + other) }
{
    one.saturating_add(other).min(LIMIT)
}

/// The index, out of the one given, of a record with an equal step.
fn found<S: Copy, P: Prefixes<S>>(
    rule: &P,
    records: &[Record<S>],
    at: usize,
    entry: u16,
    state: &S,
) -> Option<usize>
    ensures { IfSome result (λ i. slice_get (keys_of records.now) i ≡ Some (entry, state.now)) }
{
    let ((other, there), _) = records.get(at)?;
    if *other == entry && rule.is_same(there, state) {
        return Some(at);
    }
    None
}

/// Adds to the count of the record at an index.
fn add_at<S: Copy>(records: &mut Vec<Record<S>>, at: usize, count: u128)
    requires within { at < length records.old.items }
    ensures keys { keys_of records.new.items ≡ keys_of records.old.items }
    ensures adds { (a : ℕ) (f : S → ℕ) (step : ℕ × S)
        → slice_get (keys_of records.old.items) at ≡ Some step
        → at_most_cap (weighed_at a f records.new.items)
        ≡ at_most_cap (weighed_at a f records.old.items + count * if_entry a f step) }
{
    records[at].1 = joined(records[at].1, count);
}

/// Adds a step with a count: to the record with an equal step, if it is found at its place, or as a
/// further record.
fn add<S: Copy, P: Prefixes<S>>(
    rule: &P,
    step: (u16, S),
    count: u128,
    records: &mut Vec<Record<S>>,
    places: &mut Places,
) -> Result<(), NoMemory>
    ensures steps { OnOk result ((n : ℕ) → IsStep (P.is_state rule.now n) (P.end rule.now) step
        → All (λ r. IsStep (P.is_state rule.now n) (P.end rule.now) r.0) records.old.items
        → All (λ r. IsStep (P.is_state rule.now n) (P.end rule.now) r.0) records.new.items) }
    ensures adds { OnOk result ((a : ℕ) (f : S → ℕ) → at_most_cap (weighed_at a f records.new.items)
        ≡ at_most_cap (weighed_at a f records.old.items + count * if_entry a f step)) }
{
    let place = rule.place(step.0, &step.1);
    if let Some(at) = found(rule, records, places.get(place), step.0, &step.1) {
        add_at(records, at, count);
        return Ok(());
    }
    places.put(place, records.len())?;
    records.push((step, count))?;
    Ok(())
}

/// Adds steps, each with the same count.
pub(crate) fn add_all<S: Copy, P: Prefixes<S>>(
    rule: &P,
    steps: &[(u16, S)],
    count: u128,
    records: &mut Vec<Record<S>>,
    places: &mut Places,
) -> Result<(), NoMemory>
    ensures steps { OnOk result ((n : ℕ)
        → All (IsStep (P.is_state rule.now n) (P.end rule.now)) steps.now
        → All (λ r. IsStep (P.is_state rule.now n) (P.end rule.now) r.0) records.old.items
        → All (λ r. IsStep (P.is_state rule.now n) (P.end rule.now) r.0) records.new.items) }
    ensures adds { OnOk result ((a : ℕ) (f : S → ℕ) → at_most_cap (weighed_at a f records.new.items)
        ≡ at_most_cap (weighed_at a f records.old.items + count * sum_at a f steps.now)) }
{
    for step in steps {
        add(rule, *step, count, records, places)?;
    }
    Ok(())
}

/// Sorts records by their entries.
pub(crate) fn sort<S: Copy>(records: &mut Vec<Record<S>>)
    ensures permutation { IsPermutation records.old.items records.new.items }
    ensures rise { Rise records.new.items }
{
    records.sort_unstable_by_key(|record| record.0.0);
}

/// The entry of the last record.
pub(crate) fn last_entry<S>(records: &[Record<S>]) -> Option<u16>
    ensures { MatchOption result (records.now ≡ []) (λ a. IsLast a records.now) }
{
    match records.split_last() {
        Some((((entry, _), _), _)) => Some(*entry),
        None => None,
    }
}

/// Takes the last record, if it has the given entry.
pub(crate) fn pop_at<S: Copy>(records: &mut Vec<Record<S>>, entry: u16) -> Option<Record<S>>
    ensures some { IfSome result (λ r. r.0.0 ≡ entry) }
    ensures items { IfSome result (λ r. records.old.items ≡ records.new.items ++ r ∷ []) }
    ensures same { IsNone result → records.new.items ≡ records.old.items }
    ensures below { IsNone result → Rise records.old.items
        → All (λ r. r.0.0 < entry + 1) records.old.items → All (λ r. r.0.0 < entry) records.old.items }
{
    if last_entry(records) != Some(entry) {
        return None;
    }
    records.pop()
}
