//! Terms made from a table of states: the label of a term is the sum of a state (its first numbers)
//! without the zeros at its end, and its coefficient is the count of this state. The terms are
//! sorted into the printed order; no counts are added up.
ghost use Rattle.std.specs.Prelude.{◌≡◌, ℕ, ◌+◌, ◌^◌, ◌≤◌, ◌+ℤ◌, List, pos, IfOk, OnErr, OnOk};
ghost use Rattle.std.specs.List.{sum_by};
ghost use Rattle.std.specs.List.Sorted.{IsPermutation};
ghost use Rattle.sym_model.specs.Polynomial.{coefficient};
ghost use Rattle.lr_product.specs.WeighedSum.{weighed, unreached, comes_to};
ghost use Rattle.lr_product.specs.Places.{entry_at, count_at, AreExact, AreSmallTerms};

use crate::states::{CAP, States};
use calc_base::{Large, NoMemory};
use coeff_rings::Int;
use partitions::Partition;
use std::alloc::Global;
use std::cmp::Ordering;

/// Returns an error if and only if some count is 2^127 or more. Allocates no memory.
pub(crate) fn refuse_large(table: &States) -> Result<(), Large>
    ensures exact { OnOk result (AreExact table.now.entries) }
    ensures large { OnErr result
        ((at : ℕ) × (2 ^ 127 ≤ (entry_at table.now.entries at).1)) }
{
    for at in 0..table.len() {
        let (_, ways) = table.entry(at);
        if ways >= CAP {
            return Err(Large);
        }
    }
    Ok(())
}

/// For each state with a positive count, its sum without the zeros at the end, paired with its
/// count. The pairs are in the printed order if all sums have the same size.
pub(crate) fn sorted_pairs(
    alloc: Global,
    table: &States,
    letters: u16,
) -> Result<Vec<(Partition, Int)>, NoMemory>
    requires letters { letters ≤ 512 }
    requires exact { AreExact table.now.entries }
    requires reached { weighed letters (unreached letters 4096) table.now.entries ≡ 0 }
    ensures counts { IfOk result (λ pairs. (parts : List ℕ) → coefficient pairs.items parts
        ≡ pos (weighed letters (comes_to parts) table.now.entries)) }
    ensures small { IfOk result (λ pairs. AreSmallTerms pairs.items) }
{
    let mut places = places_of(alloc, table, letters)?;
    sort_places(table, letters, &mut places);
    let mut pairs: Vec<(Partition, Int)> = Vec::with_capacity(alloc, places.len())?;
    for k in 0..places.len() {
        add_place(alloc, &mut pairs, table, places[k].1, letters)?;
    }
    Ok(pairs)
}

/// The indices of all states of the table, each behind the key (`key_of`) of the sum of its state, by
/// which most sums can be compared.
fn places_of(alloc: Global, table: &States, letters: u16) -> Result<Vec<(u64, usize)>, NoMemory>
    ensures { IfOk result (λ places. (n : ℕ) (f : List ℕ → List ℕ → ℕ)
        → sum_by (λ place. count_at n table.now.entries f place.1) places.items
        ≡ weighed n f table.now.entries) }
{
    let mut places: Vec<(u64, usize)> = Vec::with_capacity(alloc, table.len())?;
    for at in 0..table.len() {
        places.push((key_of(sum_at(table, letters, at)), at))?;
    }
    Ok(places)
}

/// A key of a sum: its first eight numbers as the bytes of one number, the first of them in the
/// highest byte. The first number that is 255 or more counts as 255, and the numbers after it count
/// as 0. So if two sums of the same length have different keys, the one with the greater key is
/// lexicographically greater.
fn key_of(sum: &[u16]) -> u64 {
    let mut key: u64 = 0;
    let mut most = 255;
    for number in sum.iter().take(8) {
        key = key << 8 | u64::from((*number).min(most));
        if *number >= 255 {
            most = 0;
        }
    }
    key
}

/// Sorts the indices of states by the sums of the states, in decreasing lexicographic order. Two sums
/// are compared only if their keys are equal.
fn sort_places(table: &States, letters: u16, places: &mut Vec<(u64, usize)>)
    ensures { IsPermutation places.old.items places.new.items }
{
    places.sort_unstable_by(|a, b| match b.0.cmp(&a.0) {
        Ordering::Equal => sum_at(table, letters, b.1).cmp(&sum_at(table, letters, a.1)),
        order => order,
    });
}

/// The sum of the state at the index `at`: its first `letters` numbers; empty if there is no such
/// state.
fn sum_at(table: &States, letters: u16, at: usize) -> &[u16] {
    match table.get(at) {
        Some((state, _)) => &state[..usize::from(letters).min(state.len())],
        None => &[],
    }
}

/// Appends to `pairs` the pair for the state at the index `at`: its sum without the zeros at the
/// end, and its count. Does nothing if the count is 0.
fn add_place(
    alloc: Global,
    pairs: &mut Vec<(Partition, Int)>,
    table: &States,
    at: usize,
    letters: u16,
) -> Result<(), NoMemory>
    requires letters { letters ≤ 512 }
    requires exact { AreExact table.now.entries }
    requires reached { weighed letters (unreached letters 4096) table.now.entries ≡ 0 }
    ensures adds { OnOk result ((parts : List ℕ) → coefficient pairs.new.items parts
        ≡ coefficient pairs.old.items parts
        +ℤ pos (count_at letters table.now.entries (comes_to parts) at)) }
    ensures small { OnOk result (AreSmallTerms pairs.old.items → AreSmallTerms pairs.new.items) }
{
    let Some((state, ways)) = table.get(at) else {
        return Ok(());
    };
    if ways == 0 {
        return Ok(());
    }
    let label = Partition::from_valid_numbers(alloc, &state[..usize::from(letters)])?;
    pairs.push((label, Int::new(ways as i128)))?;
    Ok(())
}
