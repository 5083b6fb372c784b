//! Counts of good tableaux, as lists of terms. A tableau is good for a partition `start` if `start`
//! plus the content of its last k columns is a partition for each k. A table has states: a state is
//! such a sum, followed by the numbers of the column or row added last, and has a count, the number
//! of ways to reach it.
ghost use Rattle.std.specs.Prelude.{◌≡◌, ℕ, ◌+◌, ◌^◌, ◌<◌, ◌≤◌, ◌+ℤ◌, List, [], true, pos, length};
ghost use Rattle.std.specs.Prelude.{nat_eq, IfOk, OnOk, IsErrOf};
ghost use Rattle.std.specs.Cmp.Lexicographic.{pointwise};
ghost use Rattle.sym_model.specs.Partition.{IsPartition, size, rows, without_last_zeros};
ghost use Rattle.sym_model.specs.Schur.{contains};
ghost use Rattle.partitions.specs.Limits.{IsWithinLimits};
ghost use Rattle.linear_combinations.specs.Entries.{coefficient, HasMoreAt};
ghost use Rattle.lr_product.specs.WeighedSum.{weighed, unreached, comes_to};
ghost use Rattle.lr_product.specs.Counts.{good_count, HasCounts, IsPastSomewhere};

use crate::columns::ways_by_columns;
use crate::sorted_pairs::{refuse_large, sorted_pairs};
use crate::states::{States, coefficient_of};
use calc_base::SumFault;
use coeff_rings::Int;
use linear_combinations::{Lin, Terms};
use partitions::Partition;
use std::alloc::Global;

/// The list of terms in which each partition ν has as its coefficient the number of good tableaux T
/// of outer/inner for `start`, with entries up to `letters`, such that start + content(T) = ν.
///
/// Unless memory runs out, returns `Large` if and only if one of these numbers exceeds 2^127 - 1.
pub(crate) fn good_counts(
    alloc: Global,
    start: &[u16],
    outer: &Partition,
    inner: &[u16],
    letters: u16,
) -> Result<Terms<Partition, Int>, SumFault>
    requires letters { letters ≤ 512 }
    requires start { IsPartition start.now }
    requires rows { rows start.now ≤ letters }
    requires inside { contains outer.now inner.now ≡ true }
    requires size { size start.now + size outer.now ≤ 4096 }
    ensures counts { IfOk result (HasCounts letters
        (good_count letters start.now outer.now inner.now)) }
    ensures fits { OnOk result ((parts : List ℕ)
        → good_count letters start.now outer.now inner.now parts < 2 ^ 127) }
    ensures large { IsErrOf result SumFault.Large
        → IsPastSomewhere letters (good_count letters start.now outer.now inner.now) }
{
    let table = ways_by_columns(alloc, start, outer, inner, letters, &[])?;
    terms_of_table(alloc, table, letters)
}

/// The list without terms.
pub(crate) fn no_terms(alloc: Global) -> Result<Terms<Partition, Int>, SumFault>
    ensures none { IfOk result (λ terms. terms ≡ []) }
    ensures small { ¬ IsErrOf result SumFault.Large }
{
    let terms: Lin<Partition, Int> = Lin::new(alloc);
    Ok(terms.sorted_terms()?)
}

/// The list of terms for the states of a table: the label of a state is its sum without the zeros
/// at the end, and the coefficient of a label is the total count of its states.
pub(crate) fn terms_of_table(
    alloc: Global,
    table: States,
    letters: u16,
) -> Result<Terms<Partition, Int>, SumFault>
    requires letters { letters ≤ 512 }
    requires reached { weighed letters (unreached letters 4096) table.entries ≡ 0 }
    ensures counts { IfOk result (HasCounts letters
        (λ parts. weighed letters (comes_to parts) table.entries)) }
    ensures fits { OnOk result ((parts : List ℕ)
        → weighed letters (comes_to parts) table.entries < 2 ^ 127) }
    ensures large { IsErrOf result SumFault.Large
        → IsPastSomewhere letters (λ parts. weighed letters (comes_to parts) table.entries) }
{
    refuse_large(&table)?;
    let pairs = sorted_pairs(alloc, &table, letters)?;
    if let Some(terms) = Terms::from_pairs(pairs) {
        return Ok(terms);
    }
    collected_terms(alloc, table, letters)
}

/// The list of terms for the states of a table, as in `terms_of_table`, made by adding up the
/// counts by label. The sums may have different sizes, and a sum may occur more than once.
fn collected_terms(
    alloc: Global,
    table: States,
    letters: u16,
) -> Result<Terms<Partition, Int>, SumFault>
    requires letters { letters ≤ 512 }
    requires reached { weighed letters (unreached letters 4096) table.entries ≡ 0 }
    ensures counts { IfOk result (HasCounts letters
        (λ parts. weighed letters (comes_to parts) table.entries)) }
    ensures fits { OnOk result ((parts : List ℕ)
        → weighed letters (comes_to parts) table.entries < 2 ^ 127) }
    ensures large { IsErrOf result SumFault.Large
        → IsPastSomewhere letters (λ parts. weighed letters (comes_to parts) table.entries) }
{
    let mut terms: Lin<Partition, Int> = Lin::new(alloc);
    for at in 0..table.len() {
        let (state, ways) = table.entry(at);
        if ways == 0 {
            continue;
        }
        let sum = &state[..usize::from(letters)];
        add_sum(alloc, &mut terms, sum, ways)?;
    }
    drop(table);
    Ok(terms.sorted_terms()?)
}

/// Adds `ways` to the coefficient of the label `sum` without the zeros at its end. If `ways` is
/// 2^127 or more, returns `Large` before any memory is allocated.
fn add_sum(
    alloc: Global,
    terms: &mut Lin<Partition, Int>,
    sum: &[u16],
    ways: u128,
) -> Result<(), SumFault>
    requires { IsWithinLimits (without_last_zeros sum.now) }
    ensures more { OnOk result (HasMoreAt (pointwise nat_eq) (pos 0) ◌+ℤ◌ terms.old
        (without_last_zeros sum.now) (pos ways) terms.new) }
    ensures large { IsErrOf result SumFault.Large
        → (n : ℕ) → coefficient (pointwise nat_eq) (pos 0) terms.old (without_last_zeros sum.now)
        ≡ pos n → 2 ^ 127 ≤ n + ways }
    ensures past { 2 ^ 127 ≤ ways → IsErrOf result SumFault.Large }
{
    let count = coefficient_of(ways)?;
    let label = Partition::from_valid_numbers(alloc, sum)?;
    terms.add_term(label, count)
}
