//! A slow program that follows the definition, for the order in which terms are printed.

ghost use Rattle.std.specs.Prelude.{◌≡◌, ◌^◌, ◌<◌};
ghost use Rattle.sym_model.specs.Partition.{size};
ghost use Rattle.sym_model.specs.PrintedOrder.{falling_lexicographic, printed_order};

use crate::numbers::number_at;
use std::cmp::Ordering;

/// Compares two lists of numbers in the printed order: the list with the greater sum comes first;
/// lists with equal sums are in decreasing lexicographic order, a missing number being 0. Both sums
/// must be below 2^64. No memory is allocated.
pub fn plain_printed_order(first: &[u64], second: &[u64]) -> Ordering
    requires first_fits { size first.now < 2 ^ 64 }
    requires second_fits { size second.now < 2 ^ 64 }
    ensures { result ≡ printed_order first.now second.now }
{
    let by_size = plain_size(second).cmp(&plain_size(first));
    by_size.then(plain_falling_lexicographic(first, second))
}

/// The sum of the numbers, which is below 2^64.
pub fn plain_size(parts: &[u64]) -> u64
    requires { size parts.now < 2 ^ 64 }
    ensures { result ≡ size parts.now }
{
    let mut total = 0;
    for part in parts {
        total += *part;
    }
    total
}

/// Compares two lists of numbers in decreasing lexicographic order, a missing number being 0. No
/// memory is allocated.
pub fn plain_falling_lexicographic(first: &[u64], second: &[u64]) -> Ordering
    ensures { result ≡ falling_lexicographic first.now second.now }
{
    for i in 0..first.len().max(second.len()) {
        let order = number_at(second, i).cmp(&number_at(first, i));
        if order != Ordering::Equal {
            return order;
        }
    }
    Ordering::Equal
}
