//! An estimate of the time that a coefficient takes.

use calc_base::NoMemory;
use std::alloc::Global;

/// The number of partitions inside the partition `shape`, or 2^64 - 1 if it is greater.
pub(crate) fn number_inside(alloc: Global, shape: &[u16]) -> Result<u64, NoMemory> {
    let Some((first, rest)) = shape.split_first() else {
        return Ok(1);
    };
    // From the first row down: for each x up to the part of this row, the number of choices of this
    // row and the rows above it in which this row has x cells.
    let mut choices: Vec<u64> = vec![in alloc; 1; usize::from(*first) + 1]?;
    for part in rest {
        add_from_last(&mut choices);
        choices.truncate(usize::from(*part) + 1);
    }
    Ok(total(&choices))
}

/// Replaces each number by the sum of the numbers from it on.
fn add_from_last(numbers: &mut [u64]) {
    let mut sum: u64 = 0;
    for number in numbers.iter_mut().rev() {
        sum = sum.saturating_add(*number);
        *number = sum;
    }
}

/// The sum of the numbers.
fn total(numbers: &[u64]) -> u64 {
    let mut sum: u64 = 0;
    for number in numbers {
        sum = sum.saturating_add(*number);
    }
    sum
}
