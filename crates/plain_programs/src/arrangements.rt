//! Slow programs that follow the definitions, for the arrangements of the parts of a partition in n
//! places, and for the conjugate of a partition.

ghost use Rattle.std.specs.Prelude.{◌≡◌, ◌^◌, ◌<◌, ◌≤◌, IfOk, length};
ghost use Rattle.sym_model.specs.Partition.{size};
ghost use Rattle.sym_model.specs.Polynomial.{same};
ghost use Rattle.sym_model.specs.Arrangement.{arrangements};
ghost use Rattle.sym_model.specs.Conjugate.{count_from, conjugate};
ghost use Rattle.plain_programs.specs.PlainLists.{lists};

use crate::bases::sorts_to;
use crate::exponent_lists::plain_exponent_lists;
use crate::numbers::number_at;
use crate::printed_order::plain_size;
use std::alloc::{AllocError, Global};

/// The distinct lists of `places` numbers whose positive numbers are the parts in some order, the
/// others being 0, in decreasing lexicographic order; none if there are more parts than places. The
/// sum of the parts is below 2^64. Fails only if memory runs out.
pub fn plain_arrangements(
    alloc: Global,
    parts: &[u64],
    places: usize,
) -> Result<Vec<Vec<u64>>, AllocError>
    requires { size parts.now < 2 ^ 64 }
    ensures { IfOk result (λ all. lists all ≡ arrangements parts.now places) }
{
    let mut kept = Vec::new(alloc);
    for exponents in plain_exponent_lists(alloc, places, plain_size(parts))? {
        if sorts_to(alloc, &exponents, parts)? {
            kept.push(exponents)?;
        }
    }
    Ok(kept)
}

/// The conjugate of a partition. Fails only if memory runs out.
pub fn plain_conjugate(alloc: Global, parts: &[u64]) -> Result<Vec<u64>, AllocError>
    ensures { IfOk result (λ columns. columns.items ≡ conjugate parts.now) }
{
    let mut columns = Vec::new(alloc);
    for j in 0..number_at(parts, 0) {
        columns.push(count_at_least(j + 1, parts))?;
    }
    Ok(columns)
}

/// The number of entries that are at least j.
fn count_at_least(j: u64, numbers: &[u64]) -> u64
    ensures count { result ≡ count_from j numbers.now }
    ensures bound { result ≤ length numbers.now }
{
    let [first, others @ ..] = numbers else {
        return 0;
    };
    let rest = count_at_least(j, others);
    if j <= *first { rest + 1 } else { rest }
}
