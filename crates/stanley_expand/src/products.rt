//! Products of two sums of Schur polynomials, pair by pair.
ghost use Rattle.std.specs.Prelude.{◌+◌, ◌<◌, ◌≤◌, ◌*ℤ◌, IfOk, OnOk, OnErr};
ghost use Rattle.sym_model.specs.Partition.{size, rows as number_of_rows};
ghost use Rattle.sym_model.specs.Polynomial.{Poly, pair, times};
ghost use Rattle.sym_model.specs.Schur.{schur};
ghost use Rattle.linear_combinations.specs.Gains.{over, HaveLabels};
ghost use Rattle.stanley_expand.specs.Blocks.{IsAdded, IsSumFor, summed};

use crate::walk::Schurs;
use calc_base::{Large, SumFault};
use coeff_rings::{Int, product_of};
use linear_combinations::{Lin, Terms};
use lr_product::mult;
use partitions::Partition;
use std::alloc::Global;

/// Two labels are multiplied only if together they have at most `MAX_CELLS` cells.
const MAX_CELLS: u16 = 4096;

/// The product of the sums `left` and `right` of Schur polynomials, in `rows` variables. All their
/// labels have at most `rows` rows.
///
/// Returns `Large` if a number is too large, also if it is not a coefficient of the product.
pub(crate) fn product(
    alloc: Global,
    left: &Schurs,
    right: &Schurs,
    rows: u16,
) -> Result<Schurs, SumFault>
    requires variables { (1 ≤ rows) × (rows ≤ 64) }
    requires left { HaveLabels (λ κ. number_of_rows κ ≤ rows) left.now }
    requires right { HaveLabels (λ κ. number_of_rows κ ≤ rows) right.now }
    ensures { IfOk result (λ sum. (f g : Poly) → IsSumFor rows f left.now
        → IsSumFor rows g right.now → IsSumFor rows (times f g) sum) }
{
    let mut sum = Lin::new(alloc);
    for (shape, count) in left.iter() {
        add_row(alloc, &mut sum, shape, *count, right, rows)?;
    }
    Ok(sum)
}

/// Adds to `sum` the product of `count` times the Schur polynomial of `left` and the sum `right`,
/// in `rows` variables.
fn add_row(
    alloc: Global,
    sum: &mut Schurs,
    left: &Partition,
    count: Int,
    right: &Schurs,
    rows: u16,
) -> Result<(), SumFault>
    requires variables { (1 ≤ rows) × (rows ≤ 64) }
    requires left { number_of_rows left.now ≤ rows }
    requires right { HaveLabels (λ κ. number_of_rows κ ≤ rows) right.now }
    ensures { OnOk result (IsAdded rows sum.old
        (λ φ. count *ℤ over (λ κ. pair (times (schur left.now rows) (schur κ rows)) φ) right.now)
        sum.new) }
{
    for (shape, more) in right.iter() {
        add_pair(alloc, sum, left, shape, product_of(count, *more)?, rows)?;
    }
    Ok(())
}

/// Adds to `sum` `count` times the product of the Schur polynomials of `left` and `right`, in
/// `rows` variables.
fn add_pair(
    alloc: Global,
    sum: &mut Schurs,
    left: &Partition,
    right: &Partition,
    count: Int,
    rows: u16,
) -> Result<(), SumFault>
    requires variables { (1 ≤ rows) × (rows ≤ 64) }
    requires left { number_of_rows left.now ≤ rows }
    requires right { number_of_rows right.now ≤ rows }
    ensures { OnOk result (IsAdded rows sum.old
        (λ φ. count *ℤ pair (times (schur left.now rows) (schur right.now rows)) φ) sum.new) }
{
    refuse_large(left, right)?;
    add_multiple(sum, mult(alloc, left, right, Some(rows))?, count, rows)
}

/// Returns an error if and only if the two labels together have more than `MAX_CELLS` cells.
/// Allocates no memory.
fn refuse_large(left: &Partition, right: &Partition) -> Result<(), Large>
    ensures small { OnOk result (size left.now + size right.now ≤ 4096) }
    ensures large { OnErr result (4096 < size left.now + size right.now) }
{
    if left.size() + right.size() > MAX_CELLS {
        return Err(Large);
    }
    Ok(())
}

/// Adds `count` times the list `terms` of Schur polynomials to `sum`. All labels have at most `rows`
/// rows.
fn add_multiple(
    sum: &mut Schurs,
    terms: Terms<Partition, Int>,
    count: Int,
    rows: u16,
) -> Result<(), SumFault>
    requires { HaveLabels (λ κ. number_of_rows κ ≤ rows) terms }
    ensures { OnOk result (IsAdded rows sum.old (λ φ. count *ℤ summed rows φ terms) sum.new) }
{
    for (shape, more) in terms {
        let product = product_of(count, more)?;
        sum.add_owned(shape, product)?;
    }
    Ok(())
}
