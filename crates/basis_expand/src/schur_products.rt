//! Products of two lists of terms in Schur polynomials, pair by pair.
ghost use Rattle.std.specs.Prelude.{◌↔◌, ◌<◌, ◌+◌, ◌*◌, ◌≤◌, ◌*ℤ◌, ℕ, [], ◌∷◌, IsTrue, IfOk};
ghost use Rattle.std.specs.Prelude.{OnOk, nat_eq, pos};
ghost use Rattle.std.specs.Cmp.Lexicographic.{pointwise};
ghost use Rattle.sym_model.specs.Expansion.{schurs, IsExpansionOf};
ghost use Rattle.sym_model.specs.Partition.{rows, size};
ghost use Rattle.sym_model.specs.LabelLimits.{is_label};
ghost use Rattle.sym_model.specs.Polynomial.{Poly, times};
ghost use Rattle.sym_model.specs.WholeTerms.{WholeTerms};
ghost use Rattle.fraction_laws.specs.Fractions.{scaled, InLowestTerms};
ghost use Rattle.linear_combinations.specs.Cleared.{IsDenominator, IsCommonDenominator};
ghost use Rattle.linear_combinations.specs.Cleared.{AreCleared, GainsCleared, GainsMultiple};
ghost use Rattle.basis_expand.specs.SchurLists.{ComeTo, product_at, row_at};

use calc_base::SumFault;
use coeff_rings::{Frac, Ring};
use linear_combinations::Lin;
use lr_product::mult;
use partitions::Partition;
use std::alloc::Global;

/// Two labels are multiplied only if together they have at most `MAX_CELLS` cells and at most
/// `MAX_ROWS` rows.
const MAX_CELLS: u16 = 4096;

const MAX_ROWS: u16 = 512;

/// Whether two labels can be multiplied, that is, whether the labels of their product are within
/// the limits. Any two labels that occur in the expansion of an expression can be multiplied.
fn can_multiply(left: &Partition, right: &Partition) -> bool
    ensures { IsTrue result ↔ ((size left.now + size right.now ≤ 4096)
        × (rows left.now + rows right.now ≤ 512)) }
{
    left.size() + right.size() <= MAX_CELLS && left.rows() + right.rows() <= MAX_ROWS
}

/// Adds c times the Schur polynomial of `label` to `sum`.
fn add_multiple(label: &Partition, c: Frac, sum: &mut Lin<Partition, Frac>) -> Result<(), SumFault>
    requires { InLowestTerms c }
    ensures { OnOk result (GainsMultiple (pointwise nat_eq) is_label c ((label.now, pos 1) ∷ [])
        sum.old sum.new) }
{
    sum.add_term(label.copy()?, c)
}

/// Adds c times the product of the Schur polynomials of `left` and `right` to `sum`, by the
/// Littlewood-Richardson rule. The Schur polynomial of the empty partition is 1.
fn add_pair(
    alloc: Global,
    left: &Partition,
    right: &Partition,
    c: Frac,
    sum: &mut Lin<Partition, Frac>,
) -> Result<(), SumFault>
    requires { InLowestTerms c }
    ensures { OnOk result ((terms : WholeTerms)
        × ComeTo terms (λ n φ. product_at left.now right.now n φ)
        × GainsMultiple (pointwise nat_eq) is_label c terms sum.old sum.new) }
{
    if left.rows() == 0 {
        return add_multiple(right, c, sum);
    }
    if right.rows() == 0 {
        return add_multiple(left, c, sum);
    }
    if !can_multiply(left, right) {
        return Err(SumFault::Large);
    }
    let terms = mult(alloc, left, right, None)?;
    for (shape, count) in terms {
        let Some(product) = c.mul(Frac::from_whole(count.get())) else {
            return Err(SumFault::Large);
        };
        sum.add_term(shape, product)?;
    }
    Ok(())
}

/// Adds to `sum` the product of c times the Schur polynomial of `left` and the list `right`.
fn add_term_product(
    alloc: Global,
    left: &Partition,
    c: Frac,
    right: &Lin<Partition, Frac>,
    sum: &mut Lin<Partition, Frac>,
) -> Result<(), SumFault>
    ensures { OnOk result ((d e : ℕ) → IsDenominator d c → IsCommonDenominator e right.now
        → AreCleared (pointwise nat_eq) (d * e) sum.old → (gained : WholeTerms)
        × ComeTo gained (λ n φ. scaled d c *ℤ row_at left.now e right.now n φ)
        × GainsCleared (pointwise nat_eq) is_label (d * e) sum.old gained sum.new) }
{
    for (other, factor) in right.iter() {
        let Some(product) = c.mul(*factor) else {
            return Err(SumFault::Large);
        };
        add_pair(alloc, left, other, product, sum)?;
    }
    Ok(())
}

/// The product of two lists of terms in Schur polynomials.
pub(crate) fn product(
    alloc: Global,
    left: &Lin<Partition, Frac>,
    right: &Lin<Partition, Frac>,
) -> Result<Lin<Partition, Frac>, SumFault>
    ensures { IfOk result (λ list. (n : ℕ) (f g : Poly) (p q : ℕ)
        → IsExpansionOf schurs left.now n f p
        → IsExpansionOf schurs right.now n g q → IsExpansionOf schurs list n (times f g) (p * q)) }
{
    let mut sum = Lin::new(alloc);
    for (label, c) in left.iter() {
        add_term_product(alloc, label, *c, right, &mut sum)?;
    }
    Ok(sum)
}
