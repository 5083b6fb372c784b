//! One coefficient of a product of two Schur polynomials.
ghost use Rattle.std.specs.Prelude.{◌≡◌, ◌+◌, ◌≤◌, pos, IfOk, IfSome, OnOk, IsErrOf};
ghost use Rattle.sym_model.specs.Partition.{IsPartition, size, rows};
ghost use Rattle.sym_model.specs.GoodTableau.{product_count};
ghost use Rattle.sym_model.specs.PastLimit.{HasPast};
ghost use Rattle.sym_model.specs.Products.{IsProductCoefficientOf};
ghost use Rattle.lr_coefficient.specs.SameCoefficient.{HasSameCoefficient};

use crate::complement::complement;
use crate::estimate::number_inside;
use calc_base::{NoMemory, SumFault};
use coeff_rings::Int;
use partitions::Partition;
use std::alloc::Global;

/// The greatest number of cells that both factors may have together, for `lr_product::coef`.
const MOST_CELLS: u16 = 4096;

/// The greatest number of ways to add a row that are tried before the columns of another form are
/// taken.
const MOST_ADDITIONS: u64 = 1 << 18;

/// A coefficient that can be counted: that of `outer` in the product of `left` and `right`.
#[derive(Debug, Drop)]
struct Coefficient {
    outer: Partition,
    left: Partition,
    right: Partition,
}

/// The coefficient of the Schur polynomial of `outer` in the product of those of `left` and
/// `right`: the number of good tableaux T of the shape `right` for the start `left` such that
/// `left` + content(T) = `outer`.
///
/// Unless memory runs out, returns `Large` if and only if this coefficient exceeds 2^127 - 1.
pub fn coef(
    alloc: Global,
    outer: &Partition,
    left: &Partition,
    right: &Partition,
) -> Result<Int, SumFault>
    requires { size left.now + size right.now ≤ 4096 }
    ensures count { IfOk result (λ c. c
        ≡ pos (product_count (rows outer.now) left.now right.now outer.now)) }
    ensures meets { IfOk result (λ c. IsProductCoefficientOf outer.now left.now right.now c) }
    ensures large { IsErrOf result SumFault.Large
        → HasPast (IsProductCoefficientOf outer.now left.now right.now) }
    ensures fits { OnOk result (HasPast (IsProductCoefficientOf outer.now left.now right.now)
        → ⊥) }
{
    if let Some(count) = count_by_rows(alloc, outer, left, right)? {
        return Ok(count);
    }
    match fastest(alloc, outer, left, right)? {
        Some(other) => lr_product::coef(alloc, &other.outer, &other.left, &other.right),
        None => lr_product::coef(alloc, outer, left, right),
    }
}

/// The same coefficient, counted by rows, for a partition with more than six rows; else
/// `lr_product::coef` knows whether rows or columns are faster. `None` if a row can be added in too
/// many ways: in more than a quarter of the number of partitions inside a factor, which is about the
/// number of states of the columns of the fastest form.
fn count_by_rows(
    alloc: Global,
    outer: &Partition,
    left: &Partition,
    right: &Partition,
) -> Result<Option<Int>, SumFault>
    requires { size left.now + size right.now ≤ 4096 }
    ensures count { IfOk result (λ o. IfSome o (λ c. c
        ≡ pos (product_count (rows outer.now) left.now right.now outer.now))) }
    ensures meets { IfOk result (λ o. IfSome o (λ c.
        IsProductCoefficientOf outer.now left.now right.now c)) }
    ensures large { IsErrOf result SumFault.Large
        → HasPast (IsProductCoefficientOf outer.now left.now right.now) }
    ensures fits { IfOk result (λ o. IfSome o (λ _.
        HasPast (IsProductCoefficientOf outer.now left.now right.now) → ⊥)) }
{
    let k = outer.rows();
    if k <= 6 {
        return Ok(None);
    }
    let inside = fewest_inside(alloc, k, left)?.min(fewest_inside(alloc, k, right)?);
    let most = (inside / 4).min(MOST_ADDITIONS) as usize;
    lr_product::coef_by_rows(alloc, outer, left, right, most)
}

/// The number of partitions inside a factor, or inside its complement in the narrowest rectangle
/// with `k` rows if these are fewer.
fn fewest_inside(alloc: Global, k: u16, factor: &Partition) -> Result<u64, NoMemory> {
    let inside = number_inside(alloc, factor.parts())?;
    if factor.rows() > k {
        return Ok(inside);
    }
    let Some(other) = complement(alloc, k, factor.part(1), factor)? else {
        return Ok(inside);
    };
    Ok(inside.min(number_inside(alloc, other.parts())?))
}

/// The complements of the partitions, or the complements of these, which are the partitions without
/// the columns of the factors that are as long as `outer`; those that are estimated to be faster.
/// `None` if the complements are too large, or the partitions do not lie in the rectangles.
fn fastest(
    alloc: Global,
    outer: &Partition,
    left: &Partition,
    right: &Partition,
) -> Result<Option<Coefficient>, NoMemory>
    ensures same { IfOk result (λ o. IfSome o (λ c. HasSameCoefficient (rows outer.now) outer.now
        left.now right.now c.outer c.left c.right)) }
    ensures small { IfOk result (λ o. IfSome o (λ c. size c.left + size c.right ≤ 4096)) }
{
    let k = outer.rows();
    let Some(once) = complements(alloc, k, outer, left, right)? else {
        return Ok(None);
    };
    let Some(twice) = complements(alloc, k, &once.outer, &once.left, &once.right)? else {
        return Ok(None);
    };
    if once.states(alloc)? < twice.states(alloc)? {
        return Ok(Some(once));
    }
    Ok(Some(twice))
}

/// The complements of the partitions in rectangles with `k` rows: those of the factors in the
/// narrowest ones, that of `outer` in the one as wide as these together. `None` if a partition does
/// not lie in its rectangle, or the factors have more than 4,096 cells in all.
fn complements(
    alloc: Global,
    k: u16,
    outer: &Partition,
    left: &Partition,
    right: &Partition,
) -> Result<Option<Coefficient>, NoMemory>
    ensures same { IfOk result (λ o. IfSome o (λ c. HasSameCoefficient k outer.now left.now
        right.now c.outer c.left c.right)) }
    ensures small { IfOk result (λ o. IfSome o (λ c. size c.left + size c.right ≤ 4096)) }
{
    let width = left.part(1) + right.part(1);
    if outer.rows().max(left.rows()).max(right.rows()) > k || outer.part(1) > width {
        return Ok(None);
    }
    let Some(outer) = complement(alloc, k, width, outer)? else {
        return Ok(None);
    };
    let Some(left) = complement(alloc, k, left.part(1), left)? else {
        return Ok(None);
    };
    let Some(right) = complement(alloc, k, right.part(1), right)? else {
        return Ok(None);
    };
    if left.size() + right.size() > MOST_CELLS {
        return Ok(None);
    }
    Ok(Some(Coefficient { outer, left, right }))
}

impl Coefficient {
    /// The number of partitions inside one of the factors, the one with fewer: about the number of
    /// states when the tableaux are counted by columns.
    fn states(&self, alloc: Global) -> Result<u64, NoMemory> {
        let in_left = number_inside(alloc, self.left.parts())?;
        let in_right = number_inside(alloc, self.right.parts())?;
        Ok(in_left.min(in_right))
    }
}
