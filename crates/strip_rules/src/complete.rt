//! Products of linear combinations of monomial symmetric polynomials (lists in m) and h_k.
ghost use Rattle.std.specs.Prelude.{◌≡◌, ◌+◌, ◌^◌, ◌<◌, ◌≤◌, ◌≤ℤ◌, ◌*ℤ◌, pos, nat_abs};
ghost use Rattle.std.specs.Prelude.{ℕ, List, [], ◌∷◌, ◌++◌, drop, MatchResult, SomeIff};
ghost use Rattle.std.specs.Prelude.{IfOk, OnOk, IsErrOf};
ghost use Rattle.sym_model.specs.Bases.{complete_of};
ghost use Rattle.sym_model.specs.Conjugate.{count_from};
ghost use Rattle.sym_model.specs.Partition.{IsPartition, Falls, Holds, part, size};
ghost use Rattle.sym_model.specs.Polynomial.{Same, times};
ghost use Rattle.sym_model.specs.Sum.{Among};
ghost use Rattle.monomial_laws.specs.ExpressionTerms.{absolute, complete_terms, in_monomials};
ghost use Rattle.monomial_laws.specs.MonomialProduct.{product_coefficient};
ghost use Rattle.strip_rules.specs.StripProduct.{placings};
ghost use Rattle.linear_combinations.specs.Gains.{Gains, HaveLabels, Overflows, scaled};
ghost use Rattle.partitions.specs.Limits.{IsWithinLimits};
ghost use Rattle.product_laws.specs.StripLists.{ListsEach};
ghost use Rattle.sparse_polys.specs.Tables.{equal, IsWholeTable};
ghost use Rattle.strip_rules.specs.Rows.{AddsBelow, AddsCells, HasAdded, with_placings};

use crate::counts::{times_count, times_quotient};
use calc_base::{Large, NoMemory, SumFault};
use coeff_rings::{Int, Scalar};
use linear_combinations::{Lin, Rule};
use partitions::Partition;
use sparse_polys::Whole;
use std::alloc::Global;

/// The number of rows of length at least `v`; the rows are weakly decreasing.
fn rows_from(rows: &[u16], v: u16) -> usize
    requires { Falls rows.now }
    ensures { result ≡ count_from v rows.now }
{
    let mut count = 0;
    while count < rows.len() && rows[count] >= v {
        count += 1;
    }
    count
}

/// The number of ways to give each row of a partition ν (`shape`) a part of a partition μ (`inner`)
/// or 0, such that each part of μ is used once and no row is shorter than the number given to it;
/// `None` if there are 2^128 ways or more. Exchanging equal parts gives no new way. ν must contain
/// μ.
///
/// Let v be the first part of μ. The number of ways for μ and ν, times the number of parts of μ
/// that are at least v, is the number of ways for μ and ν without their first rows, times the
/// number of rows of ν that are at least v. So there are not more ways without the first rows.
fn placings(inner: &[u16], shape: &[u16]) -> Option<u128>
    requires inner { IsPartition inner.now }
    requires shape { IsPartition shape.now }
    requires contained { Holds shape.now inner.now }
    ensures { SomeIff result (placings inner.now shape.now < 2 ^ 128)
        (placings inner.now shape.now) }
{
    let [v, below @ ..] = inner else {
        return Some(1);
    };
    let later = placings(below, &shape[1..])?;
    times_quotient(later, rows_from(shape, *v), rows_from(inner, *v))
}

/// The product of c and the number `placings` of `inner` and `shape`. Returns an error only if the
/// absolute value of this product is 2^127 or more.
fn times_placings(c: Int, inner: &[u16], shape: &[u16]) -> Result<Int, Large>
    requires inner { IsPartition inner.now }
    requires shape { IsPartition shape.now }
    requires contained { Holds shape.now inner.now }
    ensures { MatchResult result
        (λ product. product ≡ c *ℤ pos (placings inner.now shape.now))
        (λ _. 2 ^ 127 ≤ nat_abs (c *ℤ pos (placings inner.now shape.now))) }
{
    if c.is_zero() {
        return Ok(c);
    }
    times_count(c, placings(inner, shape))
}

/// For each of `shapes`, adds `c` times the number `placings` of `label` and the shape to the
/// coefficient of the shape in `sum`. Each of `shapes` must contain the partition `label`.
fn add_placings(
    label: &Partition,
    shapes: &[Partition],
    c: Int,
    sum: &mut Whole,
) -> Result<(), SumFault>
    requires { (ν : List ℕ) → Among ν shapes.now → Holds ν label.now }
    ensures gains { OnOk result
        (Gains sum.old (scaled c (with_placings label.now shapes.now)) sum.new) }
    ensures large { IsErrOf result SumFault.Large
        → Overflows equal sum.old (scaled c (with_placings label.now shapes.now)) }
{
    for shape in shapes {
        let product = times_placings(c, label.parts(), shape.parts())?;
        sum.add_at_label(shape, product)?;
    }
    Ok(())
}

/// The length of the first row, or 0 if there are no rows, and the rows after the first.
fn first_and_below(rows: &[u16]) -> (u16, &[u16])
    ensures first { result.0 ≡ part rows.now 1 }
    ensures below { result.1.now ≡ drop 1 rows.now }
{
    match rows {
        [first, below @ ..] => (*first, below),
        [] => (0, rows),
    }
}

/// Appends to `shapes` the partition with the rows of `above`, followed by those of `inner`. At the
/// end `above` is unchanged.
fn add_shape(
    alloc: Global,
    inner: &[u16],
    above: &mut Vec<u16>,
    shapes: &mut Vec<Partition>,
) -> Result<(), NoMemory>
    requires limits { IsWithinLimits (above.old.items ++ inner.now) }
    ensures same { OnOk result (above.new.items ≡ above.old.items) }
    ensures shapes { OnOk result (shapes.new.items
        ≡ shapes.old.items ++ (above.old.items ++ inner.now) ∷ []) }
{
    let len = above.len();
    above.extend_from_slice(inner)?;
    shapes.push(Partition::from_valid_parts(alloc, above)?)?;
    above.truncate(len);
    Ok(())
}

/// Appends to `shapes` one partition for each partition ν that contains `inner`, has `left` cells
/// more than `inner`, and has no row longer than `most`: the rows of `above` followed by the rows
/// of ν. At the end `above` is unchanged.
fn add_shapes(
    alloc: Global,
    most: u16,
    left: u16,
    inner: &[u16],
    above: &mut Vec<u16>,
    shapes: &mut Vec<Partition>,
) -> Result<(), NoMemory>
    requires inner { IsPartition inner.now }
    requires falls { Falls (most ∷ inner.now) }
    requires cells { size inner.now + left ≤ 512 }
    requires limits { (rest : List ℕ) → AddsBelow most left inner.now rest
        → IsWithinLimits (above.old.items ++ rest) }
    ensures same { OnOk result (above.new.items ≡ above.old.items) }
    ensures shapes { OnOk result (HasAdded (AddsBelow most left inner.now) above.old.items
        shapes.old.items shapes.new.items) }
{
    if left == 0 {
        return add_shape(alloc, inner, above, shapes);
    }
    let len = above.len();
    let (first, below) = first_and_below(inner);
    for row in first.max(1)..most.min(first + left) + 1 {
        above.push(row)?;
        add_shapes(alloc, row, first + left - row, below, above, shapes)?;
        above.truncate(len);
    }
    Ok(())
}

/// The partitions that contain `inner` and have k more cells, each once.
fn with_cells(alloc: Global, inner: &Partition, k: u16) -> Result<Vec<Partition>, NoMemory>
    requires { size inner.now + k ≤ 512 }
    ensures shapes { IfOk result (λ shapes. ListsEach (AddsCells k inner.now) shapes.items) }
    ensures limits { OnOk result (IsWithinLimits inner.now) }
{
    let mut shapes = Vec::new(alloc);
    let mut above = Vec::with_capacity(alloc, usize::from(inner.rows() + k))?;
    let most = inner.size() + k;
    add_shapes(alloc, most, k, inner.parts(), &mut above, &mut shapes)?;
    Ok(shapes)
}

/// The rule that multiplies by h_k: m_μ·h_k is the sum of c_ν·m_ν over the partitions ν with k more
/// cells than μ. Here c_ν is the number of ways to give each row of ν a part of μ or 0, such that
/// each part of μ is used once and no row is shorter than the number given to it; exchanging equal
/// parts gives no new way.
#[derive(Drop)]
struct TimesComplete {
    alloc: Global,
    k: u16,
}

impl Rule<Partition, Partition> for TimesComplete {
    ghost use Rattle.sym_model.specs.Partition.{size};
    ghost use Rattle.strip_rules.specs.Rows.{row_terms};

    ghost takes = { λ rule label. size label + rule.k ≤ 512 };

    ghost image = { λ rule label. row_terms rule.k label };

    fn add_image(&self, label: &Partition, c: Int, sum: &mut Whole) -> Result<(), SumFault> {
        let shapes = with_cells(self.alloc, label, self.k)?;
        add_placings(label, &shapes, c, sum)
    }
}

/// The product of a linear combination of monomial symmetric polynomials (a list in m) and h_k, in
/// every number of variables (Macdonald, I.2); h_k is the sum of all m_λ with λ of size k. Each
/// label has at most 512 - k cells.
///
/// Replace the coefficients of the list by their absolute values. Returns `Large` only if some
/// coefficient of the product of the resulting list and h_k is 2^127 or more.
///
/// Example: h_2 times m_(1) is m_(3) + 2 m_(2,1) + 3 m_(1,1,1).
pub fn times_complete(alloc: Global, list: &Whole, k: u16) -> Result<Whole, SumFault>
    requires { HaveLabels (λ μ. size μ + k ≤ 512) list.now }
    ensures value { IfOk result (λ product. (n : ℕ)
        → Same (in_monomials product n) (times (complete_of k n) (in_monomials list.now n))) }
    ensures table { IfOk result IsWholeTable }
    ensures large { IsErrOf result SumFault.Large → (ν : List ℕ) × IsPartition ν
        × (pos (2 ^ 127) ≤ℤ product_coefficient (absolute list.now) (complete_terms k) ν) }
{
    let mut product = Lin::new(alloc);
    product.add_by(&TimesComplete { alloc, k }, list)?;
    Ok(product)
}
