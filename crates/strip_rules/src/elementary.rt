//! Products of linear combinations of monomial symmetric polynomials (lists in m) and e_k.
ghost use Rattle.std.specs.Prelude.{◌≡◌, ℕ, ◌+◌, ◌^◌, ◌≤◌, ◌*ℤ◌, pos, [], ◌∷◌};
ghost use Rattle.std.specs.Prelude.{FitsSigned, MatchOption, IfOk, OnOk, IsErrOf};
ghost use Rattle.std.specs.Int.{w128};
ghost use Rattle.sym_model.specs.Bases.{elementary_of};
ghost use Rattle.sym_model.specs.Partition.{size};
ghost use Rattle.sym_model.specs.Polynomial.{Same, times};
ghost use Rattle.sym_model.specs.Strip.{IsVerticalStrip};
ghost use Rattle.monomial_laws.specs.ExpressionTerms.{elementary_terms, in_monomials};
ghost use Rattle.linear_combinations.specs.Entries.{coefficient, IsRefused};
ghost use Rattle.linear_combinations.specs.Gains.{Gains, Overflows, counted, scaled, HaveLabels};
ghost use Rattle.sparse_polys.specs.Large.{ProductIsLarge};
ghost use Rattle.sparse_polys.specs.Tables.{equal, IsWholeTable};
ghost use Rattle.strip_rules.specs.Columns.{HasRoomForColumn, column_count};

use crate::counts::{times_count, times_quotient};
use calc_base::SumFault;
use coeff_rings::{Int, Scalar};
use linear_combinations::{Lin, Rule};
use partitions::{Partition, number_at};
use skew_shapes::with_vertical_strip;
use sparse_polys::Whole;
use std::alloc::Global;

/// The coefficient of m_outer in m_inner·e_k, for a vertical strip outer/inner of k cells; `None`
/// if it is 2^128 or more.
fn coefficient_at(inner: &Partition, outer: &Partition) -> Option<u128>
    requires { IsVerticalStrip outer.now inner.now }
    ensures { (k : ℕ) → size outer.now ≡ size inner.now + k
        → MatchOption result (2 ^ 128 ≤ column_count k inner.now outer.now)
        (λ count. count ≡ column_count k inner.now outer.now) }
{
    let shorter = inner.parts();
    let rows = outer.parts();
    let mut count: u128 = 1;
    // Of the rows above the row `at`, `run` counts those that are as long as this row in `outer`,
    // and `longer` counts those of them that are longer in `outer` than in `inner`.
    let mut run = 0;
    let mut longer = 0;
    for at in 0..rows.len() {
        let row = rows[at];
        run += 1;
        if number_at(shorter, at) < row {
            longer += 1;
            count = times_quotient(count, run, longer)?;
        }
        if number_at(rows, at + 1) < row {
            run = 0;
            longer = 0;
        }
    }
    Some(count)
}

/// Adds to `sum`, at ν = `shape`, `c` times the coefficient of m_ν in m_μ·e_k, for μ = `label`; ν/μ
/// is a vertical strip of k cells. If the new coefficient at ν is too large, `Large` is returned,
/// even if no memory can be allocated.
fn add_shape(label: &Partition, shape: &Partition, c: Int, sum: &mut Whole) -> Result<(), SumFault>
    requires { IsVerticalStrip shape.now label.now }
    ensures gains { OnOk result ((k : ℕ) → size shape.now ≡ size label.now + k
        → Gains sum.old (scaled c (counted (column_count k label.now) (shape.now ∷ []))) sum.new) }
    ensures large { IsErrOf result SumFault.Large → (k : ℕ) → size shape.now ≡ size label.now + k
        → Overflows equal sum.old (scaled c (counted (column_count k label.now) (shape.now ∷ []))) }
    ensures refused { (k : ℕ) → size shape.now ≡ size label.now + k
        → IsRefused (FitsSigned w128) ⟦<Int as Scalar>⟧.checked_sum
        (coefficient equal (pos 0) sum.old shape.now)
        (c *ℤ pos (column_count k label.now shape.now)) → IsErrOf result SumFault.Large }
{
    if c.is_zero() {
        return Ok(());
    }
    let product = times_count(c, coefficient_at(label, shape))?;
    sum.add_at_label(shape, product)
}

/// The rule that multiplies by e_k: m_μ·e_k is the sum of the m_ν for which ν/μ is a vertical strip
/// of k cells, each times the product of binomial coefficients of `column_product_law`.
#[derive(Drop)]
struct TimesElementary {
    alloc: Global,
    k: u16,
}

impl Rule<Partition, Partition> for TimesElementary {
    ghost use Rattle.strip_rules.specs.Columns.{HasRoomForColumn, column_terms};

    ghost takes = { λ rule label. HasRoomForColumn rule.k label };

    ghost image = { λ rule label. column_terms rule.k label };

    fn add_image(&self, label: &Partition, c: Int, sum: &mut Whole) -> Result<(), SumFault> {
        let shapes = with_vertical_strip(self.alloc, label, self.k)?;
        let listed = shapes.as_slice();
        for shape in listed {
            add_shape(label, shape, c, sum)?;
        }
        Ok(())
    }
}

/// The product of a linear combination of monomial symmetric polynomials (a list in m) and e_k, in
/// every number of variables. Each label has at most 4,096 - k cells and at most 512 - k rows.
///
/// Replace the coefficients of the list by their absolute values. Returns `Large` only if some
/// coefficient of the product of the resulting list and e_k is 2^127 or more.
///
/// Example: m_(2,1) times e_2 has m_(2,2,1) twice.
pub fn times_elementary(alloc: Global, list: &Whole, k: u16) -> Result<Whole, SumFault>
    requires { HaveLabels (HasRoomForColumn k) list.now }
    ensures value { IfOk result (λ product. (n : ℕ)
        → Same (in_monomials product n) (times (elementary_of k n) (in_monomials list.now n))) }
    ensures table { IfOk result IsWholeTable }
    ensures large { IsErrOf result SumFault.Large → ProductIsLarge (elementary_terms k) list.now }
{
    let mut product = Lin::new(alloc);
    product.add_by(&TimesElementary { alloc, k }, list)?;
    Ok(product)
}
