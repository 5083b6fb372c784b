//! The conversion of augmented monomials into the target basis e, h or p: their parts become power
//! sums one after another, the smallest first.
ghost use Rattle.std.specs.Prelude.{◌≡◌, ℕ, ◌^◌, ◌≤◌, ℤ, List, [], length, IfOk, IsErrOf};
ghost use Rattle.linear_combinations.specs.Gains.{Gains, Overflows, HaveLabels, mass, over};
ghost use Rattle.linear_combinations.specs.Gains.{replaced};
ghost use Rattle.sparse_polys.specs.LabelSizes.{AreWithin};
ghost use Rattle.sparse_polys.specs.declared.family.Family.{Family};
ghost use Rattle.sparse_polys.specs.Tables.{equal as same_partition, IsWholeTable};
ghost use Rattle.basis_change.specs.AugmentedProducts.{equal, IsReady, conversion};
ghost use Rattle.basis_change.specs.AugmentedProducts.{IsConvertible, IsMixedTable};
ghost use Rattle.basis_change.specs.AugmentedProducts.{AreSmall, in_target};
ghost use Rattle.basis_change.specs.Factors.{ArePowerSums, product_value, target_value};
ghost use Rattle.basis_change.specs.Costs.{cost};
ghost use Rattle.linear_combinations.specs.Gains.{weighed};

use crate::products::{Mixed, add_mixed, take_raised};
use calc_base::SumFault;
use coeff_rings::Int;
use family_lists::add_row;
use linear_combinations::{Lin, Rule};
use partitions::Partition;
use sparse_polys::{Pair, Whole};
use std::alloc::Global;

/// The rule that converts the last part a of each augmented monomial with `rows` parts; the list of
/// p_a in the target basis is `factors[a - 1]`. The last part is a smallest one, so its power sum
/// has the fewest terms.
#[derive(Drop)]
struct LastPart<'a> {
    alloc: Global,
    factors: &'a [Whole],
    rows: u16,
}

impl Rule<Pair, Pair> for LastPart<'_> {
    ghost use Rattle.basis_change.specs.AugmentedProducts.{IsConvertible, conversion};

    ghost takes = { λ rule label. IsConvertible rule.factors.now rule.rows label };

    ghost image = { λ rule label. conversion rule.factors.now rule.rows label };

    fn add_image(&self, label: &Pair, c: Int, sum: &mut Mixed) -> Result<(), SumFault> {
        if label.second.rows() != self.rows {
            return sum.add_at_label(label, c);
        }
        let Some((last, rest)) = label.second.parts().split_last() else {
            return sum.add_at_label(label, c);
        };
        let factor = &self.factors[usize::from(*last) - 1];
        add_mixed(self.alloc, sum, factor, label.first.parts(), rest, c)?;
        take_raised(self.alloc, sum, &label.first, rest, *last, c)
    }
}

/// The table `table`, in which each term whose augmented monomial has `rows` parts is replaced by
/// the terms into which the rule `LastPart` converts it; the other terms are copied.
fn step(alloc: Global, table: &Mixed, factors: &[Whole], rows: u16) -> Result<Mixed, SumFault>
    requires { HaveLabels (IsConvertible factors.now rows) table.now }
    ensures gains { IfOk result (Gains [] (replaced (conversion factors.now rows) table.now)) }
    ensures table { IfOk result IsMixedTable }
    ensures large { IsErrOf result SumFault.Large
        → Overflows equal [] (replaced (conversion factors.now rows) table.now) }
{
    let mut next = Lin::new(alloc);
    let rule = LastPart {
        alloc,
        factors,
        rows,
    };
    next.add_by(&rule, table)?;
    Ok(next)
}

/// The rule that converts augmented monomials of at most one part into terms of the target basis.
#[derive(Drop)]
struct OnePart<'a> {
    alloc: Global,
    factors: &'a [Whole],
}

impl Rule<Pair, Partition> for OnePart<'_> {
    ghost use Rattle.basis_change.specs.AugmentedProducts.{IsConvertible, in_target};

    ghost takes = { λ rule label. IsConvertible rule.factors.now 1 label };

    ghost image = { λ rule label. in_target rule.factors.now label };

    fn add_image(&self, label: &Pair, c: Int, sum: &mut Whole) -> Result<(), SumFault> {
        let Some(part) = label.second.parts().first() else {
            return sum.add_at_label(&label.first, c);
        };
        let factor = &self.factors[usize::from(*part) - 1];
        add_row(self.alloc, sum, &label.first, c, factor)
    }
}

/// The sum of the terms of `table`, as a list in the target basis. Each augmented monomial of the
/// table must have at most one part.
fn targets(alloc: Global, table: &Mixed, factors: &[Whole]) -> Result<Whole, SumFault>
    requires { HaveLabels (IsConvertible factors.now 1) table.now }
    ensures gains { IfOk result (Gains [] (replaced (in_target factors.now) table.now)) }
    ensures table { IfOk result IsWholeTable }
    ensures large { IsErrOf result SumFault.Large
        → Overflows same_partition [] (replaced (in_target factors.now) table.now) }
{
    let mut list = Lin::new(alloc);
    list.add_by(&OnePart { alloc, factors }, table)?;
    Ok(list)
}

/// The sum of the terms of `start`, as a list in the target basis. Each augmented monomial of
/// `start` must have at most `most` parts; `factors` are the lists of p_1, p_2 and so on in the
/// target basis.
pub(crate) fn converted(
    alloc: Global,
    start: Mixed,
    factors: &[Whole],
    most: u16,
) -> Result<Whole, SumFault>
    requires factors { AreSmall factors.now }
    requires few { length factors.now ≤ 15 }
    requires ready { HaveLabels (IsReady (length factors.now) most) start }
    ensures value { IfOk result (λ end. (family : Family) → ArePowerSums family factors.now
        → (n : ℕ) (φ : List ℕ → ℤ)
        → over (target_value family n φ) end ≡ over (product_value family n φ) start) }
    ensures mass { IfOk result (λ end. mass end ≤ weighed cost start) }
    ensures within { IfOk result (AreWithin (length factors.now)) }
    ensures table { IfOk result IsWholeTable }
    ensures large { IsErrOf result SumFault.Large → 2 ^ 127 ≤ weighed cost start }
{
    let mut table = start;
    let mut rows = most;
    while rows > 1 {
        table = step(alloc, &table, factors, rows)?;
        rows -= 1;
    }
    targets(alloc, &table, factors)
}
