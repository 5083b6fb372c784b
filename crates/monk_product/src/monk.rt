//! Monk's rule on lists of Schubert polynomials.
ghost use Rattle.std.specs.Prelude.{ℕ, ◌+◌, ◌*◌, ◌^◌, ◌≤◌, max, length, IfOk, IsErrOf};
ghost use Rattle.sym_model.specs.DividedDifference.{variable_in};
ghost use Rattle.sym_model.specs.Expansion.{Represents};
ghost use Rattle.sym_model.specs.ListWeight.{list_weight};
ghost use Rattle.sym_model.specs.Polynomial.{times};
ghost use Rattle.sym_model.specs.Schubert.{schubert_in};
ghost use Rattle.sym_model.specs.WholeTerms.{as_fractions, combined};
ghost use Rattle.monk_product.specs.Monk.{AreShort, greatest_length};

use calc_base::SumFault;
use coeff_rings::Int;
use linear_combinations::{Lin, Rule};
use perm_codes::Perm;
use std::alloc::Global;
use transition_walk::Factor;

/// A list of Schubert polynomials with integer coefficients.
pub(crate) type Sum = Lin<Perm, Int>;

/// The rule that multiplies by x_r: by Monk's rule, x_r·S_w is the sum of the S_v over the covers v
/// = w·t_rj with j > r, minus the sum of the S_v over the covers v = w·t_ir with i < r.
#[derive(Drop)]
pub(crate) struct TimesVar {
    pub(crate) r: u16,
}

impl Rule<Perm, Perm> for TimesVar {
    ghost use Rattle.std.specs.Prelude.{◌≤◌, length};
    ghost use Rattle.monk_product.specs.Monk.{monk_terms};

    ghost takes = { λ rule w. (1 ≤ rule.r) × (rule.r ≤ 254) × (length w ≤ 254) };

    ghost image = { λ rule w. monk_terms rule.r w };

    fn add_image(&self, w: &Perm, c: Int, sum: &mut Sum) -> Result<(), SumFault> {
        let covers = w.covers_at(self.r)?;
        sum.add_each(covers.up(), c)?;
        sum.subtract_each(covers.down(), c)
    }
}

impl Factor<Perm> for TimesVar {
    ghost use Rattle.std.specs.Prelude.{length};
    ghost use Rattle.sym_model.specs.Polynomial.{pair, times};
    ghost use Rattle.sym_model.specs.Schubert.{schubert_in};
    ghost use Rattle.transition_laws.proofs.MonkLaws.{monk_start, monk_step, monk_grows};

    ghost made = { λ r v. record { r = r } };

    ghost extent = { length };

    ghost most = { 254 };

    ghost extra = { 0 };

    ghost polynomial = { λ n x. schubert_in x n };

    ghost product = { λ n φ w x. pair (times (schubert_in w n) (schubert_in x n)) φ };

    fn at(r: u16, _lower: &Perm) -> TimesVar {
        TimesVar { r }
    }

    ghost start = { monk_start };

    ghost step = { monk_step };

    ghost grows = { monk_grows };
}

/// The product of a sum of Schubert polynomials and the variable x_r, by Monk's rule. The place r
/// is from 1 to 254, and each permutation of the sum has at most 254 letters.
///
/// The weight of a sum is the sum of the absolute values of its coefficients, or 1 for the empty
/// sum. The weight of the product is at most W·max(r, n), for the weight W of `list` and the
/// greatest number n of letters of its permutations. Returns `Large` only if W is 2^127 or more.
pub fn times_var(alloc: Global, list: Sum, r: u16) -> Result<Sum, SumFault>
    requires first { 1 ≤ r }
    requires last { r ≤ 254 }
    requires letters { AreShort 254 list }
    ensures value { IfOk result (λ product. (n : ℕ)
        → Represents (λ w. schubert_in w n) (as_fractions product)
        (times (variable_in r n) (combined (λ w. schubert_in w n) list)) 1) }
    ensures weight { IfOk result (λ product. list_weight (as_fractions product)
        ≤ list_weight (as_fractions list) * max r (greatest_length list)) }
    ensures short { IfOk result (AreShort (max r (greatest_length list) + 1)) }
    ensures large { IsErrOf result SumFault.Large → 2 ^ 127 ≤ list_weight (as_fractions list) }
{
    let mut product = Lin::new(alloc);
    product.add_by(&TimesVar { r }, &list)?;
    Ok(product)
}
