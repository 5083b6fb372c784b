//! The Schubert polynomial of a permutation.
ghost use Rattle.std.specs.Prelude.{IfOk, OnOk, IsErrOf};
ghost use Rattle.sym_model.specs.Kind.{polynomial};
ghost use Rattle.sym_model.specs.WholeTerms.{as_fractions};
ghost use Rattle.sym_model.specs.PastLimit.{HasPast, IsCoefficientOfSchubert};
ghost use Rattle.sym_model.specs.Products.{IsSchubertPolynomialOf};
ghost use Rattle.schubert_transition.specs.TermLists.{IsSchubertOf};

use calc_base::SumFault;
use coeff_rings::Int;
use linear_combinations::{Lin, Rule, Terms};
use perm_codes::Perm;
use sparse_polys::Monomial;
use std::alloc::Global;
use transition_walk::{Factor, product_of};

/// The multiplication of a monomial by the variable x_r. This is the factor in the transition rule,
/// by which S_w is x_r times a Schubert polynomial S_v, plus a sum of other Schubert polynomials.
#[derive(Drop)]
pub(crate) struct TimesVar {
    pub(crate) r: u16,
}

impl Rule<Monomial, Monomial> for TimesVar {
    ghost use Rattle.std.specs.Prelude.{◌≤◌, ◌<◌};
    ghost use Rattle.sym_model.specs.Partition.{size};
    ghost use Rattle.transition_laws.specs.Acted.{raised_terms};

    ghost takes = { λ rule exponents. (1 ≤ rule.r) × (rule.r ≤ 255) × (size exponents < 32385) };

    ghost image = { λ rule exponents. raised_terms rule.r exponents };

    fn add_image(
        &self,
        monomial: &Monomial,
        c: Int,
        sum: &mut Lin<Monomial, Int>,
    ) -> Result<(), SumFault> {
        sum.add_term(monomial.times_var(self.r)?, c)
    }
}

impl Factor<Monomial> for TimesVar {
    ghost use Rattle.std.specs.Prelude.{◌+◌};
    ghost use Rattle.sym_model.specs.DividedDifference.{x_to_in};
    ghost use Rattle.sym_model.specs.Partition.{size};
    ghost use Rattle.transition_laws.specs.Acted.{acted};
    ghost use Rattle.transition_laws.proofs.ActedLaws.{variable_start, variable_step, variable_grows};

    ghost made = { λ r v. record { r = r } };

    ghost extent = { λ exponents. 255 + size exponents };

    ghost most = { 32639 };

    ghost extra = { 0 };

    ghost polynomial = { λ n exponents. x_to_in exponents n };

    ghost product = { acted };

    fn at(r: u16, _lower: &Perm) -> TimesVar {
        TimesVar { r }
    }

    ghost start = { variable_start };

    ghost step = { variable_step };

    ghost grows = { variable_grows };
}

/// The Schubert polynomial of a permutation, computed by the transition rule.
///
/// Unless memory runs out, returns `Large` if and only if a coefficient exceeds 2^127 - 1.
pub fn schubert(alloc: Global, w: &Perm) -> Result<Lin<Monomial, Int>, SumFault>
    ensures is { IfOk result (IsSchubertOf w.now) }
    ensures large { IsErrOf result SumFault.Large → HasPast (IsCoefficientOfSchubert w.now) }
    ensures fits { OnOk result (HasPast (IsCoefficientOfSchubert w.now) → ⊥) }
{
    let one = Monomial::one(alloc);
    product_of::<Monomial, TimesVar>(alloc, w, &one)
}

/// The terms of the Schubert polynomial of a permutation, in the printed order.
///
/// Unless memory runs out, returns `Large` if and only if a coefficient exceeds 2^127 - 1.
pub fn schubert_terms(alloc: Global, w: &Perm) -> Result<Terms<Monomial, Int>, SumFault>
    ensures meets { IfOk result (λ terms.
        IsSchubertPolynomialOf w.now (as_fractions terms)) }
    ensures large { IsErrOf result SumFault.Large → HasPast (IsCoefficientOfSchubert w.now) }
    ensures fits { OnOk result (HasPast (IsCoefficientOfSchubert w.now) → ⊥) }
{
    let sum = schubert(alloc, w)?;
    Ok(sum.sorted_terms()?)
}
