//! The operations by which an expression is expanded in the monomial basis m: the values of
//! numbers, atoms (basis elements such as s[2,1]), negations, sums and products. Each value is a
//! list of terms c·m_λ with integer coefficients, and a denominator.
ghost use Rattle.std.specs.Prelude.{ℕ, ◌^◌, ◌≤◌, IsErrOf};
ghost use Rattle.sym_model.specs.Expansion.{monomials};
ghost use Rattle.sym_model.specs.Expression.{cleared_value, difference, lcm, negation, sum};
ghost use Rattle.sym_model.proofs.Polynomials.{Same_trans};
ghost use Rattle.monomial_laws.specs.ExpressionTerms.{in_monomials};
ghost use Rattle.monomial_laws.proofs.ExpressionLaws.{difference-value, heavy-more};
ghost use Rattle.monomial_laws.proofs.WeightBounds.{growth-mono};
ghost use Rattle.basis_expand.specs.Clearing.{ClearsTo, IsHeavyInMonomials};
ghost use Rattle.basis_expand.specs.Values.{IsMadeOf};

use crate::cleared::Cleared;
use crate::monomial_atoms::atom;
use crate::target::Target;
use calc_base::{Basis, SumFault};
use coeff_rings::{Int, common_denominator, denominator_product};
use partitions::Partition;
use sparse_polys::{single, sum_of, times_whole_in_m};
use std::alloc::Global;

/// The target basis m; the value of an expression is of the type `Cleared`.
#[derive(Clone, Copy)]
pub(crate) struct Monomials;

impl Target for Monomials {
    type Value = Cleared;

    ghost limit = { 20 };

    ghost stands = { λ _. ClearsTo };

    ghost heavy = { λ _. IsHeavyInMonomials };

    fn quotient(&self, alloc: Global, num: i128, den: u128) -> Result<Cleared, SumFault> {
        let terms = single(alloc, &[], num)?;
        Ok(Cleared { terms, den })
    }

    fn atom(&self, alloc: Global, basis: Basis, label: &Partition) -> Result<Cleared, SumFault> {
        atom(alloc, basis, label)
    }

    fn negated(&self, _: Global, inner: Cleared) -> Result<Cleared, SumFault> {
        let Cleared { terms, den } = inner;
        let terms = terms.scale(Int::new(-1))?;
        Ok(Cleared { terms, den })
    }

    /// The value of the sum of two expressions with the values `left` and `right`; its denominator
    /// is the least common multiple of their denominators. If this multiple is 2^127 or more,
    /// `Large` is returned before any memory is allocated.
    fn added(&self, _: Global, left: Cleared, right: Cleared) -> Result<Cleared, SumFault>
        ensures made { IsMadeOf sum 20 ClearsTo IsHeavyInMonomials left right result }
        ensures past { 2 ^ 127 ≤ lcm left.den right.den → IsErrOf result SumFault.Large }
    {
        let common = common_denominator(left.den, right.den)?;
        let terms = sum_of(left.terms, common.from_left, right.terms, common.from_right)?;
        Ok(Cleared {
            terms,
            den: common.den,
        })
    }

    fn multiplied(
        &self,
        alloc: Global,
        left: Cleared,
        right: Cleared,
    ) -> Result<Cleared, SumFault> {
        let den = denominator_product(left.den, right.den)?;
        let terms = times_whole_in_m(alloc, &left.terms, &right.terms)?;
        Ok(Cleared { terms, den })
    }

    ghost differs = { λ _ e f c h. record {
      den_is = h.den_is;
      value = λ n. Same_trans (in_monomials c.terms n) (cleared_value (sum e (negation f)) n)
          (cleared_value (difference e f) n) (h.value n) (difference-value e f n);
    } };

    ghost grows = { λ _ e f h k.
        heavy-more monomials growth-mono e f h.num h.den h.deg k };
}
