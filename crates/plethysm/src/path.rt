//! The sum of c·p_λ[G] over the terms c·p_λ of a list in power sums, for a list G in m, that is, a
//! list of terms c·m_μ, whose monomials replace the variables.
ghost use Rattle.std.specs.Prelude.{ℕ, ◌*◌, ◌≤◌, IfOk, IsErrOf};
ghost use Rattle.sym_model.specs.Polynomial.{Same};
ghost use Rattle.sym_model.specs.WholeTerms.{combined};
ghost use Rattle.monomial_laws.specs.ExpressionTerms.{in_monomials};
ghost use Rattle.sparse_polys.specs.MonomialProducts.{greatest_size};
ghost use Rattle.plethysm.specs.BoundedSums.{IsBoundedSum};
ghost use Rattle.plethysm.specs.PathSums.{power_sum_in, IsPastPath};

use crate::factors::over_parts;
use calc_base::SumFault;
use linear_combinations::Lin;
use sparse_polys::{Whole, sum_of};
use std::alloc::Global;

/// F[G] in m, for F = `outer` in p and G = `inner` in m: the sum of c·p_λ[G] over the terms c·p_λ
/// of F.
pub(crate) fn multiplied_out(alloc: Global, outer: &Whole, inner: &Whole) -> Result<Whole, SumFault>
    requires low { greatest_size outer.now * greatest_size inner.now ≤ 512 }
    ensures value { IfOk result (λ list. (n : ℕ) → Same (in_monomials list n)
        (combined (λ label. power_sum_in inner.now label n) outer.now)) }
    ensures large { IsErrOf result SumFault.Large → (K b : ℕ)
        → IsBoundedSum K b inner.now
        → IsPastPath K b inner.now outer.now }
{
    let mut sum = Lin::new(alloc);
    for (label, z) in outer.iter() {
        let product = over_parts(alloc, inner, label.parts())?;
        sum = sum_of(sum, 1, product, z.get())?;
    }
    Ok(sum)
}
