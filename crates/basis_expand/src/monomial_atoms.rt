//! The basis polynomials m_λ, e_λ, h_λ, p_λ and s_λ as lists of terms in the monomial basis m.
ghost use Rattle.std.specs.Prelude.{◌≡◌, ℕ, ◌+◌, ◌<◌, ◌≤◌, ◌^◌, List, ◌∷◌, IfOk, IsErrOf};
ghost use Rattle.sym_model.specs.Bases.{product_over};
ghost use Rattle.sym_model.specs.Expansion.{basis_polynomial, monomials};
ghost use Rattle.sym_model.specs.Expression.{atom};
ghost use Rattle.sym_model.specs.Partition.{ArePositive, size};
ghost use Rattle.sym_model.specs.Weight.{growth};
ghost use Rattle.monomial_laws.specs.ExpressionTerms.{IsList};
ghost use Rattle.expression_reading.specs.Trees.{basis_of};
ghost use Rattle.sparse_polys.specs.MonomialProducts.{greatest_size};
ghost use Rattle.basis_expand.specs.Clearing.{IsConverted};
ghost use Rattle.sparse_polys.specs.Families.{polynomial_of};
ghost use Rattle.sparse_polys.specs.Tables.{IsWholeTable};

use crate::cleared::Cleared;
use crate::power_sums::power_sum;
use crate::schurs_in_monomials::schur;
use calc_base::{Basis, SumFault};
use partitions::Partition;
use sparse_polys::{Family, Whole, single, times_whole_in_m};
use std::alloc::Global;
use strip_rules::{times_complete, times_elementary};

/// The product of `others` and e_k, h_k or p_k (`family` says which), as a list in m. The list
/// `others` in m is the product of e_j, h_j or p_j over other parts j.
fn times_factor(alloc: Global, family: Family, k: u16, others: &Whole) -> Result<Whole, SumFault>
    requires positive { 0 < k }
    requires low { k + greatest_size others.now ≤ 512 }
    requires table { IsWholeTable others.now }
    ensures value { (parts : List ℕ) → IsList others.now (product_over (polynomial_of family) parts)
        → IfOk result (λ list. IsList list (product_over (polynomial_of family) (k ∷ parts))) }
    ensures table { IfOk result IsWholeTable }
    ensures large { IsErrOf result SumFault.Large → (parts : List ℕ)
        → IsList others.now (product_over (polynomial_of family) parts)
        → 2 ^ 127 ≤ growth monomials (k + size parts) }
{
    match family {
        Family::Elementary => times_elementary(alloc, others, k),
        Family::Complete => times_complete(alloc, others, k),
        Family::PowerSum => times_whole_in_m(alloc, &power_sum(alloc, k)?, others),
    }
}

/// The product of e_k, h_k or p_k (`family` says which) over the parts k, as a list in m. The last
/// part, a smallest one, is multiplied first.
fn over_parts(alloc: Global, family: Family, parts: &[u16]) -> Result<Whole, SumFault>
    requires positive { ArePositive parts.now }
    requires low { size parts.now ≤ 512 }
    ensures value { IfOk result (λ list.
        IsList list (product_over (polynomial_of family) parts.now)) }
    ensures table { IfOk result IsWholeTable }
    ensures large { IsErrOf result SumFault.Large → 2 ^ 127 ≤ growth monomials (size parts.now) }
{
    let [k, rest @ ..] = parts else {
        return single(alloc, &[], 1);
    };
    let others = over_parts(alloc, family, rest)?;
    times_factor(alloc, family, *k, &others)
}

/// The polynomial of λ = `label` in `basis` (m_λ, e_λ, h_λ, p_λ or s_λ), as a list in m.
fn terms_of(alloc: Global, basis: Basis, label: &Partition) -> Result<Whole, SumFault>
    requires { size label.now ≤ 512 }
    ensures value { IfOk result (λ list.
        IsList list (basis_polynomial (basis_of basis) label.now)) }
    ensures table { IfOk result IsWholeTable }
    ensures large { IsErrOf result SumFault.Large → 2 ^ 127 ≤ growth monomials (size label.now) }
{
    let parts = label.parts();
    match basis {
        Basis::M => single(alloc, parts, 1),
        Basis::E => over_parts(alloc, Family::Elementary, parts),
        Basis::H => over_parts(alloc, Family::Complete, parts),
        Basis::P => over_parts(alloc, Family::PowerSum, parts),
        Basis::S => schur(alloc, label),
    }
}

/// The polynomial of λ = `label` in `basis` (m_λ, e_λ, h_λ, p_λ or s_λ), as a list in m with the
/// denominator 1.
pub(crate) fn atom(alloc: Global, basis: Basis, label: &Partition) -> Result<Cleared, SumFault>
    requires { size label.now ≤ 512 }
    ensures { IsConverted (atom (basis_of basis) label.now) result }
{
    let terms = terms_of(alloc, basis, label)?;
    Ok(Cleared { terms, den: 1 })
}
