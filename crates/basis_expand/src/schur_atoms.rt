//! Numbers and the polynomials m_λ, e_λ, h_λ, p_λ and s_λ as lists of terms in Schur polynomials.
ghost use Rattle.std.specs.Prelude.{◌<◌, ◌≤◌, ◌^◌, ◌≤ℤ◌, ℕ, pos, nat_abs, IfOk};
ghost use Rattle.sym_model.specs.Bases.{monomial};
ghost use Rattle.sym_model.specs.Expansion.{schurs, basis_polynomial, IsExpansionOf};
ghost use Rattle.sym_model.specs.Expression.{fraction};
ghost use Rattle.sym_model.specs.Partition.{size};
ghost use Rattle.sym_model.specs.Polynomial.{one, scale};
ghost use Rattle.sym_model.specs.Schur.{schur};
ghost use Rattle.partitions.specs.Limits.{IsWithinLimits};
ghost use Rattle.expression_reading.specs.Trees.{basis_of};
ghost use Rattle.basis_expand.specs.SchurLists.{IsOneTerm, StandsFor};

use basis_change::to_basis;
use calc_base::{Basis, SumFault, Weight};
use coeff_rings::{Frac, Int, Scalar, quotient_of};
use linear_combinations::Lin;
use partitions::Partition;
use std::alloc::Global;
use strip_rules::{columns_product, hooks_product, rows_product};

/// The list with the one term c at the label `parts`; it is empty if c is 0.
fn single(alloc: Global, parts: &[u16], c: Frac) -> Result<Lin<Partition, Frac>, SumFault>
    requires { IsWithinLimits parts.now }
    ensures { IfOk result (IsOneTerm parts.now c) }
{
    let mut list = Lin::new(alloc);
    list.add_term(Partition::from_valid_parts(alloc, parts)?, c)?;
    Ok(list)
}

/// The number `num`/`den` as a list of terms in Schur polynomials.
pub(crate) fn quotient(
    alloc: Global,
    num: i128,
    den: u128,
) -> Result<Lin<Partition, Frac>, SumFault>
    requires sign { pos 0 ≤ℤ num }
    requires den { (0 < den) × (den < 2 ^ 127) }
    ensures { IfOk result (StandsFor (fraction (nat_abs num) den)) }
{
    single(alloc, &[], quotient_of(Int::new(num), den))
}

/// m_λ, for λ = `label`, as a list in Schur polynomials, by the change of basis.
fn from_monomial(alloc: Global, label: &Partition) -> Result<Lin<Partition, Frac>, SumFault>
    requires { size label.now ≤ 20 }
    ensures { IfOk result (λ list. (n : ℕ) → IsExpansionOf schurs list n (monomial label.now n) 1) }
{
    let list = single(alloc, label.parts(), Frac::one())?;
    to_basis(alloc, &list, Weight { num: 1, den: 1 }, Basis::S)
}

/// The list with the one term s_label.
fn from_schur(alloc: Global, label: &Partition) -> Result<Lin<Partition, Frac>, SumFault>
    ensures { IfOk result (λ list. (n : ℕ) → IsExpansionOf schurs list n (schur label.now n) 1) }
{
    single(alloc, label.parts(), Frac::one())
}

/// The polynomial of λ = `label` in `basis` (m_λ, e_λ, h_λ, p_λ or s_λ), as a list in Schur
/// polynomials.
pub(crate) fn atom(
    alloc: Global,
    basis: Basis,
    label: &Partition,
) -> Result<Lin<Partition, Frac>, SumFault>
    requires { size label.now ≤ 20 }
    ensures { IfOk result (λ list. (n : ℕ)
        → IsExpansionOf schurs list n (basis_polynomial (basis_of basis) label.now n) 1) }
{
    match basis {
        Basis::M => from_monomial(alloc, label),
        Basis::E => columns_product(alloc, label),
        Basis::H => rows_product(alloc, label),
        Basis::P => hooks_product(alloc, label),
        Basis::S => from_schur(alloc, label),
    }
}
