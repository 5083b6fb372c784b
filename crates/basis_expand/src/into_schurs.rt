//! The expansion of an expression in Schur polynomials.
ghost use Rattle.std.specs.Prelude.{◌≡◌, ℕ, ◌^◌, ◌≤◌, IfOk, IsErrOf};
ghost use Rattle.sym_model.specs.Expansion.{schurs, IsExpansionOf};
ghost use Rattle.sym_model.specs.Expression.{cleared_value, denominator};
ghost use Rattle.sym_model.specs.Weight.{weight};
ghost use Rattle.expression_reading.specs.Trees.{tree_of};

use crate::into_monomials::to_monomial;
use crate::schurs_target::converted;
use basis_change::to_basis;
use calc_base::{Basis, SumFault};
use coeff_rings::Frac;
use expression_reading::Formula;
use linear_combinations::Lin;
use partitions::Partition;
use std::alloc::Global;

/// The expansion of an expression in Schur polynomials, in every number of variables.
///
/// Returns `Large` only if N·D·d^d is 2^127 or more, with N and D the two numbers of
/// `Formula::weight`, and d the degree of the expression (0^0 is 1).
pub fn to_schur(alloc: Global, formula: &Formula) -> Result<Lin<Partition, Frac>, SumFault>
    ensures value { let e = tree_of formula.now.tree in
        IfOk result (λ list. (n : ℕ)
        → IsExpansionOf schurs list n (cleared_value e n) (denominator e)) }
    ensures large { IsErrOf result SumFault.Large
        → 2 ^ 127 ≤ weight schurs (tree_of formula.now.tree) }
{
    match converted(alloc, formula.tree()) {
        Ok(list) => Ok(list),
        Err(SumFault::NoMemory) => Err(SumFault::NoMemory),
        Err(SumFault::Large) => through_monomials(alloc, formula),
    }
}

/// The expansion of an expression in Schur polynomials, computed from the expansion of the
/// expression in m.
fn through_monomials(alloc: Global, formula: &Formula) -> Result<Lin<Partition, Frac>, SumFault>
    ensures value { let e = tree_of formula.now.tree in
        IfOk result (λ list. (n : ℕ)
        → IsExpansionOf schurs list n (cleared_value e n) (denominator e)) }
    ensures large { IsErrOf result SumFault.Large
        → 2 ^ 127 ≤ weight schurs (tree_of formula.now.tree) }
{
    let list = to_monomial(alloc, formula)?;
    let Some(bound) = formula.weight() else {
        return Err(SumFault::Large);
    };
    to_basis(alloc, &list, bound, Basis::S)
}
