//! The expansion of an expression in the monomial basis m, by way of Schur polynomials if that is
//! faster.
ghost use Rattle.std.specs.Prelude.{ℕ, ◌<◌, ◌^◌, ◌≤◌, IfOk, IsErrOf};
ghost use Rattle.sym_model.specs.Expansion.{monomials, schurs, IsExpansionOf};
ghost use Rattle.sym_model.specs.Expression.{cleared_value, denominator};
ghost use Rattle.sym_model.specs.Polynomial.{Poly};
ghost use Rattle.sym_model.specs.Weight.{weight};
ghost use Rattle.expression_reading.specs.Trees.{tree_of};
ghost use Rattle.linear_combinations.specs.Cleared.{IsCommonDenominator};

use crate::into_monomials::to_monomial;
use crate::nodes::postorder;
use crate::schurs_in_monomials::schurs_to_monomials;
use crate::schurs_target::converted;
use basis_change::{denominator_of, greatest_size, whole_terms};
use calc_base::{Basis, Large, NoMemory, SumFault};
use coeff_rings::{Frac, common_denominator};
use expression_reading::{Expr, Formula};
use linear_combinations::Lin;
use partitions::Partition;
use sparse_polys::divided;
use std::alloc::Global;

/// The greatest number of cells of a label of a list in s that is changed into m.
const MAX_CELLS: u16 = 512;

/// The least common denominator of the coefficients of a list. Returns an error if it is 2^127 or
/// more.
fn denominator_of_all(list: &Lin<Partition, Frac>) -> Result<u128, Large>
    ensures { IfOk result (λ den. (den < 2 ^ 127) × IsCommonDenominator den list.now) }
{
    let mut den = 1;
    for (_, c) in list.iter() {
        let common = common_denominator(den, denominator_of(*c))?;
        den = common.den;
    }
    Ok(den)
}

/// The expansion `list` in s, changed into an expansion in m: the list is multiplied by a common
/// denominator first, and each coefficient of the result is divided by it. Returns `Large` if an
/// intermediate number is too large; the caller then uses another method.
fn in_monomials(
    alloc: Global,
    list: &Lin<Partition, Frac>,
) -> Result<Lin<Partition, Frac>, SumFault>
    ensures { IfOk result (λ answer. (n : ℕ) (f : Poly) (q : ℕ)
        → IsExpansionOf schurs list.now n f q → IsExpansionOf monomials answer n f q) }
{
    let cells = greatest_size(list);
    if cells > MAX_CELLS {
        return Err(SumFault::Large);
    }
    let den = denominator_of_all(list)?;
    let terms = whole_terms(alloc, list, den)?;
    let answer = schurs_to_monomials(alloc, &terms, cells)?;
    divided(alloc, &answer, den)
}

/// The expansion of an expression in m, computed from its expansion in Schur polynomials. Returns
/// `Large` if an intermediate number is too large.
fn by_schurs(alloc: Global, formula: &Formula) -> Result<Lin<Partition, Frac>, SumFault>
    ensures { let e = tree_of formula.now.tree in
        IfOk result (λ list. (n : ℕ)
        → IsExpansionOf monomials list n (cleared_value e n) (denominator e)) }
{
    let list = converted(alloc, formula.tree())?;
    in_monomials(alloc, &list)
}

/// Whether it is faster to expand an expression in Schur polynomials first, and then in m, than in
/// m directly; the result is the same. It is faster if each basis polynomial in the expression is
/// e_λ, h_λ or s_λ, and either some s_λ occurs, or some h_λ and a product. (In m, e_λ and h_λ are
/// expanded part by part, and products are slower.)
fn goes_by_schurs(alloc: Global, tree: &Expr) -> Result<bool, NoMemory> {
    let mut schur = false;
    let mut complete = false;
    let mut product = false;
    for node in postorder(alloc, tree)? {
        if let Expr::Atom { basis, .. } = node {
            if *basis == Basis::M || *basis == Basis::P {
                return Ok(false);
            }
            schur = schur || *basis == Basis::S;
            complete = complete || *basis == Basis::H;
        }
        product = product || matches!(node, Expr::Product { .. });
    }
    Ok(schur || complete && product)
}

/// The expansion of an expression in m, in every number of variables: by way of Schur polynomials
/// if that is faster, otherwise by `to_monomial`.
///
/// Returns `Large` only if N·D·d^d is 2^127 or more, with N and D the two numbers of
/// `Formula::weight`, and d the degree of the expression (0^0 is 1).
pub fn to_monomial_by_schurs(
    alloc: Global,
    formula: &Formula,
) -> Result<Lin<Partition, Frac>, SumFault>
    ensures value { let e = tree_of formula.now.tree in
        IfOk result (λ list. (n : ℕ)
        → IsExpansionOf monomials list n (cleared_value e n) (denominator e)) }
    ensures large { IsErrOf result SumFault.Large
        → 2 ^ 127 ≤ weight monomials (tree_of formula.now.tree) }
{
    if !goes_by_schurs(alloc, formula.tree())? {
        return to_monomial(alloc, formula);
    }
    match by_schurs(alloc, formula) {
        Ok(list) => Ok(list),
        Err(SumFault::NoMemory) => Err(SumFault::NoMemory),
        Err(SumFault::Large) => to_monomial(alloc, formula),
    }
}
