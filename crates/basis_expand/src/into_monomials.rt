//! The expansion of an expression in the monomial basis m.
ghost use Rattle.std.specs.Prelude.{ℕ, ◌^◌, ◌≤◌, IfOk, IsErrOf};
ghost use Rattle.sym_model.specs.Expansion.{monomials, IsExpansionOf};
ghost use Rattle.sym_model.specs.Expression.{cleared_value, degree, denominator};
ghost use Rattle.sym_model.specs.ListWeight.{IsBounded};
ghost use Rattle.sym_model.specs.Weight.{numerator, weight};
ghost use Rattle.expression_reading.specs.Trees.{tree_of};
ghost use Rattle.sparse_polys.specs.LabelSizes.{AreWithin};
ghost use Rattle.sparse_polys.specs.Tables.{IsFractionTable};

use crate::evaluation::evaluate;
use crate::monomials_target::Monomials;
use calc_base::SumFault;
use coeff_rings::Frac;
use expression_reading::Formula;
use linear_combinations::Lin;
use partitions::Partition;
use sparse_polys::divided;
use std::alloc::Global;

/// The expansion of an expression in m, in every number of variables. The numbers N and D of
/// `Formula::weight` bound its coefficients: D is a multiple of all denominators, and |c|·D·Π λ_i!
/// ≤ N·|λ|! for each term c·m_λ.
///
/// Returns `Large` only if N·D·d^d is 2^127 or more, with d the degree of the expression (0^0 is
/// 1).
pub fn to_monomial(alloc: Global, formula: &Formula) -> Result<Lin<Partition, Frac>, SumFault>
    ensures value { let e = tree_of formula.now.tree in
        IfOk result (λ list. (n : ℕ)
        → IsExpansionOf monomials list n (cleared_value e n) (denominator e)) }
    ensures bounded { let e = tree_of formula.now.tree in
        IfOk result (IsBounded (numerator e) (denominator e)) }
    ensures labels { IfOk result (AreWithin (degree (tree_of formula.now.tree))) }
    ensures table { IfOk result IsFractionTable }
    ensures large { IsErrOf result SumFault.Large
        → 2 ^ 127 ≤ weight monomials (tree_of formula.now.tree) }
{
    let converted = evaluate(alloc, &Monomials, formula.tree())?;
    divided(alloc, &converted.terms, converted.den)
}
