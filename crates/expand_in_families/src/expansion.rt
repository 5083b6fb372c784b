//! The expansion of an expression in e, h or p.
ghost use Rattle.std.specs.Prelude.{◌≡◌, ℕ, ◌^◌, ◌≤◌, IfOk, IsErrOf};
ghost use Rattle.sym_model.specs.Expansion.{IsExpansionOf};
ghost use Rattle.sym_model.specs.Expression.{cleared_value, degree, denominator};
ghost use Rattle.sym_model.specs.Weight.{weight};
ghost use Rattle.expression_reading.specs.Trees.{tree_of};
ghost use Rattle.sparse_polys.specs.Families.{basis_in};

use crate::operations::InFamily;
use basis_expand::evaluate;
use calc_base::SumFault;
use coeff_rings::{Frac, denominator_product, factorial};
use expression_reading::Formula;
use linear_combinations::Lin;
use partitions::Partition;
use sparse_polys::{Family, divided};
use std::alloc::Global;

/// The expansion of an expression of degree at most 15 in the basis e, h or p of the family
/// `target`, in every number of variables.
///
/// Returns `Large` only if N·D·d!·(2d)^d is 2^127 or more, with N and D the two numbers of
/// `Formula::weight`, and d the degree of the expression (0^0 is 1).
///
/// Example: p_2 in e is e_1^2 - 2·e_2, and h_2 in p is (p_1^2 + p_2)/2.
pub fn to_family(
    alloc: Global,
    target: Family,
    formula: &Formula,
) -> Result<Lin<Partition, Frac>, SumFault>
    requires { degree (tree_of formula.now.tree) ≤ 15 }
    ensures value { let e = tree_of formula.now.tree in
        IfOk result (λ list. (n : ℕ)
        → IsExpansionOf (basis_in target) list n (cleared_value e n) (denominator e)) }
    ensures large { IsErrOf result SumFault.Large
        → 2 ^ 127 ≤ weight (basis_in target) (tree_of formula.now.tree) }
{
    let node = evaluate(alloc, &InFamily { family: target }, formula.tree())?;
    let den = denominator_product(node.den, factorial(node.degree))?;
    divided(alloc, &node.terms, den)
}
