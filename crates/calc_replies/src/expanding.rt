//! The answer to the command `expand`.
ghost use Rattle.std.specs.Prelude.{◌≡◌, ℕ, ◌*◌, ◌^◌, ◌≤◌, IfOk, IsErrOf};
ghost use Rattle.sym_model.specs.Command.{expand};
ghost use Rattle.sym_model.specs.Expansion.{IsExpansionOf};
ghost use Rattle.sym_model.specs.Expression.{cleared_value, degree, denominator};
ghost use Rattle.sym_model.specs.ExpressionOffence.{degree_limit};
ghost use Rattle.sym_model.specs.Weight.{weight};
ghost use Rattle.sparse_polys.specs.Families.{basis_in};
ghost use Rattle.expression_reading.specs.Trees.{basis_of, tree_of};
ghost use Rattle.calc_replies.specs.Computed.{IsReplyTo};

use crate::form::asked_form;
use crate::outcome::Outcome;
use basis_change::to_basis;
use basis_expand::{to_monomial, to_monomial_by_schurs, to_schur};
use calc_base::{NoMemory, SumFault};
use calc_language::{Basis, Formula};
use coeff_rings::Frac;
use expand_in_families::to_family;
use expansion_printer::Answer;
use linear_combinations::{Lin, Terms};
use partitions::Partition;
use sparse_polys::Family;
use std::alloc::Global;

/// The outcome of `expand`: the expansion of an expression in the basis `target`, or `Large` if it
/// is too large.
pub(crate) fn expanded(
    alloc: Global,
    target: Basis,
    one_line: bool,
    formula: &Formula,
) -> Result<Outcome, NoMemory>
    requires { degree (tree_of formula.now.tree) ≤ degree_limit (basis_of target) }
    ensures { IsReplyTo (expand (basis_of target) one_line (tree_of formula.now.tree)) result }
{
    match expansion(alloc, target, formula) {
        Ok(terms) => Ok(Outcome::Answered {
            answer: Answer::Expansion { terms },
            form: asked_form(one_line, target),
        }),
        Err(SumFault::Large) => Ok(Outcome::Large),
        Err(SumFault::NoMemory) => Err(NoMemory),
    }
}

/// The expansion of an expression in the basis `target`, as a list of terms in the printed order.
fn expansion(
    alloc: Global,
    target: Basis,
    formula: &Formula,
) -> Result<Terms<Partition, Frac>, SumFault>
    requires { degree (tree_of formula.now.tree) ≤ degree_limit (basis_of target) }
    ensures expands { IfOk result (λ terms. (n : ℕ) → IsExpansionOf (basis_of target) terms n
        (cleared_value (tree_of formula.now.tree) n) (denominator (tree_of formula.now.tree))) }
    ensures large { IsErrOf result SumFault.Large
        → 2 ^ 127 ≤ weight (basis_of target) (tree_of formula.now.tree) }
{
    let list = in_target(alloc, target, formula)?;
    let terms = list.sorted_terms()?;
    Ok(terms)
}

/// The expansion of an expression in the basis `target`, as an unordered list of terms.
fn in_target(
    alloc: Global,
    target: Basis,
    formula: &Formula,
) -> Result<Lin<Partition, Frac>, SumFault>
    requires { degree (tree_of formula.now.tree) ≤ degree_limit (basis_of target) }
    ensures expands { IfOk result (λ list. (n : ℕ) → IsExpansionOf (basis_of target) list n
        (cleared_value (tree_of formula.now.tree) n) (denominator (tree_of formula.now.tree))) }
    ensures large { IsErrOf result SumFault.Large
        → 2 ^ 127 ≤ weight (basis_of target) (tree_of formula.now.tree) }
{
    match target {
        Basis::M => to_monomial_by_schurs(alloc, formula),
        Basis::E => by_family(alloc, Basis::E, Family::Elementary, formula),
        Basis::H => by_family(alloc, Basis::H, Family::Complete, formula),
        Basis::P => by_family(alloc, Basis::P, Family::PowerSum, formula),
        Basis::S => to_schur(alloc, formula),
    }
}

/// The expansion of an expression in e, h or p, as an unordered list of terms. Each subexpression
/// is expanded in this basis; if a number is then too large, the expression is expanded in m, and
/// the result is converted to the basis.
fn by_family(
    alloc: Global,
    target: Basis,
    family: Family,
    formula: &Formula,
) -> Result<Lin<Partition, Frac>, SumFault>
    requires family { basis_of target ≡ basis_in family }
    requires low { degree (tree_of formula.now.tree) ≤ degree_limit (basis_of target) }
    ensures expands { IfOk result (λ list. (n : ℕ) → IsExpansionOf (basis_of target) list n
        (cleared_value (tree_of formula.now.tree) n) (denominator (tree_of formula.now.tree))) }
    ensures large { IsErrOf result SumFault.Large
        → 2 ^ 127 ≤ weight (basis_of target) (tree_of formula.now.tree) }
{
    match to_family(alloc, family, formula) {
        Ok(list) => Ok(list),
        Err(SumFault::NoMemory) => Err(SumFault::NoMemory),
        Err(SumFault::Large) => by_monomials(alloc, target, formula),
    }
}

/// The expansion of an expression in the basis `target`, as an unordered list of terms: the
/// expression is expanded in m, and the result is converted to the basis.
fn by_monomials(
    alloc: Global,
    target: Basis,
    formula: &Formula,
) -> Result<Lin<Partition, Frac>, SumFault>
    requires { degree (tree_of formula.now.tree) ≤ degree_limit (basis_of target) }
    ensures expands { IfOk result (λ list. (n : ℕ) → IsExpansionOf (basis_of target) list n
        (cleared_value (tree_of formula.now.tree) n) (denominator (tree_of formula.now.tree))) }
    ensures large { IsErrOf result SumFault.Large
        → 2 ^ 127 ≤ weight (basis_of target) (tree_of formula.now.tree) }
{
    let list = to_monomial(alloc, formula)?;
    let Some(bound) = formula.weight() else {
        return Err(SumFault::Large);
    };
    to_basis(alloc, &list, bound, target)
}
