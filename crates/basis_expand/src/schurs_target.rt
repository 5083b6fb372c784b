//! The operations by which an expression is expanded in Schur polynomials: the values of numbers,
//! atoms (basis elements such as e[2,1]), negations, sums and products. Each value is an atom, or a
//! list of terms in Schur polynomials.
ghost use Rattle.std.specs.Prelude.{ℕ, ◌≤◌, nat_eq, IsTrue, IfOk};
ghost use Rattle.std.specs.Cmp.Lexicographic.{pointwise};
ghost use Rattle.sym_model.specs.Expression.{Tree, cleared_value, degree, denominator};
ghost use Rattle.sym_model.specs.Expression.{difference, negation, product, sum};
ghost use Rattle.monomial_laws.proofs.ExpressionLaws.{difference-value, expansion_respects};
ghost use Rattle.monomial_laws.proofs.ExpressionLaws.{sum-not_atom};
ghost use Rattle.expression_reading.specs.Trees.{basis_of, has_no_signs, tree_of};
ghost use Rattle.sparse_polys.specs.Combination.{IsSumOf};
ghost use Rattle.sparse_polys.specs.Tables.{IsFractionTable};
ghost use Rattle.basis_expand.specs.SchurLists.{StandsFor};
ghost use Rattle.basis_expand.specs.Operands.{IsOperand, MayBeRefused};

use crate::evaluation::evaluate;
use crate::operand::Operand;
use crate::schur_atoms::{atom, quotient};
use crate::schur_products::product;
use crate::strips_added::{factors_of, times_parts};
use crate::target::Target;
use calc_base::{Basis, SumFault};
use coeff_rings::{Frac, Ring};
use expression_reading::Expr;
use linear_combinations::Lin;
use partitions::Partition;
use std::alloc::Global;

/// The target basis s; the value of an expression is of the type `Operand`. The operations return
/// `Large` if an intermediate number is too large.
#[derive(Clone, Copy)]
pub(crate) struct Schurs;

impl Target for Schurs {
    ghost use Rattle.basis_expand.specs.declared.operand.Operand.TheVariants.{Atom, Expanded};

    type Value = Operand;

    ghost limit = { 20 };

    ghost stands = { λ _. IsOperand };

    ghost heavy = { λ _. MayBeRefused };

    fn quotient(&self, alloc: Global, num: i128, den: u128) -> Result<Operand, SumFault> {
        let list = quotient(alloc, num, den)?;
        Ok(Operand::Expanded { list })
    }

    fn atom(&self, _: Global, basis: Basis, label: &Partition) -> Result<Operand, SumFault> {
        let label = label.copy()?;
        Ok(Operand::Atom { basis, label })
    }

    fn negated(&self, alloc: Global, inner: Operand) -> Result<Operand, SumFault> {
        let terms = list_of(alloc, inner)?;
        if terms.len() == 0 {
            return Ok(Operand::Expanded { list: terms });
        }
        let list = terms.scale(Frac::from_whole(-1))?;
        Ok(Operand::Expanded { list })
    }

    fn added(&self, alloc: Global, left: Operand, right: Operand) -> Result<Operand, SumFault> {
        let first = list_of(alloc, left)?;
        let second = list_of(alloc, right)?;
        let list = sum_of(first, second)?;
        Ok(Operand::Expanded { list })
    }

    fn multiplied(
        &self,
        alloc: Global,
        left: Operand,
        right: Operand,
    ) -> Result<Operand, SumFault> {
        let list = product_of(alloc, left, right)?;
        Ok(Operand::Expanded { list })
    }

    ghost differs = { λ _ e f v. elim v as (λ v. IsOperand (sum e (negation f)) v
        → IsOperand (difference e f) v) [
          | Atom basis label ↦ λ h. absurd (sum-not_atom e (negation f) (basis_of basis) label h)
          | Expanded list ↦ λ h n.
              expansion_respects list n (cleared_value (sum e (negation f)) n)
              (cleared_value (difference e f) n) (denominator (difference e f))
              (difference-value e f n) (h n)
        ] };

    ghost grows = { λ _ e f _ _. tt };
}

/// The list of terms in Schur polynomials of an operand, which is an atom or such a list.
fn list_of(alloc: Global, operand: Operand) -> Result<Lin<Partition, Frac>, SumFault>
    requires { (e : Tree) × IsOperand e operand × (degree e ≤ 20) }
    ensures { (e : Tree) → IsOperand e operand → IfOk result (StandsFor e) }
{
    match operand {
        Operand::Atom { basis, label } => atom(alloc, basis, &label),
        Operand::Expanded { list } => Ok(list),
    }
}

/// The sum of two lists of terms in Schur polynomials. The shorter list is added to the longer one.
fn sum_of(
    first: Lin<Partition, Frac>,
    second: Lin<Partition, Frac>,
) -> Result<Lin<Partition, Frac>, SumFault>
    ensures tables { IsFractionTable first × IsFractionTable second }
    ensures sum { IfOk result (IsSumOf (pointwise nat_eq) first second) }
    ensures table { IfOk result IsFractionTable }
{
    if first.len() < second.len() {
        return second.add_all(&first);
    }
    first.add_all(&second)
}

/// The product of two operands as a list of terms in Schur polynomials. If one of them is an atom
/// e_λ, h_λ or p_λ, the other one is multiplied by e_k, h_k or p_k for one part k of λ after
/// another.
fn product_of(
    alloc: Global,
    left: Operand,
    right: Operand,
) -> Result<Lin<Partition, Frac>, SumFault>
    requires left { (e : Tree) × IsOperand e left × (degree e ≤ 20) }
    requires right { (e : Tree) × IsOperand e right × (degree e ≤ 20) }
    ensures { (e f : Tree) → IsOperand e left → IsOperand f right
        → IfOk result (StandsFor (product e f)) }
{
    if let Some((family, label)) = factors_of(&right) {
        return times_parts(alloc, family, list_of(alloc, left)?, label.parts());
    }
    if let Some((family, label)) = factors_of(&left) {
        return times_parts(alloc, family, list_of(alloc, right)?, label.parts());
    }
    let first = list_of(alloc, left)?;
    let second = list_of(alloc, right)?;
    product(alloc, &first, &second)
}

/// The expression `tree` as a list of terms in Schur polynomials. Returns `Large` if an
/// intermediate number is too large; the caller then uses another method.
pub(crate) fn converted(alloc: Global, tree: &Expr) -> Result<Lin<Partition, Frac>, SumFault>
    requires plain { IsTrue (has_no_signs tree.now) }
    requires low { degree (tree_of tree.now) ≤ 20 }
    ensures { IfOk result (StandsFor (tree_of tree.now)) }
{
    let value = evaluate(alloc, &Schurs, tree)?;
    list_of(alloc, value)
}
