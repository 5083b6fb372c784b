//! The evaluation of an expression in a target, the basis of the result: its value, for example a
//! list of terms, is computed node by node. The nodes of an expression are its subexpressions.
ghost use Rattle.std.specs.Prelude.{◌≤◌, IsTrue, List};
ghost use Rattle.sym_model.specs.Expression.{Tree, degree, sum, difference, negation};
ghost use Rattle.expression_reading.specs.declared.expr.Expr.{Expr};
ghost use Rattle.basis_expand.specs.Postorder.{operands, EndsWith};
ghost use Rattle.expression_reading.specs.Trees.{tree_of, has_no_signs};
ghost use Rattle.basis_expand.specs.Values.{IsMade, IsTaken};

use crate::nodes::{postorder, take_operand, take_operands};
use crate::target::Target;
use calc_base::SumFault;
use expression_reading::Expr;
use std::alloc::Global;

/// The value of a difference, computed as the sum of the value `left` and the negation of the value
/// `right`.
fn subtracted<T: Target>(
    alloc: Global,
    target: &T,
    left: T::Value,
    right: T::Value,
) -> Result<T::Value, SumFault>
    requires { (e f : Tree) × IsTaken T.limit (difference e f) × T.stands target.now e left
        × T.stands target.now f right }
    ensures { (e f : Tree) → IsTaken T.limit (difference e f) → T.stands target.now e left
        → T.stands target.now f right
        → IsMade (T.stands target.now) (T.heavy target.now) (difference e f) result }
{
    let turned = target.negated(alloc, right)?;
    target.added(alloc, left, turned)
}

/// The value of `node`, from the values of its operands, which are the last ones of `values` and
/// are removed.
fn value_of<T: Target>(
    alloc: Global,
    target: &T,
    node: &Expr,
    values: &mut Vec<T::Value>,
) -> Result<T::Value, SumFault>
    requires plain { IsTrue (has_no_signs node.now) }
    requires low { degree (tree_of node.now) ≤ T.limit }
    requires operands { (below : List T.Value)
        × EndsWith (λ (e : Expr). T.stands target.now (tree_of e))
        (operands node.now) below values.old.items }
    ensures value { IsMade (T.stands target.now) (T.heavy target.now) (tree_of node.now) result }
    ensures taken { EndsWith (λ (e : Expr). T.stands target.now (tree_of e))
        (operands node.now) values.new.items values.old.items }
{
    match node {
        Expr::Number { num } => target.quotient(alloc, *num, 1),
        Expr::Fraction { num, den } => target.quotient(alloc, *num, *den as u128),
        Expr::Atom { basis, label } => target.atom(alloc, *basis, label),
        Expr::Negation { .. } => target.negated(alloc, take_operand(values)),
        Expr::Sum { .. } => {
            let (left, right) = take_operands(values);
            target.added(alloc, left, right)
        }
        Expr::Difference { .. } => {
            let (left, right) = take_operands(values);
            subtracted(alloc, target, left, right)
        }
        Expr::Product { .. } => {
            let (left, right) = take_operands(values);
            target.multiplied(alloc, left, right)
        }
    }
}

/// The value of the expression `tree` in the target basis. Its numbers and numerators must be at
/// least 0, its denominators positive, and its degree at most the limit for this basis. A tree may
/// be deep: its nodes are evaluated one after another, on a stack of values.
pub fn evaluate<T: Target>(alloc: Global, target: &T, tree: &Expr) -> Result<T::Value, SumFault>
    requires plain { IsTrue (has_no_signs tree.now) }
    requires low { degree (tree_of tree.now) ≤ T.limit }
    ensures { IsMade (T.stands target.now) (T.heavy target.now) (tree_of tree.now) result }
{
    let nodes = postorder(alloc, tree)?;
    let mut values = Vec::new(alloc);
    for node in nodes {
        let value = value_of(alloc, target, node, &mut values)?;
        values.push(value)?;
    }
    Ok(take_operand(&mut values))
}
