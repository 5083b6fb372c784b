//! The nodes of an expression, which are its subexpressions, in the order in which they are
//! evaluated, so that a deep tree needs no deep recursion.
ghost use Rattle.std.specs.Prelude.{◌≡◌, ◌<◌, ◌++◌, [], ◌∷◌, length, map, IfOk, OnOk};
ghost use Rattle.basis_expand.specs.Postorder.{operands, postorder};

use calc_base::NoMemory;
use expression_reading::Expr;
use std::alloc::Global;

/// The nodes of an expression, each after its operands: when a node is evaluated, the values of its
/// operands are the last ones on a stack.
pub fn postorder(alloc: Global, tree: &Expr) -> Result<Vec<&Expr>, NoMemory>
    ensures { IfOk result (λ nodes. map (λ node. node.now) nodes.items ≡ postorder tree.now) }
{
    let mut nodes = Vec::new(alloc);
    let mut waiting = Vec::new(alloc);
    waiting.push(tree)?;
    while let Some(node) = waiting.pop() {
        nodes.push(node)?;
        push_operands(&mut waiting, node)?;
    }
    // Up to here each node is listed before its operands, and the right operand before the left
    // one; the reverse of this list is the postorder.
    nodes.reverse();
    Ok(nodes)
}

/// Appends the operands of `node` to `waiting`, the list of the nodes still to be visited.
fn push_operands<'a>(waiting: &mut Vec<&'a Expr>, node: &'a Expr) -> Result<(), NoMemory>
    ensures { OnOk result (map (λ e. e.now) waiting.new.items
        ≡ map (λ e. e.now) waiting.old.items ++ operands node.now) }
{
    match node {
        Expr::Number { .. } | Expr::Fraction { .. } | Expr::Atom { .. } => {}
        Expr::Negation { inner } => waiting.push(inner)?,
        Expr::Sum { left, right }
        | Expr::Difference { left, right }
        | Expr::Product { left, right } => {
            waiting.push(left)?;
            waiting.push(right)?;
        }
    }
    Ok(())
}

/// Removes the last value, which is that of the one operand of a node, and returns it.
pub(crate) fn take_operand<V>(values: &mut Vec<V>) -> V
    requires { 0 < length values.old.items }
    ensures { values.old.items ≡ values.new.items ++ result ∷ [] }
{
    values.pop().unwrap()
}

/// Removes the last two values, which are those of the two operands of a node, and returns them.
pub(crate) fn take_operands<V>(values: &mut Vec<V>) -> (V, V)
    requires { 1 < length values.old.items }
    ensures { values.old.items ≡ values.new.items ++ result.0 ∷ result.1 ∷ [] }
{
    let right = take_operand(values);
    let left = take_operand(values);
    (left, right)
}
