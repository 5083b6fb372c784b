//! Expansions in the monomial basis of an expression with the greatest nesting that is allowed, and
//! of one whose nesting exceeds it by 1.

use anyhow::Result;
use basis_expand::to_monomial;
use expression_reading::{Expr, Formula};
use row_texts::said;
use std::alloc::{AllocError, Global};

/// Prints the results of expanding, by `to_monomial`, the number 1 negated so often that the
/// nesting is 4,096, and so often that it is 4,097.
pub fn print(rt: &(impl Print + Alloc<A = Global>)) -> Result<()> {
    let alloc = rt.alloc();
    let answer = expanded(alloc, negated_one(alloc, 4096)?);
    said(rt, "one at nesting 4096", &answer)?;
    let answer = expanded(alloc, negated_one(alloc, 4097)?);
    said(rt, "one at nesting 4097", &answer)
}

/// The result of expanding an expression in the monomial basis, as a text to be printed.
fn expanded(alloc: Global, tree: Expr) -> &'static str {
    let Ok(formula) = Formula::from_tree(tree) else {
        return "no formula";
    };
    match to_monomial(alloc, &formula) {
        Ok(list) if list.len() == 1 => "one term",
        Ok(_) => "another number of terms",
        Err(_) => "refused",
    }
}

/// The number 1, negated `nesting - 1` times.
fn negated_one(alloc: Global, nesting: u16) -> Result<Expr, AllocError> {
    let mut tree = Expr::Number { num: 1 };
    for _ in 1..nesting {
        tree = Expr::Negation {
            inner: Box::new(alloc, tree)?,
        };
    }
    Ok(tree)
}
