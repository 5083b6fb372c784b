//! Calls that test whether the weight of an expression, a number computed from its coefficients and
//! its degree, is below a bound, with their results.
use anyhow::Result;
use expression_reading::{Basis, read_expression};
use row_texts::{said, truth};
use std::alloc::Global;

/// Prints the results of calls of `Formula::weight_below`, one line each.
pub fn print(rt: &(impl Print + Alloc<A = Global>)) -> Result<()> {
    row(rt, "2*h[2]-e[1,1]", "2*h[2]-e[1,1]")?;
    row(
        rt,
        "the greatest number plus 1",
        "170141183460469231731687303715884105727+1",
    )
}

/// Reads a word as an expression to be expanded in the basis m, and prints whether the weight of
/// the expression is below 2^127, or that the word is refused.
fn row(rt: &(impl Print + Alloc<A = Global>), what: &str, word: &str) -> Result<()> {
    match read_expression(rt.alloc(), Basis::M, word.as_bytes()) {
        Ok(formula) => truth(rt, what, formula.weight_below(Basis::M, 1 << 127)),
        Err(_) => said(rt, what, &"refused"),
    }
}
