//! Calls of a store of computed Schubert polynomials (`Memo`) that can hold only one of them, with
//! their results.
use crate::printing::polynomial;
use anyhow::Result;
use coeff_rings::Int;
use linear_combinations::Lin;
use perm_codes::Perm;
use row_texts::said;
use schubert_transition::Memo;
use sparse_polys::Monomial;
use std::alloc::Global;

/// Prints the results of calls of the store `Memo`, one line each.
pub fn print(rt: &(impl Print + Alloc<A = Global>)) -> Result<()> {
    let w = Perm::from_letters(rt.alloc(), &[1, 3, 2])?;
    let v = Perm::from_letters(rt.alloc(), &[2, 1])?;
    with_both(rt, &w, &v)
}

fn with_both(rt: &(impl Print + Alloc<A = Global>), w: &Perm, v: &Perm) -> Result<()> {
    let mut memo = Memo::new(rt.alloc(), 1)?;
    asked(rt, &mut memo, w, v)
}

/// Requests the Schubert polynomials of two permutations from the store, and prints the results.
fn asked(rt: &impl Print, memo: &mut Memo, w: &Perm, v: &Perm) -> Result<()> {
    answered(rt, "S_(1,3,2)", memo, w)?;
    answered(rt, "S_(1,3,2) again", memo, w)?;
    held(rt, memo.kept(w))?;
    answered(rt, "S_(2,1)", memo, v)?;
    held(rt, memo.kept(w))
}

fn answered(rt: &impl Print, what: &str, memo: &mut Memo, w: &Perm) -> Result<()> {
    polynomial(rt, what, memo.schubert(w)?)
}

fn held(rt: &impl Print, answer: Option<&Lin<Monomial, Int>>) -> Result<()> {
    match answer {
        Some(list) => polynomial(rt, "kept S_(1,3,2)", list.copy()?),
        None => said(rt, "kept S_(1,3,2)", &"none"),
    }
}
