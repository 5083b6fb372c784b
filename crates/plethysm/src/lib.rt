//! Plethysm, computed by power sums: the variables of one symmetric polynomial F are replaced by
//! the monomials of another one, G.
//!
//! What is proved:
//!
//! `plethysm`: let F and G be lists of terms in the monomial basis m, and let the coefficients of G
//! be integers that are not negative. The result is F[G], expanded in the target basis, in every
//! number of variables; each monomial of G is repeated according to its coefficient. If F has
//! degree 0, the result is F for every G. `Large` is returned only if the weight
//! N·D·(a+1)·(K·(b+1))^a·max(B(a)·(ab)!,B(ab)) is 2^127 or more; the documentation of `plethysm`
//! defines these letters.
#![tactic(auto)]

mod composition;
mod factors;
mod inner;
mod path;
mod quotients;

pub use composition::plethysm;
