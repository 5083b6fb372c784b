//! Products of Schubert polynomials, by Monk's rule and the transition rule, or row by row of a
//! diagram.
//!
//! What is proved:
//!
//! `times_var` gives the product of a sum of Schubert polynomials and a variable x_r as a sum of
//! Schubert polynomials, by Monk's rule, in every number of variables. The weight of a sum is the
//! sum of the absolute values of its coefficients, or 1 for the empty sum. The weight of the
//! product is at most W·max(r, n), for the weight W of the given sum and the greatest number n of
//! letters of its permutations. `Large` is returned only if W is 2^127 or more. `schubmult` gives
//! the product of two Schubert polynomials, in every number of variables; `Large` is returned only
//! if the bound in the documentation of `schubmult` is 2^127 or more.
//!
//! `schubmult` computes the product in one of two ways, and the answer is the same. One is the
//! transition rule on the permutation with fewer inversions. The other is the way of Samuel's
//! program `schubmult` (the law `diagram_rows_law` of the crate `double_schubert_laws`): for one of
//! the two permutations, v, it finds the code of a permutation from which exchanges at descents
//! lead to the inverse of v, and multiplies by elementary polynomials e_d(x_1, .., x_r) for its
//! rows of r cells, one row after another (`row_path`, `row_summands`, `row_table`). These products
//! are Sottile's Pieri formula: chains of covers, with coefficients 1 (`chains`). The way is chosen
//! by an estimate (`row_product`). If a coefficient on the way by rows is too large, or if a
//! permutation has more than 32 letters, the transition rule is used, so the condition for `Large`
//! is that of the transition rule.
//!
//! If the greater number of letters and the smaller number of inversions of the two permutations
//! add up to at most 32, the transition rule uses permutations that allocate no memory
//! (`ShortPerm`). They have the same covers as permutations of the type `Perm`, and the bound for
//! `Large` is the same for both types.
#![tactic(auto)]

mod chains;
mod monk;
mod product;
mod row_path;
mod row_product;
mod row_summands;
mod row_table;
mod short_monk;
mod short_perm;

pub use monk::times_var;
pub use product::schubmult;
