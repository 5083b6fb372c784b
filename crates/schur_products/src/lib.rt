//! Products of two to eight Schur polynomials, expanded in Schur polynomials, in the way that is
//! expected to be faster: two factors in every number of variables by the rows of the labels
//! (`lattice_rows`) or by the columns of a factor (`lr_product`), all other products by columns.
//!
//! What is proved:
//!
//! `mult_all` returns the product of 2 to 8 Schur polynomials, expanded in Schur polynomials, in
//! every number of variables or in a given number, and returns `Large` if and only if a coefficient
//! exceeds 2^127 - 1, unless memory runs out. `list_by_rows` lists the terms of the product of two
//! factors one at a time. Nothing is proved of the estimate: each way gives the
//! same list.
#![tactic(auto)]

mod estimate;
mod factor_product;
mod listed_product;

pub use factor_product::mult_all;
pub use lattice_rows::ProductLister;
pub use listed_product::list_by_rows;
