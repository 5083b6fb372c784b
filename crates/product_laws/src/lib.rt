//! Laws of products of Schur polynomials: products of several factors that are reduced after each
//! factor, and the rules of Pieri and of Murnaghan and Nakayama.
//!
//! A law function has an empty body: its contract is the law.
//!
//! What is proved:
//!
//! `reductions_in_steps_law`: multiplying two or more factors one by one, with a reduction by rim
//! hooks (or into the alcove) after each factor, gives the same list as reducing the product of all
//! factors (`classical_product`) once. `one_reduction_law`: any two reductions of that product have
//! the same coefficients. `pieri_law`: in every number of variables h_k·s_μ is the sum of the s_ν
//! for which ν/μ is a horizontal strip of k cells, and e_k·s_μ is the sum of the s_ν for which ν/μ
//! is a vertical strip of k cells. `murnaghan_nakayama_law`: p_k·s_μ is the sum of (-1)^(height -
//! 1)·s_ν over the ν for which ν/μ is a rim hook of k cells.
#![tactic(auto)]

mod reductions;
mod strip_products;

pub use reductions::{one_reduction_law, reductions_in_steps_law};
pub use strip_products::{murnaghan_nakayama_law, pieri_law};
