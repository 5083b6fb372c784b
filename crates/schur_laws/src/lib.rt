//! Laws of Schur polynomials: their coefficients in the monomial basis, their expansion in two sets
//! of variables, and the coefficients of their products as numbers of tableaux of skew shapes. One
//! more law gives a number of variables that determines a symmetric polynomial.
//!
//! A law function has an empty body: its contract is the law.
//!
//! What is proved:
//!
//! `schur_in_monomials_law`: in every number of variables, the coefficients of s_λ in the monomial
//! basis are Kostka numbers, which count the ways to remove λ by horizontal strips.
//!
//! `coproduct_law`: s_λ in two sets of variables is the sum, over the partitions μ inside λ, of s_μ
//! in the first set times s_(λ/μ) in the second.
//!
//! `duality_law`: a tableau is good for a start σ, a partition, if, for each column, σ plus the
//! content of that column and of the columns to its right is a partition. The number of good
//! tableaux T of λ/μ for the start σ with σ + content(T) = τ equals the number of good tableaux U
//! of τ/σ for the start μ with μ + content(U) = λ. So coefficients of products are counts of
//! lattice tableaux of skew shapes, and the factors can be exchanged.
//!
//! `degree_law`: if two families of symmetric polynomials of degree at most d agree in d variables,
//! they agree in every number of variables. So a list that expands an expression in d variables
//! expands it in every number of variables, if d is at least the degree of the expression and the
//! size of each label of the list.
//!
//! `schur_independence_law`: Schur polynomials are linearly independent, and so are products of
//! Schur polynomials in two sets of variables.
#![tactic(auto)]

mod coproduct;
mod degree;
mod independence;
mod schur_expansion;
mod skew_duality;

pub use coproduct::coproduct_law;
pub use degree::degree_law;
pub use independence::schur_independence_law;
pub use schur_expansion::schur_in_monomials_law;
pub use skew_duality::duality_law;
