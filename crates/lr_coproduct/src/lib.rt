//! The expansion of a Schur polynomial in two sets of variables, whose coefficients are numbers of
//! lattice tableaux. The tableaux are counted only for small skew shapes; the other numbers are
//! read from these.
//!
//! What is proved:
//!
//! `coprod` expands a Schur polynomial s_λ in two sets of variables; the coefficient of a pair (μ,
//! ν) is the number of lattice tableaux of the skew shape λ/μ with the content ν. Unless memory
//! runs out, `Large` is returned if and only if a coefficient is 2^127 or more.
#![tactic(auto)]

mod coproduct;
mod exchange;
mod inner_shapes;
mod pairs;

pub use coproduct::coprod;
