//! The law of complements: the coefficients of products of Schur polynomials in k variables do not
//! change if all partitions are replaced by their complements in rectangles.
//!
//! A law function has an empty body: its contract is the law.
#![tactic(auto)]

mod complement;

pub use complement::complement_law;
