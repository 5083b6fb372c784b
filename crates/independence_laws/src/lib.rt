//! Linear independence of families of polynomials over the integers, and what follows for lists of
//! terms: two lists in strict order, with coefficients in lowest terms and not 0, that represent
//! the same polynomial in such a family are the same list.
//!
//! A family is shown to be independent by dual functions (`proofs/DualFunctions`), or by functions
//! that are dual up to labels that come before (`proofs/LeastLabels`).
//!
//! A law function has an empty body: its contract is the law.
//!
//! What is proved:
//!
//! `power_independence_law`: monomials x^α are linearly independent.
#![tactic(auto)]

mod powers;

pub use powers::power_independence_law;
