//! Laws of the monomial basis, in every number of variables.
//!
//! A law function has an empty body: its contract is the law.
//!
//! What is proved:
//!
//! `monomial_product_law`: the coefficients of m_λ·m_μ, and of products of sums of such functions,
//! in the monomial basis. `monomial_independence_law`: the m_λ are linearly independent.
//! `expression_bound_law`: bounds for the coefficients of the value of an expression, computed from
//! its degree and its numbers.
#![tactic(auto)]

mod bounds;
mod independence;
mod monomial_products;

pub use bounds::expression_bound_law;
pub use independence::monomial_independence_law;
pub use monomial_products::monomial_product_law;
