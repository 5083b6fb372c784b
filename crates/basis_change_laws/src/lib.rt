//! Laws of the changes between bases of symmetric functions, each in every number of variables.
//!
//! A law function has an empty body: its contract is the law.
//!
//! What is proved:
//!
//! `newton_law`: Newton's identities for h and e. `augmented_monomial_law`: the product of a power
//! sum p_a and an augmented monomial symmetric polynomial, as a sum of augmented monomial symmetric
//! polynomials.
#![tactic(auto)]

mod augmented;
mod newton;

pub use augmented::augmented_monomial_law;
pub use newton::newton_law;
