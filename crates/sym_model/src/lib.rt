//! The definitions of the project (in `specs/`, one file for each subject), over plain lists and
//! whole numbers; lemmas about them, in `proofs/`; and the laws that need no other crate.
//!
//! A law function has an empty body: its contract is the law.
//!
//! What is proved:
//!
//! `poly_ring_law`: polynomials are a commutative ring. `leading_cancel_law`: a polynomial whose
//! greatest monomial has the coefficient 1 or -1 can be cancelled from a product.
//! `restriction_law`: m_λ, e_λ, h_λ and p_λ in n variables, restricted to k ≤ n variables, are m_λ,
//! e_λ, h_λ and p_λ in k variables. `partitions_of_law`, `place_orders_law`: the lists
//! `partitions_of d` and `orders (places n)` contain each partition of d and each permutation of
//! 1, .., n exactly once. `greatest_common_divisor_law`: Euclid's rule gives the greatest common
//! divisor.
#![tactic(auto)]

mod divisors;
mod leading;
mod order_laws;
mod partition_lists;
mod restriction;
mod ring_laws;

pub use divisors::greatest_common_divisor_law;
pub use leading::leading_cancel_law;
pub use order_laws::place_orders_law;
pub use partition_lists::partitions_of_law;
pub use restriction::restriction_law;
pub use ring_laws::poly_ring_law;
