//! Schubert polynomials by the transition rule, and a bounded store of Schubert polynomials.
//!
//! What is proved:
//!
//! `schubert` and `schubert_terms` give the Schubert polynomial of a permutation, in every number
//! of variables, by the transition rule (`transition_walk`); unless memory runs out, `Large` is
//! returned if and only if a coefficient is 2^127 or more. `Memo` is a bounded store of Schubert
//! polynomials, an LRU cache; each stored polynomial is that of its permutation, in every number of
//! variables, with at most 4,096 terms. Its methods `schubert` and `schubert_terms` return the same
//! as the functions without a store; its method `kept` returns None if and only if the polynomial
//! is not stored.
//!
//! The store never has more polynomials than its capacity (`IsSchubertStore`, which every method
//! that changes the store ensures). If a stored polynomial is requested, it moves to the front
//! (`GoesFirst`). If a polynomial that is not stored is requested, it is computed and inserted at
//! the front, and a full store drops its last one (`ComesFirst`); the store is unchanged if the
//! polynomial has more than 4,096 terms, if there is no memory to store it, and if `schubert`
//! returns an error.
#![tactic(auto)]

mod memo;
mod polynomial;

pub use memo::Memo;
pub use polynomial::{schubert, schubert_terms};
pub use schubert_laws::{monk_law, path_law};
