//! Lemmas on the transition rule for the labels that `transition_walk` multiplies Schubert
//! polynomials by: permutations (Monk's rule), monomials in x, and pairs of a permutation and a
//! monomial in y (Monk's rule for double Schubert polynomials). They state what the traits `Factor`
//! and `Rule` ask of an implementation.
//!
//! The crate has no code: the lemmas are in `proofs/`.
#![tactic(auto)]
