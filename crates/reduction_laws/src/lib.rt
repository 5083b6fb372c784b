//! Lemmas on products of partitions in which each partition of the product is replaced by its
//! reduction, by rim hooks (quantum products) or into the alcove (fusion products). They state what
//! the trait `Reduction` of `rim_hooks` asks of an implementation.
//!
//! The crate has no code: the lemmas are in `proofs/`.
#![tactic(auto)]
