//! Laws of fractions of integers: sums, differences, products and quotients of fractions in lowest
//! terms, and checked operations, whose numbers must fit 128 bits.
//!
//! A law function has an empty body: its contract is the law.
//!
//! What is proved:
//!
//! `fraction_law`: two fractions in lowest terms that are equal have the same numerator and the
//! same denominator; the results of the operations are in lowest terms; and fractions in lowest
//! terms satisfy the laws of a field.
#![tactic(auto)]

mod reduced;

pub use reduced::fraction_law;
