//! One coefficient of a product of two Schur polynomials, counted for the partitions or, if this is
//! estimated to be faster, for their complements in rectangles.
//!
//! What is proved:
//!
//! `coef` has the contract of `lr_product::coef`: the coefficient is a count of good tableaux of the
//! given partitions, and `Large` is returned if and only if it exceeds 2^127 - 1, unless memory runs
//! out. That the complements have the same coefficient is `complement_law`.
#![tactic(auto)]

mod coefficient;
mod complement;
mod estimate;

pub use coefficient::coef;
