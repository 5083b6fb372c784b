//! Exact coefficients: integers, natural numbers (`Count`) and fractions of 128 bits. Each
//! operation gives the exact value or `None`. The crate also has greatest common divisors,
//! factorials, products, common denominators and quotients of integers. Nothing here allocates
//! memory.
//!
//! What is proved:
//!
//! `Int`, `Count` and `Frac`: each operation gives the sum, difference, product or quotient of the
//! values, and `None` if and only if its documentation says so; further laws state bounds on the
//! numbers under which an operation has a result.
//!
//! `gcd`, `factorial`, `common_denominator` and `denominator_product` agree with their definitions;
//! the last two return an error if and only if the value is 2^127 or more. `product_of` is the
//! product, and returns an error only if its absolute value is 2^127 or more. `quotient_of` is the
//! fraction in lowest terms.
#![tactic(auto)]

mod count;
mod denominators;
mod digits;
mod divisors;
mod frac;
mod int;
mod products;
mod quotients;
mod scalar;

pub use count::Count;
pub use denominators::{Common, common_denominator, denominator_product};
pub use digits::Digits;
pub use divisors::gcd;
pub use frac::Frac;
pub use int::Int;
pub use products::{factorial, product_of};
pub use quotients::quotient_of;
pub use scalar::{Field, Ring, Scalar};
