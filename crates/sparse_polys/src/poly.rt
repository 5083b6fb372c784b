//! Polynomials as tables of terms.
use crate::{Lin, Monomial};

/// A polynomial: a table from monomials to coefficients.
pub type Poly<R> = Lin<Monomial, R>;
