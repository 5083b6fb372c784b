//! Products of double Schubert polynomials by the transition rule.
//!
//! What is proved:
//!
//! `times_factor` multiplies a sum of terms y^e·S_w by x_r - y_c, and gives the product as such a
//! sum, in every number of variables. The weight of a sum is the sum of the absolute values of its
//! coefficients; the weight of the product is at most that of the given sum times m + 2, with m the
//! greater of r and the greatest number of letters of a permutation w in the sum, and `Large` is
//! returned only if that bound is 2^127 or more. `dschubmult` gives the product of two double
//! Schubert polynomials of permutations of at most 8 letters, in every number of variables x and y;
//! `Large` is returned only if the bound in the documentation of `dschubmult` is 2^127 or more.
//!
//! Let w be the one of the two permutations that has fewer inversions. If its double Schubert
//! polynomial is a product of at most 24 factors x_r - y_c (`linear_factors`), the other double
//! Schubert polynomial is multiplied by one factor after another. The products are stored with one
//! polynomial in y for each permutation; the monomials in y allocate no memory (`ShortMonomial`).
//! Otherwise the transition rule is applied to w, and the product is one list of terms y^e·S_v.
#![tactic(auto)]

mod by_permutations;
mod factor;
mod linear_factors;
mod product;
mod short_monomial;

pub use factor::times_factor;
pub use product::dschubmult;
