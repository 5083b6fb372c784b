//! Products of double Schubert polynomials, row by row of a diagram.
//!
//! A law function has an empty body: its contract is the law.
//!
//! What is proved:
//!
//! `double_inverse_law`: exchanging the alphabets x and y gives, up to the sign, the double
//! Schubert polynomial of the inverse permutation. `double_rows_law`: the product of a polynomial
//! and a double Schubert polynomial, by products with elementary polynomials and Monk's rule for the
//! divided differences of a product of x_i - y_j, or letter by letter of the other permutation.
#![tactic(auto)]

mod inverse_laws;
mod row_laws;

pub use inverse_laws::double_inverse_law;
pub use row_laws::double_rows_law;
