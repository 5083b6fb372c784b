//! Laws of double Schubert polynomials.
//!
//! A law function has an empty body: its contract is the law.
//!
//! What is proved:
//!
//! `double_schubert_law`: every path of divided differences in x gives the same double Schubert
//! polynomial, fixed letters (letters equal to their places) at the end of the permutation do not
//! change it, and if the code is weakly decreasing, it is the product of the x_i - y_j over the
//! diagram of the code. `double_monk_law`: Monk's rule and the transition rule for double Schubert
//! polynomials. `double_schubert_independence_law`: double Schubert polynomials are linearly
//! independent over the polynomials in y. `double_at_zero_law`: at x = 0 the polynomial is, up to
//! its sign, the Schubert polynomial of the inverse permutation in the variables y.
//! `diagram_rows_law`: the product of a polynomial and a Schubert polynomial, by products with
//! elementary polynomials and Monk's rule for the divided differences of a product of x_i - y_j.
//! `fixed_letters_law`: covers, and Sottile's Pieri formula, for permutations that are written
//! without fixed letters at the end.
#![tactic(auto)]

mod double_laws;
mod independence;
mod inverse_laws;
mod letter_laws;
mod row_laws;
mod rule_laws;

pub use double_laws::double_schubert_law;
pub use independence::double_schubert_independence_law;
pub use inverse_laws::double_at_zero_law;
pub use letter_laws::fixed_letters_law;
pub use row_laws::diagram_rows_law;
pub use rule_laws::double_monk_law;
