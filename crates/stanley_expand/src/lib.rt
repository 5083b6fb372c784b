//! Stanley polynomials in Schur polynomials, by the transition rule from 1^m × w: a term with a
//! factor x_r is dropped if r is greater than m, and a permutation is dropped if some letter has
//! more than m greater letters before it. A permutation without a descent after place m contributes
//! a Schur polynomial. Equal permutations are expanded only once, with a count of them as the
//! coefficient.
//!
//! The crate also has laws on Grassmannian permutations, and on Stanley polynomials as sums of
//! Schur polynomials.
//!
//! A law function has an empty body: its contract is the law.
//!
//! What is proved:
//!
//! `stanley` gives the Stanley polynomial of a permutation of at most 16 letters in 1 to 64
//! variables, in Schur polynomials with at most one row for each variable; unless memory runs out,
//! `Large` is returned if and only if a coefficient exceeds 2^127 - 1.
//!
//! `grassmannian_law` says that the Schubert polynomial of a Grassmannian permutation is a Schur
//! polynomial. `stanley_law` says that a Stanley polynomial is a sum of Schur polynomials, with no
//! negative coefficient.
#![tactic(auto)]

mod behind;
mod blocks;
mod expansion;
mod grassmannian_laws;
mod letters;
mod products;
mod stanley_polynomials;
mod walk;

pub use expansion::stanley;
pub use grassmannian_laws::grassmannian_law;
pub use stanley_polynomials::stanley_law;
