//! Pieri's formula for double Schubert polynomials.
//!
//! A law function has an empty body: its contract is the law.
//!
//! What is proved:
//!
//! `double_pieri_law`: e_d(x_1, .., x_k)·S_w(x; y) is a sum over chains of covers, with elementary
//! polynomials in the y of the letters that stay at their places.
#![tactic(auto)]

mod pieri_laws;

pub use pieri_laws::double_pieri_law;
