//! The polynomials e_k, h_k and p_k as lists of terms in another of the bases e, h and p, with
//! coefficients in closed form.
//!
//! A law function takes no argument, returns nothing and does nothing at run time: its contract is
//! the law.
//!
//! What is proved:
//!
//! `one_part_list_law`: e_k in h and p, h_k in e and p, and p_k in h and e, with coefficients in
//! closed form. `exact_quotient_law`: the quotients in these coefficients are integers.
//! `family_independence_law`: the p_λ are linearly independent, and so are the e_λ and the h_λ.
#![tactic(auto)]

mod independence;
mod lists;
mod quotients;

pub use independence::family_independence_law;
pub use lists::one_part_list_law;
pub use quotients::exact_quotient_law;
