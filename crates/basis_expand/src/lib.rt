//! Expands expressions in the monomial basis m and in Schur polynomials s. The function `evaluate`
//! computes the value of an expression in any target, that is, a basis with the operations that
//! compute values in it. The targets here are m and s.
//!
//! What is proved:
//!
//! `evaluate`: the value represents the expression, in the sense that the target defines; `Large`
//! is returned only if the expression is heavy, that is, large in the sense that the target
//! defines.
//!
//! `to_monomial`: the list is the expression in m, in every number of variables. The two numbers of
//! `Formula::weight` bound the list, and `Large` is returned only if the weight for the target
//! basis m (`Formula::weight_below`) is 2^127 or more. `schurs_to_monomials`: a list in s with
//! integer coefficients as a list in m, in every number of variables; `Large` is returned only if,
//! after each coefficient of the list in s is replaced by its absolute value, some coefficient of
//! the result is 2^127 or more.
//!
//! `to_schur`: the list is the expression in s, in every number of variables. A factor in h, e or p
//! is multiplied by strips or rim hooks, other products are computed pair by pair by the
//! Littlewood-Richardson rule, and if an intermediate number is too large, the expression is
//! expanded in m first. `Large` is returned only if the weight for the target basis s is 2^127 or
//! more. `to_monomial_by_schurs`: the list is the expression in m, in every number of variables;
//! `Large` is returned only if the weight for the target basis m is 2^127 or more.
#![tactic(auto)]

mod cleared;
mod evaluation;
mod into_monomials;
mod into_schurs;
mod monomial_atoms;
mod monomials_target;
mod nodes;
mod operand;
mod power_sums;
mod schur_atoms;
mod schur_products;
mod schurs_in_monomials;
mod schurs_target;
mod strips_added;
mod strips_taken;
mod target;
mod through_schurs;

pub use evaluation::evaluate;
pub use into_monomials::to_monomial;
pub use into_schurs::to_schur;
pub use target::Target;
pub use through_schurs::to_monomial_by_schurs;
