//! Expressions: reading a word as an expression, and the degrees and weights of expressions.
//!
//! What is proved:
//!
//! Unless memory runs out, `read_expression` returns the `Formula` of a word, an expression within
//! bounds, if the word spells an expression without an error, and otherwise the first error; the
//! degree limit depends on the target basis. `read_outer` and `read_inner` do the same for the two
//! words of a plethysm, with the degree limit 10; in the inner expression, minus signs and
//! fractions are errors too. The `degree`, `weight` and `weight_below` of a `Formula` are those of
//! the definitions.
#![tactic(auto)]

mod builder;
mod expr;
mod formula;
mod offence;
mod plethysm_words;
mod reading;
mod scan;
mod symbol;
mod weigh;

pub use calc_base::{Basis, Weight};
pub use expr::Expr;
pub use formula::{Formula, degree_limit};
pub use offence::Kind;
pub use plethysm_words::{PLETHYSM_DEGREE, read_inner, read_outer};
pub use reading::{ExpressionFault, read_expression, wrong_byte};
