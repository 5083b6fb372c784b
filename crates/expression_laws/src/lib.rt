//! Laws of expressions that are typed as words: a word spells at most one expression, which is
//! found byte by byte from the left, and the first error of a word is an error with no other before
//! it.
//!
//! A law function has an empty body: its contract is the law.
//!
//! What is proved:
//!
//! `grammar_law`: no word spells two different expressions. `first_offence_law`: the first error of
//! a list of errors is one of them, and no other one is before it.
#![tactic(auto)]

mod first_offence;
mod grammar;

pub use first_offence::first_offence_law;
pub use grammar::grammar_law;
