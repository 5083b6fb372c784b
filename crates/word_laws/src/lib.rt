//! Laws of the words of commands: the place of the first error of syntax, the one command that
//! words spell, the first error, and the words of a tableau.
//!
//! A law function takes nothing, returns nothing and does no work when it runs: its contract is the
//! law.
//!
//! What is proved:
//!
//! `one_command_law`: a list of words spells at most one command and has at most one first error.
//! `syntax_place_law`: the first error of syntax is directly after the longest beginning of the
//! words that is also the beginning of the words of some command. `command_offence_law`: the first
//! error of words is one of their errors, with no other one before it. `words_of_commands_law`: for
//! each command there are words of its form. `tableau_shape_law`: words have no error of shape if
//! and only if they are a tableau with rows of the given lengths. `left_shape_law`: the place at
//! which the lengths of the rows of a typed tableau first differ from the given ones.
//! `judged_rows_law`: the first error of the rows of a tableau is found by applying all rules to
//! each number in turn. `earlier_offence_law`: the first error of two lists together is the earlier
//! of their first errors.
#![tactic(auto)]

mod commands;
mod rows_judged;
mod shapes_left;
mod tableau_shapes;

pub use commands::{command_offence_law, one_command_law, syntax_place_law, words_of_commands_law};
pub use rows_judged::{earlier_offence_law, judged_rows_law};
pub use shapes_left::left_shape_law;
pub use tableau_shapes::tableau_shape_law;
