//! Laws of the two printed forms of lists of terms, a block (a line for each term) and one line:
//! each canonical list (labels in the printed order; coefficients in lowest terms, not 0) has one
//! text in each form, which is read back as this list only; and the text in one line is an
//! expression that denotes the list.
//!
//! A law function has an empty body: its contract is the law.
//!
//! What is proved:
//!
//! `printed_form_law`: in both forms and for every kind of answer each canonical list has one text,
//! and each text is that of at most one list. `headline_law`: a text is that of a printable answer
//! to a command, in the form that the command asks for, if and only if it is read back as the
//! answer to the command. `line_expression_law`: in each basis the one-line form of a canonical
//! list of partitions, without its line feed, spells an expression of the grammar that denotes the
//! list, in every number of variables; if no numerator is -2^127, no number in it exceeds 2^127 -
//! 1.
#![tactic(auto)]

mod expressions;
mod headline;
mod lines;

pub use expressions::line_expression_law;
pub use headline::headline_law;
pub use lines::printed_form_law;
