//! Reads the words of every command: those of the commands on tableaux (`unrsk`, `rect` and `tab`)
//! and on expressions here, all others by `calc_words`. Expressions are read by
//! `expression_reading`, whose public items are re-exported.
//!
//! What is proved:
//!
//! Unless memory runs out, `read_words` returns a command if and only if the words spell this
//! command of the grammar without an error; the command is within its limits, and the tableaux of
//! `unrsk` have the same shape, the second one standard (`IsSound`). If the words spell a command
//! with an error, `read_words` returns the first error; if they spell no command, it returns the
//! place of the first error of syntax, that is, a word and a byte. `read_line` does the same for a
//! line of a batch.
//!
//! This is proved also for the words of `unrsk`, `rect` and `tab`, with the rows of tableaux. In
//! `unrsk` and `rect`, an entry that is out of order is refused at its word; in `tab`, a tableau
//! after `-from` that is no lattice tableau of the shape is refused at the word `-from`.
#![tactic(auto)]

mod by_name;
mod cells;
mod earlier;
mod expand;
mod inner_partition;
mod lines;
mod pairs;
mod plethysm_command;
mod refusal;
mod row_numbers;
mod row_offences;
mod row_words;
mod skew_tableaux;
mod tab;
mod tableaux;
mod words;

pub use calc_base::WordsFault;
pub use calc_words::Command;
pub use expression_reading::{Basis, Expr, Formula, Weight, degree_limit};
pub use lines::{read_line, read_line_by};
pub use partitions::Factors;
pub use words::read_words;
