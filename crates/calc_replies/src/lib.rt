//! The outcome of the words of a command: `task_of` reads the words and computes the whole answer
//! before anything is written, as terms or as its text, and `put_text` writes its text.
//!
//! What is proved:
//!
//! `task_of` returns the task for words: to write the whole answer to their command, `Large` if the
//! answer is too large, or the refusal of the words; or to run the lines of `batch` or `work`.
//! `reply_to` and `reply_by` return the outcome of a command, without and with a store of Schubert
//! polynomials. `put_text` writes a given text, followed by the text of an outcome (`text_of`); if
//! the outcome is an answer, its text can be read back. `status_if_put` is the status with which a
//! run ends after the outcome is written.
#![tactic(auto)]

mod block;
mod composing;
mod expanding;
mod form;
mod grids;
mod insertion;
mod listing;
mod outcome;
mod permutations;
mod products;
mod reductions;
mod tableau_answer;
mod written;

pub use block::{put_text, status_if_put};
pub use form::Form;
pub use listing::Listing;
pub use outcome::{Outcome, Task, reply_by, reply_to, task_of};
pub use tableau_answer::TableauAnswer;
