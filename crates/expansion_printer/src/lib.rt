//! Answers of commands, and the functions that print them. An answer is printed as a block, with
//! one line for each term, or on one line. Other functions print the line of a refused command, the
//! line for an answer that is too large, words, tableaux, lists of partitions, and a single
//! partition.
//!
//! A printer collects its text in a buffer of fixed size, which is written to the sink when a
//! further piece does not fit, and at the end. No write follows a failed one, and what was written
//! is then a prefix of the text. Printing allocates no memory. `LineText` collects the lines of
//! terms in memory, where they are wanted before the first byte is written.
//!
//! What is proved:
//!
//! `print` writes the block of an answer. `print_one_line` writes an expansion or a product on one
//! line, and any other answer as a block. `print_after` and `print_one_line_after` write a given
//! text first. Every other function writes the text that its contract states; `print_label`, for
//! example, writes the label of a partition. If a write fails, a prefix of the text was written.
//!
//! Every `Answer` is printable: its labels are in the printed order, its coefficients are in lowest
//! terms and not 0, and its numerators and denominators have at most 128 bits.
#![tactic(auto)]

mod answer;
mod atoms;
mod block;
mod coefficients;
mod line;
mod line_text;
mod named;
mod numbers;
mod reading;
mod refusal;
mod rows;
mod tableau;
mod text_buffer;
mod words;

pub use answer::{Answer, Kind};
pub use block::{print, print_after};
pub use line::{print_one_line, print_one_line_after};
pub use line_text::LineText;
pub use reading::ReadingOrder;
pub use refusal::{print_large, print_refusal};
pub use tableau::{print_in_order, print_reading, print_tableau};
pub use words::{print_label, print_letters, print_shapes};
