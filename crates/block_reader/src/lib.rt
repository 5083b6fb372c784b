//! Printed blocks and one-line forms, read back as answers. A block has one line for each term; a
//! one-line form is an expression with atoms such as `s[2,1]`. The answer that is read is printed
//! again, and the bytes are compared; a one-line form is first rewritten as a block.
//!
//! What is proved:
//!
//! `read_back` returns the answer of a given kind whose block is a given text. It returns
//! `NotPrinted` only if the text is not a block of that kind. `read_one_line` returns the expansion
//! or product whose one-line form in a basis is a given text; the text without its line feed is an
//! expression that denotes its terms. It returns `NotPrinted` only if the text is not such a form.
//!
//! An answer that is returned prints to the same bytes. Its labels are in the printed order, and
//! its coefficients are in lowest terms and not 0.
#![tactic(auto)]

mod coefficients;
mod cutting;
mod fault;
mod labels;
mod lines;
mod lists;
mod numbers;
mod one_line;
mod read;
mod rewriting;

pub use fault::ReadBackFault;
pub use one_line::read_one_line;
pub use read::read_back;
