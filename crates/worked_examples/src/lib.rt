//! Worked examples of the definitions of `sym_model`, of the words of commands, and of the
//! fractions of `fraction_laws`. The check computes their values, so that a definition that does not
//! say what it is meant to say is found here.
//!
//! A law function has an empty body: its contract is the examples.
//!
//! What is proved:
//!
//! The check computes values of the definitions and compares them with values from other sources or
//! worked out by hand: among them all Schubert polynomials of four letters, 83 refusals of words,
//! 31 words at the limits that are not refused, and the texts of answers of every kind.
#![tactic(auto)]

mod answers;
mod batch_lines;
mod expansions;
mod expressions;
mod fractions;
mod kinds;
mod one_line_forms;
mod permutations;
mod polynomials;
mod reductions;
mod refused_words;
mod strips;
mod tableaux;
mod texts;

pub use answers::{outcome_texts_law, target_examples_law};
pub use batch_lines::batch_lines_law;
pub use expansions::{
    change_of_basis_examples_law, expansion_examples_law, reduced_product_examples_law,
};
pub use expressions::expression_examples_law;
pub use fractions::fraction_examples_law;
pub use kinds::{kind_examples_law, label_examples_law};
pub use one_line_forms::line_examples_law;
pub use permutations::{
    divided_difference_examples_law, permutation_examples_law, schubert_examples_law,
    schubert_more_examples_law, straightening_examples_law,
};
pub use polynomials::{block_examples_law, order_examples_law, worked_examples_law};
pub use reductions::{alternant_examples_law, reflection_examples_law, tableaux_examples_law};
pub use refused_words::{
    refused_expressions_law, refused_lists_law, refused_plethysms_law, refused_tableaux_law,
    words_that_go_wrong_law,
};
pub use strips::{removal_examples_law, strip_examples_law};
pub use tableaux::{
    arrangement_examples_law, growth_examples_law, insertion_examples_law, knuth_examples_law,
    slide_examples_law, tableau_list_examples_law,
};
pub use texts::{tableau_text_examples_law, workload_examples_law};
