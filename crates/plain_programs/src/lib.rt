//! Slow programs that follow the definitions, for the bases, printed blocks and orders, fillings
//! and lists of tableaux, insertion, removals of rim hooks, reflections and permutations, each with
//! its definition as its contract. They are meant to be read, and to be compared with the results
//! of the other crates.
//!
//! What is proved:
//!
//! Slow programs that follow the definitions, for the bases, blocks, fillings, tableaux, readings,
//! arrangements, row insertion, removals of rim hooks, reflections, inversions and codes: each
//! gives what its definition says.
#![tactic(auto)]

mod arrangements;
mod bases;
mod beta_lists;
mod blocks;
mod exponent_lists;
mod fillings;
mod good;
mod insertion;
mod numbers;
mod permutations;
mod printed_order;
mod readings;
mod reflections;
mod removals;
mod semistandard;
mod tableau_lists;
mod words;

pub use arrangements::{plain_arrangements, plain_conjugate};
pub use bases::{PlainBasis, plain_monomial, plain_part_polynomial, plain_product};
pub use beta_lists::{plain_beta, plain_from_beta};
pub use blocks::{PlainTerm, plain_block};
pub use exponent_lists::{plain_exponent_lists, plain_join, plain_sorted_parts};
pub use fillings::{plain_fillings, plain_tableaux};
pub use good::{plain_good_readings, plain_good_tableaux, plain_is_good};
pub use insertion::{TableauPair, plain_inserted, plain_insertion_pair, plain_reading_word};
pub use permutations::{plain_code, plain_inversions};
pub use printed_order::{plain_falling_lexicographic, plain_printed_order, plain_size};
pub use readings::{plain_column_reading, plain_reading_right_of};
pub use reflections::{Signed, plain_alcove, plain_reflect};
pub use removals::{Core, Removal, plain_core, plain_removal};
pub use semistandard::{plain_contains, plain_semistandard};
pub use tableau_lists::{plain_later_than, plain_readings_with_content, plain_tableau_readings};
pub use words::plain_words;
