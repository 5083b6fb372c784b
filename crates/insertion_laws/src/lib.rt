//! Laws of row insertion and of slides: the pair of tableaux of a word, the word of a pair of
//! tableaux, and the Knuth class of the reading word of a tableau, which does not change if the
//! tableau is slid.
//!
//! A law function has an empty body: its contract is the law.
//!
//! What is proved:
//!
//! `insertion_law`: the insertion tableau of a word with positive letters is a straight tableau,
//! the recording tableau is standard, and the two tableaux have the same shape, with a cell for
//! each letter. `pair_law`: each pair of a straight tableau and a standard tableau of the same
//! shape is the pair of exactly one word, which is found by undoing the insertions. `class_law`:
//! the reading word of the insertion tableau is in the Knuth class of the word, all words of a
//! class have the same insertion tableau, and if their letters are positive, it is the only
//! straight tableau whose reading word is in the class. `slide_class_law`: a slide keeps the Knuth
//! class of the reading word, so the straight tableau that slides reach is the only one whose
//! reading word is in this class, whichever inner corners are chosen.
#![tactic(auto)]

mod knuth_words;
mod slides;
mod words;

pub use knuth_words::class_law;
pub use slides::slide_class_law;
pub use words::{insertion_law, pair_law};
