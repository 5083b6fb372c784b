//! Row insertion: the insertion tableau and the recording tableau of a word, the word of such a
//! pair, and the reading word of a tableau; also tableaux made from their rows.
//!
//! What is proved:
//!
//! `insert_word` gives the insertion tableau and the recording tableau of a word; they have the
//! same straight shape, and the insertion tableau is the only straight tableau whose reading word
//! is in the Knuth class of the word. `word_of_pair` gives the only word whose insertion tableau
//! and recording tableau are a given straight tableau and a given standard tableau of the same
//! shape. `reading_word` gives the rows of a tableau from the bottom up. `push_at` appends a number
//! to a row, and `standard_of` gives the standard tableau with given rows. Each of these fails only
//! if memory runs out.
#![tactic(auto)]

mod growing;
mod insertion;
mod inverse;
mod making;
mod reading;
mod shrinking;

pub use calc_base::Word;
pub use growing::push_at;
pub use insertion::insert_word;
pub use inverse::word_of_pair;
pub use making::standard_of;
pub use reading::reading_word;
