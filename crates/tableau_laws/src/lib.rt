//! Laws of tableaux: the number of good tableaux, computed column by column, and skew Schur
//! polynomials in fewer variables.
//!
//! A law function has an empty body: its contract is the law.
//!
//! What is proved:
//!
//! `column_counting_law`: good tableaux are counted column by column. Here a tableau is good for a
//! partition λ if λ plus the content of the columns right of column j is a partition, for each
//! j ≥ 0. `schur_restriction_law`: a skew Schur polynomial with the last variables set to 0 is the
//! skew Schur polynomial of the same shape in fewer variables.
#![tactic(auto)]

mod by_columns;
mod fewer_letters;

pub use by_columns::column_counting_law;
pub use fewer_letters::schur_restriction_law;
