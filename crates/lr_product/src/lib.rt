//! Products of two to eight Schur polynomials, skew Schur polynomials, and single coefficients of
//! products, as counts of good tableaux. A tableau is good for a partition, the start, if start
//! plus the content of the last k columns is a partition for each k.
//!
//! The tableaux are counted column by column, from the rightmost to the leftmost. A sum is the
//! start plus the content of the columns added so far; a table has, for each pair of a sum and the
//! column added last, the number of ways to reach this pair. For some shapes of few rows, and for
//! single coefficients as long as there are few pairs, the tableaux are counted row by row instead,
//! from the first row on; for single coefficients the last two rows are counted at once.
//!
//! What is proved:
//!
//! The coefficients of `mult`, `skew` and `coef` are counts of good tableaux (for `skew`, of
//! lattice tableaux, which are good for the empty start), and these counts are the Schur
//! coefficients, in every number of variables or in a given number. `coef` counts tableaux of a
//! skew shape outer/inner, in which inner is the factor with more cells. `mult_all` returns the
//! product of 2 to 8 Schur polynomials, expanded in Schur polynomials, in every number of variables
//! or in a given number. Each call returns `Large` if and only if a coefficient exceeds 2^127 - 1,
//! unless memory runs out.
#![tactic(auto)]

mod coefficient;
mod columns;
mod counts;
mod extension;
mod factor_product;
mod last_rows;
mod letter_room;
mod letters;
mod next_factor;
mod product;
mod row_extension;
mod row_letters;
mod row_step;
mod rows;
mod skew_expansion;
mod sorted_pairs;
mod states;
mod step;
mod table;

pub use coefficient::{coef, coef_by_rows};
pub use factor_product::mult_all;
pub use product::mult;
pub use skew_expansion::skew;
