//! Partitions as sets of beta numbers, each set in a machine word.
//!
//! What is proved:
//!
//! A `BetaSet` is the set of the beta numbers of a partition, for some number of rows that is at
//! least the number of its parts. All of them are below 64, and the set is stored as the number
//! with the binary digit 1 at each of them. `partitions_of` replaces the sets of a table by their
//! partitions and keeps the coefficients. `in_partitions` replaces the sets of a table by their
//! partitions, in the printed order, and divides the coefficients by a given number. `turned`
//! multiplies a number by a power of -1.
#![tactic(auto)]

mod beta_set;
mod signs;

pub use beta_set::{BetaSet, Shapes, in_partitions, partitions_of};
pub use signs::turned;
