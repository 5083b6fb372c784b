//! Partitions, the labels of symmetric functions; listers of the partitions of a number and of the
//! arrangements of the parts of a partition; and lists of the factors of a product, which are 2 to
//! 8 partitions. Also a few functions on lists of numbers, such as the parts of a partition.
//!
//! What is proved:
//!
//! In contracts, a `Partition` is its list of parts. `from_parts` returns each of its errors under
//! exactly the condition that its documentation says, and `from_valid_parts` and
//! `from_valid_numbers` fail only if out of memory; `conjugate`, `remove_corner`, `beta` and
//! `from_beta` agree with their definitions; `cmp_printed` is the printed order; equal partitions
//! have equal hashes. `PartitionsOf` lists the partitions of a number, each once, in decreasing
//! lexicographic order; `Arrangements` lists the arrangements of a partition in a number of places,
//! each once. In contracts, a value of `Factors` is its list of 2 to 8 partitions, with at most
//! 4,096 cells and at most 512 rows in all; `pair` and `push` return `TooMany` and `TooBig` if and
//! only if their documentation says so, and on an error the factors are unchanged; `len` and `get`
//! allocate no memory.
#![tactic(auto)]

mod arrangements;
mod beta;
mod conjugate;
mod corners;
mod factors;
mod factors_fault;
mod fault;
mod listing;
mod lists;
mod partition;

pub use arrangements::Arrangements;
pub use beta::Beta;
pub use factors::Factors;
pub use factors_fault::FactorsFault;
pub use fault::PartFault;
pub use listing::PartitionsOf;
pub use lists::{has_part, number_at, numbers_before_zeros, sum_of_numbers};
pub use partition::Partition;
