//! The terms of an expansion in printed order, found by a walk over the prefixes of their labels,
//! depth first, without a table of the terms.
//!
//! What is proved:
//!
//! For every rule (`Prefixes`) the walk lists exactly the labels with a positive count, each once,
//! in decreasing lexicographic order, each with its count, capped at 2^127. The count of a label is
//! the number of ways to the end through the states of the rule.
//!
//! Not proved: that the walk is fast, and what memory it needs. It counts equal states after the
//! same entry together where it finds them again; that it finds them is not proved. It holds only
//! the states of one label's prefixes, and takes no memory once each of its lists has been as long
//! as it will be.
#![tactic(auto)]

mod places;
mod prefixes;
mod records;
mod steps;
mod walk;

pub use prefixes::Prefixes;
pub use walk::Walk;
