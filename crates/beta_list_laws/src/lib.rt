//! Laws of sorting, of its signs, and of beta lists; of the reductions of partitions by rim hooks
//! and into the alcove.
//!
//! A law function has an empty body: its contract is the law.
//!
//! What is proved:
//!
//! `removals_end_law`: if rim hooks of n cells are removed from a partition until none is left, the
//! partition that remains, the sign and the number of removals do not depend on the order of the
//! removals, and are given in closed form. `alcove_law`: the reduction into the alcove is 0 if and
//! only if two entries of the beta list leave the same remainder modulo n; otherwise the reduced
//! beta list is the only strictly decreasing list with the remainders and the sum of the given one
//! whose first entry exceeds its last by less than n.
#![tactic(auto)]

mod alcove;
mod removals;

pub use alcove::alcove_law;
pub use removals::removals_end_law;
