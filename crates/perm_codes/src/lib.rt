//! Permutations in one-line form, their codes and their covers. A letter of a permutation is fixed
//! if it is equal to its place.
//!
//! What is proved:
//!
//! In contracts, a `Perm` is its list of letters without fixed letters at the end. `from_letters`
//! and `from_code` return each of their errors under exactly the condition that their documentation
//! says, and `letter`, `inversions`, `last_descent`, `code`, `times_swap` and `covers_at` agree
//! with their definitions; `last_descent` returns None if and only if the permutation is the
//! identity; `cmp_printed` is the printed order; two permutations are equal if and only if their
//! letters are, and equal ones have equal hashes.
#![tactic(auto)]

mod covers;
mod fault;
mod letters;
mod perm;

pub use calc_base::Word;
pub use covers::Covers;
pub use fault::PermFault;
pub use letters::has_between;
pub use perm::Perm;
