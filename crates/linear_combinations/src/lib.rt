//! Finite linear combinations of labels: tables of terms, which in contracts are the lists of their
//! entries, and functions that add to them.
//!
//! A label is a partition or a permutation here; crates that use this one add other types. For an
//! example of a linear map of such tables see the crate `strip_rules`, whose head lists the steps.
//!
//! What is proved:
//!
//! `Lin` is a finite map from labels to coefficients that are not 0, for every ring. In contracts
//! it is the list of its entries; if the ring is `Int`, the coefficients in this list are integers.
//! `add_term` returns `Large` if and only if the ring's checked addition has no result, and then
//! leaves the map unchanged; `scale` allocates no memory and returns `Large` if and only if the
//! ring's checked multiplication has no result for some coefficient; `add_all` returns `Large` only
//! if the checked addition has no result at some label. `sorted_terms` has the same coefficients
//! and is canonical: each label once, in the printed order, with no coefficient 0. `iter` and
//! `into_iter` give the whole list.
//!
//! For `Int`, each function that adds terms (`add_owned`, `add_at_label`, `add_each`,
//! `subtract_each`, `add_terms`, and `add_by`, which adds the image of a table under a `Rule`)
//! states in one clause what is added: for every function φ of labels, the
//! amount by which the sum of c·φ(label) over the terms of the table increases. It returns `Large`
//! only if at some label the absolute values of the old coefficient and of all coefficients that
//! are added there sum up to 2^127 or more.
#![tactic(auto)]

mod label;
mod lin;
mod permutation;
mod rule;
mod terms;
mod whole;

pub use label::Label;
pub use lin::Lin;
pub use rule::Rule;
pub use terms::Terms;
