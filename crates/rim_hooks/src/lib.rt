//! Reductions of partitions by rim hooks and into the alcove, and quantum and fusion products of
//! two to eight factors, which are reduced after each factor.
//!
//! Two laws of these products: the order in which rim hooks are removed does not matter, and a text
//! reads back as such a product if and only if it reads back as a result of reducing after each
//! factor.
//!
//! Factors are replaced by rotations of them modulo n where these have fewer cells. The labels of the
//! product are then rotated back, and a fusion product is read from the quantum product.
//!
//! A law function has an empty body: its contract is the law.
//!
//! What is proved:
//!
//! `core_of` gives the partition that is left after removing rim hooks until no more can be
//! removed, together with a sign and the number of removals. None of the three depends on the order
//! of the removals. `alcove_of` gives the reduction into the alcove, which is 0 if and only if two
//! entries of the beta list have the same remainder modulo n. `quantum` and `fusion` give the
//! reduction of the classical product of 2 to 8 factors. Both reduce after each factor, and call
//! the same function, which has the `Reduction` as a parameter. The result of `quantum` is the same
//! whichever rim hooks are removed first. `Large` is returned only if the weight of a step, as the
//! comment of `quantum` defines it, is 2^127 or more.
//!
//! `removal_order_law` says that a quantum product is the sum of the reductions of its classical
//! product, whichever rim hooks are removed first; this holds for the whole product and for each
//! step with one more factor. `printed_steps_law` says that a text reads back as the answer to
//! `quantum` or `fusion` if and only if it reads back as a list that results from reducing after
//! each factor.
#![tactic(auto)]

mod collecting;
mod fusion_product;
mod lifted_labels;
mod long_factors;
mod printed_steps;
mod quantum_product;
mod reduction;
mod reflections;
mod removal_orders;
mod removals;
mod rotated_factors;
mod rotated_labels;
mod rotation;
mod sorted;
mod steps;
mod table;

pub use fusion_product::fusion;
pub use printed_steps::printed_steps_law;
pub use quantum_product::quantum;
pub use reflections::{Alcove, alcove_of};
pub use removal_orders::removal_order_law;
pub use removals::{Core, core_of};
