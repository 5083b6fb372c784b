//! Expands expressions in e, h and p, one node after another; Schur polynomials are expanded by
//! special rim hooks, that is, by the Jacobi-Trudi determinant, expanded along its last column.
//!
//! What is proved:
//!
//! `to_family`: the result is the expansion of an expression of degree at most 15 in the target
//! basis, which is e, h or p, in every number of variables. It is computed node by node as a list
//! of terms in the target basis. In a product the parts of labels are joined. An atom (a basis
//! polynomial in the expression) of another one of the bases e, h and p is a product over its
//! parts, an atom of s is expanded by special rim hooks, and an atom of m is changed by `in_family`
//! of basis_change. `Large` is returned only if the weight for the target basis
//! (`Formula::weight_below`) is 2^127 or more.
//!
//! `special_hooks_law`: in every number of variables, s_λ is the sum, over the special rim hooks of
//! λ, of ±h_k times the Schur polynomial of the remaining shape, with k the number of cells of the
//! hook; and the same with e_k and conjugate shapes. The remaining shape is a partition, each
//! special rim hook is a rim hook that contains the whole last row, and its sign is (-1)^(height -
//! 1).
#![tactic(auto)]

mod atoms;
mod expansion;
mod factorials;
mod hook_expansions;
mod node;
mod operations;
mod schur_lists;

pub use expansion::to_family;
pub use hook_expansions::special_hooks_law;
