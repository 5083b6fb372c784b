//! Laws of rotations of quantum products, and of fusion products read from quantum products.
//!
//! A law function has an empty body: its contract is the law.
//!
//! What is proved:
//!
//! `quantum_rotation_law`: if the beta list of a factor of a quantum product is rotated modulo n,
//! the labels of the product are rotated too, apart from a power of q. `fusion_lifting_law`: a
//! fusion product is the quantum product of the same factors, with each label q^p·ν read as the
//! partition that results from ν by moving the last entry of its beta list, raised by n, to the
//! front, p times; if a factor is changed in this way, each label of the product is.
#![tactic(auto)]

mod fusion;
mod quantum;

pub use fusion::fusion_lifting_law;
pub use quantum::quantum_rotation_law;
