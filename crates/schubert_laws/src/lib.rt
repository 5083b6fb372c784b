//! Laws of divided differences and of Schubert polynomials.
//!
//! A law function has an empty body: its contract is the law.
//!
//! What is proved:
//!
//! `divided_difference_law`: divided differences are linear, their squares are 0, they commute if
//! they share no variable, and they satisfy the braid relation and the Leibniz rule for products.
//! `path_law`: the divided difference at each descent of w takes S_w to the Schubert polynomial of
//! w·s_i, and fixed letters at the end do not change S_w. `monk_law`: Monk's rule and the
//! transition rule, in every number of variables. `schubert_pieri_law`: the product of S_w and an
//! elementary polynomial. `dual_monk_law`: Monk's rule for the divided differences of x_j·g.
//! `block_product_law`: the Schubert polynomial of u × v is the product of those of u and 1^n × v,
//! and so are Stanley polynomials. `code_law`: a permutation and its code determine each other.
//! `schubert_independence_law`: Schubert polynomials are linearly independent.
#![tactic(auto)]

mod block_laws;
mod code_laws;
mod difference_laws;
mod dual_monk_laws;
mod independence;
mod monk_laws;
mod path_laws;
mod pieri_laws;

pub use block_laws::block_product_law;
pub use code_laws::code_law;
pub use difference_laws::divided_difference_law;
pub use dual_monk_laws::dual_monk_law;
pub use independence::schubert_independence_law;
pub use monk_laws::monk_law;
pub use path_laws::path_law;
pub use pieri_laws::schubert_pieri_law;
