//! Lattice tableaux of ν/λ with a given content μ, row by row, as a rule by which the rows of ν are
//! found (`Prefixes`). The number of these tableaux is the coefficient of ν in the product of the
//! Schur polynomials of λ and μ (Littlewood and Richardson).
//!
//! What is proved:
//!
//! From a state, which has the content so far and the ends of the letters in the row above, the
//! steps of the rule lead to each row that can come next as often as it can be filled, and leave
//! out only rows that no row below can complete. Ends are lowered to what the next row can reach,
//! so that more states are equal. So the walk of `prefix_walk` counts the lattice
//! tableaux of all shapes ν/λ, in decreasing lexicographic order of ν. The rule has 2 to 8 letters,
//! and numbers below 256.
//!
//! `product` makes the terms of the product from this walk: the coefficient of each partition is
//! the count `product_count` of good tableaux, the same as in `lr_product`, and `Large` is returned
//! only if a coefficient exceeds 2^127 - 1. `ProductLister` gives the same terms one at a time, in
//! printed order.
//!
//! Not proved: when `product` returns `None`. It does so if the rule does not apply; that it does
//! so only then is not part of its contract.
#![tactic(auto)]

mod lattice_row;
mod lattice_rows;
mod product_lister;
mod product_terms;

pub use product_lister::ProductLister;
pub use product_terms::product;
