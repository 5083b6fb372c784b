//! Lists of terms in the basis e, h or p. The product of two elements of such a basis is the
//! element whose label has the parts of both labels. A table is a list of terms in which each label
//! occurs only once and no coefficient is 0.
//!
//! What is proved:
//!
//! `factor_list`: the list of p_k, k!·e_k or k!·h_k in the basis e, h or p, by closed formulas for
//! the coefficients; `power_sums` and `factor_lists`: these lists for k = 1, .., d. `add_products`
//! adds c times the product of two lists to a table, and `add_row` the product of a term and a
//! list; `Large` is returned only if, at some label, the absolute values of the old coefficient and
//! of the terms to be added have a sum of 2^127 or more. `keep`, `place_of` and `list_at`: maps
//! from partitions to lists that are computed once and then kept.
#![tactic(auto)]

mod coefficients;
mod factors;
mod kept;
mod multiplicities;
mod products;

pub use coefficients::signed;
pub use factors::{factor_list, factor_lists, power_sums};
pub use kept::{Lists, keep, list_at, place_of};
pub use products::{add_products, add_row, put_merged};
