//! Products of expansions in s with h_k, e_k and p_k, by Pieri's two rules and the rule of
//! Murnaghan and Nakayama, and products of expansions in m with h_k and e_k.
//!
//! A linear map that is given by its values on labels is written as follows; the example is the
//! product of an expansion in m with e_k.
//!
//! 1. A definition (`specs/`): the image of one label, a list of labels with integer coefficients.
//! In the example it is the list of the partitions with k cells more, each with its coefficient in
//! the product (`counted`).
//! 2. A type with `impl Rule`: `takes` is the condition on a label, `image` is that list, and
//! `add_image` adds c times the list to a table by the methods of `Lin` that add terms. The
//! contract of each of these methods describes by `Gains` which terms were added, and by
//! `Overflows` when it returns `Large`.
//! 3. The law of one label, in the example `column_product_law`.
//! 4. The map of a list: an empty table and `add_by`, which adds the image of each term. The value
//! of the result follows from the sums of `Gains` and from the law.
//!
//! The lemmas about loops over a list are in `linear_combinations/proofs/Gains` (`places_gain`);
//! those about labels with counts, and about images under a rule, are in `Counted` there.
//!
//! A law function takes no argument, returns nothing and does nothing at run time: its contract is
//! the law.
//!
//! What is proved:
//!
//! `add_row`, `add_column`, `add_hook`: the product of an expansion in s with h_k, e_k and p_k in
//! every number of variables, by Pieri's two rules and the rule of Murnaghan and Nakayama. The
//! weight of a list is max(1, D·A)·D, with D its least common denominator and A the sum of the
//! absolute values of its coefficients. The weight of the product is at most (m + k)^k times that
//! of the list, for the greatest size m of a label of the list. `Large` is returned only if the
//! weight of the list is 2^127 or more. `times_family` computes the same three products; its
//! argument `family` says whether the factor is h_k, e_k or p_k.
//!
//! `rows_product`, `columns_product`, `hooks_product`: the products of h_k, of e_k and of p_k over
//! the parts k of a partition of at most 20 cells, in s, in every number of variables: cells and
//! rim hooks are added by moving beads in beta sets, each a machine word. They never return
//! `Large`.
//!
//! `times_elementary`, `times_complete`: the product of an expansion in m with e_k and with h_k;
//! `Large` is returned only if, with the absolute values of the coefficients of the expansion, some
//! coefficient of the product is 2^127 or more.
//!
//! `column_product_law`: the coefficients of m_μ·e_k, row by row. `row_product_law`: the
//! coefficients of m_μ·h_k, part by part.
#![tactic(auto)]

mod bead_hooks;
mod bead_strips;
mod columns;
mod complete;
mod counts;
mod elementary;
mod family_products;
mod products;
mod rows;
mod shapes;

pub use columns::column_product_law;
pub use complete::times_complete;
pub use elementary::times_elementary;
pub use family_products::{columns_product, hooks_product, rows_product};
pub use products::{add_column, add_hook, add_row, times_family};
pub use rows::row_product_law;
