//! Laws of plethysm: its computation by way of power sums, and bounds of its coefficients. A law
//! function has an empty body: its contract is the law.
//!
//! What is proved:
//!
//! `power_sum_path_law`: if f is the sum of the c·p_λ, then f[g] is the sum of the c·p_λ[g], in
//! every number of variables. `plethysm_bounds_law`: from bounds for the coefficients of f and g,
//! bounds for those of f[g] and for all numbers in its computation by power sums.
#![tactic(auto)]

mod bounds;
mod path;

pub use bounds::plethysm_bounds_law;
pub use path::power_sum_path_law;
