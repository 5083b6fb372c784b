//! Division of a list with integer coefficients by a number.
ghost use Rattle.std.specs.Prelude.{◌≡◌, ℕ, List, ◌<◌, ◌^◌, IfOk, IsErrOf};
ghost use Rattle.fraction_laws.specs.Fractions.{lowest_terms};
ghost use Rattle.sym_model.specs.Polynomial.{coefficient};
ghost use Rattle.sparse_polys.specs.Tables.{found, IsFractionTable};

use crate::whole::Whole;
use calc_base::SumFault;
use coeff_rings::{Frac, quotient_of};
use linear_combinations::Lin;
use partitions::Partition;
use std::alloc::Global;

/// The list `terms` with each coefficient divided by `den`, in lowest terms; `den` is positive and
/// below 2^127. `Large` is never returned.
pub fn divided(alloc: Global, terms: &Whole, den: u128) -> Result<Lin<Partition, Frac>, SumFault>
    requires { (0 < den) × (den < 2 ^ 127) }
    ensures value { IfOk result (λ list. (label : List ℕ)
        → found list label ≡ lowest_terms (coefficient terms.now label) den) }
    ensures table { IfOk result IsFractionTable }
    ensures small { ¬ IsErrOf result SumFault.Large }
{
    let mut list = Lin::new(alloc);
    for (label, c) in terms.iter() {
        list.add_term(label.copy()?, quotient_of(*c, den))?;
    }
    Ok(list)
}
