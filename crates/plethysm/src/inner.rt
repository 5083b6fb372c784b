//! The inner list G of a plethysm F[G]: its monomials replace the variables of F.
ghost use Rattle.std.specs.Prelude.{IfOk, IsErrOf};
ghost use Rattle.sym_model.specs.Polynomial.{Same};
ghost use Rattle.sym_model.specs.WholeTerms.{numerators};
ghost use Rattle.sparse_polys.specs.Tables.{IsWholeTable};

use basis_change::numerator_of;
use calc_base::SumFault;
use coeff_rings::Frac;
use linear_combinations::Lin;
use partitions::Partition;
use sparse_polys::Whole;
use std::alloc::Global;

/// The list in which each coefficient is replaced by its numerator. It is the same list if all
/// coefficients are integers.
pub(crate) fn numerators(alloc: Global, list: &Lin<Partition, Frac>) -> Result<Whole, SumFault>
    ensures value { IfOk result (λ whole. Same whole (numerators list.now)) }
    ensures table { IfOk result IsWholeTable }
    ensures small { ¬ IsErrOf result SumFault.Large }
{
    let mut whole = Lin::new(alloc);
    for (label, c) in list.iter() {
        whole.add_term(label.copy()?, numerator_of(*c))?;
    }
    Ok(whole)
}
