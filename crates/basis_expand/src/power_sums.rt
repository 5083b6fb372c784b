//! The power sum p_k as a list of terms in the monomial basis m.
ghost use Rattle.std.specs.Prelude.{◌<◌, ◌≤◌, IfOk, IsErrOf};
ghost use Rattle.sym_model.specs.Polynomial.{Same};
ghost use Rattle.monomial_laws.specs.ExpressionTerms.{power_sum_terms_of};
ghost use Rattle.sparse_polys.specs.Tables.{IsWholeTable};

use calc_base::SumFault;
use sparse_polys::{Whole, single};
use std::alloc::Global;

/// p_k, for k ≥ 1, as a list in m: one term, m_(k).
pub(crate) fn power_sum(alloc: Global, k: u16) -> Result<Whole, SumFault>
    requires positive { 0 < k }
    requires low { k ≤ 512 }
    ensures value { IfOk result (λ list. Same list (power_sum_terms_of k)) }
    ensures table { IfOk result IsWholeTable }
    ensures small { ¬ IsErrOf result SumFault.Large }
{
    single(alloc, &[k], 1)
}
