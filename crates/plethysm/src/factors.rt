//! The plethysms p_k[G] and p_λ[G] for a list G in m, that is, a list of terms c·m_μ, with integer
//! coefficients: p_k[G] is G with each variable replaced by its k-th power, and p_λ[G] is the
//! product of the p_k[G] over the parts k of λ.
ghost use Rattle.std.specs.Prelude.{◌≡◌, ℕ, ◌*◌, ◌<◌, ◌≤◌, ◌^◌, IfOk, IsErrOf};
ghost use Rattle.sym_model.specs.Expansion.{monomials};
ghost use Rattle.sym_model.specs.Partition.{ArePositive, size};
ghost use Rattle.sym_model.specs.Plethysm.{multiplied};
ghost use Rattle.sym_model.specs.Polynomial.{Same};
ghost use Rattle.sym_model.specs.Weight.{growth};
ghost use Rattle.monomial_laws.specs.ExpressionTerms.{IsList};
ghost use Rattle.plethysm_laws.specs.PowerSumPlethysm.{dilated};
ghost use Rattle.sparse_polys.specs.MonomialProducts.{greatest_size};
ghost use Rattle.sparse_polys.specs.LabelSizes.{AreWithin};
ghost use Rattle.sparse_polys.specs.Tables.{IsWholeTable};
ghost use Rattle.plethysm.specs.BoundedSums.{IsBoundedSum};
ghost use Rattle.plethysm.specs.PathSums.{power_sum_in};

use calc_base::SumFault;
use linear_combinations::Lin;
use partitions::Partition;
use sparse_polys::{Whole, single, times_whole_in_m};
use std::alloc::{AllocError, Global};

/// The list `parts` with each part multiplied by k.
fn multiplied(alloc: Global, parts: &[u16], k: u16) -> Result<Vec<u16>, AllocError>
    requires { k * size parts.now ≤ 512 }
    ensures { IfOk result (λ numbers. numbers.items ≡ multiplied k parts.now) }
{
    let mut numbers = Vec::with_capacity(alloc, parts.len())?;
    for part in parts {
        numbers.push(k * *part)?;
    }
    Ok(numbers)
}

/// p_k[G], for G = `inner` in m: the list with every part of every label multiplied by k.
fn dilated(alloc: Global, inner: &Whole, k: u16) -> Result<Whole, SumFault>
    requires positive { 0 < k }
    requires low { k * greatest_size inner.now ≤ 512 }
    ensures value { IfOk result (λ list. Same list (dilated k inner.now)) }
    ensures table { IfOk result IsWholeTable }
    ensures small { ¬ IsErrOf result SumFault.Large }
{
    let mut list = Lin::new(alloc);
    for (label, c) in inner.iter() {
        let parts = multiplied(alloc, label.parts(), k)?;
        list.add_term(Partition::from_valid_parts(alloc, &parts)?, *c)?;
    }
    Ok(list)
}

/// p_λ[G], for G = `inner` in m and λ with the parts `parts`: the product of the p_k[G] over the
/// parts k of λ.
pub(crate) fn over_parts(alloc: Global, inner: &Whole, parts: &[u16]) -> Result<Whole, SumFault>
    requires positive { ArePositive parts.now }
    requires low { size parts.now * greatest_size inner.now ≤ 512 }
    ensures value { IfOk result (λ list.
        IsList list (power_sum_in inner.now parts.now)) }
    ensures labels { IfOk result (AreWithin (size parts.now * greatest_size inner.now)) }
    ensures table { IfOk result IsWholeTable }
    ensures large { IsErrOf result SumFault.Large → (K b : ℕ)
        → IsBoundedSum K b inner.now
        → 2 ^ 127 ≤ K ^ size parts.now * growth monomials (size parts.now * b) }
{
    let [k, rest @ ..] = parts else {
        return single(alloc, &[], 1);
    };
    let others = over_parts(alloc, inner, rest)?;
    let first = dilated(alloc, inner, *k)?;
    times_whole_in_m(alloc, &first, &others)
}
