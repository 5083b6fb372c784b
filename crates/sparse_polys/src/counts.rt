//! The product m_λ·m_μ of two monomial symmetric polynomials, with exact coefficients.
ghost use Rattle.std.specs.Prelude.{◌≡◌, ℕ, ◌+◌, ◌^◌, ◌<◌, ◌≤◌, true, false, List, IfOk, IsErrOf};
ghost use Rattle.sym_model.specs.Partition.{IsPartition, size};
ghost use Rattle.monomial_laws.specs.MonomialProduct.{arrangements};
ghost use Rattle.sparse_polys.specs.Search.{count_at, AreCounted};
ghost use Rattle.sparse_polys.specs.MonomialProducts.{AreSmall, HasLarge};

use crate::search::{Counted, label_product};
use calc_base::SumFault;
use std::alloc::Global;

/// Whether the count of some entry of `terms` is 2^127 or more.
fn too_large(terms: &[Counted]) -> bool
    ensures small { result ≡ false → AreSmall terms.now }
    ensures large { result ≡ true → HasLarge terms.now }
{
    for term in terms {
        if term.count > i128::MAX as u128 {
            return true;
        }
    }
    false
}

/// The partitions in the product m_λ·m_μ of two monomial symmetric polynomials, each with its
/// coefficient; λ is `left` and μ is `right`. Returns `Large` if one of these coefficients is 2^127
/// or more.
pub(crate) fn exact_product(
    alloc: Global,
    left: &[u16],
    right: &[u16],
) -> Result<Vec<Counted>, SumFault>
    requires left { IsPartition left.now }
    requires right { IsPartition right.now }
    requires sizes { size left.now + size right.now < 2 ^ 16 }
    ensures counts { IfOk result (λ terms. (ν : List ℕ) → IsPartition ν
        → count_at terms.items ν ≡ arrangements left.now right.now ν) }
    ensures labels { IfOk result (λ terms.
        AreCounted (size left.now + size right.now) terms.items) }
    ensures small { IfOk result (λ terms. AreSmall terms.items) }
    ensures large { IsErrOf result SumFault.Large
        → (ν : List ℕ) × IsPartition ν × (2 ^ 127 ≤ arrangements left.now right.now ν) }
{
    let terms = label_product(alloc, left, right)?;
    if too_large(terms.as_slice()) {
        return Err(SumFault::Large);
    }
    Ok(terms)
}
