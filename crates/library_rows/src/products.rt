//! The product m_1·m_1, computed by `times_in_m`, with its result.
ghost use Rattle.std.specs.Prelude.{◌≤◌, IfOk};
ghost use Rattle.sparse_polys.specs.MonomialProducts.{greatest_size};

use crate::printing::sum;
use anyhow::Result;
use coeff_rings::Int;
use linear_combinations::Lin;
use partitions::Partition;
use sparse_polys::times_in_m;
use std::alloc::Global;

/// Prints the result of a call of `times_in_m`.
pub fn print(rt: &(impl Print + Alloc<A = Global>)) -> Result<()> {
    sum(rt, "m_1 m_1", square(rt.alloc())?)
}

/// The polynomial m_1, as a list of terms in the basis m.
fn one_cell(alloc: Global) -> Result<Lin<Partition, Int>>
    ensures { IfOk result (λ list. greatest_size list ≤ 1) }
{
    let mut list = Lin::new(alloc);
    list.add_term(Partition::from_parts(alloc, &[1])?, Int::new(1))?;
    Ok(list)
}

/// The product m_1·m_1, as a list of terms in the basis m.
fn square(alloc: Global) -> Result<Lin<Partition, Int>> {
    let left = one_cell(alloc)?;
    let right = one_cell(alloc)?;
    Ok(times_in_m(alloc, &left, &right)?)
}
