//! The change from the monomial basis m into Schur polynomials, by straightening the arrangements
//! of each label.
ghost use Rattle.std.specs.Prelude.{◌≤◌, ◌<◌, ◌^◌, [], ℕ, ◌*◌, IfOk, IsErrOf};
ghost use Rattle.sym_model.specs.Expansion.{schurs};
ghost use Rattle.sym_model.specs.Weight.{growth};
ghost use Rattle.linear_combinations.specs.Gains.{Gains, Overflows, HaveLabels};
ghost use Rattle.sparse_polys.specs.LabelSizes.{AreWithin};
ghost use Rattle.sparse_polys.specs.Tables.{equal, IsFractionTable, IsWholeTable};
ghost use Rattle.beta_sets.specs.BetaSets.{shapes, IsInRows, IsShapeTable};
ghost use Rattle.basis_change.specs.Clearing.{IsBoundedBy};
ghost use Rattle.basis_change.specs.ClearedAnswer.{IsChanged, IsQuotientOf};
ghost use Rattle.basis_change.specs.Straightening.{straightened_list};

use crate::kept::add_straightened;
use beta_sets::{Shapes, in_partitions, partitions_of};
use calc_base::SumFault;
use coeff_rings::Frac;
use indexmap::IndexMap;
use linear_combinations::Lin;
use partitions::Partition;
use sparse_polys::Whole;
use std::alloc::Global;

/// The list in m, changed into Schur polynomials: each m_λ is replaced by the sum to which the
/// arrangements of λ in `size` places straighten. Each Schur polynomial is given by the beta set of
/// its partition in 20 rows.
fn straightened(alloc: Global, list: &Whole, size: u16) -> Result<Shapes, SumFault>
    requires low { size ≤ 20 }
    requires sizes { AreWithin size list.now }
    ensures gains { IfOk result (λ sum. Gains [] (straightened_list size list.now) (shapes sum)) }
    ensures table { IfOk result IsShapeTable }
    ensures within { IfOk result (HaveLabels (IsInRows 20 20)) }
    ensures large { IsErrOf result SumFault.Large
        → Overflows equal [] (straightened_list size list.now) }
    ensures list { IsWholeTable list.now }
{
    let mut sum = Lin::new(alloc);
    let mut lists = IndexMap::new(alloc);
    for (label, c) in list.iter() {
        add_straightened(alloc, &mut lists, label.parts(), *c, &mut sum)?;
    }
    Ok(sum)
}

/// The list in m with integer coefficients, changed into Schur polynomials. Its labels have at most
/// `size` cells.
pub(crate) fn by_arrangements(alloc: Global, list: &Whole, size: u16) -> Result<Whole, SumFault>
    requires low { size ≤ 20 }
    requires sizes { AreWithin size list.now }
    ensures { IsChanged schurs size list.now result }
{
    let sum = straightened(alloc, list, size)?;
    partitions_of(alloc, &sum)
}

/// The list in m with integer coefficients is changed into Schur polynomials, and then each
/// coefficient is divided by `den`. The labels of the list have at most `size` cells, and `den` is
/// positive and below 2^127.
pub(crate) fn quotients_by_arrangements(
    alloc: Global,
    list: &Whole,
    size: u16,
    den: u128,
) -> Result<Lin<Partition, Frac>, SumFault>
    requires low { size ≤ 20 }
    requires sizes { AreWithin size list.now }
    requires den { (0 < den) × (den < 2 ^ 127) }
    ensures value { IfOk result (IsQuotientOf schurs size den list.now) }
    ensures table { IfOk result IsFractionTable }
    ensures large { IsErrOf result SumFault.Large → (N : ℕ) → IsBoundedBy N list.now
        → 2 ^ 127 ≤ N * growth schurs size }
{
    let sum = straightened(alloc, list, size)?;
    in_partitions(alloc, sum, den)
}
