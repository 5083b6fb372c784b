//! For each partition λ, the list of Schur polynomials with signs to which the arrangements of λ
//! straighten; each list is computed once and then kept.
ghost use Rattle.std.specs.Prelude.{ℕ, ◌≤◌, [], IfOk, OnOk, IsErrOf};
ghost use Rattle.sym_model.specs.Partition.{IsPartition, size};
ghost use Rattle.linear_combinations.specs.Gains.{Gains, Overflows, HaveLabels};
ghost use Rattle.sparse_polys.specs.Tables.{equal};
ghost use Rattle.beta_sets.specs.BetaSets.{shapes, IsInRows, IsShapeTable};
ghost use Rattle.family_lists.specs.KeptLists.{StandsAt};
ghost use Rattle.basis_change.specs.Arranging.{straight_terms};
ghost use Rattle.basis_change.specs.KeptLists.{IsKept, AreKept};

use crate::hooks::HooksBelow;
use crate::parts::without_part;
use crate::twenty_rows::InTwentyRows;
use beta_sets::{BetaSet, Shapes};
use calc_base::SumFault;
use coeff_rings::{Int, Scalar};
use family_lists::{Lists, keep, list_at, place_of};
use linear_combinations::Lin;
use partitions::{Partition, has_part};
use std::alloc::Global;

/// The list to which the arrangements of the empty partition straighten: the empty partition with
/// the coefficient 1.
fn of_nothing(alloc: Global) -> Result<Shapes, SumFault>
    ensures kept { IfOk result (IsKept []) }
    ensures small { ¬ IsErrOf result SumFault.Large }
{
    let mut list = Lin::new(alloc);
    list.add_owned(BetaSet::empty(), Int::one())?;
    Ok(list)
}

/// The index in `lists` of the list to which the arrangements of `parts` straighten. If `lists`
/// does not have this list yet, it is computed from the lists for `parts` without one of its parts,
/// and added to `lists`.
fn kept_list(alloc: Global, lists: &mut Lists<Shapes>, parts: &[u16]) -> Result<usize, SumFault>
    requires partition { IsPartition parts.now }
    requires low { size parts.now ≤ 20 }
    requires kept { AreKept lists.old.entries }
    ensures kept { OnOk result (AreKept lists.new.entries) }
    ensures place { IfOk result (StandsAt lists.new.entries parts.now) }
    ensures small { ¬ IsErrOf result SumFault.Large }
{
    let label = Partition::from_valid_parts(alloc, parts)?;
    if let Some(at) = place_of(lists, &label) {
        return Ok(at);
    }
    if parts.is_empty() {
        return Ok(keep(lists, label, of_nothing(alloc)?)?);
    }
    let mut sum = Lin::new(alloc);
    for at in 0..parts.len() {
        let part = parts[at];
        if has_part(&parts[at + 1..], part) {
            continue;
        }
        let rest = without_part(alloc, parts, part)?;
        let place = kept_list(alloc, lists, &rest)?;
        let (_, list) = list_at(lists, place);
        sum.add_by(&HooksBelow { cells: part }, list)?;
    }
    Ok(keep(lists, label, sum)?)
}

/// Adds to `sum`, a list of beta sets in 20 rows, c times the list to which the arrangements of
/// `parts` straighten. If `lists` does not have that list yet, it is computed and added to `lists`.
pub(crate) fn add_straightened(
    alloc: Global,
    lists: &mut Lists<Shapes>,
    parts: &[u16],
    c: Int,
    sum: &mut Shapes,
) -> Result<(), SumFault>
    requires partition { IsPartition parts.now }
    requires low { size parts.now ≤ 20 }
    requires kept { AreKept lists.old.entries }
    requires within { HaveLabels (IsInRows 20 20) sum.old }
    ensures kept { OnOk result (AreKept lists.new.entries) }
    ensures gains { OnOk result ((n : ℕ) → size parts.now ≤ n
        → Gains (shapes sum.old) (straight_terms c parts.now n) (shapes sum.new)) }
    ensures table { OnOk result (IsShapeTable sum.new) }
    ensures within { OnOk result (HaveLabels (IsInRows 20 20) sum.new) }
    ensures large { IsErrOf result SumFault.Large → (n : ℕ) → size parts.now ≤ n
        → Overflows equal (shapes sum.old) (straight_terms c parts.now n) }
{
    let at = kept_list(alloc, lists, parts)?;
    let (_, list) = list_at(lists, at);
    sum.add_by(&InTwentyRows { times: c }, list)
}
