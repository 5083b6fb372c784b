//! Schur polynomials as lists in e, h and p, by special rim hooks (Egecioglu and Remmel). The list
//! of each shape is computed once and stored.
ghost use Rattle.std.specs.Prelude.{◌≡◌, ◌≢◌, ℕ, ◌+◌, ◌-◌, ◌*◌, ◌<◌, ◌≤◌, ◌^◌, ◌*ℤ◌, ◌++◌, pos};
ghost use Rattle.std.specs.Prelude.{length, take, drop, vec_len, IfOk, OnOk, IsErrOf};
ghost use Rattle.sym_model.specs.Expansion.{completes};
ghost use Rattle.sym_model.specs.Partition.{IsPartition, columns, size};
ghost use Rattle.sym_model.specs.PlaceOrders.{minus_one_to};
ghost use Rattle.sym_model.specs.Weight.{factorial, growth};
ghost use Rattle.basis_change_laws.specs.JoinedLists.{Stands};
ghost use Rattle.expand_in_families.specs.SpecialHooks.{shortened};
ghost use Rattle.sparse_polys.specs.Families.{polynomial_of};
ghost use Rattle.sparse_polys.specs.Tables.{IsWholeTable};
ghost use Rattle.family_lists.specs.FactorLists.{AreFactors};
ghost use Rattle.family_lists.specs.KeptLists.{StandsAt};
ghost use Rattle.expand_in_families.specs.SchurLists.{AreSchurLists, IsSchurList};

use crate::factorials::binomial;
use calc_base::{NoMemory, SumFault};
use family_lists::{Lists, add_products, factor_lists, keep, list_at, place_of, signed};
use indexmap::IndexMap;
use linear_combinations::Lin;
use partitions::Partition;
use sparse_polys::{Family, Whole, single};
use std::alloc::Global;

/// The partition that remains if the special rim hook in the rows from `row` (counted from 0) to
/// the last row is removed from `shape`: the rows above `row`, and each row below `row` shortened
/// by one cell.
fn left_by_hook(alloc: Global, shape: &[u16], row: usize) -> Result<Partition, NoMemory>
    requires within { row < length shape.now }
    requires partition { IsPartition shape.now }
    requires low { size shape.now ≤ 20 }
    ensures { IfOk result (λ rest. rest
        ≡ take row shape.now ++ shortened (drop (row + 1) shape.now)) }
{
    let mut parts = Vec::with_capacity(alloc, shape.len())?;
    parts.extend_from_slice(&shape[..row])?;
    for part in &shape[row + 1..] {
        parts.push(part.saturating_sub(1))?;
    }
    Partition::from_valid_numbers(alloc, &parts)
}

/// d! times the Schur polynomial of `shape`, or of its conjugate if `family` is e, as a list of
/// terms in the target basis, with d the number of cells of `shape`. The list `lists[k]` must be
/// that of k!·h_k, or of k!·e_k if `family` is e. For the empty shape the result is 1. Otherwise it
/// is a sum over the special rim hooks of `shape`: for a hook of k cells, the product of its sign,
/// the binomial coefficient d!/(k!·(d-k)!), `lists[k]` and the list of the remaining shape.
#[cycle(peeling)]
fn list_of(
    alloc: Global,
    target: Family,
    family: Family,
    lists: &[Whole],
    store: &mut Lists<Whole>,
    shape: &[u16],
) -> Result<Whole, SumFault>
    requires hooks { family ≢ Family.PowerSum }
    requires lists { AreFactors (polynomial_of target) family (length lists.now) lists.now }
    requires store { AreSchurLists (polynomial_of target) family store.old.entries }
    requires partition { IsPartition shape.now }
    requires low { size shape.now ≤ 20 }
    requires enough { columns shape.now + length shape.now ≤ length lists.now }
    ensures value { IfOk result (IsSchurList (polynomial_of target) family shape.now) }
    ensures table { IfOk result IsWholeTable }
    ensures store { OnOk result (AreSchurLists (polynomial_of target) family store.new.entries) }
    ensures large { IsErrOf result SumFault.Large → 2 ^ 127 ≤ growth completes (size shape.now) }
{
    if shape.is_empty() {
        return single(alloc, &[], 1);
    }
    let mut sum = Lin::new(alloc);
    for row in 0..shape.len() {
        let below = (shape.len() - 1 - row) as u16;
        let rest = left_by_hook(alloc, shape, row)?;
        let size = rest.size();
        let at = index_of(alloc, target, family, lists, store, rest)?;
        let cells = shape[row] + below;
        let ways = signed(below, binomial(cells, size));
        let (_, list) = list_at(store, at);
        add_products(alloc, &mut sum, &lists[usize::from(cells)], ways, list)?;
    }
    Ok(sum)
}

/// The index in `store` of the list of `shape`, which is computed and stored if it is not there
/// yet.
#[cycle(peeling)]
fn index_of(
    alloc: Global,
    target: Family,
    family: Family,
    lists: &[Whole],
    store: &mut Lists<Whole>,
    shape: Partition,
) -> Result<usize, SumFault>
    requires hooks { family ≢ Family.PowerSum }
    requires lists { AreFactors (polynomial_of target) family (length lists.now) lists.now }
    requires store { AreSchurLists (polynomial_of target) family store.old.entries }
    requires low { size shape ≤ 20 }
    requires enough { columns shape + length shape ≤ length lists.now }
    ensures index { IfOk result (StandsAt store.new.entries shape) }
    ensures store { OnOk result (AreSchurLists (polynomial_of target) family store.new.entries) }
    ensures large { IsErrOf result SumFault.Large → 2 ^ 127 ≤ growth completes (size shape) }
{
    if let Some(at) = place_of(store, &shape) {
        return Ok(at);
    }
    let list = list_of(alloc, target, family, lists, store, shape.parts())?;
    Ok(keep(store, shape, list)?)
}

/// d! times the Schur polynomial of `shape` if `family` is h, and of the conjugate of `shape` if
/// `family` is e, as a list of terms in the target basis, with d the number of cells of `shape`. It
/// is computed by the special rim hooks of `shape`: a hook of k cells gives the factor h_k or e_k.
/// Returns `Large` only if d!·(2d)^d is 2^127 or more.
pub(crate) fn schur_list(
    alloc: Global,
    target: Family,
    family: Family,
    shape: &Partition,
) -> Result<Whole, SumFault>
    requires hooks { family ≢ Family.PowerSum }
    requires low { size shape.now ≤ 20 }
    ensures value { IfOk result (IsSchurList (polynomial_of target) family shape.now) }
    ensures table { IfOk result IsWholeTable }
    ensures large { IsErrOf result SumFault.Large → 2 ^ 127 ≤ growth completes (size shape.now) }
{
    let longest = (shape.part(1) + shape.rows()).saturating_sub(1);
    let lists = factor_lists(alloc, target, family, longest)?;
    let mut store = IndexMap::new(alloc);
    list_of(
        alloc,
        target,
        family,
        lists.as_slice(),
        &mut store,
        shape.parts(),
    )
}
