//! The expansions of p_k, k!·e_k and k!·h_k in the bases e, h and p.
ghost use Rattle.std.specs.Prelude.{◌≡◌, ◌≢◌, ◌+◌, ◌<◌, ◌≤◌, pos, [], vec_len, IfOk, IsErrOf};
ghost use Rattle.sparse_polys.specs.Families.{polynomial_of};
ghost use Rattle.family_lists.specs.FactorLists.{AreFactors, ArePowers, IsFactor};
ghost use Rattle.family_lists.specs.FactorLists.{over_number};

use crate::coefficients::{coefficient, signed};
use calc_base::{Lister, SumFault};
use coeff_rings::{Int, Scalar, factorial};
use linear_combinations::Lin;
use partitions::{Partition, PartitionsOf};
use sparse_polys::{Family, Whole, single};
use std::alloc::Global;

/// The factor that clears the fractions if e_k, h_k or p_k (`family` says which) is expanded in e,
/// h or p: k! for e_k and h_k, 1 for p_k.
fn over(family: Family, k: u16) -> Int
    requires { k ≤ 20 }
    ensures { result ≡ pos (over_number family k) }
{
    match family {
        Family::PowerSum => Int::new(1),
        Family::Elementary => signed(0, factorial(k)),
        Family::Complete => signed(0, factorial(k)),
    }
}

/// The list of p_k, k!·e_k or k!·h_k (`family` says which) in the basis of `family` itself: one
/// term with the label (k).
fn own_list(alloc: Global, family: Family, k: u16) -> Result<Whole, SumFault>
    requires { (0 < k) × (k ≤ 20) }
    ensures value { IfOk result (IsFactor (polynomial_of family) family k) }
    ensures small { ¬ IsErrOf result SumFault.Large }
{
    single(alloc, &[k], over(family, k).get())
}

/// The list of p_k, k!·e_k or k!·h_k (`family` says which) in another one of the bases e, h and p,
/// that of `target`, by closed formulas for the coefficients at the partitions of k.
fn closed_list(alloc: Global, target: Family, family: Family, k: u16) -> Result<Whole, SumFault>
    requires other { target ≢ family }
    requires low { (0 < k) × (k ≤ 20) }
    ensures value { IfOk result (IsFactor (polynomial_of target) family k) }
    ensures small { ¬ IsErrOf result SumFault.Large }
{
    let mut labels = PartitionsOf::new(alloc, k)?;
    let mut list = Lin::new(alloc);
    while labels.advance() {
        let label = Partition::from_valid_parts(alloc, labels.current())?;
        let c = coefficient(target, family, &label);
        list.add_term(label, c)?;
    }
    Ok(list)
}

/// The list of p_k, k!·e_k or k!·h_k (`family` says which) in the basis e, h or p of `target`, for
/// k of at most 20; the empty list for k = 0. `Large` is never returned.
///
/// Example: 2!·h_2 in p is p_1^2 + p_2.
pub fn factor_list(alloc: Global, target: Family, family: Family, k: u16) -> Result<Whole, SumFault>
    requires { k ≤ 20 }
    ensures value { IfOk result (λ list. 0 < k → IsFactor (polynomial_of target) family k list) }
    ensures nothing { IfOk result (λ list. k ≡ 0 → list ≡ []) }
    ensures small { ¬ IsErrOf result SumFault.Large }
{
    if k == 0 {
        return Ok(Lin::new(alloc));
    }
    if target == family {
        return own_list(alloc, family, k);
    }
    closed_list(alloc, target, family, k)
}

/// The lists of `factor_list` for k = 1, .., d, the list for k at the index k; the list at index 0
/// is empty.
fn lists_up_to(
    alloc: Global,
    target: Family,
    family: Family,
    d: u16,
) -> Result<Vec<Whole>, SumFault>
    requires { d ≤ 20 }
    ensures length { IfOk result (λ lists. vec_len lists ≡ d + 1) }
    ensures ok { IfOk result (λ lists.
        AreFactors (polynomial_of target) family (d + 1) lists.items) }
    ensures small { ¬ IsErrOf result SumFault.Large }
{
    let mut lists = Vec::with_capacity(alloc, usize::from(d) + 1)?;
    for k in 0..d + 1 {
        let next = factor_list(alloc, target, family, k)?;
        lists.push(next)?;
    }
    Ok(lists)
}

/// The lists of p_1, .., p_d in the basis e, h or p of `target`, the list of p_k at the index k,
/// for d of at most 20. `Large` is never returned.
pub fn power_sums(alloc: Global, target: Family, d: u16) -> Result<Vec<Whole>, SumFault>
    requires { d ≤ 20 }
    ensures length { IfOk result (λ lists. vec_len lists ≡ d + 1) }
    ensures ok { IfOk result (λ lists. ArePowers (polynomial_of target) (d + 1) lists.items) }
    ensures small { ¬ IsErrOf result SumFault.Large }
{
    lists_up_to(alloc, target, Family::PowerSum, d)
}

/// The lists of `factor_list` for k = 1, .., d, the list for k at the index k, for d of at most 20.
pub fn factor_lists(
    alloc: Global,
    target: Family,
    family: Family,
    d: u16,
) -> Result<Vec<Whole>, SumFault>
    requires { d ≤ 20 }
    ensures length { IfOk result (λ lists. vec_len lists ≡ d + 1) }
    ensures ok { IfOk result (λ lists.
        AreFactors (polynomial_of target) family (d + 1) lists.items) }
    ensures small { ¬ IsErrOf result SumFault.Large }
{
    lists_up_to(alloc, target, family, d)
}
